//! What is accepted, and the first refusal.

use crate::tests::giving::{Words, given, is_refused};
use nd_script::Rule;
use nd_test_fixtures::bundles::PLAIN_1;
use std::alloc::Global;
use std::thread::Threads;

const WORDS: Words = Words {
    builders: "m",
    jobs: 0,
    info: "",
    stand: "lose 0\nnoconnect 1\n",
};

/// Whether `WORDS` give one derivation, one builder, no history and their two rules.
fn are_accepted<R: Threads + Sync>(rt: &R, alloc: Global) -> bool {
    let Ok(seen) = given(rt, alloc, &WORDS, PLAIN_1) else {
        return false;
    };
    if seen.sizes != (1, 1, 0) {
        return false;
    }
    matches!(seen.rules.as_slice(), [Rule::Lose(0), Rule::NoConnect(1)])
}

#[test]
fn accepted(rt: HostRuntime) {
    assert!(rt; are_accepted(&rt, rt.alloc()));
}

#[test]
fn first_refusals(rt: HostRuntime) {
    let alloc = rt.alloc();
    let all = Words {
        builders: "- x86_64-linux",
        jobs: 0,
        info: "\n",
        stand: "lose 1",
    };
    let later = Words {
        builders: "m",
        ..all
    };
    let last = Words { info: "", ..later };
    let drvs = given(&rt, alloc, &all, "x\n");
    assert!(rt; is_refused(alloc, drvs, "nix-dispatch: drvs: BadLine 1"));
    let builders = given(&rt, alloc, &all, PLAIN_1);
    assert!(rt; is_refused(alloc, builders, "nix-dispatch: builders: Uri 1"));
    let info = given(&rt, alloc, &later, PLAIN_1);
    assert!(rt; is_refused(alloc, info, "nix-dispatch: info: BadLine 1"));
    let stand = given(&rt, alloc, &last, PLAIN_1);
    assert!(rt; is_refused(alloc, stand, "nix-dispatch: stand: BadLine 1"));
}

#[test]
fn machines_of_a_stand_text(rt: HostRuntime) {
    let words = Words {
        stand: "noconnect 0\nnocopy 1\nnocopy 2\n",
        ..WORDS
    };
    let answer = given(&rt, rt.alloc(), &words, PLAIN_1);
    assert!(rt; is_refused(rt.alloc(), answer, "nix-dispatch: stand: BadLine 3"));
}
