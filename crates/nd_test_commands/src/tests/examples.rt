//! The worked examples of replies, bundles and paths.

use crate::tests::asking::{
    Park, Want, asks, asks_of, builders, builders_alone, path_answers, path_of,
};
use nd_cli::{CliFault, Place};
use nd_test_fixtures::bundles::{
    END, JSON, JSON_END, N0, N0_LINE, N0_ON, N0_TEXT, N1_ON, NEEDS_N0, NEEDS_N1, joined,
};
use nd_test_fixtures::printing::is_printed;
use std::alloc::Global;
use std::thread::Threads;

/// The reply for one derivation that the builder `m` is to build.
const ON_M: Want<'static> = Want::Written(b"# accept\nssh://m\n");

/// The reply for one derivation that is to be built elsewhere.
const DECLINED: Want<'static> = Want::Written(b"# decline\n");

#[test]
fn idle_replies(rt: HostRuntime) {
    let alloc = rt.alloc();
    let none = Want::Written(b"# decline-permanently\n");
    assert!(rt; asks(&rt, alloc, builders(b""), N0_LINE, none));
    assert!(rt; asks(&rt, alloc, builders(b"m aarch64-linux"), N0_LINE, DECLINED));
    assert!(rt; asks(&rt, alloc, builders(b"m"), N0_LINE, ON_M));
}

#[test]
fn earliest_of_equals(rt: HostRuntime) {
    let alloc = rt.alloc();
    assert!(rt; asks(&rt, alloc, builders_alone(b"m - - 0"), N0_LINE, DECLINED));
    assert!(rt; asks(&rt, alloc, builders_alone(b"m;n"), N0_LINE, ON_M));
}

#[test]
fn bundle_faults(rt: HostRuntime) {
    let alloc = rt.alloc();
    assert!(rt; asks_of(&rt, alloc, &[], Want::Written(b"")));
    assert!(rt; are_line_faults(&rt, alloc));
    assert!(rt; are_text_faults(&rt, alloc));
    assert!(rt; are_whole_faults(&rt, alloc));
    assert!(rt; are_input_faults(&rt, alloc));
}

/// Lines that are cut wrongly, and paths that are none of a derivation.
fn are_line_faults<R: Threads + Sync>(rt: &R, alloc: Global) -> bool {
    let first = Want::Refused("nix-dispatch: drvs: BadLine 1");
    let third = Want::Refused("nix-dispatch: drvs: BadLine 3");
    let path = Want::Refused("nix-dispatch: drvs: BadPath 1");
    let not_drv = b"/nix/store/00000000000000000000000000000000-n0 ".as_slice();
    asks_of(rt, alloc, &[N0], first)
        && asks_of(rt, alloc, &[N1_ON, END, N1_ON, END, b"\n"], third)
        && asks_of(rt, alloc, &[not_drv, N0_TEXT], path)
}

/// Texts that are no derivation's, or have an output that isn't known.
fn are_text_faults<R: Threads + Sync>(rt: &R, alloc: Global) -> bool {
    let text = Want::Refused("nix-dispatch: drvs: BadDerivation 1");
    let output = Want::Refused("nix-dispatch: drvs: UnknownOutput 1");
    let source = b"],[\"x\"],\"x86_64-linux\",\"/bin/sh\",[],[])\n".as_slice();
    let unknown =
        b" Derive([(\"out\",\"\",\"\",\"\")],[],[],\"x86_64-linux\",\"/bin/sh\",[],[])".as_slice();
    asks_of(rt, alloc, &[N0, b"  ", N0_TEXT], text)
        && asks_of(rt, alloc, &[N0_ON, source], text)
        && asks_of(rt, alloc, &[N0, unknown], output)
}

/// Lines that are no graph together.
fn are_whole_faults<R: Threads + Sync>(rt: &R, alloc: Global) -> bool {
    let cycle = Want::Refused("nix-dispatch: drvs: Cycle");
    let twice = Want::Refused("nix-dispatch: drvs: Duplicate 2");
    let missing = Want::Refused("nix-dispatch: drvs: MissingInput 1");
    asks_of(
        rt,
        alloc,
        &[N0_ON, NEEDS_N1, END, N1_ON, NEEDS_N0, END],
        cycle,
    ) && asks_of(rt, alloc, &[N0_LINE, N0_LINE], twice)
        && asks_of(rt, alloc, &[N0_ON, NEEDS_N1, END], missing)
}

/// Outputs that are named of an input.
fn are_input_faults<R: Threads + Sync>(rt: &R, alloc: Global) -> bool {
    let output = Want::Refused("nix-dispatch: drvs: MissingOutput 2");
    let taken = Want::Written(b"# accept\nssh://m\n# accept\nssh://m\n");
    let dev = b"(\"/nix/store/00000000000000000000000000000000-n0.drv\",[\"dev\"])".as_slice();
    let none = b"(\"/nix/store/00000000000000000000000000000000-n0.drv\",[])".as_slice();
    asks_of(rt, alloc, &[N0_LINE, N1_ON, dev, END], output)
        && asks_of(rt, alloc, &[N0_LINE, N1_ON, none, END], taken)
}

/// The one builder `m` and one local job, with checked paths.
const CHECKING: Park<'static> = Park {
    builders: b"m",
    jobs: 1,
    check_paths: true,
};

/// Whether `ask`, which checks paths, takes the line of node 0 under the path that was written, with a
/// newline. Want of memory is a no.
fn is_own_path<R: Threads + Sync>(rt: &R, alloc: Global, written: &[u8]) -> bool {
    let [path @ .., b'\n'] = written else {
        return false;
    };
    match joined(alloc, &[path, b" ", N0_TEXT]) {
        Ok(bundle) => asks(rt, alloc, CHECKING, bundle.as_slice(), ON_M),
        Err(_) => false,
    }
}

/// Whether it does so under the path that `path` writes. Want of memory is a no.
fn is_path_taken<R: Threads + Sync>(rt: &R, alloc: Global) -> bool {
    match path_of(alloc, b"n0.drv", N0_TEXT) {
        Some(written) => is_own_path(rt, alloc, written.as_slice()),
        None => false,
    }
}

#[test]
fn checked_paths(rt: HostRuntime) {
    let alloc = rt.alloc();
    let wrong = Want::Refused("nix-dispatch: drvs: WrongPath 1");
    assert!(rt; asks(&rt, alloc, CHECKING, N0_LINE, wrong));
    assert!(rt; is_path_taken(&rt, alloc));
}

#[test]
fn path_faults(rt: HostRuntime) {
    let alloc = rt.alloc();
    let path = Want::Refused("nix-dispatch: derivation: BadPath");
    let text = Want::Refused("nix-dispatch: derivation: BadDerivation");
    assert!(rt; path_answers(alloc, b"n0", N0_TEXT, path));
    assert!(rt; path_answers(alloc, b"n0.drv", b"Derive()", text));
    assert!(rt; path_answers(alloc, b"n0", b"Derive()", path));
}

#[test]
fn builders_faults(rt: HostRuntime) {
    let alloc = rt.alloc();
    let uri = Want::Refused("nix-dispatch: builders: Uri 1");
    assert!(rt; asks(&rt, alloc, builders(b"- x86_64-linux"), N0_LINE, uri));
    let jobs = Want::Refused("nix-dispatch: builders: Jobs 2");
    assert!(rt; asks(&rt, alloc, builders(b"a;;b - - x"), N0_LINE, jobs));
    let bundle = Want::Refused("nix-dispatch: drvs: BadLine 1");
    assert!(rt; asks(&rt, alloc, builders(b"- x86_64-linux"), b"x", bundle));
}

/// Whether `ask` answers so for the line of node 0 with these structured attributes, as they stand in
/// the text, on a park with the one builder `m`. Want of memory is a no.
fn asks_json<R: Threads + Sync>(rt: &R, alloc: Global, json: &[u8], want: Want) -> bool {
    asks_of(rt, alloc, &[JSON, json, JSON_END], want)
}

/// Structured attributes that wish for a local build and for the feature `kvm`.
const WISHES: &[u8] =
    b"{\\\"preferLocalBuild\\\":true,\\\"requiredSystemFeatures\\\":[\\\"kvm\\\"]}";

/// Whether `ask` accepts for them on a builder with this feature. Want of memory is a no.
fn is_feature_found<R: Threads + Sync>(rt: &R, alloc: Global) -> bool {
    let park = builders(b"m - - 1 1 kvm");
    match joined(alloc, &[JSON, WISHES, JSON_END]) {
        Ok(bundle) => asks(rt, alloc, park, bundle.as_slice(), ON_M),
        Err(_) => false,
    }
}

#[test]
fn structured_attributes(rt: HostRuntime) {
    let alloc = rt.alloc();
    assert!(rt; is_feature_found(&rt, alloc));
    assert!(rt; asks_json(&rt, alloc, WISHES, DECLINED));
    assert!(rt; asks_json(&rt, alloc, b"{}", ON_M));
    let bad = Want::Refused("nix-dispatch: drvs: BadAttribute 1");
    for json in BAD_ATTRIBUTES {
        assert!(rt; asks_json(&rt, alloc, json, bad));
    }
}

/// Structured attributes that can't be read.
const BAD_ATTRIBUTES: &[&[u8]] = &[
    b"{",
    b"[]",
    b"{\\\"preferLocalBuild\\\":1}",
    b"{\\\"requiredSystemFeatures\\\":\\\"kvm\\\"}",
];

/// Whether a fault has this status and this line. Want of memory is a no.
fn is_line(alloc: Global, fault: CliFault, status: u8, line: &str) -> bool {
    let is_one = fault.status() == status && is_printed(alloc, &fault, line);
    drop(fault);
    is_one
}

#[test]
fn lines_of_faults(rt: HostRuntime) {
    let alloc = rt.alloc();
    let large = "nix-dispatch: script: TooLarge";
    assert!(rt; is_line(alloc, CliFault::TooLarge(Place::Script), 3, large));
    assert!(rt; is_line(alloc, CliFault::Read, 5, "nix-dispatch: read failed"));
    assert!(rt; is_line(alloc, CliFault::Write, 5, "nix-dispatch: write failed"));
    assert!(rt; is_line(alloc, CliFault::Memory, 5, "nix-dispatch: out of memory"));
    assert!(rt;
        is_line(
            alloc,
            CliFault::Thread,
            5,
            "nix-dispatch: thread not started"
        )
    );
    assert!(rt;
        is_line(
            alloc,
            CliFault::Receipts,
            5,
            "nix-dispatch: receipts differ"
        )
    );
}
