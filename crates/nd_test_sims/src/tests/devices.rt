//! Readers and writers that fail.

use crate::tests::running::{Call, Grants, Want, answers_on};
use nd_test_fixtures::bundles::PLAIN_1;
use nd_test_fixtures::places::park;
use std::alloc::Global;
use std::thread::Threads;

/// What `sim` writes of one derivation, for a builder and no command.
const SIMULATED: &str = "\
    chosen 0 1 0\n\
    total 1\n\
    waiting 0\n\
    leased 1\n\
    built 0\n\
    failed 0\n\
    cancelled 0\n\
    machine 0 up 0/0 local\n\
    machine 1 up 1/1 ssh://m\n\
    drv 0 leased /nix/store/00000000000000000000000000000000-n0.drv\n";

/// `sim` without a command.
const SIM: Call<'static> = Call::Sim(b"");

/// What `audit` writes.
const AUDITED: &str = "legal 1\n";

/// `audit` of a history that chooses a slot for the derivation.
const AUDIT: Call<'static> = Call::Audit(b"nix-dispatch-history 1\nchosen 0 1 0\n");

/// Whether a command answers so on devices that grant so much.
fn gives<R: Threads + Sync>(
    rt: &R,
    alloc: Global,
    call: Call<'_>,
    grants: Grants,
    want: Want<'_>,
) -> bool {
    let place = park(PLAIN_1, "m", 0);
    answers_on(rt, alloc, &place, PLAIN_1.as_bytes(), grants, call, want)
}

/// Whether a command is cut short by each write that fails, as far as its text takes writes.
fn is_cut<R: Threads + Sync>(rt: &R, alloc: Global, call: Call<'_>, text: &str) -> bool {
    for writes in 0..100 {
        let grants = Grants {
            writes,
            ..Grants::ALL
        };
        if !gives(rt, alloc, call, grants, Want::Cut(text)) {
            return gives(rt, alloc, call, grants, Want::Written(text, 0));
        }
    }
    false
}

#[test]
fn failing_readers(rt: HostRuntime) {
    for reads in 0..3 {
        let grants = Grants {
            reads,
            ..Grants::ALL
        };
        for call in [SIM, AUDIT] {
            assert!(rt; gives(&rt, rt.alloc(), call, grants, Want::Unread));
        }
    }
}

#[test]
fn failing_writers(rt: HostRuntime) {
    assert!(rt; is_cut(&rt, rt.alloc(), SIM, SIMULATED));
    assert!(rt; is_cut(&rt, rt.alloc(), AUDIT, AUDITED));
}

#[test]
fn refused_flushes(rt: HostRuntime) {
    let unflushed = Grants {
        refuses_flush: true,
        ..Grants::ALL
    };
    for (call, text) in [(SIM, SIMULATED), (AUDIT, AUDITED)] {
        assert!(rt; gives(&rt, rt.alloc(), call, unflushed, Want::Held(text)));
    }
}
