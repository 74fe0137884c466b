//! Runs whose journal refuses each of its calls in turn, and which are gone on from.

use crate::running::{Seen, run_in};
use nd_serve_command::ServeFault;
use nd_test_fixtures::bundles::PLAIN_2;
use nd_test_fixtures::places::{NOWHERE, Place};

/// Two derivations on one slot.
const PLACE: Place<'static> = Place {
    bundle: PLAIN_2,
    jobs: 1,
    ..NOWHERE
};

/// The journal of a whole run.
const WHOLE: &[u8] =
    b"nix-dispatch-history 2\nchosen 0 0 0\nstarted 0\nbuilt 0 o\nchosen 1 0 0\nstarted 1\nbuilt 1 o\n";

/// What is written of a whole run.
const WRITTEN: &[u8] =
    b"nix-dispatch-history 1\nchosen 0 0 0\nstarted 0\nbuilt 0 o\nchosen 1 0 0\nstarted 1\nbuilt 1 o\n";

/// Whether this is a run to its end, with the whole journal.
fn is_whole(seen: &Option<Seen>) -> bool {
    match seen {
        Some(
            Seen {
                answer: Ok(0),
                text,
                journal,
            },
        ) => text.as_slice() == WRITTEN && journal.as_slice() == WHOLE,
        _ => false,
    }
}

/// Whether this is a run whose journal failed.
fn is_failed(seen: &Seen) -> bool {
    match &seen.answer {
        Err(ServeFault::JournalFailed) => true,
        _ => false,
    }
}

/// A run to its end, in a new journal, and from each line of its journal on, the last one cut short. A journal that
/// holds something isn't gone on from without being asked.
#[test]
fn whole_runs(rt: HostRuntime) {
    let alloc = rt.alloc();
    let whole = run_in(&rt, alloc, PLACE, b"", false, usize::MAX);
    assert!(rt; is_whole(&whole));
    for end in 0..WHOLE.len() {
        let (cut, _) = WHOLE.split_at(end);
        let resumed = run_in(&rt, alloc, PLACE, cut, true, usize::MAX);
        assert!(rt; is_whole(&resumed));
    }
    let refused = run_in(&rt, alloc, PLACE, WHOLE, false, usize::MAX);
    assert!(rt; refused.is_none());
}

/// Each append and each sync refused in turn: the run ends so, and what its journal holds is gone on from to the
/// same end.
#[test]
fn each_call_refused(rt: HostRuntime) {
    let alloc = rt.alloc();
    for calls in 0..10 {
        let Some(stopped) = run_in(&rt, alloc, PLACE, b"", false, calls) else {
            assert!(rt; false);
            return;
        };
        assert!(rt; is_failed(&stopped));
        let resumed = run_in(
            &rt,
            alloc,
            PLACE,
            stopped.journal.as_slice(),
            true,
            usize::MAX,
        );
        assert!(rt; is_whole(&resumed));
    }
}
