//! The worked examples of audits: a history, the verdict, and the exit status.

use crate::tests::running::{Want, audits};
use nd_test_fixtures::bundles::{CHAIN, FLIGHT, PLAIN_1, PLAIN_3, PREFER_2};
use nd_test_fixtures::histories::{DRAINS, STOPPED, STORED, VERSION_1, VERSION_2};
use nd_test_fixtures::places::park;

/// Another builder than the best, another slot than the least free one, and another machine than the preferred.
#[test]
fn illegal_choices(rt: HostRuntime) {
    for (place, choice, verdict) in [
        (
            park(PLAIN_1, "m;n", 0),
            "chosen 0 2 0\n",
            "illegal 0 Best\n",
        ),
        (
            park(PLAIN_1, "m - - 2", 0),
            "chosen 0 1 1\n",
            "illegal 0 Slot\n",
        ),
        (
            park(PREFER_2, "m", 1),
            "chosen 0 1 0\n",
            "illegal 0 Decision\n",
        ),
    ] {
        assert!(rt; audits(&rt, &place, &[VERSION_1, choice], Want::Written(verdict, 4)));
    }
}

/// A start without a lease, and numbers that are out of range.
#[test]
fn illegal_leases(rt: HostRuntime) {
    let two = park(PLAIN_1, "m;n", 0);
    for (version, entry, verdict) in [
        (VERSION_1, "started 0\n", "illegal 0 Live\n"),
        (VERSION_1, "down 1\n", "illegal 0 Range\n"),
        (VERSION_2, "drain 3\n", "illegal 0 Range\n"),
    ] {
        assert!(rt; audits(&rt, &two, &[version, entry], Want::Written(verdict, 4)));
    }
}

/// A second stop, and a choice after it.
#[test]
fn illegal_after_a_stop(rt: HostRuntime) {
    let two = park(PLAIN_1, "m;n", 0);
    for (entry, verdict, status) in [
        ("", "legal 5\n", 0),
        ("stop\n", "illegal 5 Stopped\n", 4),
        ("chosen 0 1 0\n", "illegal 5 Ready\n", 4),
    ] {
        let want = Want::Written(verdict, status);
        assert!(rt; audits(&rt, &two, &[VERSION_1, STOPPED, entry], want));
    }
}

/// Paths that are missing, an end without a start, and a list that is missing.
#[test]
fn illegal_copies_and_references(rt: HostRuntime) {
    let two_slots = park(FLIGHT, "m - - 2", 0);
    let started =
        "started 0 /nix/store/pppppppppppppppppppppppppppppppp-s1 /nix/store/qqqqqqqqqqqqqqqqqqqqqqqqqqqqqqqq-s2\nbuilt 0\n";
    for (entries, verdict) in [
        ("started 0\n", "illegal 1 Paths\n"),
        ("built 0 o\n", "illegal 1 Started\n"),
        (started, "illegal 2 References\n"),
    ] {
        let want = Want::Written(verdict, 4);
        assert!(rt;
            audits(
                &rt,
                &two_slots,
                &[VERSION_1, "chosen 0 1 0\n", entries],
                want
            )
        );
    }
}

/// A chain that is built, and a history with drains in the second version.
#[test]
fn legal_histories(rt: HostRuntime) {
    let chain = Want::Written("legal 9\n", 0);
    assert!(rt; audits(&rt, &park(CHAIN, "m", 0), &[STORED], chain));
    let drains = Want::Written("legal 12\n", 0);
    assert!(rt; audits(&rt, &park(PLAIN_3, "m;n", 0), &[VERSION_2, DRAINS], drains));
    let none = Want::Written("legal 0\n", 0);
    assert!(rt; audits(&rt, &park(PLAIN_1, "m", 0), &[VERSION_1], none));
}
