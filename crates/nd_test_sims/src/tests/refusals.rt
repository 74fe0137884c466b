//! Scripts, histories and parks that are refused: the fault's line, status 3, and nothing written.

use crate::tests::running::{Want, audits, refuses};
use nd_test_fixtures::bundles::{CHAIN, CYCLE, PLAIN_1, PLAIN_3};
use nd_test_fixtures::histories::{DRAINS, STORED, VERSION_1};
use nd_test_fixtures::places::{Place, park};

/// A script is refused for its first bad line.
#[test]
fn bad_scripts(rt: HostRuntime) {
    let place = park(PLAIN_1, "m", 0);
    for (script, line) in [
        ("stop\n\nstop\n", "nix-dispatch: script: BadLine 2"),
        ("start 1", "nix-dispatch: script: BadLine 1"),
        ("drain 1\ndrain 2\n", "nix-dispatch: script: BadLine 2"),
        ("fail 0 256", "nix-dispatch: script: BadLine 1"),
        ("startwith 0 S1", "nix-dispatch: script: BadLine 1"),
    ] {
        assert!(rt; refuses(&rt, &place, script, line));
    }
}

/// The bundle is checked first, then the builders, the info text and the script.
#[test]
fn order_of_refusals(rt: HostRuntime) {
    for (bundle, builders, line) in [
        (CYCLE, "- x86_64-linux", "nix-dispatch: drvs: Cycle"),
        (PLAIN_1, "- x86_64-linux", "nix-dispatch: builders: Uri 1"),
        (PLAIN_1, "m", "nix-dispatch: info: BadLine 1"),
    ] {
        let place = Place {
            info: "\n",
            ..park(bundle, builders, 0)
        };
        assert!(rt; refuses(&rt, &place, "x", line));
    }
}

/// A history text is refused for its version and then for its first bad line; the park is checked before it.
#[test]
fn bad_histories(rt: HostRuntime) {
    let place = park(PLAIN_1, "m", 0);
    let uninformed = Place {
        info: "\n",
        ..place
    };
    let twice = "nix-dispatch-history 1\nchosen 0 1 0\nchosen 00 1 0\n";
    let cut = STORED.trim_end();
    for (place, history, line) in [
        (place, "", "nix-dispatch: history: Version"),
        (
            place,
            "nix-dispatch-history 3\n",
            "nix-dispatch: history: Version",
        ),
        (place, twice, "nix-dispatch: history: BadLine 3"),
        (
            park(CHAIN, "m", 0),
            cut,
            "nix-dispatch: history: BadLine 10",
        ),
        (uninformed, "", "nix-dispatch: info: BadLine 1"),
    ] {
        assert!(rt; audits(&rt, &place, &[history], Want::Refused(line)));
    }
    let drains = Want::Refused("nix-dispatch: history: BadLine 4");
    assert!(rt; audits(&rt, &park(PLAIN_3, "m;n", 0), &[VERSION_1, DRAINS], drains));
}
