//! The worked examples of simulations: what is written of a script, and the exit status.

use crate::tests::running::{Outcome, comes_to};
use nd_test_fixtures::examples;
use nd_test_fixtures::histories::{DRAINS, STOPPED};

/// A builder with its one slot taken: the hook says later where nothing is free, and no where a local slot is.
#[test]
fn wait_or_decline(rt: HostRuntime) {
    let later = Outcome {
        answers: &["chosen 0 1 0\n# postpone\n"],
        machines: &["up 0/0 local", "up 1/1 ssh://m"],
        drvs: &["leased", "waiting"],
        status: 0,
    };
    assert!(rt; comes_to(&rt, &examples::WAITING, &later));
    let no = Outcome {
        answers: &["chosen 0 1 0\nchosen 1 0 0\n# decline\n"],
        machines: &["up 1/2 local", "up 1/1 ssh://m"],
        drvs: &["leased", "leased"],
        status: 0,
    };
    assert!(rt; comes_to(&rt, &examples::DECLINING, &no));
}

/// A derivation that prefers the local machine waits for it; the hook accepts it elsewhere.
#[test]
fn prefer_local(rt: HostRuntime) {
    let outcome = Outcome {
        answers: &["chosen 0 0 0\n# accept\nssh://m\n"],
        machines: &["up 1/1 local", "up 0/1 ssh://m"],
        drvs: &["leased", "waiting"],
        status: 0,
    };
    assert!(rt; comes_to(&rt, &examples::PREFERRING, &outcome));
}

/// Inputs first, on two slots; commands that come too early or twice are refused.
#[test]
fn diamond_builds(rt: HostRuntime) {
    let outcome = Outcome {
        answers: &[
            "\
            chosen 0 1 0\n\
            refused NotStarted\n\
            refused NotLive\n\
            started 0\n\
            refused AlreadyStarted\n\
            built 0 o\n\
            chosen 1 1 0\n\
            chosen 2 1 1\n\
            started 1\n\
            started 2\n\
            built 1 o\n\
            built 2 o\n\
            chosen 3 1 0\n\
            chosen 4 1 1\n\
            started 3\n\
            built 3 o\n\
            started 4\n\
            built 4 o\n",
        ],
        machines: &["up 0/0 local", "up 0/2 ssh://m"],
        drvs: &["built", "built", "built", "built", "built"],
        status: 0,
    };
    assert!(rt; comes_to(&rt, &examples::BUILDING, &outcome));
}

/// Without keep-going the word that nothing can build one derivation cancels the other.
#[test]
fn no_builder_cancels(rt: HostRuntime) {
    let outcome = Outcome {
        answers: &["nobuilder 0\n"],
        machines: &["up 0/0 local", "up 0/1 ssh://m"],
        drvs: &["failed", "cancelled"],
        status: 1,
    };
    assert!(rt; comes_to(&rt, &examples::NO_BUILDER, &outcome));
}

/// What is written of the diamond up to the end of the two derivations in its middle, one of which fails.
const HALF_BUILT: &str = "\
    chosen 0 1 0\n\
    started 0\n\
    built 0 o\n\
    chosen 1 1 0\n\
    chosen 2 1 1\n\
    started 1\n\
    started 2\n\
    failed 1 status 1\n\
    built 2 o\n";

/// With keep-going what doesn't depend on a failure goes on.
#[test]
fn keep_going(rt: HostRuntime) {
    let outcome = Outcome {
        answers: &[HALF_BUILT, "chosen 4 1 0\nstarted 4\nbuilt 4 o\n"],
        machines: &["up 0/0 local", "up 0/2 ssh://m"],
        drvs: &["built", "failed", "built", "cancelled", "built"],
        status: 1,
    };
    assert!(rt; comes_to(&rt, &examples::KEEPING_GOING, &outcome));
}

/// Without keep-going what waits is cancelled, and what is leased goes on.
#[test]
fn without_keep_going(rt: HostRuntime) {
    let outcome = Outcome {
        answers: &[HALF_BUILT, "refused NotLive\nrefused NotLive\n"],
        machines: &["up 0/0 local", "up 0/2 ssh://m"],
        drvs: &["built", "failed", "built", "cancelled", "cancelled"],
        status: 1,
    };
    assert!(rt; comes_to(&rt, &examples::FAILING, &outcome));
}

/// A builder that can't be reached is down; with the last one down nothing can build the derivation.
#[test]
fn down_then_none(rt: HostRuntime) {
    let outcome = Outcome {
        answers: &["chosen 0 1 0\ndown 0\nchosen 0 2 0\ndown 0\nnobuilder 0\n"],
        machines: &["up 0/0 local", "down 0/1 ssh://m", "down 0/1 ssh://n"],
        drvs: &["failed"],
        status: 1,
    };
    assert!(rt; comes_to(&rt, &examples::DOWN, &outcome));
}

/// A lease that is given back after a stop is cancelled. A second stop is refused.
#[test]
fn down_after_a_stop(rt: HostRuntime) {
    let outcome = Outcome {
        answers: &[STOPPED, "refused AlreadyStopped\n"],
        machines: &["up 0/0 local", "down 0/1 ssh://m", "down 0/1 ssh://n"],
        drvs: &["cancelled"],
        status: 1,
    };
    assert!(rt; comes_to(&rt, &examples::STOPPING, &outcome));
}

/// What is written of two starts that copy, and of those that are refused.
const COPIED: &str = "\
    chosen 0 1 0\n\
    chosen 1 1 1\n\
    refused Uncovered\n\
    started 0 /nix/store/pppppppppppppppppppppppppppppppp-s1 /nix/store/qqqqqqqqqqqqqqqqqqqqqqqqqqqqqqqq-s2\n\
    refused Extra\n\
    started 1 /nix/store/pppppppppppppppppppppppppppppppp-s1 /nix/store/rrrrrrrrrrrrrrrrrrrrrrrrrrrrrrrr-s3\n\
    refused AlreadyStarted\n";

/// What another lease copies isn't held before it starts.
#[test]
fn copies_in_flight(rt: HostRuntime) {
    let outcome = Outcome {
        answers: &[COPIED],
        machines: &["up 0/0 local", "up 2/2 ssh://m"],
        drvs: &["leased", "leased"],
        status: 0,
    };
    assert!(rt; comes_to(&rt, &examples::COPYING, &outcome));
}

/// A reference from outside, a started lease given back, and a second end are refused.
#[test]
fn bad_endings(rt: HostRuntime) {
    let ends =
        "refused BadReferences\nrefused AlreadyStarted\nfailed 0 status 3\nrefused NotLive\n";
    let outcome = Outcome {
        answers: &[COPIED, ends],
        machines: &["up 0/0 local", "up 1/2 ssh://m"],
        drvs: &["failed", "leased"],
        status: 1,
    };
    assert!(rt; comes_to(&rt, &examples::ENDING_BADLY, &outcome));
}

/// Of two builds of one path the first decides its references.
#[test]
fn shared_output(rt: HostRuntime) {
    let outcome = Outcome {
        answers: &[
            "\
            chosen 0 1 0\n\
            chosen 1 1 1\n\
            started 0 /nix/store/pppppppppppppppppppppppppppppppp-s1\n\
            started 1 /nix/store/qqqqqqqqqqqqqqqqqqqqqqqqqqqqqqqq-s2\n\
            built 0 o /nix/store/pppppppppppppppppppppppppppppppp-s1\n\
            chosen 2 1 0\n\
            built 1 o /nix/store/qqqqqqqqqqqqqqqqqqqqqqqqqqqqqqqq-s2\n\
            refused Extra\n\
            started 2\n",
        ],
        machines: &["up 0/0 local", "up 1/3 ssh://m"],
        drvs: &["built", "built", "leased"],
        status: 0,
    };
    assert!(rt; comes_to(&rt, &examples::SHARING, &outcome));
}

/// What the info text lists for a source is copied with it.
#[test]
fn info_references(rt: HostRuntime) {
    let outcome = Outcome {
        answers: &[
            "\
            chosen 0 1 0\n\
            refused NotStarted\n\
            started 0 /nix/store/pppppppppppppppppppppppppppppppp-s1 /nix/store/qqqqqqqqqqqqqqqqqqqqqqqqqqqqqqqq-s2\n",
        ],
        machines: &["up 0/0 local", "up 1/1 ssh://m"],
        drvs: &["leased"],
        status: 0,
    };
    assert!(rt; comes_to(&rt, &examples::REFERRING, &outcome));
}

/// An `enable` undoes a `drain` and a `down` alike.
#[test]
fn drain_and_enable(rt: HostRuntime) {
    let outcome = Outcome {
        answers: &[DRAINS],
        machines: &["up 0/0 local", "up 0/1 ssh://m", "up 1/1 ssh://n"],
        drvs: &["built", "leased", "built"],
        status: 0,
    };
    assert!(rt; comes_to(&rt, &examples::DRAINING, &outcome));
}

/// With the local machine drained nothing can build the second derivation; the first one's lease goes on.
#[test]
fn drained_local(rt: HostRuntime) {
    let outcome = Outcome {
        answers: &["chosen 0 0 0\ndrain 0\nnobuilder 1\n"],
        machines: &["down 1/1 local"],
        drvs: &["leased", "failed"],
        status: 1,
    };
    assert!(rt; comes_to(&rt, &examples::DRAINING_LOCAL, &outcome));
}

/// A bundle of no bytes is an empty graph; inputs may stand on later lines.
#[test]
fn bundle_faults(rt: HostRuntime) {
    let empty = Outcome {
        answers: &[],
        machines: &["up 0/0 local", "up 0/1 ssh://m"],
        drvs: &[],
        status: 0,
    };
    assert!(rt; comes_to(&rt, &examples::EMPTY, &empty));
    let turned = Outcome {
        answers: &["chosen 1 1 0\n"],
        machines: &["up 0/0 local", "up 1/1 ssh://m"],
        drvs: &["waiting", "leased"],
        status: 0,
    };
    assert!(rt; comes_to(&rt, &examples::TURNED, &turned));
}

/// The preference and the features of structured attributes.
#[test]
fn structured_attributes(rt: HostRuntime) {
    let outcome = Outcome {
        answers: &["chosen 0 0 0\n"],
        machines: &["up 1/1 local", "up 0/1 ssh://m"],
        drvs: &["leased"],
        status: 0,
    };
    assert!(rt; comes_to(&rt, &examples::STRUCTURED_ATTRIBUTES, &outcome));
}
