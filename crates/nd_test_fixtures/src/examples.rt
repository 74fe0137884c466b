//! The worked examples of scripts, each with what it is over.

use crate::bundles::{
    DIAMOND, FLIGHT, LATER, PLAIN_1, PLAIN_2, PLAIN_3, PREFER_2, SHARED, SOURCE_1, STRUCTURED,
};
use crate::places::{NOWHERE, Place};

/// A worked example.
#[derive(Clone, Copy, Debug)]
pub struct Example<'a> {
    /// What it is over.
    pub place: Place<'a>,
    /// Its script, in parts. The last line may have no newline.
    pub script: &'a [&'a str],
}

/// Two derivations, and a builder with one slot.
const ONE_SLOT: Place<'static> = Place {
    bundle: PLAIN_2,
    builders: "m",
    ..NOWHERE
};

/// Two derivations and a builder with one slot, which is taken.
pub const WAITING: Example<'static> = Example {
    place: ONE_SLOT,
    script: &["ask 1"],
};

/// The same beside a local slot that is free.
pub const DECLINING: Example<'static> = Example {
    place: Place {
        jobs: 2,
        ..ONE_SLOT
    },
    ..WAITING
};

/// Two derivations that prefer the local machine, which has one slot.
pub const PREFERRING: Example<'static> = Example {
    place: Place {
        bundle: PREFER_2,
        builders: "m",
        jobs: 1,
        ..NOWHERE
    },
    script: &["ask 1"],
};

/// A diamond, and a builder with two slots.
pub const TWO_SLOTS: Place<'static> = Place {
    bundle: DIAMOND,
    builders: "m - - 2",
    ..NOWHERE
};

/// A diamond on two slots, built, with commands that come too early or twice.
pub const BUILDING: Example<'static> = Example {
    place: TWO_SLOTS,
    script: &[
        "\
        built 0\n\
        start 3\n\
        start 0\n\
        start 0\n\
        built 0\n\
        start 1\n\
        start 2\n\
        built 1\n\
        built 2\n\
        start 3\n\
        built 3\n\
        start 4\n\
        built 4\n",
    ],
};

/// The diamond, of which one derivation fails.
pub const FAILING: Example<'static> = Example {
    script: &[
        "\
        start 0\n\
        built 0\n\
        start 1\n\
        start 2\n\
        fail 1 1\n\
        built 2\n\
        start 4\n\
        built 4\n",
    ],
    ..BUILDING
};

/// The same, and what doesn't depend on it goes on.
pub const KEEPING_GOING: Example<'static> = Example {
    place: Place {
        keep_going: true,
        ..TWO_SLOTS
    },
    ..FAILING
};

/// Two derivations that the one builder can't build.
pub const NO_BUILDER: Example<'static> = Example {
    place: Place {
        bundle: PLAIN_2,
        builders: "m aarch64-linux",
        ..NOWHERE
    },
    script: &[],
};

/// One derivation and two builders, neither of which can be reached.
pub const DOWN: Example<'static> = Example {
    place: Place {
        bundle: PLAIN_1,
        builders: "m;n",
        ..NOWHERE
    },
    script: &["down 0\ndown 0\n"],
};

/// The same, with a stop before the second lease is given back, and one behind it.
pub const STOPPING: Example<'static> = Example {
    script: &["down 0\nstop\ndown 0\nstop\n"],
    ..DOWN
};

/// What is copied for two leases at once.
const COPIES: &str = "\
    startwith 1 /nix/store/rrrrrrrrrrrrrrrrrrrrrrrrrrrrrrrr-s3\n\
    startwith 0 /nix/store/pppppppppppppppppppppppppppppppp-s1 /nix/store/qqqqqqqqqqqqqqqqqqqqqqqqqqqqqqqq-s2\n\
    startwith 1 /nix/store/pppppppppppppppppppppppppppppppp-s1 /nix/store/qqqqqqqqqqqqqqqqqqqqqqqqqqqqqqqq-s2 /nix/store/rrrrrrrrrrrrrrrrrrrrrrrrrrrrrrrr-s3\n\
    startwith 1 /nix/store/pppppppppppppppppppppppppppppppp-s1 /nix/store/rrrrrrrrrrrrrrrrrrrrrrrrrrrrrrrr-s3\n\
    start 1\n";

/// Two derivations with a source in common, on one machine, and what is copied for each.
pub const COPYING: Example<'static> = Example {
    place: Place {
        bundle: FLIGHT,
        builders: "m - - 2",
        ..NOWHERE
    },
    script: &[COPIES],
};

/// The same, and ends that are refused: a reference from outside, a started lease given back, a second end.
pub const ENDING_BADLY: Example<'static> = Example {
    script: &[
        COPIES,
        "built 0 o /nix/store/rrrrrrrrrrrrrrrrrrrrrrrrrrrrrrrr-s3\ndown 0\nfail 0 3\nfail 0 3\n",
    ],
    ..COPYING
};

/// Two builds of one path, whose references differ.
pub const SHARING: Example<'static> = Example {
    place: Place {
        bundle: SHARED,
        builders: "m - - 3",
        ..NOWHERE
    },
    script: &[
        "\
        start 0\n\
        start 1\n\
        built 0 o /nix/store/pppppppppppppppppppppppppppppppp-s1\n\
        built 1 o /nix/store/qqqqqqqqqqqqqqqqqqqqqqqqqqqqqqqq-s2\n\
        startwith 2 /nix/store/qqqqqqqqqqqqqqqqqqqqqqqqqqqqqqqq-s2\n\
        start 2\n",
    ],
};

/// A source with a reference, by the info text.
pub const REFERRING: Example<'static> = Example {
    place: Place {
        bundle: SOURCE_1,
        builders: "m",
        info: "/nix/store/pppppppppppppppppppppppppppppppp-s1 /nix/store/qqqqqqqqqqqqqqqqqqqqqqqqqqqqqqqq-s2",
        ..NOWHERE
    },
    script: &["built 0\nstart 0\n"],
};

/// Three derivations on two machines, the first of which is drained, enabled, down and enabled again.
pub const DRAINING: Example<'static> = Example {
    place: Place {
        bundle: PLAIN_3,
        builders: "m;n",
        ..NOWHERE
    },
    script: &["drain 1\nstart 0\nbuilt 0\nenable 1\ndown 2\nenable 1\nstart 2\nbuilt 2\n"],
};

/// Two derivations on the local machine, which is drained.
pub const DRAINING_LOCAL: Example<'static> = Example {
    place: Place {
        bundle: PLAIN_2,
        jobs: 1,
        ..NOWHERE
    },
    script: &["drain 0"],
};

/// A bundle of no bytes.
pub const EMPTY: Example<'static> = Example {
    place: Place {
        builders: "m",
        ..NOWHERE
    },
    script: &[],
};

/// A derivation whose input stands on a later line.
pub const TURNED: Example<'static> = Example {
    place: Place {
        bundle: LATER,
        builders: "m",
        ..NOWHERE
    },
    script: &[],
};

/// A derivation whose structured attributes have a preference and a feature, which both machines have.
pub const STRUCTURED_ATTRIBUTES: Example<'static> = Example {
    place: Place {
        bundle: STRUCTURED,
        builders: "m - - 1 1 kvm",
        jobs: 1,
        features: "kvm",
        ..NOWHERE
    },
    script: &[],
};
