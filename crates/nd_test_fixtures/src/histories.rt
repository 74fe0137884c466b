//! The histories of the worked examples.

/// The first line of a history's text.
pub const VERSION_1: &str = "nix-dispatch-history 1\n";

/// The first line of a history's text with drains, and of a journal.
pub const VERSION_2: &str = "nix-dispatch-history 2\n";

/// The text of the stored run's history: a chain of three on one slot.
pub const STORED: &str = "\
    nix-dispatch-history 1\n\
    chosen 0 1 0\n\
    started 0 /nix/store/pppppppppppppppppppppppppppppppp-s1\n\
    built 0 o\n\
    chosen 1 1 0\n\
    started 1\n\
    built 1 o\n\
    chosen 2 1 0\n\
    started 2\n\
    built 2 o\n";

/// The entries of three derivations on two machines, the first of which is drained, enabled, down and
/// enabled again.
pub const DRAINS: &str = "\
    chosen 0 1 0\n\
    chosen 1 2 0\n\
    drain 1\n\
    started 0\n\
    built 0 o\n\
    enable 1\n\
    chosen 2 1 0\n\
    down 2\n\
    enable 1\n\
    chosen 2 1 0\n\
    started 2\n\
    built 2 o\n";

/// The entries of a derivation whose first lease is given back, and whose second one is after a stop.
pub const STOPPED: &str = "\
    chosen 0 1 0\n\
    down 0\n\
    chosen 0 2 0\n\
    stop\n\
    down 0\n";
