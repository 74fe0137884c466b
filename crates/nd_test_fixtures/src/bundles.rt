//! The bundles of the worked examples, their sources and derivations, and the parts of their lines.

use std::alloc::{AllocError, Global};

/// The sources.
pub const S1: &str = "/nix/store/pppppppppppppppppppppppppppppppp-s1";

pub const S2: &str = "/nix/store/qqqqqqqqqqqqqqqqqqqqqqqqqqqqqqqq-s2";

pub const S3: &str = "/nix/store/rrrrrrrrrrrrrrrrrrrrrrrrrrrrrrrr-s3";

/// The derivations.
pub const DRVS: [&str; 5] = [
    "/nix/store/00000000000000000000000000000000-n0.drv",
    "/nix/store/11111111111111111111111111111111-n1.drv",
    "/nix/store/22222222222222222222222222222222-n2.drv",
    "/nix/store/33333333333333333333333333333333-n3.drv",
    "/nix/store/44444444444444444444444444444444-n4.drv",
];

/// The path of the derivation `n0`.
pub const N0: &[u8] = b"/nix/store/00000000000000000000000000000000-n0.drv";

/// The text of `n0`, with no inputs, no sources and no environment.
pub const N0_TEXT: &[u8] =
    b"Derive([(\"out\",\"/nix/store/aaaaaaaaaaaaaaaaaaaaaaaaaaaaaaaa-n0\",\"\",\"\")],[],[],\"x86_64-linux\",\"/bin/sh\",[],[])";

/// The line of `n0` with this text.
pub const N0_LINE: &[u8] =
    b"/nix/store/00000000000000000000000000000000-n0.drv Derive([(\"out\",\"/nix/store/aaaaaaaaaaaaaaaaaaaaaaaaaaaaaaaa-n0\",\"\",\"\")],[],[],\"x86_64-linux\",\"/bin/sh\",[],[])\n";

/// The line of `n0` up to its inputs.
pub const N0_ON: &[u8] =
    b"/nix/store/00000000000000000000000000000000-n0.drv Derive([(\"out\",\"/nix/store/aaaaaaaaaaaaaaaaaaaaaaaaaaaaaaaa-n0\",\"\",\"\")],[";

/// The line of `n1` up to its inputs.
pub const N1_ON: &[u8] =
    b"/nix/store/11111111111111111111111111111111-n1.drv Derive([(\"out\",\"/nix/store/bbbbbbbbbbbbbbbbbbbbbbbbbbbbbbbb-n1\",\"\",\"\")],[";

/// The input on `n0`.
pub const NEEDS_N0: &[u8] = b"(\"/nix/store/00000000000000000000000000000000-n0.drv\",[\"out\"])";

/// The input on an output of `n0` that it hasn't.
pub const NEEDS_DEV: &[u8] = b"(\"/nix/store/00000000000000000000000000000000-n0.drv\",[\"dev\"])";

/// The input on `n0`, of which no output is named.
pub const NEEDS_NONE: &[u8] = b"(\"/nix/store/00000000000000000000000000000000-n0.drv\",[])";

/// The input on `n1`.
pub const NEEDS_N1: &[u8] = b"(\"/nix/store/11111111111111111111111111111111-n1.drv\",[\"out\"])";

/// What stands behind the inputs of a line.
pub const END: &[u8] = b"],[],\"x86_64-linux\",\"/bin/sh\",[],[])\n";

/// The line of `n0`, up to the text of its structured attributes.
pub const JSON: &[u8] =
    b"/nix/store/00000000000000000000000000000000-n0.drv Derive([(\"out\",\"/nix/store/aaaaaaaaaaaaaaaaaaaaaaaaaaaaaaaa-n0\",\"\",\"\")],[],[],\"x86_64-linux\",\"/bin/sh\",[],[(\"__json\",\"";

/// What stands behind that text.
pub const JSON_END: &[u8] = b"\")])\n";

/// The parts, one behind the other.
pub fn joined(alloc: Global, parts: &[&[u8]]) -> Result<Vec<u8>, AllocError> {
    let mut bytes = Vec::new(alloc);
    for part in parts {
        bytes.extend_from_slice(part)?;
    }
    Ok(bytes)
}

/// One derivation without inputs.
pub const PLAIN_1: &str =
    "/nix/store/00000000000000000000000000000000-n0.drv Derive([(\"out\",\"/nix/store/aaaaaaaaaaaaaaaaaaaaaaaaaaaaaaaa-n0\",\"\",\"\")],[],[],\"x86_64-linux\",\"/bin/sh\",[],[])\n";

/// Two of them.
pub const PLAIN_2: &str = "\
    /nix/store/00000000000000000000000000000000-n0.drv Derive([(\"out\",\"/nix/store/aaaaaaaaaaaaaaaaaaaaaaaaaaaaaaaa-n0\",\"\",\"\")],[],[],\"x86_64-linux\",\"/bin/sh\",[],[])\n\
    /nix/store/11111111111111111111111111111111-n1.drv Derive([(\"out\",\"/nix/store/bbbbbbbbbbbbbbbbbbbbbbbbbbbbbbbb-n1\",\"\",\"\")],[],[],\"x86_64-linux\",\"/bin/sh\",[],[])\n";

/// Three of them.
pub const PLAIN_3: &str = "\
    /nix/store/00000000000000000000000000000000-n0.drv Derive([(\"out\",\"/nix/store/aaaaaaaaaaaaaaaaaaaaaaaaaaaaaaaa-n0\",\"\",\"\")],[],[],\"x86_64-linux\",\"/bin/sh\",[],[])\n\
    /nix/store/11111111111111111111111111111111-n1.drv Derive([(\"out\",\"/nix/store/bbbbbbbbbbbbbbbbbbbbbbbbbbbbbbbb-n1\",\"\",\"\")],[],[],\"x86_64-linux\",\"/bin/sh\",[],[])\n\
    /nix/store/22222222222222222222222222222222-n2.drv Derive([(\"out\",\"/nix/store/cccccccccccccccccccccccccccccccc-n2\",\"\",\"\")],[],[],\"x86_64-linux\",\"/bin/sh\",[],[])\n";

/// Two derivations that prefer the local machine.
pub const PREFER_2: &str = "\
    /nix/store/00000000000000000000000000000000-n0.drv Derive([(\"out\",\"/nix/store/aaaaaaaaaaaaaaaaaaaaaaaaaaaaaaaa-n0\",\"\",\"\")],[],[],\"x86_64-linux\",\"/bin/sh\",[],[(\"preferLocalBuild\",\"1\")])\n\
    /nix/store/11111111111111111111111111111111-n1.drv Derive([(\"out\",\"/nix/store/bbbbbbbbbbbbbbbbbbbbbbbbbbbbbbbb-n1\",\"\",\"\")],[],[],\"x86_64-linux\",\"/bin/sh\",[],[(\"preferLocalBuild\",\"1\")])\n";

/// Derivations 1 and 2 on 0; 3 on 1 and 2; 4 on 2.
pub const DIAMOND: &str = "\
    /nix/store/00000000000000000000000000000000-n0.drv Derive([(\"out\",\"/nix/store/aaaaaaaaaaaaaaaaaaaaaaaaaaaaaaaa-n0\",\"\",\"\")],[],[],\"x86_64-linux\",\"/bin/sh\",[],[])\n\
    /nix/store/11111111111111111111111111111111-n1.drv Derive([(\"out\",\"/nix/store/bbbbbbbbbbbbbbbbbbbbbbbbbbbbbbbb-n1\",\"\",\"\")],[(\"/nix/store/00000000000000000000000000000000-n0.drv\",[\"out\"])],[],\"x86_64-linux\",\"/bin/sh\",[],[])\n\
    /nix/store/22222222222222222222222222222222-n2.drv Derive([(\"out\",\"/nix/store/cccccccccccccccccccccccccccccccc-n2\",\"\",\"\")],[(\"/nix/store/00000000000000000000000000000000-n0.drv\",[\"out\"])],[],\"x86_64-linux\",\"/bin/sh\",[],[])\n\
    /nix/store/33333333333333333333333333333333-n3.drv Derive([(\"out\",\"/nix/store/dddddddddddddddddddddddddddddddd-n3\",\"\",\"\")],[(\"/nix/store/11111111111111111111111111111111-n1.drv\",[\"out\"]),(\"/nix/store/22222222222222222222222222222222-n2.drv\",[\"out\"])],[],\"x86_64-linux\",\"/bin/sh\",[],[])\n\
    /nix/store/44444444444444444444444444444444-n4.drv Derive([(\"out\",\"/nix/store/ffffffffffffffffffffffffffffffff-n4\",\"\",\"\")],[(\"/nix/store/22222222222222222222222222222222-n2.drv\",[\"out\"])],[],\"x86_64-linux\",\"/bin/sh\",[],[])\n";

/// Derivation 0 with the sources S1 and S2, and derivation 1 with S1 and S3.
pub const FLIGHT: &str = "\
    /nix/store/00000000000000000000000000000000-n0.drv Derive([(\"out\",\"/nix/store/aaaaaaaaaaaaaaaaaaaaaaaaaaaaaaaa-n0\",\"\",\"\")],[],[\"/nix/store/pppppppppppppppppppppppppppppppp-s1\",\"/nix/store/qqqqqqqqqqqqqqqqqqqqqqqqqqqqqqqq-s2\"],\"x86_64-linux\",\"/bin/sh\",[],[])\n\
    /nix/store/11111111111111111111111111111111-n1.drv Derive([(\"out\",\"/nix/store/bbbbbbbbbbbbbbbbbbbbbbbbbbbbbbbb-n1\",\"\",\"\")],[],[\"/nix/store/pppppppppppppppppppppppppppppppp-s1\",\"/nix/store/rrrrrrrrrrrrrrrrrrrrrrrrrrrrrrrr-s3\"],\"x86_64-linux\",\"/bin/sh\",[],[])\n";

/// Two derivations with one output path, and one on the first.
pub const SHARED: &str = "\
    /nix/store/00000000000000000000000000000000-n0.drv Derive([(\"out\",\"/nix/store/aaaaaaaaaaaaaaaaaaaaaaaaaaaaaaaa-n0\",\"\",\"\")],[],[\"/nix/store/pppppppppppppppppppppppppppppppp-s1\"],\"x86_64-linux\",\"/bin/sh\",[],[])\n\
    /nix/store/11111111111111111111111111111111-n1.drv Derive([(\"out\",\"/nix/store/aaaaaaaaaaaaaaaaaaaaaaaaaaaaaaaa-n0\",\"\",\"\")],[],[\"/nix/store/qqqqqqqqqqqqqqqqqqqqqqqqqqqqqqqq-s2\"],\"x86_64-linux\",\"/bin/sh\",[],[])\n\
    /nix/store/22222222222222222222222222222222-n2.drv Derive([(\"out\",\"/nix/store/cccccccccccccccccccccccccccccccc-n2\",\"\",\"\")],[(\"/nix/store/00000000000000000000000000000000-n0.drv\",[\"out\"])],[],\"x86_64-linux\",\"/bin/sh\",[],[])\n";

/// One derivation with a source.
pub const SOURCE_1: &str =
    "/nix/store/00000000000000000000000000000000-n0.drv Derive([(\"out\",\"/nix/store/aaaaaaaaaaaaaaaaaaaaaaaaaaaaaaaa-n0\",\"\",\"\")],[],[\"/nix/store/pppppppppppppppppppppppppppppppp-s1\"],\"x86_64-linux\",\"/bin/sh\",[],[])\n";

/// A derivation on a later one.
pub const LATER: &str = "\
    /nix/store/00000000000000000000000000000000-n0.drv Derive([(\"out\",\"/nix/store/aaaaaaaaaaaaaaaaaaaaaaaaaaaaaaaa-n0\",\"\",\"\")],[(\"/nix/store/11111111111111111111111111111111-n1.drv\",[\"out\"])],[],\"x86_64-linux\",\"/bin/sh\",[],[])\n\
    /nix/store/11111111111111111111111111111111-n1.drv Derive([(\"out\",\"/nix/store/bbbbbbbbbbbbbbbbbbbbbbbbbbbbbbbb-n1\",\"\",\"\")],[],[],\"x86_64-linux\",\"/bin/sh\",[],[])\n";

/// Two derivations that are each other's input.
pub const CYCLE: &str = "\
    /nix/store/00000000000000000000000000000000-n0.drv Derive([(\"out\",\"/nix/store/aaaaaaaaaaaaaaaaaaaaaaaaaaaaaaaa-n0\",\"\",\"\")],[(\"/nix/store/11111111111111111111111111111111-n1.drv\",[\"out\"])],[],\"x86_64-linux\",\"/bin/sh\",[],[])\n\
    /nix/store/11111111111111111111111111111111-n1.drv Derive([(\"out\",\"/nix/store/bbbbbbbbbbbbbbbbbbbbbbbbbbbbbbbb-n1\",\"\",\"\")],[(\"/nix/store/00000000000000000000000000000000-n0.drv\",[\"out\"])],[],\"x86_64-linux\",\"/bin/sh\",[],[])\n";

/// One derivation with structured attributes: it prefers the local machine and needs `kvm`.
pub const STRUCTURED: &str =
    "/nix/store/00000000000000000000000000000000-n0.drv Derive([(\"out\",\"/nix/store/aaaaaaaaaaaaaaaaaaaaaaaaaaaaaaaa-n0\",\"\",\"\")],[],[],\"x86_64-linux\",\"/bin/sh\",[],[(\"__json\",\"{\\\"preferLocalBuild\\\":true,\\\"requiredSystemFeatures\\\":[\\\"kvm\\\"]}\")])\n";

/// A chain of three, the first with a source.
pub const CHAIN: &str = "\
    /nix/store/00000000000000000000000000000000-n0.drv Derive([(\"out\",\"/nix/store/aaaaaaaaaaaaaaaaaaaaaaaaaaaaaaaa-n0\",\"\",\"\")],[],[\"/nix/store/pppppppppppppppppppppppppppppppp-s1\"],\"x86_64-linux\",\"/bin/sh\",[],[])\n\
    /nix/store/11111111111111111111111111111111-n1.drv Derive([(\"out\",\"/nix/store/bbbbbbbbbbbbbbbbbbbbbbbbbbbbbbbb-n1\",\"\",\"\")],[(\"/nix/store/00000000000000000000000000000000-n0.drv\",[\"out\"])],[],\"x86_64-linux\",\"/bin/sh\",[],[])\n\
    /nix/store/22222222222222222222222222222222-n2.drv Derive([(\"out\",\"/nix/store/cccccccccccccccccccccccccccccccc-n2\",\"\",\"\")],[(\"/nix/store/11111111111111111111111111111111-n1.drv\",[\"out\"])],[],\"x86_64-linux\",\"/bin/sh\",[],[])\n";
