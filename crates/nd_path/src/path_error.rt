//! Refusals of store paths.

ghost use Rattle.std.specs.Prelude.{◌≡◌};
ghost use Rattle.nd_path.specs.declared.path_error.PathError.TheVariants.{Memory};

use std::alloc::{AllocError, AllocFailed};
use std::error::Error;
use std::fmt;

/// Why bytes are no store path, or why none was made.
#[derive(Clone, Copy, Debug, PartialEq, Eq)]
pub enum PathError {
    /// 1: the bytes do not begin with `/nix/store/`.
    Prefix,
    /// 2: the next 32 bytes are not all there and of the base-32 alphabet.
    Digest,
    /// 3: no `-` follows, or no name of 1 to 211 bytes of the allowed kinds.
    Name,
    /// 4: an allocation was refused.
    Memory,
}

impl fmt::Display for PathError {
    ghost use Rattle.std.specs.Prelude.{Some};
    ghost use Rattle.nd_path.specs.Refusals.{refusal_name};

    ghost output = { λ e. Some (refusal_name e) };

    fn fmt<W: fmt::Write>(&self, f: &mut fmt::Formatter<W>) -> fmt::Result {
        f.write_str(match self {
            PathError::Prefix => "Prefix",
            PathError::Digest => "Digest",
            PathError::Name => "Name",
            PathError::Memory => "Memory",
        })
    }
}

impl Error for PathError {}

impl From<AllocError> for PathError {
    ghost from_gives = { λ _ e. e ≡ Memory };

    fn from(_error: AllocError) -> PathError {
        PathError::Memory
    }
}

impl<T: Drop> From<AllocFailed<T>> for PathError {
    ghost from_gives = { λ _ e. e ≡ Memory };

    fn from(_error: AllocFailed<T>) -> PathError {
        PathError::Memory
    }
}
