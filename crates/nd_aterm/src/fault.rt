//! Why a text or a derivation is refused.

ghost use Rattle.std.specs.Prelude.{◌≡◌};
ghost use Rattle.nd_aterm.specs.declared.fault.AtermError.TheVariants.{Memory};

use std::alloc::{AllocError, AllocFailed};
use std::error::Error;
use std::fmt;

/// Why a derivation text, or the parts of a derivation, were refused. The first that applies is
/// answered, except that `Memory` may come at any point.
#[derive(Clone, Copy, Debug, PartialEq, Eq)]
pub enum AtermError {
    /// 1: the text has more than 16,777,216 bytes (this project's own limit).
    TooLong,
    /// 2: no derivation has this text, in whatever order its lists stand.
    NotDerivation,
    /// 3: it would be a derivation, but one of its lists does not strictly rise (equal keys among
    /// them).
    Order,
    /// 4: there was no memory left.
    Memory,
}

impl fmt::Display for AtermError {
    ghost use Rattle.std.specs.Prelude.{Some};
    ghost use Rattle.nd_aterm.specs.Refusals.{refusal_name};

    ghost output = { λ e. Some (refusal_name e) };

    fn fmt<W: fmt::Write>(&self, f: &mut fmt::Formatter<W>) -> fmt::Result {
        match self {
            AtermError::TooLong => f.write_str("TooLong"),
            AtermError::NotDerivation => f.write_str("NotDerivation"),
            AtermError::Order => f.write_str("Order"),
            AtermError::Memory => f.write_str("Memory"),
        }
    }
}

impl Error for AtermError {}

impl From<AllocError> for AtermError {
    ghost from_gives = { λ _ e. e ≡ Memory };

    fn from(_e: AllocError) -> AtermError {
        AtermError::Memory
    }
}

impl<T: Drop> From<AllocFailed<T>> for AtermError {
    ghost from_gives = { λ _ e. e ≡ Memory };

    fn from(_e: AllocFailed<T>) -> AtermError {
        AtermError::Memory
    }
}
