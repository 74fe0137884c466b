//! Why a line of a bundle is refused.

use std::alloc::{AllocError, AllocFailed};
use std::error::Error;
use std::fmt::{self, Display, Formatter, Write};

/// Why a line of a bundle is refused, the causes in the order in which they are looked for.
#[derive(Clone, Copy, Debug, PartialEq, Eq)]
pub enum LineError {
    /// 1: the line is empty or has no space.
    BadLine,
    /// 2: what stands before the first space is no store path, or doesn't end in `.drv`.
    BadPath,
    /// 3: what stands after it is no derivation text, an input derivation of it is no store path that
    /// ends in `.drv`, or a source or an output path that isn't empty is no store path.
    BadDerivation,
    /// 4: the path of an output is empty: it isn't known before the build.
    UnknownOutput,
    /// 5: the structured attributes are no JSON object, or a member is of another kind than it has to be.
    BadAttribute,
    /// 6: with the check, the line's path isn't the one that its name and text have.
    WrongPath,
    /// No memory was to be had, at any point.
    Memory,
}

impl From<AllocError> for LineError {
    ghost use Rattle.std.specs.Prelude.{◌≡◌};
    ghost use Rattle.nd_line.specs.declared.refusal.LineError.TheVariants.{Memory};

    ghost from_gives = { λ _ e. e ≡ Memory };

    fn from(_refused: AllocError) -> LineError {
        LineError::Memory
    }
}

impl<T: Drop> From<AllocFailed<T>> for LineError {
    ghost use Rattle.std.specs.Prelude.{◌≡◌};
    ghost use Rattle.nd_line.specs.declared.refusal.LineError.TheVariants.{Memory};

    ghost from_gives = { λ _ e. e ≡ Memory };

    fn from(_refused: AllocFailed<T>) -> LineError {
        LineError::Memory
    }
}

impl Display for LineError {
    ghost use Rattle.std.specs.Prelude.{Some};
    ghost use Rattle.nd_line.specs.Names.{fault_name};

    ghost output = { λ e. Some (fault_name e) };

    fn fmt<W: Write>(&self, f: &mut Formatter<W>) -> fmt::Result {
        f.write_str(match self {
            LineError::BadLine => "BadLine",
            LineError::BadPath => "BadPath",
            LineError::BadDerivation => "BadDerivation",
            LineError::UnknownOutput => "UnknownOutput",
            LineError::BadAttribute => "BadAttribute",
            LineError::WrongPath => "WrongPath",
            LineError::Memory => "Memory",
        })
    }
}

impl Error for LineError {}
