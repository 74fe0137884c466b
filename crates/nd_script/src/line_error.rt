//! Why a line of a script has no command, or one of a stand text no rule.

ghost use Rattle.std.specs.Prelude.{◌≡◌};
ghost use Rattle.nd_script.specs.declared.line_error.LineError.TheVariants.{Memory};

use std::alloc::{AllocError, AllocFailed};

/// Why a line has no command or no rule; its number joins it later.
#[derive(Clone, Copy, Debug, PartialEq, Eq)]
pub enum LineError {
    /// The line is none of those of a script, or of a stand text.
    Bad,
    /// An allocation was refused.
    Memory,
}

impl From<AllocError> for LineError {
    ghost from_gives = { λ _ e. e ≡ Memory };

    fn from(_refused: AllocError) -> LineError {
        LineError::Memory
    }
}

impl<T: Drop> From<AllocFailed<T>> for LineError {
    ghost from_gives = { λ _ e. e ≡ Memory };

    fn from(_refused: AllocFailed<T>) -> LineError {
        LineError::Memory
    }
}
