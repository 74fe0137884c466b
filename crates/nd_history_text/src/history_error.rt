//! Refusals of history texts.

ghost use Rattle.std.specs.Prelude.{◌≡◌};

use nd_path::PathError;
use std::alloc::{AllocError, AllocFailed};
use std::error::Error;
use std::fmt;

/// Why a history text was refused.
#[derive(Clone, Copy, Debug, PartialEq, Eq)]
pub enum HistoryError {
    /// 1: the text begins with no version's first line and its newline.
    Version,
    /// 2: the line with this number, the first one being 1, is no entry's, or lacks its newline. It
    /// is the first such line.
    BadLine(usize),
    /// 3: an allocation was refused.
    Memory,
}

impl fmt::Display for HistoryError {
    ghost use Rattle.std.specs.Prelude.{Some};
    ghost use Rattle.nd_history_text.specs.Names.{refusal_text};

    ghost output = { λ e. Some (refusal_text e) };

    fn fmt<W: fmt::Write>(&self, f: &mut fmt::Formatter<W>) -> fmt::Result {
        match self {
            HistoryError::Version => write!(f, "Version"),
            HistoryError::BadLine(line) => write!(f, "BadLine {line}"),
            HistoryError::Memory => write!(f, "Memory"),
        }
    }
}

impl Error for HistoryError {}

impl From<AllocError> for HistoryError {
    ghost use Rattle.nd_history_text.specs.declared.history_error.HistoryError.{HistoryError};

    ghost from_gives = { λ _ e. e ≡ HistoryError.Memory };

    fn from(_error: AllocError) -> HistoryError {
        HistoryError::Memory
    }
}

impl<T: Drop> From<AllocFailed<T>> for HistoryError {
    ghost use Rattle.nd_history_text.specs.declared.history_error.HistoryError.{HistoryError};

    ghost from_gives = { λ _ e. e ≡ HistoryError.Memory };

    fn from(_error: AllocFailed<T>) -> HistoryError {
        HistoryError::Memory
    }
}

/// Why a part of a line wasn't read.
#[derive(Clone, Copy, Debug, PartialEq, Eq)]
pub(crate) enum LineError {
    /// No such part stands there.
    Bad,
    /// An allocation was refused.
    Memory,
}

impl From<AllocError> for LineError {
    ghost use Rattle.nd_history_text.specs.declared.history_error.LineError.{LineError};

    ghost from_gives = { λ _ e. e ≡ LineError.Memory };

    fn from(_error: AllocError) -> LineError {
        LineError::Memory
    }
}

impl<T: Drop> From<AllocFailed<T>> for LineError {
    ghost use Rattle.nd_history_text.specs.declared.history_error.LineError.{LineError};

    ghost from_gives = { λ _ e. e ≡ LineError.Memory };

    fn from(_error: AllocFailed<T>) -> LineError {
        LineError::Memory
    }
}

impl From<PathError> for LineError {
    ghost use Rattle.nd_history_text.specs.Reading.{path_fault};

    ghost from_gives = { λ p e. e ≡ path_fault p };

    fn from(error: PathError) -> LineError {
        match error {
            PathError::Prefix | PathError::Digest | PathError::Name => LineError::Bad,
            PathError::Memory => LineError::Memory,
        }
    }
}
