//! Refusals of info texts.

ghost use Rattle.std.specs.Prelude.{◌≡◌};
ghost use Rattle.nd_closure.specs.declared.info_error.InfoError.TheVariants.{Memory};

use std::alloc::AllocError;
use std::error::Error;
use std::fmt;

/// Why an info text was refused.
#[derive(Clone, Copy, Debug, PartialEq, Eq)]
pub enum InfoError {
    /// 1: the line with this number, counted from 1, is empty, has a word that is no store path or an
    /// empty word, or lists a path that an earlier line lists. It is the first such line.
    BadLine(usize),
    /// 2: an allocation was refused.
    Memory,
}

impl fmt::Display for InfoError {
    ghost use Rattle.std.specs.Prelude.{Some};
    ghost use Rattle.nd_closure.specs.Names.{refusal_text};

    ghost output = { λ e. Some (refusal_text e) };

    fn fmt<W: fmt::Write>(&self, f: &mut fmt::Formatter<W>) -> fmt::Result {
        match self {
            InfoError::BadLine(line) => write!(f, "BadLine {line}"),
            InfoError::Memory => write!(f, "Memory"),
        }
    }
}

impl Error for InfoError {}

impl From<AllocError> for InfoError {
    ghost from_gives = { λ _ e. e ≡ Memory };

    fn from(_error: AllocError) -> InfoError {
        InfoError::Memory
    }
}
