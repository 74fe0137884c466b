//! Refusals of a journal.

ghost use Rattle.std.specs.Prelude.{◌≡◌};

use nd_history::Rule;
use std::error::Error;
use std::fmt;

/// Why a journal can't be gone on from.
#[derive(Clone, Copy, Debug, PartialEq, Eq)]
pub enum ResumeError {
    /// 1: the line with this number, the first one being 1, isn't one of a journal: the first line of a history text
    /// of the second version, then a line for each entry, and perhaps the beginning of one more. It is the first such
    /// line.
    BadLine(usize),
    /// 2: the entry at this place, from 0 as in an audit, isn't allowed after those before it, and this is
    /// the first rule that refuses it. It is the first such entry.
    Illegal { index: usize, rule: Rule },
    /// 3: an allocation was refused.
    Memory,
}

impl fmt::Display for ResumeError {
    ghost use Rattle.std.specs.Prelude.{Some};
    ghost use Rattle.nd_serve_command.specs.Resumes.{refusal_text};

    ghost output = { λ e. Some (refusal_text e) };

    fn fmt<W: fmt::Write>(&self, f: &mut fmt::Formatter<W>) -> fmt::Result {
        match self {
            ResumeError::BadLine(line) => write!(f, "BadLine {line}"),
            ResumeError::Illegal { index, rule } => write!(f, "Illegal {index} {rule}"),
            ResumeError::Memory => write!(f, "Memory"),
        }
    }
}

impl Error for ResumeError {}
