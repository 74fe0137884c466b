//! Refusals of scripts and of stand texts.

ghost use Rattle.std.specs.Prelude.{◌≡◌};
ghost use Rattle.nd_script.specs.declared.script_error.ScriptError.TheVariants.{Memory};
ghost use Rattle.nd_script.specs.Faults.{refusal_of};

use crate::line_error::LineError;
use std::alloc::AllocFailed;
use std::error::Error;
use std::fmt;

/// Why a script or a stand text was refused.
#[derive(Clone, Copy, Debug, PartialEq, Eq)]
pub enum ScriptError {
    /// 1: the line with this number, counted from 1, is empty or none of those of such a text, or has a
    /// derivation, a machine or a status that is out of range, or a word that is no store path where
    /// one is wanted. It is the first such line.
    BadLine(usize),
    /// 2: an allocation was refused.
    Memory,
}

impl fmt::Display for ScriptError {
    ghost use Rattle.std.specs.Prelude.{Some};
    ghost use Rattle.nd_script.specs.Faults.{refusal_text};

    ghost output = { λ e. Some (refusal_text e) };

    fn fmt<W: fmt::Write>(&self, f: &mut fmt::Formatter<W>) -> fmt::Result {
        match self {
            ScriptError::BadLine(line) => write!(f, "BadLine {line}"),
            ScriptError::Memory => write!(f, "Memory"),
        }
    }
}

impl Error for ScriptError {}

impl<T: Drop> From<AllocFailed<T>> for ScriptError {
    ghost from_gives = { λ _ e. e ≡ Memory };

    fn from(_refused: AllocFailed<T>) -> ScriptError {
        ScriptError::Memory
    }
}

/// The refusal of the line with this number.
pub(crate) fn refusal(fault: LineError, number: usize) -> ScriptError
    ensures { result ≡ refusal_of fault number }
{
    match fault {
        LineError::Bad => ScriptError::BadLine(number),
        LineError::Memory => ScriptError::Memory,
    }
}
