//! Refusals of a builders list.

ghost use Rattle.std.specs.Prelude.{◌≡◌};
ghost use Rattle.nd_machines.specs.declared.machine_error.MachineError.TheVariants.{Memory};

use std::alloc::{AllocError, AllocFailed};
use std::error::Error;
use std::fmt;

/// Why a builders list is refused. Entries that have a field are numbered from 1, and the first entry
/// at fault decides. Within an entry `TooMany` comes first, then `Include`, `Uri`, `Jobs` and `Speed`.
#[derive(Clone, Copy, Debug, PartialEq, Eq)]
pub enum MachineError {
    /// 1: the entry's URI is `-`.
    Uri(usize),
    /// 2: the entry's number of jobs is not of one or more digits, or is over 65,535.
    Jobs(usize),
    /// 3: the entry's speed is not of one or more digits with, if it has a point, 1 to 6 digits behind
    /// it, or is 0 or over 1,000,000.
    Speed(usize),
    /// 4: the entry's first field begins with `@`, which would name a file.
    Include(usize),
    /// 5: the entry is the 1,025th.
    TooMany(usize),
    /// 6: memory ran out, which may happen at any point.
    Memory,
}

impl fmt::Display for MachineError {
    ghost use Rattle.std.specs.Prelude.{Some};
    ghost use Rattle.nd_machines.specs.Names.{refusal_text};

    ghost output = { λ e. Some (refusal_text e) };

    fn fmt<W: fmt::Write>(&self, f: &mut fmt::Formatter<W>) -> fmt::Result {
        match self {
            MachineError::Uri(entry) => write!(f, "Uri {entry}"),
            MachineError::Jobs(entry) => write!(f, "Jobs {entry}"),
            MachineError::Speed(entry) => write!(f, "Speed {entry}"),
            MachineError::Include(entry) => write!(f, "Include {entry}"),
            MachineError::TooMany(entry) => write!(f, "TooMany {entry}"),
            MachineError::Memory => write!(f, "Memory"),
        }
    }
}

impl Error for MachineError {}

impl From<AllocError> for MachineError {
    ghost from_gives = { λ _ e. e ≡ Memory };

    fn from(_refused: AllocError) -> MachineError {
        MachineError::Memory
    }
}

impl<T: Drop> From<AllocFailed<T>> for MachineError {
    ghost from_gives = { λ _ e. e ≡ Memory };

    fn from(_refused: AllocFailed<T>) -> MachineError {
        MachineError::Memory
    }
}
