//! Why a desk did not do what it was asked for, and why a session ends before its input does.

ghost use Rattle.std.specs.Prelude.{◌≡◌};
ghost use Rattle.nd_desk.specs.Names.{fault_name};

use std::fmt;

/// Why a desk did not do what it was asked for.
#[derive(Clone, Copy, Debug, PartialEq, Eq)]
pub enum DeskFault {
    /// 1: the device refused. That is noted.
    Refused,
    /// 2: an allocation was refused, and nothing is noted or written. Of a line a part may have been read.
    Memory,
}

/// Why a session ended before its input did.
#[derive(Clone, Copy, Debug, PartialEq, Eq)]
pub enum SessionFault {
    /// 1: the input refused a read.
    Read,
    /// 2: the journal refused an append or a sync. Nothing of that turn was answered; its entries may stand
    /// in the journal.
    Journal,
    /// 3: the output refused an answer. A part of it, from its beginning, may be out.
    Write,
    /// 4: an allocation was refused. Nothing of that turn was answered; its entries may stand in the journal.
    Memory,
}

impl fmt::Display for SessionFault {
    ghost use Rattle.std.specs.Prelude.{Some};

    ghost output = { λ e. Some (fault_name e) };

    fn fmt<W: fmt::Write>(&self, f: &mut fmt::Formatter<W>) -> fmt::Result {
        f.write_str(match self {
            SessionFault::Read => "Read",
            SessionFault::Journal => "Journal",
            SessionFault::Write => "Write",
            SessionFault::Memory => "Memory",
        })
    }
}

impl std::error::Error for SessionFault {}
