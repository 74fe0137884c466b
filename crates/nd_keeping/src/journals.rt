//! Journals.

ghost use Rattle.std.specs.Prelude.{OnErr, OnOk};
ghost use Rattle.nd_keeping.specs.Stored.{HoldsPart, IsAppended, IsSynced, IsUnsynced};

use std::io;

/// Where the lines of the entries of a session or of a run are kept.
pub trait Journal {
    ghost use Rattle.std.specs.Prelude.{Option};
    ghost use Rattle.nd_keeping.specs.Stored.{Stored};

    /// What the journal holds, and how much of that is durable, where it says that, as one in memory does. A
    /// file doesn't.
    ghost stored: { Self → Option Stored };

    /// Appends these bytes to what the journal holds. Where that is refused, a beginning of them may stand there.
    fn append(&mut self, bytes: &[u8]) -> io::Result<()>
        ensures done { OnOk result (IsAppended (stored self.old) (stored self.new) bytes.now) }
        ensures refused { OnErr result (HoldsPart (stored self.old) (stored self.new) bytes.now) };

    /// Makes durable what the journal holds. Where that is refused, no byte of it is changed.
    fn sync(&mut self) -> io::Result<()>
        ensures done { OnOk result (IsSynced (stored self.old) (stored self.new)) }
        ensures refused { OnErr result (IsUnsynced (stored self.old) (stored self.new)) };
}

/// The journal of a session or of a run that keeps none.
#[derive(Clone, Copy, Debug)]
pub struct NoJournal;

impl Journal for NoJournal {
    ghost use Rattle.std.specs.Prelude.{None};

    ghost stored = { λ _. None };

    fn append(&mut self, _bytes: &[u8]) -> io::Result<()> {
        Ok(())
    }

    fn sync(&mut self) -> io::Result<()> {
        Ok(())
    }
}
