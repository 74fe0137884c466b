//! The devices of a session, as one desk.

ghost use Rattle.std.specs.Prelude.{◌≡◌, ◌↔◌, IsTrue, is_ok, IfErr, IfOk, OnOk};
ghost use Rattle.std.specs.Io.KnownBytes.{Appends};
ghost use Rattle.nd_keeping.specs.Stored.{IsAppended, IsSynced};
ghost use Rattle.nd_desk.specs.Hearing.{IsLineHeard};

use crate::lines::next_line;
use nd_bytes::ByteString;
use nd_desk::{Desk, DeskFault};
use nd_keeping::Journal;
use std::alloc::Global;
use std::io::{self, BufRead, Write};

/// A reader of lines, a writer and a journal. What is done to them isn't known to contracts, but for what
/// the writer holds, where it says that, as one in memory does: an answer adds its bytes to it, and no other
/// call adds any; for what the reader has left, where it says that: a line that is heard is the next one
/// of it, which ends with a newline; and for what the journal holds, where it says that: what is appended stands behind it, and a sync
/// makes all of it durable. Each call leaves the two devices that it isn't about as they were. Whatever the
/// journal or the writer is refused for, the system's want of memory too, is their own refusal: a part of the
/// bytes may be there.
#[derive(Drop)]
pub struct Devices<R, W, J> {
    /// Where lines come from.
    pub input: R,
    /// Where answers go.
    pub output: W,
    /// Where entries are kept.
    pub journal: J,
}

impl<R: BufRead, W: Write, J: Journal> Desk for Devices<R, W, J> {
    ghost use Rattle.nd_desk.specs.Notes.{Notes, heard, tried};
    ghost use Rattle.nd_desk.specs.declared.event.Event.{Event};
    ghost use Rattle.nd_serve_command.specs.Ends.{ends_of};

    ghost seen = { λ d. ends_of R.remaining W.contents d };

    #[tactic(auto, using(crate::proofs::Passed::reads))]
    fn hear(&mut self, alloc: Global) -> Result<Option<ByteString>, DeskFault>
        ensures noted { Notes (ends_of R.remaining W.contents self.old) (ends_of R.remaining W.contents self.new) (heard result) }
        ensures output { self.new.output ≡ self.old.output }
        ensures journal { self.new.journal ≡ self.old.journal }
        ensures line { IfOk result (λ line. IsLineHeard (R.remaining self.old.input) (R.remaining self.new.input) line) }
    {
        next_line(alloc, &mut self.input)
    }

    #[tactic(auto, using(crate::proofs::Passed::appends))]
    fn append(&mut self, bytes: &[u8]) -> Result<(), DeskFault>
        ensures noted { Notes (ends_of R.remaining W.contents self.old) (ends_of R.remaining W.contents self.new) (tried result (Event.Appended bytes.now)) }
        ensures input { self.new.input ≡ self.old.input }
        ensures output { self.new.output ≡ self.old.output }
        ensures stored { OnOk result (IsAppended (J.stored self.old.journal) (J.stored self.new.journal) bytes.now) }
    {
        done(self.journal.append(bytes))
    }

    #[tactic(auto, using(crate::proofs::Passed::syncs))]
    fn sync(&mut self) -> Result<(), DeskFault>
        ensures noted { Notes (ends_of R.remaining W.contents self.old) (ends_of R.remaining W.contents self.new) (tried result Event.Synced) }
        ensures input { self.new.input ≡ self.old.input }
        ensures output { self.new.output ≡ self.old.output }
        ensures stored { OnOk result (IsSynced (J.stored self.old.journal) (J.stored self.new.journal)) }
    {
        done(self.journal.sync())
    }

    #[tactic(auto, using(crate::proofs::Passed::answers))]
    fn answer(&mut self, bytes: &[u8]) -> Result<(), DeskFault>
        ensures noted { Notes (ends_of R.remaining W.contents self.old) (ends_of R.remaining W.contents self.new) (tried result (Event.Answered bytes.now)) }
        ensures input { self.new.input ≡ self.old.input }
        ensures journal { self.new.journal ≡ self.old.journal }
    {
        pass_on(bytes, &mut self.output)
    }
}

/// Writes all of these bytes, and has the writer pass on what it holds back.
fn pass_on<W: Write>(bytes: &[u8], output: &mut W) -> Result<(), DeskFault>
    ensures appended { OnOk result (Appends (W.contents output.old) (W.contents output.new) bytes.now) }
    ensures refused { IfErr result (λ fault. fault ≡ DeskFault.Refused) }
{
    match output.write_all(bytes) {
        Ok(()) => {}
        Err(_) => return Err(DeskFault::Refused),
    }
    match output.flush() {
        Ok(()) => Ok(()),
        Err(_) => Err(DeskFault::Refused),
    }
}

/// Whether a device did what it was asked for.
fn done(answer: io::Result<()>) -> Result<(), DeskFault>
    ensures ok { IsTrue (is_ok result) ↔ IsTrue (is_ok answer) }
    ensures refused { IfErr result (λ fault. fault ≡ DeskFault.Refused) }
{
    match answer {
        Ok(()) => Ok(()),
        Err(_) => Err(DeskFault::Refused),
    }
}
