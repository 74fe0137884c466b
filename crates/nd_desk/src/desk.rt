//! The devices of a session.

ghost use Rattle.std.specs.Prelude.{IfOk};
ghost use Rattle.nd_desk.specs.declared.event.Event.{Event};
ghost use Rattle.nd_desk.specs.Hearing.{HearsNext, HearsNothing};
ghost use Rattle.nd_desk.specs.Notes.{Seen, Notes, heard, tried};

use crate::fault::DeskFault;
use nd_bytes::ByteString;
use std::alloc::Global;

/// The input, the journal and the output of a session. Contracts see three things of it. One is the list of
/// what was done to all three, oldest first, where it is known; that of real files isn't, and then a contract
/// says of the desk what it would say of one whose list is known. Another is the bytes that the output
/// holds, where these are known: an answer adds its bytes and no other call adds any. Of an answer that was
/// refused a part may be out, and nothing more is said of these bytes. The third is the bytes that the input
/// has left, where these are known: a line that is heard is the next one of them, and no other call takes any.
///
/// Each call refuses with `Refused` (1) where the device refused, which is noted, and with `Memory` (2)
/// where an allocation was refused; then nothing is noted, and nothing was written. Of a line a part may
/// have been read then.
pub trait Desk {
    ghost seen: { Self → Seen };

    /// The next line of the input, without its newline: `None` at its end. Each line ends with a newline: what
    /// stands behind the last one is no line, and is passed over.
    fn hear(&mut self, alloc: Global) -> Result<Option<ByteString>, DeskFault>
        ensures noted { Notes (seen self.old) (seen self.new) (heard result) }
        ensures line { IfOk result (λ line. HearsNext (seen self.old) (seen self.new) line) };

    /// Appends these bytes to the journal.
    fn append(&mut self, bytes: &[u8]) -> Result<(), DeskFault>
        ensures noted { Notes (seen self.old) (seen self.new) (tried result (Event.Appended bytes.now)) }
        ensures input { HearsNothing (seen self.old) (seen self.new) };

    /// Makes durable what the journal holds.
    fn sync(&mut self) -> Result<(), DeskFault>
        ensures noted { Notes (seen self.old) (seen self.new) (tried result Event.Synced) }
        ensures input { HearsNothing (seen self.old) (seen self.new) };

    /// Writes these bytes to the output, and passes on what that holds back.
    fn answer(&mut self, bytes: &[u8]) -> Result<(), DeskFault>
        ensures noted { Notes (seen self.old) (seen self.new) (tried result (Event.Answered bytes.now)) }
        ensures input { HearsNothing (seen self.old) (seen self.new) };
}
