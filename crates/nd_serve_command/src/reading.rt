//! What a session is given: the dispatch over it, and the bytes of its journal.

ghost use Rattle.std.specs.Prelude.{◌≡◌, ◌||◌, [], false, IfOk, IfErr};
ghost use Rattle.nd_cli.specs.Asked.{IsAskFault};
ghost use Rattle.nd_cli.specs.Inputs.{is_read_failure};
ghost use Rattle.nd_commands.specs.Opened.{ReadsInputs};
ghost use Rattle.nd_serve_command.specs.Sessions.{IsJournalUnread, ReadsAccepted, ReadsJournal, is_journal_failed};

use crate::fault::ServeFault;
use nd_bytes::ByteString;
use nd_cli::{CliFault, ParkOptions};
use nd_commands::take_dispatch;
use nd_devices::{TakeError, Told};
use nd_ledger::Dispatch;
use std::alloc::Global;
use std::io::Read;
use std::thread::Threads;

/// Reads the bundle on the input and what the options name: a dispatch over them, with the empty history.
///
/// The first refusal in this order is answered: `Read`; `TooLarge` or `Drvs` for the bundle; `TooLarge` or
/// `Builders` for the builders list; `TooLarge` or `Info` for the info text. `Memory` may come at any
/// point.
pub(crate) fn read_dispatch<R: Read>(
    rt: &(impl Threads + Sync),
    alloc: Global,
    options: &ParkOptions,
    input: &mut Told<R>,
) -> Result<Dispatch, CliFault>
    requires reader { input.old.is_marked ≡ false }
    ensures read { IfOk result (λ dispatch. ReadsInputs options.now (R.remaining input.old.device) (R.remaining input.new.device) dispatch.inputs) }
    ensures empty { IfOk result (λ dispatch. dispatch.history ≡ []) }
    ensures fault { IfErr result (IsAskFault options.now R.remaining input.old input.new false) }
    ensures mark { input.new.is_marked ≡ is_read_failure result }
    ensures exactly { ReadsAccepted options.now (R.remaining input.old.device) result }
{
    take_dispatch(rt, alloc, options, input)
}

/// The most bytes that a journal may have which is gone on from or looked at.
pub const JOURNAL_LIMIT: usize = 1_073_741_824;

/// Reads a journal to its end, or to one byte past [`JOURNAL_LIMIT`], so that its length says whether it is
/// too large.
///
/// `JournalFailed`: the reader refused a read, and is then marked. `Memory`: there was no room for the bytes.
/// Nothing but a refused read sets the mark.
pub fn journal_bytes<R: Read>(alloc: Global, input: &mut Told<R>) -> Result<ByteString, ServeFault>
    ensures read { IfOk result (λ bytes. ReadsJournal (R.remaining input.old.device) (R.remaining input.new.device) bytes) }
    ensures fault { IfErr result (IsJournalUnread input.new.is_marked) }
    ensures mark { input.new.is_marked ≡ (input.old.is_marked || is_journal_failed result) }
{
    match input.take_all(alloc, JOURNAL_LIMIT) {
        Ok(bytes) => Ok(ByteString::new(bytes)),
        Err(TakeError::Fault) => Err(ServeFault::JournalFailed),
        Err(TakeError::Memory) => Err(ServeFault::Cli(CliFault::Memory)),
    }
}
