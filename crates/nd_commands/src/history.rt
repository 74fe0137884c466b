//! The history text of an audit.

ghost use Rattle.std.specs.Prelude.{◌≡◌, List, IfOk, IfErr, IfSome};
ghost use Rattle.nd_history.specs.declared.entry.Entry.{Entry};
ghost use Rattle.nd_cli.specs.Inputs.{OkUnlessMemory};
ghost use Rattle.nd_commands.specs.Audited.{fault_of, HasHistory, IsHistoryFault};

use nd_cli::{CliFault, HistoryTextError, LIMIT, Place};
use nd_history::Entry;
use nd_history_ahead::read_ahead;
use nd_history_text::{HistoryError, read_history};
use std::alloc::Global;
use std::sync::atomic::AtomicBool;

/// The entries of a history text.
///
/// `TooLarge`: it has more than [`LIMIT`] bytes. `History`: it is refused. `Memory`.
pub(crate) fn read_entries(alloc: Global, history: &[u8]) -> Result<Vec<Entry>, CliFault>
    ensures read { IfOk result (λ entries. HasHistory history.now entries.items) }
    ensures refused { IfErr result (IsHistoryFault history.now) }
    ensures exactly { (entries : List Entry) → HasHistory history.now entries → OkUnlessMemory result (λ read. read.items ≡ entries) }
{
    if history.len() > LIMIT {
        return Err(CliFault::TooLarge(Place::History));
    }
    match read_history(alloc, history) {
        Ok(entries) => Ok(entries),
        Err(error) => Err(fault(error)),
    }
}

/// The same, or `None` where `stop` was set before the text was read to its end.
pub(crate) fn read_entries_ahead(
    alloc: Global,
    history: &[u8],
    stop: &AtomicBool,
) -> Option<Result<Vec<Entry>, CliFault>>
    ensures read { IfSome result (λ answer. IfOk answer (λ entries. HasHistory history.now entries.items)) }
    ensures refused { IfSome result (λ answer. IfErr answer (IsHistoryFault history.now)) }
    ensures exactly { IfSome result (λ answer. (entries : List Entry) → HasHistory history.now entries → OkUnlessMemory answer (λ read. read.items ≡ entries)) }
{
    if history.len() > LIMIT {
        return Some(Err(CliFault::TooLarge(Place::History)));
    }
    match read_ahead(alloc, history, stop)? {
        Ok(entries) => Some(Ok(entries)),
        Err(error) => Some(Err(fault(error))),
    }
}

/// The program's name for the refusal of a history text.
fn fault(error: HistoryError) -> CliFault
    ensures { result ≡ fault_of error }
{
    match error {
        HistoryError::Version => CliFault::History(HistoryTextError::Version),
        HistoryError::BadLine(line) => CliFault::History(HistoryTextError::BadLine(line)),
        HistoryError::Memory => CliFault::Memory,
    }
}
