//! The history of a journal, entry by entry.

ghost use Rattle.std.specs.Prelude.{◌≡◌, [], List, length, IfOk, IfErr, OnOk};
ghost use Rattle.nd_history.specs.declared.entry.Entry.{Entry};
ghost use Rattle.nd_journal.specs.WholeLines.{whole_lines};
ghost use Rattle.nd_serve_command.specs.Resumes.{IsResumable, IsResumeRefused, ResumesUnlessMemory, journal_refusal};

use crate::resume_error::ResumeError;
use nd_history::Entry;
use nd_journal::{Journal, JournalError, read_journal};
use nd_ledger::Dispatch;
use nd_report::{AuditError, admit_all};
use std::alloc::Global;

/// Gives a dispatch that has no history the one of a journal with these bytes: each entry of its whole lines
/// is allowed after those before it. What stands behind the last newline is passed over, where a crash may have left it of
/// an entry's line. The answer is how many bytes the whole lines have: a file is cut to these before it is appended to.
///
/// Refuses with `BadLine` (1) and `Illegal` (2), as [`ResumeError`] says, the first bad line before the first
/// entry that isn't allowed, and with `Memory` (3) where an allocation is refused. What the dispatch has then
/// isn't said.
#[tactic(auto, using(crate::proofs::TakenUp::resumings))]
pub fn resume(alloc: Global, dispatch: &mut Dispatch, bytes: &[u8]) -> Result<usize, ResumeError>
    requires { dispatch.old.history ≡ [] }
    ensures inputs { dispatch.new.inputs ≡ dispatch.old.inputs }
    ensures resumed { OnOk result (IsResumable dispatch.old.inputs bytes.now dispatch.new.history) }
    ensures kept { IfOk result (λ kept. kept ≡ length (whole_lines bytes.now)) }
    ensures refused { IfErr result (IsResumeRefused dispatch.old.inputs bytes.now) }
    ensures exactly { (entries : List Entry) → IsResumable dispatch.old.inputs bytes.now entries → ResumesUnlessMemory result dispatch.new.history entries }
{
    let Journal { entries, length } = match read_journal(alloc, bytes) {
        Ok(journal) => journal,
        Err(error) => return Err(of_journal(error)),
    };
    match admit_all(alloc, dispatch, entries) {
        Ok(()) => Ok(length),
        Err(AuditError::Illegal { index, rule }) => Err(ResumeError::Illegal { index, rule }),
        Err(AuditError::Memory) => Err(ResumeError::Memory),
    }
}

/// What isn't read as a journal is refused with.
fn of_journal(error: JournalError) -> ResumeError
    ensures { result ≡ journal_refusal error }
{
    match error {
        JournalError::BadLine(line) => ResumeError::BadLine(line),
        JournalError::Memory => ResumeError::Memory,
    }
}
