//! Reading a journal.

ghost use Rattle.std.specs.Prelude.{◌≡◌, List, length, IfOk, IfErr};
ghost use Rattle.nd_history.specs.declared.entry.Entry.{Entry};
ghost use Rattle.nd_history_text.specs.HistoryTexts.{first_line};
ghost use Rattle.nd_history_text.specs.declared.kinds.Version.{Version};
ghost use Rattle.nd_journal.specs.JournalTexts.{IsReadAs, IsReadUnlessMemory, IsJournalRefused, error_of};
ghost use Rattle.nd_journal.specs.WholeLines.{IsBeginning, whole_lines};

use crate::begun::{begins_with, is_begun_line};
use crate::cutting::cut_behind;
use nd_history::Entry;
use nd_history_text::{HistoryError, read_history};
use std::alloc::Global;
use std::error::Error;
use std::fmt;

/// Why bytes are no journal.
#[derive(Clone, Copy, Debug, PartialEq, Eq)]
pub enum JournalError {
    /// 1: the line with this number, the first one being 1, isn't one of a journal: the first line of a
    /// history text of the second version, then a line for each entry, and perhaps the beginning of one more.
    /// It is the first such line.
    BadLine(usize),
    /// 2: an allocation was refused.
    Memory,
}

impl fmt::Display for JournalError {
    ghost use Rattle.std.specs.Prelude.{Some};
    ghost use Rattle.nd_journal.specs.JournalTexts.{refusal_text};

    ghost output = { λ e. Some (refusal_text e) };

    fn fmt<W: fmt::Write>(&self, f: &mut fmt::Formatter<W>) -> fmt::Result {
        match self {
            JournalError::BadLine(line) => write!(f, "BadLine {line}"),
            JournalError::Memory => write!(f, "Memory"),
        }
    }
}

impl Error for JournalError {}

/// What a journal holds.
#[derive(Drop)]
pub struct Journal {
    /// The entries of its whole lines.
    pub entries: Vec<Entry>,
    /// How many bytes its whole lines have: where they are none, nothing was kept yet.
    pub length: usize,
}

/// The entries of a journal with these bytes. What stands behind the last newline is the beginning of an entry's line that
/// wasn't finished, and is passed over. Bytes that are a beginning of the first line alone tell no entry: nothing was kept yet.
///
/// Refuses with `BadLine` (1) and the number of the first line that isn't one of a journal, the first line being 1: a whole
/// line, or else what stands behind the last newline, where that can't be left of an entry's line. Refuses with `Memory` (2)
/// where an allocation is refused.
pub fn read_journal(alloc: Global, bytes: &[u8]) -> Result<Journal, JournalError>
    ensures read { IfOk result (λ journal. IsReadAs bytes.now journal.entries.items) }
    ensures length { IfOk result (λ journal. journal.length ≡ length (whole_lines bytes.now)) }
    ensures refused { IfErr result (IsJournalRefused bytes.now) }
    ensures exactly { (entries : List Entry) → IsReadAs bytes.now entries → IsReadUnlessMemory result entries }
{
    // For the proof: `exactly` follows from what is said of each answer.
    read_bytes(alloc, bytes)
}

/// The same, said of each answer alone.
#[tactic(auto, using(crate::proofs::OneAnswer::begins))]
fn read_bytes(alloc: Global, bytes: &[u8]) -> Result<Journal, JournalError>
    ensures read { IfOk result (λ journal. IsReadAs bytes.now journal.entries.items) }
    ensures length { IfOk result (λ journal. journal.length ≡ length (whole_lines bytes.now)) }
    ensures refused { IfErr result (IsJournalRefused bytes.now) }
{
    let first = first_line();
    if begins_with(bytes, first) {
        return read_lines(alloc, bytes);
    }
    if begins_with(first, bytes) {
        return Ok(Journal {
            entries: Vec::new(alloc),
            length: 0,
        });
    }
    Err(JournalError::BadLine(1))
}

/// The same, where the bytes begin with the first line.
#[tactic(auto, using(crate::proofs::OneAnswer::readings))]
fn read_lines(alloc: Global, bytes: &[u8]) -> Result<Journal, JournalError>
    requires { IsBeginning (first_line Version.Second) bytes.now }
    ensures read { IfOk result (λ journal. IsReadAs bytes.now journal.entries.items) }
    ensures length { IfOk result (λ journal. journal.length ≡ length (whole_lines bytes.now)) }
    ensures refused { IfErr result (IsJournalRefused bytes.now) }
{
    let (whole, rest) = cut_behind(bytes);
    let entries = match read_history(alloc, whole) {
        Ok(entries) => entries,
        Err(error) => return Err(of_lines(error)),
    };
    if !is_begun_line(rest) {
        return Err(JournalError::BadLine(entries.len() + 2));
    }
    Ok(Journal {
        entries,
        length: whole.len(),
    })
}

/// Why a journal is none whose whole lines are no history text.
fn of_lines(error: HistoryError) -> JournalError
    ensures { result ≡ error_of error }
{
    match error {
        HistoryError::Version => JournalError::BadLine(1),
        HistoryError::BadLine(line) => JournalError::BadLine(line),
        HistoryError::Memory => JournalError::Memory,
    }
}

/// The line that a journal begins with, with its newline: that of a history text of the second version.
#[tactic(auto, unfolding(nd_history_text::specs::HistoryTexts::first_line))]
pub fn first_line() -> &'static [u8]
    ensures { result.now ≡ first_line Version.Second }
{
    b"nix-dispatch-history 2\n"
}
