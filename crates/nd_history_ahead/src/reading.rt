//! Reading a history text until it is told to stop.

ghost use Rattle.std.specs.Prelude.{◌≡◌, ◌++◌, List, IfErr, IfOk, IfSome, MatchResult, OnOk};
ghost use Rattle.nd_history.specs.declared.entry.Entry.{Entry};
ghost use Rattle.nd_history_text.specs.declared.history_error.HistoryError.{HistoryError};
ghost use Rattle.nd_history_text.specs.Sound.{IsHistoryText, IsRefused};
ghost use Rattle.nd_history_ahead.specs.Ahead.{IsMoved, IsReadFrom, IsReadTo, TakesLines};

use crate::pieces::{cut_behind, read_lines};
use nd_history::Entry;
use nd_history_text::{HistoryError, read_history};
use std::alloc::Global;
use std::sync::atomic::{AtomicBool, Ordering};

/// How many bytes are read at first, so that a text that is refused early is refused before much is read.
const FIRST: usize = 65_536;

/// How many bytes are read before the next look at whether they are still wanted.
const PIECE: usize = 1_048_576;

/// How many bytes a first line has, in each version.
const FIRST_LINE: usize = 23;

/// How far a text was read.
#[derive(Drop)]
enum Progress {
    /// To its end: these are its entries.
    Whole(Vec<Entry>),
    /// To where it is refused so.
    Refused(HistoryError),
    /// To where it was told to stop.
    Stopped,
}

/// What [`read_history`] answers about the text, or `None` where `stop` was set before the text was read to its end. It
/// is looked at before each piece of 1 MiB behind the first 64 KiB. A path that stands in several pieces has its bytes
/// once for each.
pub fn read_ahead(
    alloc: Global,
    text: &[u8],
    stop: &AtomicBool,
) -> Option<Result<Vec<Entry>, HistoryError>>
    ensures found { IfSome result (λ answer. IfOk answer (λ h. IsHistoryText text.now h.items)) }
    ensures exactly { IfSome result (λ answer. (entries : List Entry) → IsHistoryText text.now entries → MatchResult answer (λ h. h.items ≡ entries) (λ e. e ≡ HistoryError.Memory)) }
    ensures refused { IfSome result (λ answer. IfErr answer (IsRefused text.now)) }
{
    match read_pieces(alloc, text, stop) {
        Progress::Whole(entries) => Some(Ok(entries)),
        Progress::Refused(fault) => Some(Err(fault)),
        Progress::Stopped => None,
    }
}

/// Reads the text piece by piece.
#[tactic(auto, using(crate::proofs::Joined::read_from))]
fn read_pieces(alloc: Global, text: &[u8], stop: &AtomicBool) -> Progress
    ensures { IsReadTo text.now result }
{
    let (front, rest) = cut_behind(text, FIRST);
    if front.len() < FIRST_LINE {
        return read_alone(alloc, text);
    }
    let (first, _) = front.split_at(FIRST_LINE);
    match read_history(alloc, front) {
        Ok(entries) => {
            let mut entries = entries;
            make_room(&mut entries, front.len(), rest.len());
            read_on(alloc, first, rest, entries, stop)
        }
        Err(_) => read_alone(alloc, text),
    }
}

/// Reads a text whose front is no history's at once, since it is refused within that.
fn read_alone(alloc: Global, text: &[u8]) -> Progress
    ensures { IsReadTo text.now result }
{
    match read_history(alloc, text) {
        Ok(entries) => Progress::Whole(entries),
        Err(fault) => Progress::Refused(fault),
    }
}

/// Makes room for as many entries as the bytes that are left have, and a sixteenth more, where they have as many as
/// those that were read. Where that is refused, or isn't enough, room is made when it is needed.
fn make_room(entries: &mut Vec<Entry>, read: usize, left: usize)
    ensures { entries.new.items ≡ entries.old.items }
{
    let likely = entries.len().saturating_mul(left) / read.max(1);
    drop(entries.reserve(likely.saturating_add(likely / 16)));
}

/// Reads on behind these entries, piece by piece.
#[tactic(auto, using(crate::proofs::Joined::goes_nowhere))]
fn read_on(
    alloc: Global,
    first: &[u8],
    lines: &[u8],
    entries: Vec<Entry>,
    stop: &AtomicBool,
) -> Progress
    ensures { IsReadFrom first.now lines.now entries.items result }
{
    let mut entries = entries;
    let mut rest = lines;
    while !rest.is_empty() {
        if stop.load(Ordering::Relaxed) {
            return Progress::Stopped;
        }
        let (piece, behind) = cut_behind(rest, PIECE);
        let before = entries.as_slice().len();
        match take_lines(alloc, first, piece, &mut entries) {
            Ok(()) => rest = behind,
            Err(fault) => return refused_behind(fault, before),
        }
    }
    Progress::Whole(entries)
}

/// Adds the entries of these lines, which stand behind this first line in their version.
///
/// Refuses as `read_history` does their text, behind the first line alone. Then nothing is added.
fn take_lines(
    alloc: Global,
    first: &[u8],
    lines: &[u8],
    entries: &mut Vec<Entry>,
) -> Result<(), HistoryError>
    ensures taken { OnOk result (TakesLines first.now lines.now entries.old.items entries.new.items) }
    ensures refused { IfErr result (IsRefused (first.now ++ lines.now)) }
{
    let mut more = read_lines(alloc, first, lines)?;
    entries.append(&mut more)?;
    Ok(())
}

/// The refusal of a text in which the lines of so many entries stand before a piece that is refused so.
fn refused_behind(fault: HistoryError, entries: usize) -> Progress
    ensures { IsMoved fault entries result }
{
    match fault {
        HistoryError::Version => Progress::Refused(HistoryError::Version),
        HistoryError::BadLine(line) => match line.checked_add(entries) {
            Some(line) => Progress::Refused(HistoryError::BadLine(line)),
            // For the proof: no text has so many lines.
            None => Progress::Stopped,
        },
        HistoryError::Memory => Progress::Refused(HistoryError::Memory),
    }
}
