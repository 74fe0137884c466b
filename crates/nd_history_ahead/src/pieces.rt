//! The pieces of a history text.

ghost use Rattle.std.specs.Prelude.{◌≡◌, ◌<◌, ◌++◌, length, IfErr, IfOk};
ghost use Rattle.nd_history_text.specs.Sound.{IsHistoryText, IsRefused};
ghost use Rattle.nd_history_ahead.specs.Ahead.{IsEndedBefore};

use nd_bytes::cut;
use nd_history::Entry;
use nd_history_text::{HistoryError, read_history};
use std::alloc::Global;

/// The front of the text, which ends with the first newline behind so many bytes, and what stands behind it.
pub(crate) fn cut_behind(text: &[u8], least: usize) -> (&[u8], &[u8])
    ensures parts { text.now ≡ result.0.now ++ result.1.now }
    ensures shorter { 0 < length text.now → length result.1.now < length text.now }
    ensures ended { IsEndedBefore result.0.now result.1.now }
{
    if text.len() <= least {
        return (text, &[]);
    }
    let (_, back) = text.split_at(least);
    match cut(back, b'\n') {
        (_, Some(behind)) => text.split_at(text.len() - behind.len()),
        (_, None) => (text, &[]),
    }
}

/// The history whose text is this first line with these lines behind it.
///
/// Refuses as `read_history` does, and with `Memory` too where there is no room for the text.
pub(crate) fn read_lines(
    alloc: Global,
    first: &[u8],
    lines: &[u8],
) -> Result<Vec<Entry>, HistoryError>
    ensures read { IfOk result (λ entries. IsHistoryText (first.now ++ lines.now) entries.items) }
    ensures refused { IfErr result (IsRefused (first.now ++ lines.now)) }
{
    let mut text = Vec::with_capacity(alloc, first.len().saturating_add(lines.len()))?;
    text.extend_from_slice(first)?;
    text.extend_from_slice(lines)?;
    read_history(alloc, text.as_slice())
}
