//! The lines of entries, behind a text that waits.

ghost use Rattle.std.specs.Prelude.{◌≡◌, ◌++◌, OnOk, OnErr, IfOk, IfErr};
ghost use Rattle.std.specs.List.{flat_map};
ghost use Rattle.nd_history_text.specs.HistoryTexts.{line_of};
ghost use Rattle.nd_journal.specs.WholeLines.{IsBeginning};
ghost use Rattle.nd_keeping.specs.Scribing.{opening_of};

use nd_devices::Told;
use nd_history::Entry;
use nd_history_text::write_lines;
use nd_journal::first_line;
use std::alloc::{AllocError, Global};
use std::mem;

/// Puts the lines of these entries behind a text, and before them the line that a journal begins with, where they
/// are the first that it gets. Where memory is refused, the text stays as it is.
pub(crate) fn put_lines(
    alloc: Global,
    text: &mut Vec<u8>,
    are_first: bool,
    entries: &[Entry],
) -> Result<(), AllocError>
    ensures put { OnOk result (text.new.items ≡ text.old.items ++ (opening_of are_first ++ flat_map line_of entries.now)) }
    ensures refused { OnErr result (text.new.items ≡ text.old.items) }
{
    let waits = text.len();
    let taken = mem::replace(text, Vec::new(alloc));
    match with_lines(taken, are_first, entries) {
        Ok(lines) => {
            *text = lines;
            Ok(())
        }
        Err(part) => {
            *text = part;
            text.truncate(waits);
            Err(AllocError)
        }
    }
}

/// A text with these lines behind it. Where memory is refused, there may be a part of them.
fn with_lines(text: Vec<u8>, are_first: bool, entries: &[Entry]) -> Result<Vec<u8>, Vec<u8>>
    ensures whole { IfOk result (λ v. v.items ≡ text.items ++ (opening_of are_first ++ flat_map line_of entries.now)) }
    ensures partly { IfErr result (λ v. IsBeginning text.items v.items) }
{
    let mut text = text;
    match text.extend_from_slice(opening(are_first)) {
        Ok(()) => {}
        Err(AllocError) => return Err(text),
    }
    let mut out = Told::new(text);
    match write_lines(entries, &mut out) {
        Ok(()) => Ok(out.into_inner()),
        Err(_) => Err(out.into_inner()),
    }
}

/// The line that a journal begins with, where these are the first bytes that it gets.
fn opening(are_first: bool) -> &'static [u8]
    ensures { result.now ≡ opening_of are_first }
{
    if are_first { first_line() } else { b"" }
}
