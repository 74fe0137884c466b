//! The part of a text that is refused.

ghost use Rattle.std.specs.Prelude.{◌≡◌};
ghost use Rattle.std.specs.Option.{option_copied};
ghost use Rattle.nd_bytes.specs.Lines.{lines_of};
ghost use Rattle.nd_machines.specs.Fields.{is_blank};
ghost use Rattle.nd_explain.specs.Pieces.{numbered, piece_at, entries_of, entries_in, has_field, IsSought};

use crate::parts::Part;
use nd_bytes::cut;

/// What stands in a part of a text. It is none where the text has no such part.
pub fn piece_of(text: &[u8], part: Part) -> Option<&[u8]>
    ensures { option_copied result ≡ piece_at text.now part }
{
    match part {
        Part::Nowhere => None,
        Part::Whole => Some(text),
        Part::Line(number) => line_of(text, number),
        Part::Entry(number) => entry_of(text, number),
    }
}

/// The line with this number, the first one being 1. Newlines separate lines, and one may end the last.
pub fn line_of(text: &[u8], number: usize) -> Option<&[u8]>
    ensures { option_copied result ≡ numbered (lines_of text.now) number }
{
    if number == 0 {
        return None;
    }
    let mut before = number - 1;
    let mut left = text;
    while !left.is_empty() {
        let (line, rest) = cut(left, b'\n');
        if before == 0 {
            return Some(line);
        }
        before -= 1;
        left = rest.unwrap_or(&[]);
    }
    None
}

/// The entry of a builders list with this number, the first one being 1, as it stands in the text. One
/// without a field isn't counted.
pub fn entry_of(text: &[u8], number: usize) -> Option<&[u8]>
    ensures { option_copied result ≡ numbered (entries_of (lines_of text.now)) number }
{
    if number == 0 {
        return None;
    }
    let mut before = number - 1;
    let mut left = text;
    while !left.is_empty() {
        let (line, rest) = cut(left, b'\n');
        before = match entry_in(line, before) {
            Ok(entry) => return Some(entry),
            Err(others) => others,
        };
        left = rest.unwrap_or(&[]);
    }
    None
}

/// The entry of a line before which this many stand, or how many of these stand on later lines.
#[tactic(auto, using(crate::proofs::Numbers::passing_begun, crate::proofs::Numbers::passed_none, crate::proofs::Numbers::passed_one, crate::proofs::Numbers::found_one, crate::proofs::Numbers::all_passed))]
fn entry_in(line: &[u8], before: usize) -> Result<&[u8], usize>
    ensures { IsSought (entries_in line.now) before result }
{
    let mut others = before;
    let (described, _comment) = cut(line, b'#');
    let mut left = Some(described);
    while let Some(entries) = left {
        let (entry, rest) = cut(entries, b';');
        if has_field(entry) {
            if others == 0 {
                return Ok(entry);
            }
            others -= 1;
        }
        left = rest;
    }
    Err(others)
}

/// Whether an entry has a field: a byte that is no blank.
fn has_field(entry: &[u8]) -> bool
    ensures { result ≡ has_field entry.now }
{
    for byte in entry {
        if !is_blank_byte(*byte) {
            return true;
        }
    }
    false
}

/// Whether a byte separates fields: a space, a tab or a return.
fn is_blank_byte(byte: u8) -> bool
    ensures { result ≡ is_blank byte }
{
    byte == b' ' || byte == b'\t' || byte == b'\r'
}
