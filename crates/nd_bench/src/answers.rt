//! What is taken from the answers of the engines.

use crate::digests::{BEGIN, digest, joined};
use nd_bytes::cut;
use std::alloc::{AllocError, Global};

/// The beginnings of the lines of a history text.
const ENTRIES: [&[u8]; 9] = [
    b"chosen ",
    b"started ",
    b"built ",
    b"down ",
    b"failed ",
    b"drain ",
    b"enable ",
    b"nobuilder ",
    b"stop",
];

/// Whether a line is that of an entry.
fn is_entry(line: &[u8]) -> bool {
    ENTRIES.iter().any(|head| line.starts_with(*head))
}

/// The history text of what a simulation wrote.
pub(crate) fn history_of(alloc: Global, written: &[u8]) -> Result<Vec<u8>, AllocError> {
    let mut text = Vec::with_capacity(alloc, written.len().saturating_add(32))?;
    text.extend_from_slice(b"nix-dispatch-history 2\n")?;
    let mut rest = written;
    for _ in 0..written.len() {
        let (line, more) = cut(rest, b'\n');
        if line.starts_with(b"total ") {
            return Ok(text);
        }
        if is_entry(line) {
            text.extend_from_slice(line)?;
            text.push(b'\n')?;
        }
        match more {
            Some(more) => rest = more,
            None => return Ok(text),
        }
    }
    Ok(text)
}

/// A digest of what a run wrote, but for what depends on its threads: each line that says what was built or how all
/// stands, in any order. Beside it stand the length of the history, and the number of lines.
pub(crate) fn run_digest(written: &[u8]) -> (u64, usize) {
    let mut sum = 0u64;
    let mut lines = 0u64;
    let mut reported = false;
    let mut length = written.len();
    let mut rest = written;
    for _ in 0..written.len() {
        let (line, more) = cut(rest, b'\n');
        if line.starts_with(b"total ") && !reported {
            reported = true;
            length = written.len().saturating_sub(rest.len());
        }
        if reported || line.starts_with(b"built ") {
            sum = sum.wrapping_add(digest(BEGIN, line));
        }
        lines = lines.wrapping_add(1);
        match more {
            Some(more) => rest = more,
            None => return (joined(sum, lines), length),
        }
    }
    (joined(sum, lines), length)
}
