//! The lines of entries. A store path is told by its name alone, since no two paths of the examples have
//! the same one.

use nd_history::{Entry, Why};
use nd_path::PathSet;
use std::alloc::{AllocError, Global};

/// Writes a word and these numbers behind it, with a space before each.
fn push_words(
    alloc: Global,
    lines: &mut Vec<u8>,
    word: &str,
    numbers: &[u32],
) -> Result<(), AllocError> {
    lines.extend_from_slice(word.as_bytes())?;
    for number in numbers {
        lines.extend_from_slice(format!(in alloc; " {number}")?.as_bytes())?;
    }
    Ok(())
}

/// Writes why a lease ended without its outputs.
fn push_cause(alloc: Global, lines: &mut Vec<u8>, why: Why) -> Result<(), AllocError> {
    match why {
        Why::Status(status) => push_words(alloc, lines, " status", &[u32::from(status)]),
        Why::Lost => push_words(alloc, lines, " lost", &[]),
        Why::BadReferences => push_words(alloc, lines, " references", &[]),
        Why::NoWorker => push_words(alloc, lines, " noworker", &[]),
        Why::Memory => push_words(alloc, lines, " memory", &[]),
    }
}

/// Writes the names of these paths, with a space before each.
fn push_names(lines: &mut Vec<u8>, paths: &PathSet) -> Result<(), AllocError> {
    for path in paths.as_slice() {
        lines.push(b' ')?;
        lines.extend_from_slice(path.name())?;
    }
    Ok(())
}

/// Writes these lists of paths, with an `o` before each.
fn push_lists(lines: &mut Vec<u8>, lists: &[PathSet]) -> Result<(), AllocError> {
    for list in lists {
        lines.extend_from_slice(b" o")?;
        push_names(lines, list)?;
    }
    Ok(())
}

/// Writes the words of an entry before its paths and its cause.
fn push_head(alloc: Global, lines: &mut Vec<u8>, entry: &Entry) -> Result<(), AllocError> {
    match entry {
        Entry::Chosen { drv, machine, slot } => {
            push_words(alloc, lines, "chosen", &[*drv, *machine, *slot])
        }
        Entry::NoBuilder { drv } => push_words(alloc, lines, "nobuilder", &[*drv]),
        Entry::Started { drv, .. } => push_words(alloc, lines, "started", &[*drv]),
        Entry::Down { drv } => push_words(alloc, lines, "down", &[*drv]),
        Entry::Built { drv, .. } => push_words(alloc, lines, "built", &[*drv]),
        Entry::Failed { drv, .. } => push_words(alloc, lines, "failed", &[*drv]),
        Entry::Stop => push_words(alloc, lines, "stop", &[]),
        Entry::Drain { machine } => push_words(alloc, lines, "drain", &[*machine]),
        Entry::Enable { machine } => push_words(alloc, lines, "enable", &[*machine]),
    }
}

/// Writes the line of an entry.
fn push_entry(alloc: Global, lines: &mut Vec<u8>, entry: &Entry) -> Result<(), AllocError> {
    push_head(alloc, lines, entry)?;
    match entry {
        Entry::Started { paths, .. } => push_names(lines, paths)?,
        Entry::Built { refs, .. } => push_lists(lines, refs.lists())?,
        Entry::Failed { why, .. } => push_cause(alloc, lines, *why)?,
        _ => {}
    }
    lines.push(b'\n')?;
    Ok(())
}

/// The lines of these entries.
pub fn told(alloc: Global, history: &[Entry]) -> Result<Vec<u8>, AllocError> {
    let mut lines = Vec::new(alloc);
    for entry in history {
        push_entry(alloc, &mut lines, entry)?;
    }
    Ok(lines)
}
