//! Texts of sessions.

use nd_bytes::{cut, decimal};
use std::alloc::{AllocError, Global};

/// The text without its lines `ready`.
pub(crate) fn without_ready(alloc: Global, text: &[u8]) -> Result<Vec<u8>, AllocError> {
    let mut rest = Vec::new(alloc);
    for line in text.split(|byte| *byte == b'\n') {
        if line != b"ready".as_slice() {
            rest.extend_from_slice(line)?;
            rest.push(b'\n')?;
        }
    }
    // Behind the last newline there is no line.
    rest.pop();
    Ok(rest)
}

/// What `sim` writes before its report.
pub(crate) fn before_report(text: &[u8]) -> &[u8] {
    let mut is_before = true;
    let mut end = 0usize;
    for line in text.split(|byte| *byte == b'\n') {
        is_before = is_before && !line.starts_with(b"total ");
        if is_before {
            end = end.saturating_add(line.len()).saturating_add(1);
        }
    }
    let (front, _) = text.split_at(end.min(text.len()));
    front
}

/// How many lines `ready` a text has.
pub(crate) fn ready_count(text: &[u8]) -> usize {
    let mut count = 0usize;
    for line in text.split(|byte| *byte == b'\n') {
        if line == b"ready".as_slice() {
            count = count.saturating_add(1);
        }
    }
    count
}

/// How many newlines a text has.
pub(crate) fn newline_count(text: &[u8]) -> usize {
    let mut count = 0usize;
    for byte in text {
        if *byte == b'\n' {
            count = count.saturating_add(1);
        }
    }
    count
}

/// The first so many lines of a text, each with its newline.
pub(crate) fn first_lines(text: &[u8], count: usize) -> &[u8] {
    let mut left = count;
    let mut end = 0;
    for at in 0..text.len() {
        if left > 0 && text[at] == b'\n' {
            left -= 1;
            end = at + 1;
        }
    }
    let (front, _) = text.split_at(end.min(text.len()));
    front
}

/// The first so many answers of a text, each with its line `ready`.
pub(crate) fn first_answers(text: &[u8], count: usize) -> &[u8] {
    let mut left = count;
    let mut end = 0usize;
    for line in text.split(|byte| *byte == b'\n') {
        if left > 0 {
            end = end.saturating_add(line.len()).saturating_add(1);
            if line == b"ready".as_slice() {
                left -= 1;
            }
        }
    }
    let (front, _) = text.split_at(end.min(text.len()));
    front
}

/// The lines of a text behind the first so many.
pub(crate) fn later_lines(text: &[u8], count: usize) -> &[u8] {
    let front = first_lines(text, count).len();
    let (_, rest) = text.split_at(front.min(text.len()));
    rest
}

/// The derivation that has a lease by this line of an answer.
pub(crate) fn leased_in(line: &[u8]) -> Option<u32> {
    let (word, operands) = cut(line, b' ');
    let (number, rest) = cut(operands?, b' ');
    let is_chosen = word == b"chosen".as_slice();
    let is_leased = word == b"drv".as_slice() && rest?.starts_with(b"leased ");
    if is_chosen || is_leased {
        decimal(number, u32::MAX)
    } else {
        None
    }
}

/// A bundle of this number of derivations without inputs.
pub(crate) fn plain_bundle(alloc: Global, count: u32) -> Result<String, AllocError> {
    let mut bundle = String::new(alloc);
    for number in 0..count {
        let path = format!(in alloc; "/nix/store/00000000000000000000000000000000-n{number}.drv")?;
        let output = format!(in alloc; "/nix/store/aaaaaaaaaaaaaaaaaaaaaaaaaaaaaaaa-n{number}")?;
        bundle.push_str(path.as_str())?;
        bundle.push_str(" Derive([(\"out\",\"")?;
        bundle.push_str(output.as_str())?;
        bundle.push_str("\",\"\",\"\")],[],[],\"x86_64-linux\",\"/bin/sh\",[],[])\n")?;
    }
    Ok(bundle)
}

/// A command that starts each of so many derivations, and behind it one that ends it.
pub(crate) fn starts_and_ends(alloc: Global, count: u32) -> Result<Vec<u8>, AllocError> {
    let mut lines = Vec::new(alloc);
    for number in 0..count {
        let line = format!(in alloc; "start {number}\nbuilt {number}\n")?;
        lines.extend_from_slice(line.as_bytes())?;
    }
    Ok(lines)
}
