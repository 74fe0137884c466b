//! What no contract of `nd_closure` says: that its calls succeed with ample memory, that the worked
//! examples come out, what a refusal prints, and that a long chain is followed.
//!
//! A text is written here with the digits 1, 2 and 3 for the three paths, and a list of paths as
//! their digits.

use nd_closure::{InfoError, RefTable, Refs, parse_info, reach};
use nd_path::{PathSet, StorePath};
use std::alloc::{AllocError, Global};

/// The path that a digit stands for.
pub(crate) fn path_named(digit: u8) -> &'static [u8] {
    match digit {
        b'1' => b"/nix/store/pppppppppppppppppppppppppppppppp-s1",
        b'2' => b"/nix/store/qqqqqqqqqqqqqqqqqqqqqqqqqqqqqqqq-s2",
        _ => b"/nix/store/rrrrrrrrrrrrrrrrrrrrrrrrrrrrrrrr-s3",
    }
}

/// The text with the paths in the place of their digits.
fn spelled(alloc: Global, text: &[u8]) -> Result<Vec<u8>, AllocError> {
    let mut bytes = Vec::new(alloc);
    for byte in text {
        match *byte {
            b'1'..=b'3' => bytes.extend_from_slice(path_named(*byte))?,
            other => bytes.push(other)?,
        }
    }
    Ok(bytes)
}

/// The path with these bytes.
pub(crate) fn path(alloc: Global, bytes: &[u8]) -> Result<StorePath, AllocError> {
    match StorePath::parse(alloc, bytes) {
        Ok(path) => Ok(path),
        Err(_) => Err(AllocError),
    }
}

/// The set of the paths that these digits stand for.
pub(crate) fn set(alloc: Global, digits: &[u8]) -> Result<PathSet, AllocError> {
    let mut paths = Vec::new(alloc);
    for digit in digits {
        paths.push(path(alloc, path_named(*digit))?)?;
    }
    PathSet::from_vec(paths)
}

/// Whether these are just the paths that the digits stand for, in this order.
pub(crate) fn are(paths: &[StorePath], digits: &[u8]) -> bool {
    if paths.len() != digits.len() {
        return false;
    }
    for (path, digit) in paths.iter().zip(digits) {
        if path.bytes() != path_named(*digit) {
            return false;
        }
    }
    true
}

/// The table of a text.
fn table_of(alloc: Global, text: &[u8]) -> Result<RefTable, InfoError> {
    let text = spelled(alloc, text)?;
    parse_info(alloc, text.as_slice())
}

/// What the seed reaches by a table.
fn reached(alloc: Global, table: &RefTable, seed: &[u8]) -> Result<PathSet, AllocError> {
    let seed = path(alloc, seed)?;
    reach(alloc, std::slice::from_ref(&seed), table)
}

/// Whether the seed reaches just these paths under the text. Want of memory is a no.
fn reaches(alloc: Global, text: &[u8], seed: u8, digits: &[u8]) -> bool {
    let Ok(table) = table_of(alloc, text) else {
        return false;
    };
    match reached(alloc, &table, path_named(seed)) {
        Ok(found) => are(found.as_slice(), digits),
        Err(_) => false,
    }
}

/// Paths that refer to themselves and to one another, in any order and repeatedly.
const CIRCLE: &[u8] = b"1 3 1 3\n3 2\n2 1\n";

/// Whether the copy of a table has just these references of the first path. Want of memory is a no.
fn refers(alloc: Global, table: &RefTable, digits: &[u8]) -> bool {
    let Ok(first) = path(alloc, path_named(b'1')) else {
        return false;
    };
    match table.try_clone() {
        Ok(copy) => are(copy.refs(&first), digits),
        Err(_) => false,
    }
}

/// Whether they are those of the first line of the circle.
fn is_circle_copied(alloc: Global) -> bool {
    match table_of(alloc, CIRCLE) {
        Ok(table) => refers(alloc, &table, b"13"),
        Err(_) => false,
    }
}

#[test]
fn info_references(rt: HostRuntime) {
    let alloc = rt.alloc();
    assert!(rt; reaches(alloc, b"1 2", b'1', b"12"));
    assert!(rt; reaches(alloc, b"1 2", b'2', b"2"));
    assert!(rt; reaches(alloc, b"", b'1', b"1"));
    assert!(rt; reaches(alloc, CIRCLE, b'2', b"123"));
    assert!(rt; is_circle_copied(alloc));
}

/// The line by which a text is refused, or none where it is taken or memory is wanting.
fn bad_line(alloc: Global, text: &[u8]) -> Option<usize> {
    match table_of(alloc, text) {
        Err(InfoError::BadLine(line)) => Some(line),
        _ => None,
    }
}

/// Whether a refusal prints as it should. Want of memory is a no.
fn is_refusal_printed(alloc: Global) -> bool {
    match format!(in alloc; "{}", InfoError::BadLine(3)) {
        Ok(line) => line.as_str() == "BadLine 3",
        Err(_) => false,
    }
}

/// Bad texts, each with its first bad line.
const BAD: &[(&[u8], usize)] = &[
    (b"\n", 1),
    (b"1\n\n2", 2),
    (b"1\n2 x\n", 2),
    (b"1  2\n", 1),
    (b"1 \n", 1),
    (b" 1\n", 1),
    (b"1 2\n2\n1 3\nx", 3),
];

#[test]
fn bad_info_lines(rt: HostRuntime) {
    for (text, line) in BAD {
        assert!(rt; bad_line(rt.alloc(), text) == Some(*line), "line {line}");
    }
    assert!(rt; is_refusal_printed(rt.alloc()));
}

/// A copy of the references of two outputs: two paths, and none.
fn references(alloc: Global) -> Result<Refs, AllocError> {
    let mut sets = Vec::new(alloc);
    sets.push(set(alloc, b"21")?)?;
    sets.push(PathSet::new(alloc))?;
    Refs::new(sets).try_clone()
}

/// Whether these are two lists, of two paths and of none.
fn are_two_lists(lists: &[PathSet]) -> bool {
    match lists {
        [first, second] => first.len() == 2 && second.is_empty(),
        _ => false,
    }
}

/// Whether they are so in the copy. Want of memory is a no.
fn are_references_copied(alloc: Global) -> bool {
    match references(alloc) {
        Ok(refs) => are_two_lists(refs.lists()),
        Err(_) => false,
    }
}

#[test]
fn reported_references(rt: HostRuntime) {
    assert!(rt; are_references_copied(rt.alloc()));
}

/// The path of a number.
fn numbered(alloc: Global, number: u32) -> Result<StorePath, AllocError> {
    let text = format!(in alloc; "/nix/store/aaaaaaaaaaaaaaaaaaaaaaaaaaaaaaaa-n{number}")?;
    path(alloc, text.as_bytes())
}

/// The set of the path of a number alone.
fn alone(alloc: Global, number: u32) -> Result<PathSet, AllocError> {
    let mut paths = Vec::new(alloc);
    paths.push(numbered(alloc, number)?)?;
    PathSet::from_vec(paths)
}

/// Adds the reference from the path of a number to that of another, and says whether it did.
fn link(alloc: Global, table: &mut RefTable, from: u32, to: u32) -> Result<bool, AllocError> {
    let refs = alone(alloc, to)?;
    table.add(numbered(alloc, from)?, refs)
}

/// The table in which the path of each number below 65,536 refers to that of the next, and whether
/// each reference was added.
fn chain(alloc: Global) -> Result<(RefTable, bool), AllocError> {
    let mut table = RefTable::new(alloc);
    table.reserve(65_536)?;
    let mut added = true;
    for number in 0..65_536u32 {
        added &= link(alloc, &mut table, number, number + 1)?;
    }
    Ok((table, added))
}

/// The number of paths that the first one reaches by a table, or none where memory is wanting.
fn reached_from_first(alloc: Global, table: &RefTable) -> Option<usize> {
    match reached(
        alloc,
        table,
        b"/nix/store/aaaaaaaaaaaaaaaaaaaaaaaaaaaaaaaa-n0",
    ) {
        Ok(found) => Some(found.len()),
        Err(_) => None,
    }
}

/// Whether the chain is made, and the first path reaches all 65,537. Want of memory is a no.
fn is_chain_followed(alloc: Global) -> bool {
    match chain(alloc) {
        Ok((table, added)) => added && reached_from_first(alloc, &table) == Some(65_537),
        Err(_) => false,
    }
}

#[test]
fn long_chain(rt: HostRuntime) {
    assert!(rt; is_chain_followed(rt.alloc()));
}
