//! What no contract of `nd_bundle` says of a bundle that comes in blocks: that it is read with ample memory,
//! wherever it is cut. Its answer is that of the reader of whole bundles.

use crate::tests::long_bundles::{UNKNOWN, many};
use crate::tests::reading::size_of;
use crate::tests::shapes::{Shape, push_line, text_of};
use nd_bundle::{BundleReader, GraphError, read_bundle};
use nd_graph::Graph;
use std::alloc::{AllocError, Global};
use std::thread::Threads;

/// The answer for a text that comes in these blocks.
fn read_parts<R: Threads + Sync>(
    rt: &R,
    alloc: Global,
    parts: &[&[u8]],
) -> Result<Graph, GraphError> {
    let mut reader = BundleReader::new(alloc, false);
    for part in parts {
        reader.feed(rt, part)?;
    }
    reader.finish(rt)
}

/// The answer for a text that comes in blocks of so many bytes.
fn read_blocks<R: Threads + Sync>(
    rt: &R,
    alloc: Global,
    text: &[u8],
    size: usize,
) -> Result<Graph, GraphError> {
    let mut reader = BundleReader::new(alloc, false);
    for block in text.chunks(size.max(1)) {
        reader.feed(rt, block)?;
    }
    reader.finish(rt)
}

/// What is looked at of an answer: the number of nodes and the place of the last one in the order, or the refusal.
#[derive(Clone, Copy, Debug, PartialEq, Eq)]
enum Seen {
    /// A graph with so many nodes, the first of which in the order is this one.
    Nodes(usize, Option<usize>),
    /// This refusal.
    Refused(GraphError),
}

/// What is looked at of an answer.
fn seen_of(read: Result<Graph, GraphError>) -> Seen {
    match read {
        Ok(graph) => Seen::Nodes(graph.len(), graph.order().first().copied()),
        Err(fault) => Seen::Refused(fault),
    }
}

/// Whether the text has this answer where it is cut at this place into two parts, with an empty one before, between
/// and behind them.
fn is_read_cut<R: Threads + Sync>(
    rt: &R,
    alloc: Global,
    text: &[u8],
    place: usize,
    want: Seen,
) -> bool {
    let (front, back) = text.split_at(place.min(text.len()));
    let none: &[u8] = &[];
    seen_of(read_parts(rt, alloc, &[none, front, none, back, none])) == want
}

/// Whether the text has the answer of the reader of whole bundles wherever it is cut into two.
fn is_read_however_cut<R: Threads + Sync>(rt: &R, alloc: Global, text: &[u8]) -> bool {
    let want = seen_of(read_bundle(rt, alloc, text, false));
    for place in 0..text.len() {
        if !is_read_cut(rt, alloc, text, place, want) {
            return false;
        }
    }
    is_read_cut(rt, alloc, text, text.len(), want)
}

/// Whether it is so of five lines, with their last newline and without it. Want of memory is a no.
fn are_five_read<R: Threads + Sync>(rt: &R, alloc: Global) -> bool {
    match text_of(alloc, Shape::Five, 5) {
        Ok(text) => {
            let (front, _) = text.as_slice().split_at(text.len().saturating_sub(1));
            size_of(read_bundle(rt, alloc, front, false)) == Some(5)
                && is_read_however_cut(rt, alloc, text.as_slice())
                && is_read_however_cut(rt, alloc, front)
        }
        Err(_) => false,
    }
}

#[test]
fn short_bundle_cut_anywhere(rt: HostRuntime) {
    assert!(rt; are_five_read(&rt, rt.alloc()));
}

/// Whether it is so of five lines of which the third is refused, and the fifth for another reason. Want of memory
/// is a no.
fn are_five_refused<R: Threads + Sync>(rt: &R, alloc: Global) -> bool {
    let odd = [(2, UNKNOWN), (4, b"\n".as_slice())];
    match many(alloc, 5, &odd) {
        Ok(text) => {
            seen_of(read_bundle(rt, alloc, text.as_slice(), false))
                == Seen::Refused(GraphError::UnknownOutput(3))
                && is_read_however_cut(rt, alloc, text.as_slice())
        }
        Err(_) => false,
    }
}

#[test]
fn refused_bundle_cut_anywhere(rt: HostRuntime) {
    assert!(rt; are_five_refused(&rt, rt.alloc()));
}

/// The answer for a text that comes byte by byte.
fn read_bytes<R: Threads + Sync>(rt: &R, alloc: Global, text: &[u8]) -> Result<Graph, GraphError> {
    read_blocks(rt, alloc, text, 1)
}

/// Whether 20 lines that come byte by byte are read. Want of memory is a no.
fn are_bytes_read<R: Threads + Sync>(rt: &R, alloc: Global) -> bool {
    match text_of(alloc, Shape::Falling, 20) {
        Ok(text) => { seen_of(read_bytes(rt, alloc, text.as_slice())) == Seen::Nodes(20, Some(19)) }
        Err(_) => false,
    }
}

#[test]
fn bundle_byte_by_byte(rt: HostRuntime) {
    assert!(rt; are_bytes_read(&rt, rt.alloc()));
}

/// How many of 1,300 lines stand before a cut: none, one, some that end where one piece of many threads ends and
/// another begins, and almost all and all.
const COUNTS: [usize; 9] = [0, 1, 433, 434, 650, 866, 867, 1299, 1300];

/// Whether a text of 1,300 lines has this answer where it is cut a byte before, at and a byte behind the end of so
/// many lines as plain as the first of its own. Want of memory is a no.
fn is_read_about<R: Threads + Sync>(
    rt: &R,
    alloc: Global,
    text: &[u8],
    count: usize,
    want: Seen,
) -> bool {
    match many(alloc, count, &[]) {
        Ok(front) => {
            let place = front.len();
            is_read_cut(rt, alloc, text, place.saturating_sub(1), want)
                && is_read_cut(rt, alloc, text, place, want)
                && is_read_cut(rt, alloc, text, place.saturating_add(1), want)
        }
        Err(_) => false,
    }
}

/// Whether 1,300 lines with these odd ones have this answer wherever they are cut about the end of a line. Want of
/// memory is a no.
fn are_long_read<R: Threads + Sync>(
    rt: &R,
    alloc: Global,
    odd: &[(usize, &[u8])],
    want: Seen,
) -> bool {
    let Ok(text) = many(alloc, 1300, odd) else {
        return false;
    };
    for count in COUNTS {
        if !is_read_about(rt, alloc, text.as_slice(), count, want) {
            return false;
        }
    }
    true
}

#[test]
fn long_bundle_cut_at_lines(rt: HostRuntime) {
    assert!(rt; are_long_read(&rt, rt.alloc(), &[], Seen::Nodes(1300, Some(0))));
}

#[test]
fn refused_long_bundle_cut_at_lines(rt: HostRuntime) {
    let odd = [(650, UNKNOWN), (1299, b"\n".as_slice())];
    let want = Seen::Refused(GraphError::UnknownOutput(651));
    assert!(rt; are_long_read(&rt, rt.alloc(), &odd, want));
}

/// A thousand plain lines, and ten that need all those before them, each of which has more than 64 KiB.
fn long_lines(alloc: Global) -> Result<Vec<u8>, AllocError> {
    let mut text = many(alloc, 1000, &[])?;
    for node in 1000..1010 {
        push_line(&mut text, node, 0, node)?;
    }
    Ok(text)
}

/// Whether these are read in blocks that are shorter than such a line, and in longer ones. Want of memory is a no.
fn are_long_lines_read<R: Threads + Sync>(rt: &R, alloc: Global) -> bool {
    match long_lines(alloc) {
        Ok(text) => {
            text.len() > 800_000
                && size_of(read_blocks(rt, alloc, text.as_slice(), 30_000)) == Some(1010)
                && size_of(read_blocks(rt, alloc, text.as_slice(), 140_000)) == Some(1010)
        }
        Err(_) => false,
    }
}

#[test]
fn long_lines_in_short_blocks(rt: HostRuntime) {
    assert!(rt; are_long_lines_read(&rt, rt.alloc()));
}

/// Whether the text has this answer as a whole, and where it comes in three parts of the same length.
fn is_read_in_blocks<R: Threads + Sync>(rt: &R, alloc: Global, text: &[u8], want: Seen) -> bool {
    let (front, rest) = text.split_at(text.len() / 3);
    let (middle, back) = rest.split_at(rest.len() / 2);
    seen_of(read_bundle(rt, alloc, text, false)) == want
        && seen_of(read_parts(rt, alloc, &[front, middle, back])) == want
}

/// Whether 16,384 lines in blocks of which each has enough for many threads have this answer with a line that is refused
/// at this place and the first line again behind it, where there is such a place. Want of memory is a no.
fn are_blocks_read<R: Threads + Sync>(rt: &R, alloc: Global, refused: usize, want: Seen) -> bool {
    let Ok(first) = many(alloc, 1, &[]) else {
        return false;
    };
    match many(
        alloc,
        16384,
        &[(refused, UNKNOWN), (16383, first.as_slice())],
    ) {
        Ok(text) => {
            seen_of(read_bundle(rt, alloc, text.as_slice(), false)) == want
                && seen_of(read_blocks(rt, alloc, text.as_slice(), 140_000)) == want
                && seen_of(read_blocks(rt, alloc, text.as_slice(), 262_144)) == want
        }
        Err(_) => false,
    }
}

#[test]
fn refused_in_the_first_block(rt: HostRuntime) {
    let want = Seen::Refused(GraphError::UnknownOutput(1));
    assert!(rt; are_blocks_read(&rt, rt.alloc(), 0, want));
}

#[test]
fn refused_in_a_block_between(rt: HostRuntime) {
    let want = Seen::Refused(GraphError::UnknownOutput(9001));
    assert!(rt; are_blocks_read(&rt, rt.alloc(), 9000, want));
}

#[test]
fn refused_in_the_last_block(rt: HostRuntime) {
    let want = Seen::Refused(GraphError::UnknownOutput(16383));
    assert!(rt; are_blocks_read(&rt, rt.alloc(), 16382, want));
}

#[test]
fn repeat_in_the_last_block(rt: HostRuntime) {
    let want = Seen::Refused(GraphError::Duplicate(16384));
    assert!(rt; are_blocks_read(&rt, rt.alloc(), 16384, want));
}

/// Whether 4,096 lines, each third of them enough for many threads, have this answer with the first line again at this
/// place and a line that is refused at that one, where there is such a place. Want of memory is a no.
fn is_repeat_read<R: Threads + Sync>(
    rt: &R,
    alloc: Global,
    again: usize,
    refused: usize,
    want: Seen,
) -> bool {
    let Ok(first) = many(alloc, 1, &[]) else {
        return false;
    };
    match many(
        alloc,
        4096,
        &[(again, first.as_slice()), (refused, UNKNOWN)],
    ) {
        Ok(text) => is_read_in_blocks(rt, alloc, text.as_slice(), want),
        Err(_) => false,
    }
}

#[test]
fn long_bundle_in_blocks(rt: HostRuntime) {
    assert!(rt; is_repeat_read(&rt, rt.alloc(), 4096, 4096, Seen::Nodes(4096, Some(0))));
}

#[test]
fn repeat_within_a_block(rt: HostRuntime) {
    let want = Seen::Refused(GraphError::Duplicate(2));
    assert!(rt; is_repeat_read(&rt, rt.alloc(), 1, 4096, want));
}

#[test]
fn repeat_in_another_block(rt: HostRuntime) {
    let want = Seen::Refused(GraphError::Duplicate(4001));
    assert!(rt; is_repeat_read(&rt, rt.alloc(), 4000, 4096, want));
}

#[test]
fn refused_line_behind_a_repeat(rt: HostRuntime) {
    let want = Seen::Refused(GraphError::UnknownOutput(4001));
    assert!(rt; is_repeat_read(&rt, rt.alloc(), 1, 4000, want));
}

#[test]
fn refused_line_before_a_repeat(rt: HostRuntime) {
    let want = Seen::Refused(GraphError::UnknownOutput(1001));
    assert!(rt; is_repeat_read(&rt, rt.alloc(), 3000, 1000, want));
}
