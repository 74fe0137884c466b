//! What no contract of `nd_bundle` says of long bundles: that they are read with ample memory, and that
//! long chains need no deep recursion.

use crate::tests::reading::{both_answer, both_find, size_of};
use crate::tests::shapes::{Shape, push_line, text_of};
use nd_bundle::{GraphError, read_bundle};
use nd_graph::Graph;
use std::alloc::{AllocError, Global};
use std::thread::Threads;

/// A line with an output of which the path isn't known.
pub(crate) const UNKNOWN: &[u8] =
    b"/nix/store/00000000000000000000000000000000-n0.drv Derive([(\"out\",\"\",\"\",\"\")],[],[],\"x86_64-linux\",\"/bin/sh\",[],[])\n";

/// The odd line at this place, if there is one.
fn odd_line<'a>(odd: &[(usize, &'a [u8])], number: usize) -> Option<&'a [u8]> {
    for (place, line) in odd {
        if *place == number {
            return Some(line);
        }
    }
    None
}

/// So many lines, plain but for the odd ones at their places.
pub(crate) fn many(
    alloc: Global,
    len: usize,
    odd: &[(usize, &[u8])],
) -> Result<Vec<u8>, AllocError> {
    let mut text = Vec::new(alloc);
    for number in 0..len {
        match odd_line(odd, number) {
            Some(line) => text.extend_from_slice(line)?,
            None => push_line(&mut text, number, 0, 0)?,
        }
    }
    Ok(text)
}

/// Whether both readers find as many nodes in the plain lines. Want of memory is a no.
fn are_many_found<R: Threads + Sync>(rt: &R, alloc: Global) -> bool {
    match many(alloc, 4096, &[]) {
        Ok(text) => both_find(rt, alloc, text.as_slice(), false, 4096),
        Err(_) => false,
    }
}

#[test]
fn many_lines(rt: HostRuntime) {
    assert!(rt; are_many_found(&rt, rt.alloc()));
}

/// Whether both readers refuse the lines for this reason. Want of memory is a no.
fn are_odd_refused<R: Threads + Sync>(
    rt: &R,
    alloc: Global,
    len: usize,
    odd: &[(usize, &[u8])],
    want: GraphError,
) -> bool {
    match many(alloc, len, odd) {
        Ok(text) => both_answer(rt, alloc, text.as_slice(), false, Some(want)),
        Err(_) => false,
    }
}

#[test]
fn odd_lines(rt: HostRuntime) {
    let empty = [(2999, b"\n".as_slice()), (3999, b"\n".as_slice())];
    assert!(rt; are_odd_refused(&rt, rt.alloc(), 4096, &empty, GraphError::BadLine(3000)));
    let unknown = [(2999, UNKNOWN), (3999, b"\n".as_slice())];
    assert!(rt;
        are_odd_refused(
            &rt,
            rt.alloc(),
            4096,
            &unknown,
            GraphError::UnknownOutput(3000)
        )
    );
}

/// Where an odd line stands among 1,300 plain ones, which threads read in three pieces, or in two where there is one
/// processor: at the ends, and about where one piece ends and another begins.
const PLACES: [usize; 15] = [
    0, 1, 432, 433, 434, 435, 650, 651, 652, 866, 867, 868, 869, 1298, 1299,
];

/// Whether both readers refuse an empty line at each of these places, with its number. Want of memory is a no.
fn is_odd_refused_anywhere<R: Threads + Sync>(rt: &R, alloc: Global) -> bool {
    for place in PLACES {
        let odd = [(place, b"\n".as_slice())];
        if !are_odd_refused(rt, alloc, 1300, &odd, GraphError::BadLine(place + 1)) {
            return false;
        }
    }
    true
}

#[test]
fn odd_line_anywhere(rt: HostRuntime) {
    assert!(rt; is_odd_refused_anywhere(&rt, rt.alloc()));
}

/// Whether the graph has as many nodes, and the last one stands first in the order.
fn is_long_chain(graph: &Graph) -> bool {
    graph.len() == 65_536
        && graph.order().first().copied() == Some(65_535)
        && graph.order().last().copied() == Some(0)
}

/// Whether the chain of 65,536 lines is read as it should be.
fn is_chain_read<R: Threads + Sync>(rt: &R, alloc: Global, text: &[u8]) -> bool {
    match read_bundle(rt, alloc, text, false) {
        Ok(graph) => is_long_chain(&graph),
        Err(_) => false,
    }
}

/// Whether a text with the line of this node more, which needs those from `low` up to `high`, is
/// refused by many threads for this reason. Want of memory is a no.
fn is_refused_with<R: Threads + Sync>(
    rt: &R,
    alloc: Global,
    text: &mut Vec<u8>,
    line: (usize, usize, usize),
    want: GraphError,
) -> bool {
    let (node, low, high) = line;
    match push_line(text, node, low, high) {
        Ok(()) => read_bundle(rt, alloc, text.as_slice(), false).err() == Some(want),
        Err(_) => false,
    }
}

/// Whether the chain is read, is too long with a line more, and has a cycle with a node on itself.
fn is_chain<R: Threads + Sync>(rt: &R, alloc: Global, text: &mut Vec<u8>) -> bool {
    let itself = (65_537, 65_537, 65_538);
    is_chain_read(rt, alloc, text.as_slice())
        && is_refused_with(rt, alloc, text, (65_536, 0, 0), GraphError::TooMany)
        && is_refused_with(rt, alloc, text, itself, GraphError::Cycle)
}

/// The same of 65,536 lines, each of which needs the next one. Want of memory is a no.
fn is_falling_chain<R: Threads + Sync>(rt: &R, alloc: Global) -> bool {
    match text_of(alloc, Shape::Falling, 65_536) {
        Ok(mut text) => is_chain(rt, alloc, &mut text),
        Err(_) => false,
    }
}

#[test]
fn long_chain(rt: HostRuntime) {
    assert!(rt; is_falling_chain(&rt, rt.alloc()));
}

/// Whether 800 lines, each of which needs all those before it, are read, and have a cycle with a node
/// on itself. Want of memory is a no.
fn are_dense_read<R: Threads + Sync>(rt: &R, alloc: Global) -> bool {
    match text_of(alloc, Shape::Dense, 800) {
        Ok(mut text) => {
            size_of(read_bundle(rt, alloc, text.as_slice(), false)) == Some(800)
                && is_refused_with(rt, alloc, &mut text, (800, 800, 801), GraphError::Cycle)
        }
        Err(_) => false,
    }
}

#[test]
fn each_needs_all_before(rt: HostRuntime) {
    assert!(rt; are_dense_read(&rt, rt.alloc()));
}
