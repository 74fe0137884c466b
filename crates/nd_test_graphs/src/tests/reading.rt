//! Reading bundles with both readers of a graph, and with the one of its needs.

use nd_bundle::{GraphError, Needs, NeedsReader, plain, read_bundle};
use nd_graph::Graph;
use nd_test_fixtures::bundles::joined;
use std::alloc::Global;
use std::thread::Threads;

/// The needs of a bundle whose text comes at once.
pub(crate) fn needs_of<R: Threads + Sync>(
    rt: &R,
    alloc: Global,
    text: &[u8],
    check: bool,
) -> Result<Needs, GraphError> {
    let mut reader = NeedsReader::new(alloc, check);
    reader.feed(rt, text)?;
    reader.finish(rt)
}

/// Whether both readers and that of the needs, which check paths or don't, refuse a text for this reason, or take it where
/// there is none.
pub(crate) fn both_answer<R: Threads + Sync>(
    rt: &R,
    alloc: Global,
    text: &[u8],
    check: bool,
    want: Option<GraphError>,
) -> bool {
    plain::read_bundle(alloc, text, check).err() == want
        && read_bundle(rt, alloc, text, check).err() == want
        && needs_of(rt, alloc, text, check).err() == want
}

/// Whether they do so of these parts, and check no paths. Want of memory is a no.
pub(crate) fn answer<R: Threads + Sync>(
    rt: &R,
    alloc: Global,
    parts: &[&[u8]],
    want: Option<GraphError>,
) -> bool {
    match joined(alloc, parts) {
        Ok(text) => both_answer(rt, alloc, text.as_slice(), false, want),
        Err(_) => false,
    }
}

/// The number of nodes of an answer, or none where the text is refused.
pub(crate) fn size_of(read: Result<Graph, GraphError>) -> Option<usize> {
    match read {
        Ok(graph) => Some(graph.len()),
        Err(_) => None,
    }
}

/// The number of derivations of an answer, or none where the text is refused.
fn count_of(read: Result<Needs, GraphError>) -> Option<usize> {
    match read {
        Ok(needs) => Some(needs.places().len()),
        Err(_) => None,
    }
}

/// Whether both readers and that of the needs, which check paths or don't, find this many nodes in a text.
pub(crate) fn both_find<R: Threads + Sync>(
    rt: &R,
    alloc: Global,
    text: &[u8],
    check: bool,
    nodes: usize,
) -> bool {
    size_of(plain::read_bundle(alloc, text, check)) == Some(nodes)
        && size_of(read_bundle(rt, alloc, text, check)) == Some(nodes)
        && count_of(needs_of(rt, alloc, text, check)) == Some(nodes)
}

/// Whether they do so in these parts, and check no paths. Want of memory is a no.
pub(crate) fn find<R: Threads + Sync>(
    rt: &R,
    alloc: Global,
    parts: &[&[u8]],
    nodes: usize,
) -> bool {
    match joined(alloc, parts) {
        Ok(text) => both_find(rt, alloc, text.as_slice(), false, nodes),
        Err(_) => false,
    }
}

/// The graph of these parts, or none where they are refused or memory is wanting.
pub(crate) fn graph_of(alloc: Global, parts: &[&[u8]]) -> Option<Graph> {
    match joined(alloc, parts) {
        Ok(text) => plain::read_bundle(alloc, text.as_slice(), false).ok(),
        Err(_) => None,
    }
}
