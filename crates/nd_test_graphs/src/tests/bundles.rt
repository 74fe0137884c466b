//! What no contract of `nd_bundle` says of small bundles: that they are read with ample memory, as the
//! worked examples say, by both readers.

use crate::tests::reading::{answer, both_answer, both_find, graph_of};
use nd_bundle::{GraphError, drv_path};
use nd_graph::{Graph, Input};
use nd_path::StorePath;
use nd_test_fixtures::bundles::{
    END, N0, N0_LINE, N0_ON, N0_TEXT, N1_ON, NEEDS_DEV, NEEDS_N0, joined,
};
use std::alloc::Global;
use std::thread::Threads;

/// The path of the derivation `n1`.
const N1: &[u8] = b"/nix/store/11111111111111111111111111111111-n1.drv";

/// The paths of the outputs of the two.
const O0: &[u8] = b"/nix/store/aaaaaaaaaaaaaaaaaaaaaaaaaaaaaaaa-n0";

const O1: &[u8] = b"/nix/store/bbbbbbbbbbbbbbbbbbbbbbbbbbbbbbbb-n1";

/// The input on `n1`.
const NEEDS_N1: &[u8] = b"(\"/nix/store/11111111111111111111111111111111-n1.drv\",[\"out\"])";

/// The input on `n0`, of which no output is named.
const NEEDS_NONE: &[u8] = b"(\"/nix/store/00000000000000000000000000000000-n0.drv\",[])";

#[test]
fn cycles(rt: HostRuntime) {
    let alloc = rt.alloc();
    let cycle = Some(GraphError::Cycle);
    let two = [N0_ON, NEEDS_N1, END, N1_ON, NEEDS_N0, END];
    assert!(rt; answer(&rt, alloc, &two, cycle));
    assert!(rt; answer(&rt, alloc, &[N0_ON, NEEDS_N0, END], cycle));
    assert!(rt; answer(&rt, alloc, &[N0_ON, NEEDS_N1, END, N1_ON, END], None));
}

#[test]
fn lines_refused(rt: HostRuntime) {
    let alloc = rt.alloc();
    assert!(rt; answer(&rt, alloc, &[], None));
    assert!(rt; answer(&rt, alloc, &[b"a"], Some(GraphError::BadLine(1))));
    let twice = Some(GraphError::Duplicate(2));
    assert!(rt; answer(&rt, alloc, &[N0_LINE, N0_LINE], twice));
    let empty = Some(GraphError::BadLine(3));
    assert!(rt; answer(&rt, alloc, &[N0_LINE, N0_LINE, b"\n"], empty));
}

#[test]
fn missing_inputs(rt: HostRuntime) {
    let alloc = rt.alloc();
    let input = Some(GraphError::MissingInput(1));
    assert!(rt; answer(&rt, alloc, &[N0_ON, NEEDS_N1, END], input));
    let output = Some(GraphError::MissingOutput(2));
    assert!(rt; answer(&rt, alloc, &[N0_LINE, N1_ON, NEEDS_DEV, END], output));
    assert!(rt; answer(&rt, alloc, &[N0_LINE, N1_ON, NEEDS_NONE, END], None));
}

#[test]
fn other_paths(rt: HostRuntime) {
    let wrong = Some(GraphError::WrongPath(1));
    assert!(rt; both_answer(&rt, rt.alloc(), N0_LINE, true, wrong));
}

/// Whether both readers, which check paths, take the line of `n0` under this path. Want of memory is
/// a no.
fn is_own_path<R: Threads + Sync>(rt: &R, alloc: Global, path: &StorePath) -> bool {
    match joined(alloc, &[path.bytes(), b" ", N0_TEXT]) {
        Ok(line) => both_find(rt, alloc, line.as_slice(), true, 1),
        Err(_) => false,
    }
}

/// Whether they do so under the path of its text.
fn is_line_taken<R: Threads + Sync>(rt: &R, alloc: Global) -> bool {
    match drv_path(alloc, b"n0.drv", N0_TEXT) {
        Ok(path) => is_own_path(rt, alloc, &path),
        Err(_) => false,
    }
}

#[test]
fn checked_paths(rt: HostRuntime) {
    assert!(rt; is_line_taken(&rt, rt.alloc()));
}

/// The graph of two lines: `n1` with the input `n0` and one source, and `n0`.
fn graph_of_both(alloc: Global) -> Option<Graph> {
    let source =
        b"],[\"/nix/store/pppppppppppppppppppppppppppppppp-s1\"],\"x86_64-linux\",\"/bin/sh\",[],[])\n";
    graph_of(alloc, &[N1_ON, NEEDS_N0, source, N0_LINE])
}

/// Whether the paths and needs are those of the two lines.
fn has_two_nodes(graph: &Graph) -> bool {
    graph.len() == 2
        && !graph.is_empty()
        && graph.path(0).bytes() == N1
        && graph.path(1).bytes() == N0
        && graph.need(1).system.as_slice() == b"x86_64-linux".as_slice()
        && graph.needs().len() == 2
}

/// Whether these are the first output alone of the second node.
fn is_second_node(inputs: &[Input]) -> bool {
    match inputs {
        [input] => input.node == 1 && input.outputs.as_slice() == [0].as_slice(),
        _ => false,
    }
}

/// Whether this is the first path alone that the first line gives.
fn is_first_output(outputs: &[StorePath]) -> bool {
    match outputs {
        [output] => output.bytes() == O1,
        _ => false,
    }
}

/// Whether the inputs, sources and outputs are those of the two lines.
fn has_two_links(graph: &Graph) -> bool {
    graph.len() == 2
        && is_second_node(graph.inputs(0))
        && graph.inputs(1).is_empty()
        && graph.sources(0).len() == 1
        && graph.sources(1).is_empty()
        && is_first_output(graph.outputs(0))
        && graph.order() == [1, 0].as_slice()
}

/// Whether all of a graph is that of the two lines.
fn is_of_both(graph: &Graph) -> bool {
    has_two_nodes(graph) && has_two_links(graph)
}

/// Whether the graph of the two lines is so. Want of memory is a no.
fn are_both_read(alloc: Global) -> bool {
    match graph_of_both(alloc) {
        Some(graph) => is_of_both(&graph),
        None => false,
    }
}

#[test]
fn graph_of_two(rt: HostRuntime) {
    assert!(rt; are_both_read(rt.alloc()));
}

/// The number of the node with this path, or none where there is none or memory is wanting.
fn number_in(alloc: Global, graph: &Graph, path: &[u8]) -> Option<usize> {
    match StorePath::parse(alloc, path) {
        Ok(path) => graph.index_of(&path),
        Err(_) => None,
    }
}

/// Whether `n0` has the number 1 in the graph of the two lines, `n1` 0, and an output none. Want of
/// memory is a no.
fn are_both_numbered(alloc: Global) -> bool {
    match graph_of_both(alloc) {
        Some(graph) => {
            number_in(alloc, &graph, N0) == Some(1)
                && number_in(alloc, &graph, N1) == Some(0)
                && number_in(alloc, &graph, O0).is_none()
        }
        None => false,
    }
}

#[test]
fn numbers_of_two(rt: HostRuntime) {
    assert!(rt; are_both_numbered(rt.alloc()));
}

/// Whether a copy of a graph is that of the two lines. Want of memory is a no.
fn is_copy_of_both(alloc: Global, graph: &Graph) -> bool {
    match graph.try_clone(alloc) {
        Ok(copy) => is_of_both(&copy),
        Err(_) => false,
    }
}

/// Whether a copy of their graph is. Want of memory is a no.
fn are_both_copied(alloc: Global) -> bool {
    match graph_of_both(alloc) {
        Some(graph) => is_copy_of_both(alloc, &graph),
        None => false,
    }
}

#[test]
fn copied_graph(rt: HostRuntime) {
    assert!(rt; are_both_copied(rt.alloc()));
}
