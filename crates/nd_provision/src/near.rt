//! A first test of reported references, against the paths that stand in the graph beside a derivation. It
//! copies nothing and takes no memory.

ghost use Rattle.std.specs.Prelude.{◌≡◌, ◌<◌, length, slice_get, Some, IsTrue};
ghost use Rattle.std.specs.List.{Contains};
ghost use Rattle.nd_provision.specs.Nearby.{IsAtPlace, IsOfInput, IsNear, AreNear, AreAllNear, AreAllEmpty};

use crate::needs::learn_graph;
use nd_graph::Graph;
use nd_path::{PathSet, StorePath};

/// How many paths may stand beside a derivation for the first test to be made, where each input counts one
/// more. Past these a search of a sorted set is quicker.
const FEW_PATHS: usize = 32;

/// How many references the first test may have to look for, where each list counts one more.
const FEW_REFERENCES: usize = 64;

/// Whether all of these references are seen to be needed by derivation `drv` at once or to be among its
/// outputs. A no says nothing: where there are many, none is looked at. Where there are none, nothing else is.
#[tactic(auto, using(crate::proofs::Nearness::list_more_near, crate::proofs::Nearness::none_near))]
pub(crate) fn are_near(graph: &Graph, drv: usize, lists: &[PathSet]) -> bool
    requires { drv < length graph.now.paths }
    ensures { IsTrue result → AreAllNear graph.now drv lists.now }
{
    if are_none(lists) {
        return true;
    }
    if !has_few(graph, drv) || !are_few(lists) {
        return false;
    }
    for list in lists {
        if !is_list_near(graph, drv, list.as_slice()) {
            return false;
        }
    }
    true
}

/// Whether there is no reference in these lists.
#[tactic(auto, using(crate::proofs::Nearness::one_more_empty))]
fn are_none(lists: &[PathSet]) -> bool
    ensures { IsTrue result → AreAllEmpty lists.now }
{
    for list in lists {
        if !list.is_empty() {
            return false;
        }
    }
    true
}

/// Whether few paths stand beside derivation `drv`.
fn has_few(graph: &Graph, drv: usize) -> bool
    requires { drv < length graph.now.paths }
{
    let mut left = FEW_PATHS;
    for input in graph.inputs(drv) {
        let named = input.outputs.as_slice().len();
        if named >= left {
            return false;
        }
        left -= named + 1;
    }
    let sources = graph.sources(drv).len();
    sources <= left && graph.outputs(drv).len() <= left - sources
}

/// Whether these are few references in few lists.
fn are_few(lists: &[PathSet]) -> bool {
    let mut left = FEW_REFERENCES;
    for list in lists {
        let here = list.len();
        if here >= left {
            return false;
        }
        left -= here + 1;
    }
    true
}

/// Whether each of these paths is near derivation `drv`.
#[tactic(auto, using(crate::proofs::Nearness::one_more_near))]
fn is_list_near(graph: &Graph, drv: usize, paths: &[StorePath]) -> bool
    requires { drv < length graph.now.paths }
    ensures { IsTrue result → AreNear graph.now drv paths.now }
{
    for path in paths {
        if !is_near(graph, drv, path) {
            return false;
        }
    }
    true
}

/// Whether derivation `drv` needs a path at once or has it as an output.
fn is_near(graph: &Graph, drv: usize, path: &StorePath) -> bool
    requires { drv < length graph.now.paths }
    ensures { IsTrue result → IsNear graph.now drv path.now }
{
    if is_of_input(graph, drv, path) {
        return true;
    }
    if is_one_of(graph.outputs(drv), path) {
        return true;
    }
    is_one_of(graph.sources(drv), path)
}

/// Whether a path is an output that derivation `drv` names of one of its inputs.
fn is_of_input(graph: &Graph, drv: usize, path: &StorePath) -> bool
    requires { drv < length graph.now.paths }
    ensures { IsTrue result → IsOfInput graph.now drv path.now }
{
    learn_graph(graph);
    for input in graph.inputs(drv) {
        let outputs = graph.outputs(input.node);
        if is_at_place(outputs, input.outputs.as_slice(), path) {
            return true;
        }
    }
    false
}

/// Whether a path stands at one of these places.
fn is_at_place(outputs: &[StorePath], places: &[usize], path: &StorePath) -> bool
    ensures { IsTrue result → IsAtPlace outputs.now places.now path.now }
{
    for place in places {
        if is_there(outputs, *place, path) {
            return true;
        }
    }
    false
}

/// Whether a path stands at this place.
fn is_there(outputs: &[StorePath], place: usize, path: &StorePath) -> bool
    ensures { IsTrue result → slice_get outputs.now place ≡ Some path.now }
{
    match outputs.get(place) {
        Some(output) => is_same(output, path),
        None => false,
    }
}

/// Whether a path is one of these.
fn is_one_of(paths: &[StorePath], path: &StorePath) -> bool
    ensures { IsTrue result → Contains paths.now path.now }
{
    for one in paths {
        if is_same(one, path) {
            return true;
        }
    }
    false
}

/// Whether these are the same path.
fn is_same(one: &StorePath, other: &StorePath) -> bool
    ensures { IsTrue result → one.now ≡ other.now }
{
    one == other
}
