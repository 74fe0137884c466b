//! The graph of derivations.

ghost use Rattle.std.specs.Prelude.{◌≡◌, ◌==◌, ◌<◌, length, slice_get, [], IfOk, IfErr};
ghost use Rattle.std.specs.List.{slice_index_or};
ghost use Rattle.nd_graph.specs.Graphs.{needed, nodes_of, nodes_with, rows_of, IsNumber, IsOrderFault, IsSound};
ghost use Rattle.nd_graph.specs.Walks.{inputs_of, IsAcyclic, IsOrder, PlacesFall};

use crate::fault::OrderError;
use crate::number::find_path;
use crate::order::find_order;
use crate::places::Places;
use indexmap::IndexSet;
use nd_bytes::Items;
use nd_eligible::Need;
use nd_path::StorePath;
use std::alloc::{AllocError, Global};
use std::marker::Model;

/// The greatest number of nodes.
pub const NODE_LIMIT: usize = 65_536;

/// An input of a node: a node that it needs.
#[derive(Drop, Debug)]
pub struct Input {
    /// The number of the node that is needed.
    pub node: usize,
    /// The places of the outputs that are named of it, in its list of outputs; maybe none.
    pub outputs: Places,
}

impl Input {
    /// A copy that is equal to the original.
    pub fn try_clone(&self, alloc: Global) -> Result<Input, AllocError>
        ensures { IfOk result (λ input. input ≡ self.now) }
    {
        Ok(Input {
            node: self.node,
            outputs: self.outputs.try_clone(alloc)?,
        })
    }
}

/// The nodes of a bundle, numbered from 0 in bundle order: at most [`NODE_LIMIT`], with distinct
/// paths, and none below itself. Contracts see the lists of the nodes' paths, needs, inputs, sources
/// and outputs.
#[derive(Drop, Debug)]
pub struct Graph {
    paths: IndexSet<StorePath>,
    needs: Vec<Need>,
    inputs: Vec<Items<Input>>,
    sources: Vec<Items<StorePath>>,
    outputs: Vec<Items<StorePath>>,
    order: Vec<usize>,
}

impl Model for Graph {
    ghost use Rattle.nd_graph.specs.Graphs.{Nodes, IsGraph, nodes_with};

    ghost Value = { Nodes };

    ghost view = { λ g. nodes_with g.paths.keys g.needs.items g.inputs.items g.sources.items g.outputs.items };

    ghost invariant = { λ g. IsGraph (nodes_with g.paths.keys g.needs.items g.inputs.items g.sources.items g.outputs.items) g.order.items };
}

impl Graph {
    /// The graph of these parts: the item of each list for node 0, 1, 2 .. Their lists have one
    /// length, at most [`NODE_LIMIT`]; each input's node and the places of its outputs are there.
    ///
    /// Refuses with `Cycle` where some node needs itself, directly or through others, and with
    /// `Memory` where an allocation is refused.
    #[tactic(auto, using(crate::proofs::Walked::acyclic))]
    pub fn new(
        alloc: Global,
        paths: IndexSet<StorePath>,
        needs: Vec<Need>,
        inputs: Vec<Items<Input>>,
        sources: Vec<Items<StorePath>>,
        outputs: Vec<Items<StorePath>>,
    ) -> Result<Graph, OrderError>
        requires { IsSound (nodes_with paths.keys needs.items inputs.items sources.items outputs.items) }
        ensures parts { IfOk result (λ graph. graph ≡ nodes_with paths.keys needs.items inputs.items sources.items outputs.items) }
        ensures sound { IfOk result IsSound }
        ensures acyclic { IfOk result (λ graph. IsAcyclic (rows_of graph)) }
        ensures err { IfErr result (λ fault. IsOrderFault (needed inputs.items) fault) }
    {
        let order = find_order(alloc, inputs.as_slice())?;
        Ok(Graph {
            paths,
            needs,
            inputs,
            sources,
            outputs,
            order,
        })
    }

    /// The number of nodes.
    pub fn len(&self) -> usize
        ensures len { result ≡ length self.now.paths }
        ensures rows { result ≡ length (rows_of self.now) }
        ensures sound { IsSound self.now }
    {
        self.paths.as_slice().len()
    }

    /// Whether there is no node.
    pub fn is_empty(&self) -> bool
        ensures { result ≡ (length self.now.paths == 0) }
    {
        self.paths.as_slice().is_empty()
    }

    /// The path of node `i`.
    pub fn path(&self, i: usize) -> &StorePath
        requires { i < length self.now.paths }
        ensures { result.now ≡ slice_index_or self.now.paths i [] }
    {
        &self.paths.as_slice()[i]
    }

    /// What node `i` needs of the machine that builds it.
    pub fn need(&self, i: usize) -> &Need
        requires { i < length self.now.paths }
        ensures { slice_get self.now.needs i ≡ Some result.now }
    {
        &self.needs[i]
    }

    /// What each node needs of the machine that builds it.
    pub fn needs(&self) -> &[Need]
        ensures needs { result.now ≡ self.now.needs }
        ensures len { length result.now ≡ length self.now.paths }
    {
        self.needs.as_slice()
    }

    /// The inputs of node `i`.
    #[tactic(auto, using(crate::proofs::Rows::row_of))]
    pub fn inputs(&self, i: usize) -> &[Input]
        requires { i < length self.now.paths }
        ensures inputs { result.now ≡ slice_index_or self.now.inputs i [] }
        ensures nodes { nodes_of result.now ≡ inputs_of (rows_of self.now) i }
    {
        self.inputs[i].as_slice()
    }

    /// The input sources of node `i`.
    pub fn sources(&self, i: usize) -> &[StorePath]
        requires { i < length self.now.paths }
        ensures { result.now ≡ slice_index_or self.now.sources i [] }
    {
        self.sources[i].as_slice()
    }

    /// The output paths of node `i`, in the order of the outputs' names.
    pub fn outputs(&self, i: usize) -> &[StorePath]
        requires { i < length self.now.paths }
        ensures { result.now ≡ slice_index_or self.now.outputs i [] }
    {
        self.outputs[i].as_slice()
    }

    /// The number of the node with this path. The path is looked up by hash.
    pub fn index_of(&self, path: &StorePath) -> Option<usize>
        ensures { IsNumber self.now.paths path.now result }
    {
        find_path(&self.paths, path)
    }

    /// The nodes, each once and after its inputs.
    #[tactic(auto, using(crate::proofs::Walked::acyclic, crate::proofs::Walked::places_fall))]
    pub fn order(&self) -> &[usize]
        ensures ordered { IsOrder (rows_of self.now) result.now }
        ensures acyclic { IsAcyclic (rows_of self.now) }
        ensures fall { PlacesFall (rows_of self.now) result.now }
    {
        self.order.as_slice()
    }

    /// A copy that is equal to the original.
    pub fn try_clone(&self, alloc: Global) -> Result<Graph, AllocError>
        ensures { IfOk result (λ graph. graph ≡ self.now) }
    {
        Ok(Graph {
            paths: copy_paths(&self.paths)?,
            needs: copy_needs(alloc, self.needs.as_slice())?,
            inputs: copy_inputs(alloc, self.inputs.as_slice())?,
            sources: copy_path_lists(alloc, self.sources.as_slice())?,
            outputs: copy_path_lists(alloc, self.outputs.as_slice())?,
            order: Vec::from_slice(alloc, self.order.as_slice())?,
        })
    }
}

/// A copy of the paths.
fn copy_paths(paths: &IndexSet<StorePath>) -> Result<IndexSet<StorePath>, AllocError>
    ensures { IfOk result (λ copy. copy.keys ≡ paths.now.keys) }
{
    paths.clone()
}

/// A copy of the needs.
fn copy_needs(alloc: Global, needs: &[Need]) -> Result<Vec<Need>, AllocError>
    ensures { IfOk result (λ copy. copy.items ≡ needs.now) }
{
    let mut copy = Vec::with_capacity(alloc, needs.len())?;
    for need in needs {
        copy.push(need.try_clone(alloc)?)?;
    }
    Ok(copy)
}

/// A copy of the inputs of nodes.
fn copy_inputs(alloc: Global, rows: &[Items<Input>]) -> Result<Vec<Items<Input>>, AllocError>
    ensures { IfOk result (λ copy. copy.items ≡ rows.now) }
{
    let mut copy = Vec::with_capacity(alloc, rows.len())?;
    for row in rows {
        copy.push(copy_row(alloc, row)?)?;
    }
    Ok(copy)
}

/// A copy of the inputs of a node.
fn copy_row(alloc: Global, row: &Items<Input>) -> Result<Items<Input>, AllocError>
    ensures { IfOk result (λ copy. copy ≡ row.now) }
{
    let inputs = row.as_slice();
    let mut copy = Vec::with_capacity(alloc, inputs.len())?;
    for input in inputs {
        copy.push(input.try_clone(alloc)?)?;
    }
    Ok(Items::new(copy))
}

/// A copy of lists of paths.
fn copy_path_lists(
    alloc: Global,
    lists: &[Items<StorePath>],
) -> Result<Vec<Items<StorePath>>, AllocError>
    ensures { IfOk result (λ copy. copy.items ≡ lists.now) }
{
    let mut copy = Vec::with_capacity(alloc, lists.len())?;
    for list in lists {
        copy.push(copy_path_list(alloc, list)?)?;
    }
    Ok(copy)
}

/// A copy of a list of paths.
fn copy_path_list(alloc: Global, list: &Items<StorePath>) -> Result<Items<StorePath>, AllocError>
    ensures { IfOk result (λ copy. copy ≡ list.now) }
{
    let paths = list.as_slice();
    let mut copy = Vec::with_capacity(alloc, paths.len())?;
    for path in paths {
        copy.push(path.try_clone()?)?;
    }
    Ok(Items::new(copy))
}
