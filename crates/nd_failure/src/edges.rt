//! The edges of a graph, to be read from a node down to its inputs and up to its dependants.
ghost use Rattle.std.specs.Prelude.{◌≡◌, ◌<◌, All, length, IfOk, OnOk};
ghost use Rattle.nd_graph.specs.Graphs.{nodes_of, rows_of};
ghost use Rattle.nd_graph.specs.Walks.{inputs_of, AreInRange};
ghost use Rattle.nd_failure.specs.Reversed.{AreDependants, AreReversed, AddsDependant};

use nd_flags::{Lists, Rows};
use nd_graph::{Graph, Input};
use std::alloc::{AllocError, Global};
use std::marker::Model;

/// How many inputs the nodes have in all.
fn count_inputs(graph: &Graph) -> usize {
    let mut count = 0usize;
    for node in 0..graph.len() {
        count = count.saturating_add(graph.inputs(node).len());
    }
    count
}

/// Puts the nodes that inputs name in the place of those that are there.
fn list_nodes(nodes: &mut Vec<usize>, inputs: &[Input]) -> Result<(), AllocError>
    ensures { OnOk result (nodes.new.items ≡ nodes_of inputs.now) }
{
    nodes.clear();
    for input in inputs {
        nodes.push(input.node)?;
    }
    Ok(())
}

/// The inputs of each node of a graph.
pub(crate) fn input_rows(alloc: Global, graph: &Graph) -> Result<Rows, AllocError>
    ensures rows { IfOk result (λ rows. rows ≡ rows_of graph.now) }
    ensures ranged { OnOk result (AreInRange (rows_of graph.now)) }
{
    let mut rows = Rows::with_capacity(alloc, graph.len(), count_inputs(graph))?;
    let mut nodes = Vec::new(alloc);
    for node in 0..graph.len() {
        list_nodes(&mut nodes, graph.inputs(node))?;
        rows.add(nodes.as_slice())?;
    }
    Ok(rows)
}

/// Adds a node to the list of each of its inputs.
fn add_dependant(back: &mut Lists, node: usize, inputs: &[usize]) -> Result<(), AllocError>
    requires { All (λ c. c < length back.old) inputs.now }
    ensures { OnOk result (AddsDependant node inputs.now back.old back.new) }
{
    for input in inputs {
        back.push(*input, node)?;
    }
    Ok(())
}

/// For each node the nodes that have it in their lists.
fn reversed(alloc: Global, rows: &Rows) -> Result<Lists, AllocError>
    requires { AreInRange rows.now }
    ensures { IfOk result (λ back. AreReversed rows.now back) }
{
    let mut back = Lists::empty(alloc, rows.len())?;
    for node in 0..rows.len() {
        add_dependant(&mut back, node, rows.row(node))?;
    }
    Ok(back)
}

/// The edges of a graph, seen by contracts as the inputs of each node.
#[derive(Drop, Debug, Clone)]
pub struct Edges {
    inputs: Rows,
    dependants: Lists,
}

impl Model for Edges {
    ghost use Rattle.std.specs.Prelude.{List, ℕ};

    ghost Value = { List (List ℕ) };

    ghost use Rattle.nd_failure.specs.Reversed.{AreReversed};
    ghost use Rattle.nd_graph.specs.Walks.{AreInRange};

    ghost view = { λ edges. edges.inputs };

    ghost invariant = { λ edges. AreReversed edges.inputs edges.dependants × AreInRange edges.inputs };
}

impl Edges {
    /// The edges of a graph.
    pub(crate) fn new(alloc: Global, graph: &Graph) -> Result<Edges, AllocError>
        ensures { IfOk result (λ edges. edges ≡ rows_of graph.now) }
    {
        Edges::of_inputs(alloc, input_rows(alloc, graph)?)
    }

    /// The edges with these inputs.
    fn of_inputs(alloc: Global, inputs: Rows) -> Result<Edges, AllocError>
        requires { AreInRange inputs }
        ensures { IfOk result (λ edges. edges ≡ inputs) }
    {
        let dependants = reversed(alloc, &inputs)?;
        Ok(Edges { inputs, dependants })
    }

    /// Equal edges.
    pub(crate) fn try_clone(&self) -> Result<Edges, AllocError>
        ensures { IfOk result (λ copy. copy ≡ self.now) }
    {
        self.clone()
    }

    /// The number of nodes.
    pub fn len(&self) -> usize
        ensures { result ≡ length self.now }
    {
        self.inputs.len()
    }

    /// The inputs of a node.
    pub(crate) fn inputs(&self, node: usize) -> &[usize]
        requires { node < length self.now }
        ensures { result.now ≡ inputs_of self.now node }
    {
        self.inputs.row(node)
    }

    /// The nodes that have a node among their inputs, each as often as it has it there.
    pub fn dependants(&self, node: usize) -> &[usize]
        requires { node < length self.now }
        ensures { AreDependants self.now node result.now }
    {
        self.dependants.list(node)
    }
}
