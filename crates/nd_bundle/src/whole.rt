//! The graph of a bundle's nodes.

ghost use Rattle.std.specs.Prelude.{◌≡◌, ◌≤◌, length, IfOk, IfErr, OnOk};
ghost use Rattle.nd_graph.specs.Graphs.{needed, node_limit, nodes_with, rows_of, IsSound};
ghost use Rattle.nd_graph.specs.Walks.{AreDistinct, AreInRange, IsAcyclic};
ghost use Rattle.nd_links.specs.Settled.{links_in, AllNamesRise, AreLinksSized, AreNeedsOfRows, AreSized, ArePaired, IsGraphOfRows, IsOrderedFault};
ghost use Rattle.nd_links.specs.Whole.{IsWholeFault};

use crate::found::Numbered;
use crate::needs::{Needs, Unused};
use indexmap::IndexSet;
use nd_bytes::Items;
use nd_eligible::Need;
use nd_graph::{Graph, Input, NODE_LIMIT, find_order};
use nd_links::{Columns, Details, GraphError, link, link_side_by_side, number_all};
use nd_path::StorePath;
use std::alloc::Global;
use std::thread::Threads;

/// The graph of the nodes with these parts, or the first refusal over the whole.
#[tactic(auto, using(nd_links::proofs::Gathered::whole_numbered))]
pub(crate) fn graph_of(alloc: Global, columns: Columns) -> Result<Graph, GraphError>
    requires sized { AreSized columns.paths.items columns.details }
    requires paired { ArePaired columns.details.names.items columns.details.outputs.items }
    requires rising { AllNamesRise columns.details.names.items }
    ensures ok { IfOk result (IsGraphOfRows columns.paths.items columns.details) }
    ensures sound { IfOk result IsSound }
    ensures acyclic { IfOk result (λ graph. IsAcyclic (rows_of graph)) }
    ensures err { IfErr result (IsWholeFault (links_in columns.paths.items columns.details)) }
{
    let Columns { paths, details } = columns;
    let Details {
        needs,
        wants,
        sources,
        names,
        outputs,
        ..
    } = details;
    let paths = number_all(alloc, paths)?;
    let inputs = link(alloc, &paths, names.as_slice(), wants)?;
    drop(names);
    graph_with(alloc, paths, needs, inputs, sources, outputs)
}

/// The same of nodes whose paths are numbered; many inputs are linked by as many threads as there are processors.
#[tactic(auto, using(nd_links::proofs::Gathered::whole_numbered))]
pub(crate) fn graph_side_by_side(
    rt: &(impl Threads + Sync),
    alloc: Global,
    numbered: Numbered,
) -> Result<Graph, GraphError>
    requires distinct { AreDistinct numbered.paths.keys }
    requires sized { AreSized numbered.paths.keys numbered.details }
    requires paired { ArePaired numbered.details.names.items numbered.details.outputs.items }
    requires rising { AllNamesRise numbered.details.names.items }
    ensures ok { IfOk result (IsGraphOfRows numbered.paths.keys numbered.details) }
    ensures sound { IfOk result IsSound }
    ensures acyclic { IfOk result (λ graph. IsAcyclic (rows_of graph)) }
    ensures err { IfErr result (IsWholeFault (links_in numbered.paths.keys numbered.details)) }
{
    let Numbered { paths, details } = numbered;
    let Details {
        needs,
        wants,
        sources,
        names,
        outputs,
        ..
    } = details;
    let inputs = link_side_by_side(rt, alloc, &paths, names.as_slice(), wants)?;
    drop(names);
    graph_with(alloc, paths, needs, inputs, sources, outputs)
}

/// The needs of nodes whose paths are numbered and of which there is a graph, or the first refusal over the whole.
#[tactic(auto, using(nd_links::proofs::Gathered::whole_numbered))]
pub(crate) fn needs_side_by_side(
    rt: &(impl Threads + Sync),
    alloc: Global,
    numbered: Numbered,
) -> Result<Needs, GraphError>
    requires distinct { AreDistinct numbered.paths.keys }
    requires sized { AreLinksSized numbered.paths.keys numbered.details }
    requires rising { AllNamesRise numbered.details.names.items }
    ensures ok { IfOk result (AreNeedsOfRows numbered.paths.keys numbered.details) }
    ensures err { IfErr result (IsWholeFault (links_in numbered.paths.keys numbered.details)) }
{
    let Numbered { paths, details } = numbered;
    let Details {
        shared,
        wants,
        names,
        ..
    } = details;
    let inputs = link_side_by_side(rt, alloc, &paths, names.as_slice(), wants)?;
    check_order(alloc, &paths, inputs.as_slice())?;
    Ok(Needs::new(
        shared,
        Unused {
            paths,
            names,
            inputs,
        },
    ))
}

/// Refuses nodes with these paths and these inputs where some node needs itself, and else where there are too many.
fn check_order(
    alloc: Global,
    paths: &IndexSet<StorePath>,
    inputs: &[Items<Input>],
) -> Result<(), GraphError>
    requires { AreInRange (needed inputs.now) }
    ensures acyclic { OnOk result (IsAcyclic (needed inputs.now)) }
    ensures few { OnOk result (length paths.now.keys ≤ node_limit) }
    ensures err { IfErr result (IsOrderedFault paths.now.keys inputs.now) }
{
    find_order(alloc, inputs)?;
    if paths.len() <= NODE_LIMIT {
        return Ok(());
    }
    Err(GraphError::TooMany)
}

/// The graph of these parts, which are linked, or why they are none.
fn graph_with(
    alloc: Global,
    paths: IndexSet<StorePath>,
    needs: Vec<Need>,
    inputs: Vec<Items<Input>>,
    sources: Vec<Items<StorePath>>,
    outputs: Vec<Items<StorePath>>,
) -> Result<Graph, GraphError>
    requires ranged { AreInRange (needed inputs.items) }
    requires sound { length paths.keys ≤ node_limit → IsSound (nodes_with paths.keys needs.items inputs.items sources.items outputs.items) }
    ensures ok { IfOk result (λ graph. graph ≡ nodes_with paths.keys needs.items inputs.items sources.items outputs.items) }
    ensures sound { IfOk result IsSound }
    ensures acyclic { IfOk result (λ graph. IsAcyclic (rows_of graph)) }
    ensures err { IfErr result (IsOrderedFault paths.keys inputs.items) }
{
    if paths.len() > NODE_LIMIT {
        find_order(alloc, inputs.as_slice())?;
        return Err(GraphError::TooMany);
    }
    Ok(Graph::new(alloc, paths, needs, inputs, sources, outputs)?)
}
