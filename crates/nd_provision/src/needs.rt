//! What derivations need: the sources of a bundle, and for one derivation its sources and the named
//! outputs of its inputs.

ghost use Rattle.std.specs.Prelude.{◌≡◌, ◌<◌, ◌++◌, [], length, map, slice_index_or, IfOk, OnOk};
ghost use Rattle.std.specs.List.{All, flat_map};
ghost use Rattle.nd_graph.specs.Graphs.{IsSound};
ghost use Rattle.nd_path_numbers.specs.Numbers.{HasGrown};
ghost use Rattle.nd_provision.specs.Outputs.{AreOutputRows};
ghost use Rattle.nd_provision.specs.Seeds.{GoesOn};
ghost use Rattle.nd_provision.specs.Stored.{AreNeededIn, AreSeedsIn, IsSeedRow};

use crate::copying::add_copies;
use nd_flags::Rows;
use nd_graph::{Graph, Input};
use nd_path::StorePath;
use nd_path_numbers::PathNumbers;
use std::alloc::{AllocError, Global};

/// All input sources, node by node.
pub(crate) fn all_sources(alloc: Global, graph: &Graph) -> Result<Vec<StorePath>, AllocError>
    ensures { IfOk result (λ v. v.items ≡ flat_map (λ x. x) graph.now.sources) }
{
    let mut sources = Vec::new(alloc);
    for drv in 0..graph.len() {
        add_copies(&mut sources, graph.sources(drv))?;
    }
    Ok(sources)
}

/// How many outputs the derivations have.
pub(crate) fn count_outputs(graph: &Graph) -> usize {
    let mut count = 0usize;
    for drv in 0..graph.len() {
        count = count.saturating_add(graph.outputs(drv).len());
    }
    count
}

/// The sources of derivation `drv` and the outputs that it names of its inputs.
pub(crate) fn needed_by(
    alloc: Global,
    graph: &Graph,
    drv: usize,
) -> Result<Vec<StorePath>, AllocError>
    requires { drv < length graph.now.paths }
    ensures { IfOk result (λ v. AreNeededIn graph.now drv v.items) }
{
    learn_graph(graph);
    let mut needed = Vec::new(alloc);
    add_copies(&mut needed, graph.sources(drv))?;
    for input in graph.inputs(drv) {
        let outputs = graph.outputs(input.node);
        add_named(&mut needed, outputs, input.outputs.as_slice())?;
    }
    Ok(needed)
}

/// For each derivation the numbers of its outputs, of which there are so many in all.
pub(crate) fn outputs_by_number(
    alloc: Global,
    numbers: &mut PathNumbers,
    graph: &Graph,
    count: usize,
) -> Result<Rows, AllocError>
    ensures outputs { IfOk result (AreOutputRows graph.now.outputs numbers.new.paths) }
    ensures all { IfOk result (λ v. length v ≡ length graph.now.paths) }
    ensures grown { HasGrown numbers.old numbers.new }
{
    let mut rows = Rows::with_capacity(alloc, graph.len(), count)?;
    let mut row = Vec::new(alloc);
    for drv in 0..graph.len() {
        row.clear();
        add_numbers(alloc, numbers, &mut row, graph.outputs(drv))?;
        rows.add(row.as_slice())?;
    }
    Ok(rows)
}

/// For each derivation the numbers of what it needs at once. `outputs` has those of all outputs, so that none is
/// looked up by its path.
pub(crate) fn seeds_by_number(
    alloc: Global,
    numbers: &mut PathNumbers,
    graph: &Graph,
    outputs: &Rows,
) -> Result<Rows, AllocError>
    requires sized { length outputs.now ≡ length graph.now.paths }
    requires outputs { AreOutputRows graph.now.outputs numbers.old.paths outputs.now }
    ensures seeds { IfOk result (λ v. AreSeedsIn graph.now numbers.new.paths v) }
    ensures all { IfOk result (λ v. length v ≡ length graph.now.paths) }
    ensures grown { HasGrown numbers.old numbers.new }
{
    let mut rows = Rows::with_capacity(alloc, graph.len(), count_seeds(graph))?;
    let mut row = Vec::new(alloc);
    for drv in 0..graph.len() {
        seed_row(alloc, numbers, &mut row, graph, outputs, drv)?;
        rows.add(row.as_slice())?;
    }
    Ok(rows)
}

/// Puts the numbers of what derivation `drv` needs at once in the place of those that are in the row.
fn seed_row(
    alloc: Global,
    numbers: &mut PathNumbers,
    row: &mut Vec<usize>,
    graph: &Graph,
    outputs: &Rows,
    drv: usize,
) -> Result<(), AllocError>
    requires drv { drv < length graph.now.paths }
    requires sized { length outputs.now ≡ length graph.now.paths }
    requires outputs { AreOutputRows graph.now.outputs numbers.old.paths outputs.now }
    ensures row { OnOk result (IsSeedRow graph.now numbers.new.paths drv row.new.items) }
    ensures grown { HasGrown numbers.old numbers.new }
{
    learn_graph(graph);
    row.clear();
    add_numbers(alloc, numbers, row, graph.sources(drv))?;
    for input in graph.inputs(drv) {
        let own = outputs.row(input.node);
        add_numbers_at(row, own, input.outputs.as_slice())?;
    }
    Ok(())
}

/// How many paths all derivations need at once.
fn count_seeds(graph: &Graph) -> usize {
    let mut count = 0usize;
    for drv in 0..graph.len() {
        count = count.saturating_add(count_needed(graph.sources(drv), graph.inputs(drv)));
    }
    count
}

/// How many paths these sources and the outputs that inputs name are.
fn count_needed(sources: &[StorePath], inputs: &[Input]) -> usize {
    let mut count = sources.len();
    for input in inputs {
        count = count.saturating_add(input.outputs.as_slice().len());
    }
    count
}

/// Appends the numbers of these paths.
fn add_numbers(
    alloc: Global,
    numbers: &mut PathNumbers,
    row: &mut Vec<usize>,
    paths: &[StorePath],
) -> Result<(), AllocError>
    ensures row { OnOk result (GoesOn numbers.old.paths numbers.new.paths row.old.items row.new.items paths.now) }
    ensures grown { HasGrown numbers.old numbers.new }
{
    for path in paths {
        row.push(numbers.know(alloc, path)?)?;
    }
    Ok(())
}

/// Appends those at these places of the numbers of a derivation's outputs.
fn add_numbers_at(row: &mut Vec<usize>, own: &[usize], places: &[usize]) -> Result<(), AllocError>
    requires { All (λ k. k < length own.now) places.now }
    ensures { OnOk result (row.new.items ≡ row.old.items ++ map (λ k. slice_index_or own.now k 0) places.now) }
{
    for place in places {
        row.push(own[*place])?;
    }
    Ok(())
}

/// Appends copies of the outputs at these places.
fn add_named(
    into: &mut Vec<StorePath>,
    outputs: &[StorePath],
    places: &[usize],
) -> Result<(), AllocError>
    requires { All (λ k. k < length outputs.now) places.now }
    ensures { OnOk result (into.new.items ≡ into.old.items ++ map (λ k. slice_index_or outputs.now k []) places.now) }
{
    for place in places {
        into.push(outputs[*place].try_clone()?)?;
    }
    Ok(())
}

/// The nodes and the outputs that inputs name are there.
pub(crate) fn learn_graph(graph: &Graph)
    ensures { IsSound graph.now }
{
    let _drvs = graph.len();
}
