//! The inputs of all nodes by number.

ghost use Rattle.std.specs.Prelude.{◌≡◌, length, IfOk, IfErr};
ghost use Rattle.nd_links.specs.Linking.{AreAllLinked, AreLinks, IsLink, IsUngathered, IsUnlinked};
ghost use Rattle.nd_links.specs.Settled.{AllNamesRise, IsLinkFault, IsResolved};

use crate::fault::GraphError;
use crate::link_error::LinkError;
use crate::missing::check_inputs;
use crate::names::Names;
use crate::register::Register;
use crate::resolve::link_line;
use crate::want::Want;
use indexmap::IndexSet;
use nd_bytes::Items;
use nd_graph::Input;
use nd_path::StorePath;
use rayon::prelude::*;
use std::alloc::{AllocError, Global};
use std::thread::Threads;

/// The inputs of the nodes with these paths and these output names, by number; linked by this thread.
///
/// Refuses with `MissingInput` and the first line with an input derivation that has no line, else with
/// `MissingOutput` and the first line that names an output that there isn't, and with `Memory` where an allocation is
/// refused.
pub fn link(
    alloc: Global,
    paths: &IndexSet<StorePath>,
    names: &[Names],
    wants: Vec<Items<Want>>,
) -> Result<Vec<Items<Input>>, GraphError>
    requires sized { length names.now ≡ length paths.now.keys }
    requires rising { AllNamesRise names.now }
    ensures ok { IfOk result (λ inputs. IsResolved paths.now.keys names.now wants.items inputs.items) }
    ensures err { IfErr result (IsLinkFault paths.now.keys names.now wants.items) }
{
    let register = Register::new(paths, names);
    link_or_refuse(alloc, &register, wants)
}

/// The inputs of each line by number, or the refusal of the first line without an input, or else of the first line
/// without an output.
fn link_or_refuse(
    alloc: Global,
    register: &Register<'_>,
    wants: Vec<Items<Want>>,
) -> Result<Vec<Items<Input>>, GraphError>
    ensures ok { IfOk result (λ inputs. IsResolved register.now.paths register.now.names wants.items inputs.items) }
    ensures err { IfErr result (λ fault. IsLinkFault register.now.paths register.now.names wants.items fault) }
{
    let rows = link_lines(alloc, register, wants)?;
    gather(alloc, rows)
}

/// The number of inputs from which on they are linked by many threads. Fewer are linked in some milliseconds, and the
/// lists that threads put together leave holes in the heap.
const MANY: usize = 16_384;

/// The inputs of the nodes with these paths and these output names, by number, as `link` answers them; many inputs are
/// linked by as many threads as there are processors.
///
/// Refuses as `link` does.
pub fn link_side_by_side(
    rt: &(impl Threads + Sync),
    alloc: Global,
    paths: &IndexSet<StorePath>,
    names: &[Names],
    wants: Vec<Items<Want>>,
) -> Result<Vec<Items<Input>>, GraphError>
    requires sized { length names.now ≡ length paths.now.keys }
    requires rising { AllNamesRise names.now }
    ensures ok { IfOk result (λ inputs. IsResolved paths.now.keys names.now wants.items inputs.items) }
    ensures err { IfErr result (IsLinkFault paths.now.keys names.now wants.items) }
{
    if count_inputs(wants.as_slice()) < MANY {
        return link(alloc, paths, names, wants);
    }
    let register = Register::new(paths, names);
    let rows = link_lines_in_parallel(rt, alloc, &register, wants)?;
    gather(alloc, rows)
}

/// How many inputs the lines have.
fn count_inputs(wants: &[Items<Want>]) -> usize {
    let mut count = 0usize;
    for inputs in wants {
        count = count.saturating_add(inputs.len());
    }
    count
}

/// The inputs of each line by number, or why they have none.
#[tactic(auto, using(crate::proofs::Gathered::links_none, crate::proofs::Gathered::links_more))]
fn link_lines(
    alloc: Global,
    register: &Register<'_>,
    wants: Vec<Items<Want>>,
) -> Result<Vec<Result<Items<Input>, LinkError>>, AllocError>
    ensures { IfOk result (λ rows. AreLinks register.now wants.items rows.items) }
{
    let mut rows = Vec::with_capacity(alloc, wants.len())?;
    for inputs in wants {
        rows.push(link_line(alloc, register, inputs.as_slice()))?;
    }
    Ok(rows)
}

/// The same, by as many threads as there are processors.
fn link_lines_in_parallel(
    rt: &(impl Threads + Sync),
    alloc: Global,
    register: &Register<'_>,
    wants: Vec<Items<Want>>,
) -> Result<Vec<Result<Items<Input>, LinkError>>, AllocError>
    ensures { IfOk result (λ rows. AreLinks register.now wants.items rows.items) }
{
    wants
        .into_par_iter()
        .map(
            |inputs: Items<Want>| -> Result<Items<Input>, LinkError>
                ensures { IsLink register.entry.now inputs result }
            { link_line(alloc, register, inputs.as_slice()) },
        )
        .collect(rt, alloc)
}

/// The rows that the lines were linked to, or the refusal of the first line without an input, or else
/// of the first line without an output.
#[tactic(auto, using(crate::proofs::Gathered::input_ungathered, crate::proofs::Gathered::output_ungathered))]
fn gather(
    alloc: Global,
    rows: Vec<Result<Items<Input>, LinkError>>,
) -> Result<Vec<Items<Input>>, GraphError>
    ensures ok { IfOk result (λ inputs. AreAllLinked rows.items inputs.items) }
    ensures err { IfErr result (IsUngathered rows.items) }
{
    match check_inputs(rows.as_slice()) {
        Ok(()) => take_rows(alloc, rows),
        Err(fault) => Err(fault),
    }
}

/// The rows that the lines were linked to, or the refusal of the first line that has one.
#[tactic(auto, using(crate::proofs::Gathered::line_unlinked))]
fn take_rows(
    alloc: Global,
    rows: Vec<Result<Items<Input>, LinkError>>,
) -> Result<Vec<Items<Input>>, GraphError>
    ensures ok { IfOk result (λ inputs. AreAllLinked rows.items inputs.items) }
    ensures err { IfErr result (IsUnlinked rows.items) }
{
    let mut inputs = Vec::with_capacity(alloc, rows.len())?;
    for row in rows {
        match row {
            Ok(row) => inputs.push(row)?,
            Err(fault) => return Err(fault.at(inputs.len() + 1)),
        }
    }
    Ok(inputs)
}
