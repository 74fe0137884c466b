//! The inputs of a node by number.

ghost use Rattle.std.specs.Prelude.{◌∷◌, [], IfOk, IfErr, MatchOption};
ghost use Rattle.nd_graph.specs.Graphs.{IsNumber, IsAt};
ghost use Rattle.nd_links.specs.Linking.{IsInputFault, IsLineFault, IsLink, IsRowFault};
ghost use Rattle.nd_links.specs.Numbering.{LacksItem};
ghost use Rattle.nd_links.specs.Settled.{NamesRise};
ghost use Rattle.nd_links.specs.Whole.{AreNumbered, ArePlaces, IsNumbered};

use crate::link_error::LinkError;
use crate::missing::has_inputs;
use crate::name::Name;
use crate::register::Register;
use crate::want::Want;
use nd_bytes::Items;
use nd_graph::{Input, Places};
use std::alloc::{AllocError, Global};

/// The inputs of a line by number, or why they have none.
pub(crate) fn link_line(
    alloc: Global,
    register: &Register<'_>,
    wants: &[Want],
) -> Result<Items<Input>, LinkError>
    ensures { IsLink register.now wants.now result }
{
    match number_row(alloc, register, wants) {
        Ok(row) => Ok(row),
        Err(fault) => Err(first_fault(register, wants, fault)),
    }
}

/// The first cause for which the inputs of a line have no numbers, of which one is known: an input
/// derivation that has no line comes before an output that is missing.
#[tactic(auto, using(crate::proofs::Gathered::output_alone))]
fn first_fault(register: &Register<'_>, wants: &[Want], fault: LinkError) -> LinkError
    requires { IsRowFault register.now wants.now fault }
    ensures { IsLineFault register.now wants.now result }
{
    match fault {
        LinkError::NoInput => LinkError::NoInput,
        LinkError::NoOutput => {
            if !has_inputs(register, wants) {
                return LinkError::NoInput;
            }
            LinkError::NoOutput
        }
        LinkError::Memory => LinkError::Memory,
    }
}

/// The inputs of a line by number, each looked up once.
#[tactic(auto, using(crate::proofs::Linked::row_none, crate::proofs::Linked::row_more, crate::proofs::Linked::row_all, crate::proofs::Gathered::row_refused))]
fn number_row(
    alloc: Global,
    register: &Register<'_>,
    wants: &[Want],
) -> Result<Items<Input>, LinkError>
    ensures ok { IfOk result (AreNumbered register.now.paths register.now.names wants.now) }
    ensures err { IfErr result (IsRowFault register.now wants.now) }
{
    let mut row = Vec::with_capacity(alloc, wants.len())?;
    for want in wants {
        match number_input(alloc, register, want) {
            Ok(input) => row.push(input)?,
            Err(fault) => return Err(fault),
        }
    }
    Ok(Items::new(row))
}

/// An input by number.
#[tactic(auto, using(crate::proofs::Gathered::path_lacks, crate::proofs::Gathered::path_at))]
fn number_input(alloc: Global, register: &Register<'_>, want: &Want) -> Result<Input, LinkError>
    ensures ok { IfOk result (IsNumbered register.now.paths register.now.names want.now) }
    ensures err { IfErr result (IsInputFault register.now want.now) }
{
    match register.find(want.path()) {
        Some(node) => number_outputs(alloc, register, want, node),
        None => Err(LinkError::NoInput),
    }
}

/// An input by number, whose node is known.
#[tactic(auto, using(crate::proofs::Linked::input_lacks, crate::proofs::Linked::input_numbered))]
fn number_outputs(
    alloc: Global,
    register: &Register<'_>,
    want: &Want,
    node: usize,
) -> Result<Input, LinkError>
    requires { IsAt register.now.paths want.now.path node }
    ensures ok { IfOk result (IsNumbered register.now.paths register.now.names want.now) }
    ensures err { IfErr result (IsInputFault register.now want.now) }
{
    match places_of(alloc, register.names_of(node), want.names())? {
        Some(outputs) => Ok(Input { node, outputs }),
        None => Err(LinkError::NoOutput),
    }
}

/// The places of the wanted names in a rising list, or none where one is missing. Mostly one name is wanted,
/// whose place takes no memory.
#[tactic(auto, using(crate::proofs::Linked::only_wanted))]
fn places_of(alloc: Global, names: &[Name], wanted: &[Name]) -> Result<Option<Places>, AllocError>
    requires { NamesRise names.now }
    ensures { IfOk result (λ r. MatchOption r (LacksItem names.now wanted.now) (λ places. ArePlaces names.now wanted.now places)) }
{
    match wanted {
        [name] => Ok(only_place(names, name)),
        _ => list_places(alloc, names, wanted),
    }
}

/// The place of the one wanted name, or none where it is missing.
#[tactic(auto, using(crate::proofs::Linked::only_at, crate::proofs::Linked::only_lacks))]
fn only_place(names: &[Name], name: &Name) -> Option<Places>
    requires { NamesRise names.now }
    ensures { MatchOption result (LacksItem names.now (name.now ∷ [])) (λ places. ArePlaces names.now (name.now ∷ []) places) }
{
    match place_of(names, name) {
        Some(place) => Some(Places::one(place)),
        None => None,
    }
}

/// The places of the wanted names, each found by a search of its own, or none where one is missing.
#[tactic(auto, using(crate::proofs::Linked::places_none, crate::proofs::Linked::places_more, crate::proofs::Linked::places_all, crate::proofs::Linked::item_lacks))]
fn list_places(alloc: Global, names: &[Name], wanted: &[Name]) -> Result<Option<Places>, AllocError>
    requires { NamesRise names.now }
    ensures { IfOk result (λ r. MatchOption r (LacksItem names.now wanted.now) (λ places. ArePlaces names.now wanted.now places)) }
{
    let mut places = Vec::with_capacity(alloc, wanted.len())?;
    for name in wanted {
        match place_of(names, name) {
            Some(place) => places.push(place)?,
            None => return Ok(None),
        }
    }
    Ok(Some(Places::new(alloc, places)?))
}

/// The place of a name in a rising list, found by a binary search.
fn place_of(names: &[Name], name: &Name) -> Option<usize>
    requires { NamesRise names.now }
    ensures { IsNumber names.now name.now result }
{
    match names.binary_search(name) {
        Ok(place) => Some(place),
        Err(_) => None,
    }
}
