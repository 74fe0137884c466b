//! Input derivations that have no line.

ghost use Rattle.std.specs.Prelude.{◌≡◌, length, MatchBool, OnOk, IfErr};
ghost use Rattle.nd_links.specs.Linking.{input_fault, HasPath, HaveInputs, IsFirstUnknown, LacksPath};
ghost use Rattle.nd_links.specs.Whole.{HasInputs, LacksInput};

use crate::fault::GraphError;
use crate::link_error::LinkError;
use crate::register::Register;
use crate::want::Want;
use nd_bytes::Items;
use nd_graph::Input;

/// Refuses with `MissingInput` and the first line, from 1, with an input derivation that has no line,
/// and with `Memory` where memory was wanting on a line before it.
#[tactic(auto, using(crate::proofs::Gathered::known_none, crate::proofs::Gathered::known_more, crate::proofs::Gathered::unknown_here, crate::proofs::Gathered::all_known))]
pub(crate) fn check_inputs(rows: &[Result<Items<Input>, LinkError>]) -> Result<(), GraphError>
    ensures ok { OnOk result (HaveInputs rows.now (length rows.now)) }
    ensures err { IfErr result (IsFirstUnknown rows.now) }
{
    for (place, row) in rows.iter().enumerate() {
        if let Some(fault) = fault_of_inputs(row) {
            return Err(fault.at(place + 1));
        }
    }
    Ok(())
}

/// Why it isn't known of a line that its input derivations have lines.
fn fault_of_inputs(row: &Result<Items<Input>, LinkError>) -> Option<LinkError>
    ensures { result ≡ input_fault row.now }
{
    match row {
        Ok(_) => None,
        Err(LinkError::NoInput) => Some(LinkError::NoInput),
        Err(LinkError::NoOutput) => None,
        Err(LinkError::Memory) => Some(LinkError::Memory),
    }
}

/// Whether each input derivation has a line.
#[tactic(auto, using(crate::proofs::Linked::inputs_none, crate::proofs::Linked::inputs_more, crate::proofs::Linked::inputs_all, crate::proofs::Linked::input_lacking))]
pub(crate) fn has_inputs(register: &Register<'_>, wants: &[Want]) -> bool
    ensures { MatchBool result (HasInputs register.now.paths wants.now) (LacksInput register.now.paths wants.now) }
{
    for want in wants {
        if !is_there(register, want) {
            return false;
        }
    }
    true
}

/// Whether an input derivation has a line.
#[tactic(auto, using(crate::proofs::Gathered::path_there, crate::proofs::Gathered::path_lacks))]
fn is_there(register: &Register<'_>, want: &Want) -> bool
    ensures { MatchBool result (HasPath register.now want.now) (LacksPath register.now want.now) }
{
    match register.find(want.path()) {
        Some(_) => true,
        None => false,
    }
}
