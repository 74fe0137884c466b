//! Which input a fault is about, and which part of it.

ghost use Rattle.std.specs.Prelude.{◌≡◌};
ghost use Rattle.nd_explain.specs.Parts.{place_named, part_named, line_of_bundle, entry_of_builders};

use nd_bundle::GraphError;
use nd_cli::{CliFault, DerivationError, HistoryTextError, Place};
use nd_closure::InfoError;
use nd_machines::MachineError;
use nd_script::ScriptError;

/// A part of a text.
#[derive(Clone, Copy, Debug, PartialEq, Eq)]
pub enum Part {
    /// No part: what is refused has no place in the text.
    Nowhere,
    /// The whole text.
    Whole,
    /// The line with this number, the first one being 1.
    Line(usize),
    /// The entry of a builders list with this number, the first one being 1. One without a field isn't
    /// counted.
    Entry(usize),
}

/// The input that a fault is about. It is none where a device, the memory or a run failed.
pub fn place_of(fault: &CliFault) -> Option<Place>
    ensures { result ≡ place_named fault.now }
{
    match fault {
        CliFault::Derivation(_) => Some(Place::Derivation),
        CliFault::Drvs(_) => Some(Place::Drvs),
        CliFault::Builders(_) | CliFault::TooManySlots => Some(Place::Builders),
        CliFault::Info(_) => Some(Place::Info),
        CliFault::Script(_) => Some(Place::Script),
        CliFault::Stand(_) => Some(Place::Stand),
        CliFault::History(_) => Some(Place::History),
        CliFault::TooLarge(place) => Some(*place),
        CliFault::Read
        | CliFault::Write
        | CliFault::Memory
        | CliFault::Thread
        | CliFault::Receipts => None,
    }
}

/// The part of that input that is refused. A derivation text is refused as a whole; what is wanting in
/// a whole bundle, and a size, has no place.
pub fn part_of(fault: &CliFault) -> Part
    ensures { result ≡ part_named fault.now }
{
    match fault {
        CliFault::Derivation(DerivationError::BadPath | DerivationError::BadDerivation) => {
            Part::Whole
        }
        CliFault::Drvs(refusal) => bundle_part(refusal),
        CliFault::Builders(refusal) => builders_part(refusal),
        CliFault::Info(InfoError::BadLine(line)) => Part::Line(*line),
        CliFault::Script(ScriptError::BadLine(line)) => Part::Line(*line),
        CliFault::Stand(ScriptError::BadLine(line)) => Part::Line(*line),
        CliFault::History(HistoryTextError::Version) => Part::Line(1),
        CliFault::History(HistoryTextError::BadLine(line)) => Part::Line(*line),
        CliFault::Info(InfoError::Memory)
        | CliFault::Script(ScriptError::Memory)
        | CliFault::Stand(ScriptError::Memory)
        | CliFault::TooLarge(_)
        | CliFault::TooManySlots
        | CliFault::Read
        | CliFault::Write
        | CliFault::Memory
        | CliFault::Thread
        | CliFault::Receipts => Part::Nowhere,
    }
}

/// The line of a bundle.
fn bundle_part(refusal: &GraphError) -> Part
    ensures { result ≡ line_of_bundle refusal.now }
{
    match refusal {
        GraphError::BadLine(line)
        | GraphError::BadPath(line)
        | GraphError::BadDerivation(line)
        | GraphError::UnknownOutput(line)
        | GraphError::BadAttribute(line)
        | GraphError::WrongPath(line)
        | GraphError::Duplicate(line)
        | GraphError::MissingInput(line)
        | GraphError::MissingOutput(line) => Part::Line(*line),
        GraphError::Cycle | GraphError::TooMany | GraphError::Memory => Part::Nowhere,
    }
}

/// The entry of a builders list.
fn builders_part(refusal: &MachineError) -> Part
    ensures { result ≡ entry_of_builders refusal.now }
{
    match refusal {
        MachineError::Uri(entry)
        | MachineError::Jobs(entry)
        | MachineError::Speed(entry)
        | MachineError::Include(entry)
        | MachineError::TooMany(entry) => Part::Entry(*entry),
        MachineError::Memory => Part::Nowhere,
    }
}
