//! Which rule refuses an entry.

ghost use Rattle.std.specs.Prelude.{◌≡◌, ◌+◌, ◌<◌, ◌≤◌, ◌↔◌, IfErr, IsTrue, OnOk, length, reverse};
ghost use Rattle.nd_history.specs.Premises.{premises_of};
ghost use Rattle.nd_history.specs.Standing.{drvs_in, IsReady};
ghost use Rattle.nd_history.specs.Choices.{machines_in, jobs_of, HasDecision};
ghost use Rattle.nd_history.specs.Legal.{IsInRange, IsLeastFree};
ghost use Rattle.nd_history.specs.Fitting.{FitTogether};
ghost use Rattle.nd_history.specs.Marks.{AreMarked};
ghost use Rattle.nd_history.specs.Audit.{IsFirstForAny, IsJudged, IsSlotJudged};

use crate::book::Book;
use crate::entry::Entry;
use crate::inputs::Inputs;
use crate::rule::Rule;
use nd_failure::Board;
use nd_hook::Decision;

/// Whether there is a derivation with this number.
fn is_node(inputs: &Inputs, drv: u32) -> bool
    ensures { IsTrue result ↔ (drv < drvs_in (premises_of inputs.now)) }
{
    (drv as usize) < inputs.graph.len()
}

/// Whether the derivation, the machine and the slot of a choice are there.
fn is_choice_in_range(inputs: &Inputs, drv: u32, machine: u32, slot: u32) -> bool
    ensures { IsTrue result ↔ IsInRange (premises_of inputs.now) (Entry.Chosen drv machine slot) }
{
    if !is_node(inputs, drv) {
        return false;
    }
    if !inputs.has_machine(machine) {
        return false;
    }
    slot < inputs.jobs_on(machine)
}

/// Whether all that the entry names is there.
pub fn is_in_range(inputs: &Inputs, entry: &Entry) -> bool
    ensures { IsTrue result ↔ IsInRange (premises_of inputs.now) entry.now }
{
    match entry {
        Entry::Chosen { drv, machine, slot } => is_choice_in_range(inputs, *drv, *machine, *slot),
        Entry::NoBuilder { drv } => is_node(inputs, *drv),
        Entry::Started { drv, .. } => is_node(inputs, *drv),
        Entry::Down { drv } => is_node(inputs, *drv),
        Entry::Built { drv, .. } => is_node(inputs, *drv),
        Entry::Failed { drv, .. } => is_node(inputs, *drv),
        Entry::Stop => true,
        Entry::Drain { machine } => inputs.has_machine(*machine),
        Entry::Enable { machine } => inputs.has_machine(*machine),
    }
}

/// Whether this is the least slot of the machine that no live lease is on.
#[tactic(auto, using(crate::proofs::Slots::least_once))]
fn is_least_free(book: &Book, machine: u32, slot: u32) -> bool
    requires { machine < book.now.machines }
    ensures { IsTrue result ↔ IsLeastFree (reverse book.now.entries) machine slot }
{
    book.least_free(machine) == slot as usize
}

/// Refuses with `Slot` a slot that isn't the machine's least free one.
fn check_slot(book: &Book, machine: u32, slot: u32) -> Result<(), Rule>
    requires { machine < book.now.machines }
    ensures { IsSlotJudged (reverse book.now.entries) machine slot result }
{
    if is_least_free(book, machine, slot) {
        Ok(())
    } else {
        Err(Rule::Slot)
    }
}

/// Whether the derivation is ready, as the board says, which alone is asked.
#[tactic(auto, using(crate::proofs::Boards::on_board))]
fn is_ready(inputs: &Inputs, book: &Book, board: &Board, drv: u32) -> bool
    requires fit { FitTogether (premises_of inputs.now) book.now }
    requires marked { AreMarked (premises_of inputs.now) (reverse book.now.entries) board.now }
    requires ranged { drv < drvs_in (premises_of inputs.now) }
    ensures { IsTrue result ↔ IsReady (premises_of inputs.now) (reverse book.now.entries) drv }
{
    board.is_ready(drv as usize)
}

/// Refuses with `Ready` a derivation, which is there, that isn't ready: nothing is chosen for it then, and it
/// isn't given up. The board alone is asked, and nothing is decided. It takes no memory.
#[tactic(auto, using(crate::proofs::Rules::any_unready))]
pub fn check_ready(inputs: &Inputs, book: &Book, board: &Board, drv: u32) -> Result<(), Rule>
    requires fit { FitTogether (premises_of inputs.now) book.now }
    requires marked { AreMarked (premises_of inputs.now) (reverse book.now.entries) board.now }
    requires ranged { drv < drvs_in (premises_of inputs.now) }
    ensures ready { OnOk result (IsReady (premises_of inputs.now) (reverse book.now.entries) drv) }
    ensures unready { IfErr result (IsFirstForAny (premises_of inputs.now) (reverse book.now.entries) drv) }
{
    if !is_ready(inputs, book, board, drv) {
        return Err(Rule::Ready);
    }
    Ok(())
}

/// Tests the choice of a slot for a derivation that is ready and about which this is decided: it is refused
/// with the first rule that it breaks. It takes no memory.
pub fn judge_ready_choice(
    inputs: &Inputs,
    book: &Book,
    decision: Decision,
    drv: u32,
    machine: u32,
    slot: u32,
) -> Result<(), Rule>
    requires fit { FitTogether (premises_of inputs.now) book.now }
    requires ranged { IsInRange (premises_of inputs.now) (Entry.Chosen drv machine slot) }
    requires ready { IsReady (premises_of inputs.now) (reverse book.now.entries) drv }
    requires decided { HasDecision (premises_of inputs.now) (reverse book.now.entries) drv decision }
    ensures { IsJudged (premises_of inputs.now) (reverse book.now.entries) (Entry.Chosen drv machine slot) result }
{
    match decision {
        Decision::Local => {
            if machine != 0 {
                return Err(Rule::Decision);
            }
            check_slot(book, machine, slot)
        }
        Decision::Remote(place) => {
            if machine == 0 {
                return Err(Rule::Decision);
            }
            if machine as usize - 1 != place {
                return Err(Rule::Best);
            }
            check_slot(book, machine, slot)
        }
        Decision::Wait => Err(Rule::Decision),
        Decision::NoBuilder => Err(Rule::Decision),
    }
}

/// Tests the word that nothing can build a derivation that is ready and about which this is decided: it is
/// refused with the first rule that it breaks. It takes no memory.
pub fn judge_ready_no_builder(
    inputs: &Inputs,
    book: &Book,
    decision: Decision,
    drv: u32,
) -> Result<(), Rule>
    requires fit { FitTogether (premises_of inputs.now) book.now }
    requires ready { IsReady (premises_of inputs.now) (reverse book.now.entries) drv }
    requires decided { HasDecision (premises_of inputs.now) (reverse book.now.entries) drv decision }
    ensures { IsJudged (premises_of inputs.now) (reverse book.now.entries) (Entry.NoBuilder drv) result }
{
    match decision {
        Decision::NoBuilder => Ok(()),
        Decision::Local => Err(Rule::Decision),
        Decision::Remote(_) => Err(Rule::Decision),
        Decision::Wait => Err(Rule::Decision),
    }
}
