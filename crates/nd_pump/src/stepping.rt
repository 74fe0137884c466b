//! The next step of a pump.

ghost use Rattle.std.specs.Prelude.{reverse};
ghost use Rattle.nd_history.specs.Premises.{premises_of};
ghost use Rattle.nd_history.specs.Pumping.{IsNextStep};
ghost use Rattle.nd_history.specs.Fitting.{FitTogether};
ghost use Rattle.nd_history.specs.Marks.{AreMarked};
ghost use Rattle.nd_pump.specs.Queues.{IsDue};
ghost use Rattle.nd_pump.specs.Turned.{AreTurns};
ghost use Rattle.nd_pump.specs.Taking.{IsTaken};

use crate::turns::Turns;
use nd_failure::Board;
use nd_history::stepping::step_for;
use nd_history::{Book, Entry, Inputs};

/// The step of derivation `drv`, whose turn it is. Where it isn't ready, or is to wait, there is none,
/// and its turn is over.
fn take_turn(
    inputs: &Inputs,
    book: &Book,
    board: &Board,
    turns: &mut Turns,
    drv: usize,
) -> Option<Entry>
    requires fit { FitTogether (premises_of inputs.now) book.now }
    requires marked { AreMarked (premises_of inputs.now) (reverse book.now.entries) board.now }
    requires turns { AreTurns (premises_of inputs.now) (reverse book.now.entries) board.now turns.old }
    requires due { IsDue turns.old.queue drv }
    ensures turns { AreTurns (premises_of inputs.now) (reverse book.now.entries) board.now turns.new }
    ensures taken { IsTaken (premises_of inputs.now) (reverse book.now.entries) drv turns.old turns.new result }
{
    if !board.is_ready(drv) {
        turns.remove(drv);
        return None;
    }
    let decision = turns.decide_by_kind(inputs, book, drv);
    let Some(step) = step_for(inputs, book, drv as u32, decision) else {
        turns.park(drv);
        return None;
    };
    Some(step)
}

/// The step of the first derivation that has one. The board, which follows the book, says which
/// derivations are ready. Those whose kind is to wait are passed over, all of the kind at once, until
/// one of its machines changes.
pub fn next_step(inputs: &Inputs, book: &Book, board: &Board, turns: &mut Turns) -> Option<Entry>
    requires fit { FitTogether (premises_of inputs.now) book.now }
    requires marked { AreMarked (premises_of inputs.now) (reverse book.now.entries) board.now }
    requires turns { AreTurns (premises_of inputs.now) (reverse book.now.entries) board.now turns.old }
    ensures turns { AreTurns (premises_of inputs.now) (reverse book.now.entries) board.now turns.new }
    ensures step { IsNextStep (premises_of inputs.now) (reverse book.now.entries) result }
{
    while let Some(drv) = turns.next() {
        if let Some(step) = take_turn(inputs, book, board, turns, drv) {
            return Some(step);
        }
    }
    None
}
