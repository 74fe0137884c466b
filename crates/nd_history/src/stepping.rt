//! The step that a decision leads to.

ghost use Rattle.std.specs.Prelude.{reverse};
ghost use Rattle.nd_history.specs.Premises.{premises_of};
ghost use Rattle.nd_history.specs.Standing.{IsReady};
ghost use Rattle.nd_history.specs.Choices.{HasDecision};
ghost use Rattle.nd_history.specs.Pumping.{IsStepAsDecided};
ghost use Rattle.nd_history.specs.Fitting.{FitTogether};

use crate::book::Book;
use crate::deciding::free_slot;
use crate::entry::Entry;
use crate::inputs::Inputs;
use nd_hook::Decision;

/// The step that this decision about derivation `drv`, which is ready, leads to: none where it is to
/// wait.
pub fn step_for(inputs: &Inputs, book: &Book, drv: u32, decision: Decision) -> Option<Entry>
    requires fit { FitTogether (premises_of inputs.now) book.now }
    requires ready { IsReady (premises_of inputs.now) (reverse book.now.entries) drv }
    requires decided { HasDecision (premises_of inputs.now) (reverse book.now.entries) drv decision }
    ensures { IsStepAsDecided (premises_of inputs.now) (reverse book.now.entries) drv decision result }
{
    match decision {
        Decision::Local => {
            let slot = free_slot(book, 0, inputs.local.jobs());
            Some(Entry::Chosen {
                drv,
                machine: 0,
                slot,
            })
        }
        Decision::Remote(place) => {
            let jobs = inputs.machines.as_slice()[place].jobs();
            let machine = place as u32 + 1;
            let slot = free_slot(book, machine, jobs);
            Some(Entry::Chosen { drv, machine, slot })
        }
        Decision::Wait => None,
        Decision::NoBuilder => Some(Entry::NoBuilder { drv }),
    }
}
