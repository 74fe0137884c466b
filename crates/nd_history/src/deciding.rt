//! What a decision looks at of the builders, and the slot that a lease takes.

ghost use Rattle.std.specs.Prelude.{◌≡◌, ◌+◌, ◌<◌, length, reverse};
ghost use Rattle.nd_history.specs.Premises.{premises_of};
ghost use Rattle.nd_history.specs.History.{load};
ghost use Rattle.nd_history.specs.Legal.{IsLeastFree};
ghost use Rattle.nd_history.specs.Choices.{loads_of, ups_of};

use crate::book::Book;
use crate::inputs::Inputs;

/// The loads of the builders, in the order of their list.
pub fn builder_loads<'a>(inputs: &Inputs, book: &'a Book) -> &'a [u32]
    requires { book.now.machines ≡ length inputs.now.machines + 1 }
    ensures value { result.now ≡ loads_of (premises_of inputs.now) (reverse book.now.entries) }
    ensures sized { length result.now ≡ length inputs.now.machines }
{
    let loads = book.loads();
    &loads[1..]
}

/// Which builders are up, in the order of their list.
pub fn builder_ups<'a>(inputs: &Inputs, book: &'a Book) -> &'a [bool]
    requires { book.now.machines ≡ length inputs.now.machines + 1 }
    ensures value { result.now ≡ ups_of (premises_of inputs.now) (reverse book.now.entries) }
    ensures sized { length result.now ≡ length inputs.now.machines }
{
    let ups = book.ups();
    &ups[1..]
}

/// The least slot of a machine that no live lease is on.
pub(crate) fn free_slot(book: &Book, machine: u32, jobs: u32) -> u32
    requires park { machine < book.now.machines }
    requires load { load machine (reverse book.now.entries) < jobs }
    ensures within { result < jobs }
    ensures least { IsLeastFree (reverse book.now.entries) machine result }
{
    book.least_free(machine) as u32
}
