//! The dispatch over what a command was given, from its making to its end.

ghost use Rattle.std.specs.Prelude.{◌≡◌, ◌≤◌, ◌||◌, [], false, length, IfOk, IfErr};
ghost use Rattle.nd_cli.specs.Asked.{IsAskFault};
ghost use Rattle.nd_cli.specs.Inputs.{is_read_failure};
ghost use Rattle.nd_cli.specs.declared.fault.CliFault.TheVariants.{Memory};
ghost use Rattle.nd_commands.specs.Opened.{AnswersKnownInputs, IsMadeOf, ReadsInputs};

use nd_cli::{CliFault, Park, ParkOptions, take_park};
use nd_devices::Told;
use nd_ledger::Dispatch;
use std::alloc::Global;
use std::io::Read;
use std::mem;
use std::thread::Threads;

/// A dispatch over the bundle on the input and the park of the options, with the empty history. The input is
/// read in blocks: its text is never in memory whole.
///
/// The first refusal in this order is answered: `Read`; `TooLarge` or `Drvs` for the bundle; `TooLarge` or
/// `Builders` for the builders list; `TooLarge` or `Info` for the info text. `Memory` may come at any
/// point. The reader is marked exactly at `Read`. Where a reader that is known to have a whole bundle left has
/// one that is accepted, with the other inputs, nothing but `Read` and `Memory` comes.
pub fn take_dispatch<R: Read>(
    rt: &(impl Threads + Sync),
    alloc: Global,
    options: &ParkOptions,
    input: &mut Told<R>,
) -> Result<Dispatch, CliFault>
    ensures read { IfOk result (λ dispatch. ReadsInputs options.now (R.remaining input.old.device) (R.remaining input.new.device) dispatch.inputs) }
    ensures empty { IfOk result (λ dispatch. dispatch.history ≡ []) }
    ensures fault { IfErr result (IsAskFault options.now R.remaining input.old input.new false) }
    ensures mark { input.new.is_marked ≡ (input.old.is_marked || is_read_failure result) }
    ensures exactly { AnswersKnownInputs options.now (R.remaining input.old.device) result }
{
    let park = take_park(rt, alloc, options, input)?;
    dispatch_over(rt, alloc, options, park)
}

/// A dispatch over this park, with the empty history. `Memory` alone is refused.
fn dispatch_over(
    rt: &(impl Threads + Sync),
    alloc: Global,
    options: &ParkOptions,
    park: Park,
) -> Result<Dispatch, CliFault>
    requires few { length park.machines.items ≤ 1024 }
    ensures made { IfOk result (IsMadeOf options.now park) }
    ensures memory { IfErr result (λ e. e ≡ Memory) }
{
    match Dispatch::new_side_by_side(
        rt,
        alloc,
        park.graph,
        park.machines,
        park.local,
        park.info,
        options.keep_going,
    ) {
        Ok(dispatch) => Ok(dispatch),
        Err(_parts) => Err(CliFault::Memory),
    }
}

/// Ends a dispatch at the end of its command. Its memory is left to the system, since the process ends too.
pub fn close_dispatch(dispatch: Dispatch) {
    mem::forget(dispatch);
}
