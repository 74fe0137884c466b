//! The command `ask`.

ghost use Rattle.std.specs.Prelude.{◌≡◌, ◌||◌, ℕ, List, Some, false, IfOk, IfErr, OnOk};
ghost use Rattle.nd_cli.specs.Parks.{IsParkAccepted, local_of};
ghost use Rattle.nd_cli.specs.Statuses.{RefusesNoInput};
ghost use Rattle.nd_cli.specs.Asked.{AnswersAsk, LeavesAsk, IsAskFault};
ghost use Rattle.nd_cli.specs.NeedsRead.{ReadsAsked};
ghost use Rattle.nd_cli.specs.Inputs.{is_write_fault, is_read_failure, is_write_failure};

use crate::asks::write_replies_side_by_side;
use crate::blocks::take_needs;
use crate::fault::CliFault;
use crate::options::ParkOptions;
use crate::park::{Setting, read_setting};
use nd_bundle::Needs;
use nd_devices::Told;
use std::alloc::Global;
use std::io::{Read, Write};
use std::mem;
use std::thread::Threads;

/// What `ask` was given, once all of it is accepted: of the graph no more than its needs.
#[derive(Drop)]
struct Asked {
    needs: Needs,
    setting: Setting,
}

/// Writes for each derivation of the bundle on the input, in order, the hook's reply on an idle park:
/// no slot is taken and every machine is up. The status is 0.
///
/// The first refusal in this order is answered, and nothing is written then: `Read`; `TooLarge` or
/// `Drvs` for the bundle; `TooLarge` or `Builders` for the builders list; `TooLarge` or `Info` for the
/// info text. `Write` leaves a part of the replies, from their beginning. `Memory` may come at any
/// point before the replies are written. The reader is marked exactly at `Read`, and the writer exactly
/// at `Write`. Where a reader that is known to have a whole bundle left has one that is accepted, with
/// the other inputs, nothing but `Read`, `Write` and `Memory` comes.
pub fn ask_engine<R: Read, W: Write>(
    rt: &(impl Threads + Sync),
    alloc: Global,
    options: &ParkOptions,
    input: &mut Told<R>,
    output: &mut Told<W>,
) -> Result<u8, CliFault>
    requires reader { input.old.is_marked ≡ false }
    requires writer { output.old.is_marked ≡ false }
    ensures status { IfOk result (λ status. status ≡ 0) }
    ensures answer { OnOk result (AnswersAsk options.now R.remaining input.old input.new W.contents output.old output.new) }
    ensures fault { IfErr result (IsAskFault options.now R.remaining input.old input.new output.new.is_marked) }
    ensures reader_mark { input.new.is_marked ≡ is_read_failure result }
    ensures writer_mark { output.new.is_marked ≡ is_write_failure result }
    ensures exactly { (text : List ℕ) → R.remaining input.old.device ≡ Some text → IsParkAccepted options.now text → RefusesNoInput result }
    ensures untouched { IfErr result (λ e. is_write_fault e ≡ false → output.new ≡ output.old) }
    ensures partly { IfErr result (LeavesAsk options.now R.remaining input.old input.new W.contents output.old output.new) }
{
    let asked = take_asked(rt, alloc, options, input)?;
    let written = write_replies_side_by_side(
        rt,
        alloc,
        &asked.setting.machines,
        &asked.setting.local,
        &asked.needs,
        output,
    );
    // The process ends with this command: the needs don't have to be let go of one by one.
    mem::forget(asked);
    match written {
        Ok(()) => Ok(0),
        Err(fault) => Err(fault),
    }
}

/// What the bundle on the input and the options describe, as [`crate::take_park`], with the needs in place of the graph
/// that has them.
///
/// Refuses as [`crate::take_park`].
fn take_asked<R: Read>(
    rt: &(impl Threads + Sync),
    alloc: Global,
    options: &ParkOptions,
    input: &mut Told<R>,
) -> Result<Asked, CliFault>
    ensures read { IfOk result (ReadsAsked options.now (R.remaining input.old.device) (R.remaining input.new.device)) }
    ensures local { IfOk result (λ asked. asked.setting.local ≡ local_of options.now) }
    ensures fault { IfErr result (IsAskFault options.now R.remaining input.old input.new false) }
    ensures mark { input.new.is_marked ≡ (input.old.is_marked || is_read_failure result) }
    ensures exactly { (text : List ℕ) → R.remaining input.old.device ≡ Some text → IsParkAccepted options.now text → RefusesNoInput result }
{
    let needs = take_needs(rt, alloc, options, input)?;
    match read_setting(alloc, options) {
        Ok(setting) => Ok(Asked { needs, setting }),
        Err(fault) => {
            // For the proof: the needs are let go by a call, and not in each goal of this exit.
            drop(needs);
            Err(fault)
        }
    }
}
