//! The command `sim`.

ghost use Rattle.std.specs.Prelude.{◌≡◌, ◌||◌, false, [], IfOk, IfErr, OnErr};
ghost use Rattle.std.specs.List.{All};
ghost use Rattle.nd_sim.specs.Answers.{IsNamed};
ghost use Rattle.nd_cli.specs.Inputs.{is_read_failure, is_write_failure};
ghost use Rattle.nd_sim.specs.Written.{is_write_failure as is_writer_failure};
ghost use Rattle.nd_commands.specs.Simulated.{AnswersSim, AnswersAccepted, LeavesSim, IsSimFault, WritesGiven, WritesGivenPart, may_have_begun};

use crate::opening::close_dispatch;
use crate::reading::{SimInputs, read_sim_inputs};
use crate::simulation::simulate;
use nd_cli::{CliFault, ParkOptions};
use nd_devices::Told;
use nd_sim::SimFault;
use std::alloc::Global;
use std::io::{Read, Write};
use std::thread::Threads;

/// Reads the bundle on the input, does what the script says, and writes each entry's line as it is
/// made, `refused` and its name for a command that is refused, the reply for one that asks, and last
/// the report. The status is 1 where a derivation failed or was cancelled, and else 0. Where the inputs
/// are accepted this is the answer, unless a device fails or memory runs out.
///
/// The first refusal in this order is answered, and nothing is written then: `Read`; `TooLarge` or
/// `Drvs` for the bundle; `TooLarge` or `Builders` for the builders list; `TooLarge` or `Info` for the
/// info text; `TooLarge` or `Script` for the script. `Write` and `Memory` leave the beginning of the
/// text; `Memory` may come at any point. The reader is marked exactly at `Read`, and the writer exactly
/// at `Write`.
pub fn sim_engine<R: Read, W: Write>(
    rt: &(impl Threads + Sync),
    alloc: Global,
    options: &ParkOptions,
    script: &[u8],
    input: &mut Told<R>,
    output: &mut Told<W>,
) -> Result<u8, CliFault>
    requires reader { input.old.is_marked ≡ false }
    requires writer { output.old.is_marked ≡ false }
    ensures answer { IfOk result (λ status. AnswersSim options.now script.now status R.remaining input.old input.new W.contents output.old output.new) }
    ensures accepted { AnswersAccepted options.now script.now R.remaining input.old W.contents output.old output.new result }
    ensures fault { IfErr result (IsSimFault options.now script.now R.remaining input.old input.new output.new.is_marked) }
    ensures reader_mark { input.new.is_marked ≡ is_read_failure result }
    ensures writer_mark { output.new.is_marked ≡ is_write_failure result }
    ensures untouched { IfErr result (λ e. may_have_begun e ≡ false → output.new ≡ output.old) }
    ensures partly { IfErr result (LeavesSim options.now script.now R.remaining input.old input.new W.contents output.old output.new) }
{
    let given = read_sim_inputs(rt, alloc, options, script, input)?;
    match perform(alloc, given, output) {
        Ok(status) => Ok(status),
        Err(SimFault::Write) => Err(CliFault::Write),
        Err(SimFault::Memory) => Err(CliFault::Memory),
    }
}

/// Does what the commands say on the dispatch, which ends here.
fn perform<W: Write>(alloc: Global, given: SimInputs, output: &mut Told<W>) -> Result<u8, SimFault>
    requires begun { given.dispatch.history ≡ [] }
    requires named { All (IsNamed given.dispatch.inputs) given.commands.items }
    ensures written { IfOk result (λ status. WritesGiven given status W.contents output.old output.new) }
    ensures partly { OnErr result (WritesGivenPart given W.contents output.old output.new) }
    ensures mark { output.new.is_marked ≡ (output.old.is_marked || is_writer_failure result) }
{
    let SimInputs {
        mut dispatch,
        commands,
    } = given;
    let answer = simulate(alloc, &mut dispatch, commands, output);
    close_dispatch(dispatch);
    answer
}
