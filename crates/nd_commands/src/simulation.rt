//! A whole script on a dispatch, with the lines that are written of it.

ghost use Rattle.std.specs.Prelude.{◌≡◌, ◌||◌, [], IfOk, IfErr, OnOk, OnErr};
ghost use Rattle.std.specs.List.{All};
ghost use Rattle.nd_sim.specs.Answers.{IsNamed};
ghost use Rattle.nd_sim.specs.Written.{is_write_failure};
ghost use Rattle.nd_commands.specs.Simulated.{Simulates, SimulatesPart};

use nd_devices::{Fault, Told, WriteError};
use nd_ledger::Dispatch;
use nd_report::{exit_status, write_report};
use nd_script::Command;
use nd_sim::{SimFault, take_turns};
use std::alloc::Global;
use std::io;

/// Pumps, and then for each command does what it asks for and pumps again; then writes the report of
/// how the dispatch stands, and has the writer pass on what it holds back. Each entry's line is written
/// as it is made, a refused command as `refused` and the refusal's name, and a reply as the hook gives
/// it. The answer is the exit status: 1 where a derivation failed or was cancelled, and else 0.
///
/// Refuses with `Write` (1), where the device refused a write and is marked, and with `Memory` (2) where
/// an allocation is refused. The beginning of the text is out then.
pub(crate) fn simulate<W: io::Write>(
    alloc: Global,
    dispatch: &mut Dispatch,
    commands: Vec<Command>,
    out: &mut Told<W>,
) -> Result<u8, SimFault>
    requires begun { dispatch.old.history ≡ [] }
    requires named { All (IsNamed dispatch.old.inputs) commands.items }
    ensures inputs { dispatch.new.inputs ≡ dispatch.old.inputs }
    ensures written { IfOk result (λ status. Simulates dispatch.old.inputs commands.items status W.contents out.old out.new) }
    ensures partly { OnErr result (SimulatesPart dispatch.old.inputs commands.items W.contents out.old out.new) }
    ensures mark { out.new.is_marked ≡ (out.old.is_marked || is_write_failure result) }
{
    let answer = play(alloc, dispatch, commands, out);
    match out.flush() {
        Ok(()) => answer,
        Err(Fault) => Err(SimFault::Write),
    }
}

/// The same without a flush.
fn play<W: io::Write>(
    alloc: Global,
    dispatch: &mut Dispatch,
    commands: Vec<Command>,
    out: &mut Told<W>,
) -> Result<u8, SimFault>
    requires begun { dispatch.old.history ≡ [] }
    requires named { All (IsNamed dispatch.old.inputs) commands.items }
    ensures inputs { dispatch.new.inputs ≡ dispatch.old.inputs }
    ensures written { IfOk result (λ status. Simulates dispatch.old.inputs commands.items status W.contents out.old out.new) }
    ensures partly { OnErr result (SimulatesPart dispatch.old.inputs commands.items W.contents out.old out.new) }
    ensures mark { out.new.is_marked ≡ (out.old.is_marked || is_write_failure result) }
{
    take_turns(alloc, dispatch, commands, out)?;
    match write_report(dispatch, out) {
        Ok(()) => Ok(exit_status(dispatch)),
        Err(WriteError::Write) => Err(SimFault::Write),
    }
}
