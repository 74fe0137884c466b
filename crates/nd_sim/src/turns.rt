//! The turns of a script's commands, with the lines that are written of them.

ghost use Rattle.std.specs.Prelude.{◌≡◌, ◌||◌, [], IfErr, OnOk, OnErr};
ghost use Rattle.std.specs.List.{All};
ghost use Rattle.nd_sim.specs.Answers.{IsNamed};
ghost use Rattle.nd_sim.specs.Written.{ObeyedBetween, PumpedBetween, PumpedUntil, WritesPumpedPart, TurnedBetween, WritesTurnPart, WritesRun, WritesSimulationPart, is_write_failure};

use crate::answer::Answer;
use crate::commands::obey;
use crate::fault::SimFault;
use crate::lines::{write_added, write_refused, write_replied};
use nd_devices::{Told, WriteError};
use nd_ledger::Dispatch;
use nd_script::Command;
use std::alloc::{AllocError, Global};
use std::io;

/// Pumps, and then for each command does what it asks for and pumps again. Each entry's line is written
/// as it is made, a refused command as `refused` and the refusal's name, and a reply as the hook gives
/// it.
///
/// Refuses with `Write` (1), where the device refused a write and is marked, and with `Memory` (2) where
/// an allocation is refused; nothing but a refused write sets the mark. The beginning of the text is out
/// then.
#[tactic(auto, using(crate::proofs::Simulating::runs))]
pub fn take_turns<W: io::Write>(
    alloc: Global,
    dispatch: &mut Dispatch,
    commands: Vec<Command>,
    out: &mut Told<W>,
) -> Result<(), SimFault>
    requires begun { dispatch.old.history ≡ [] }
    requires named { All (IsNamed dispatch.old.inputs) commands.items }
    ensures inputs { dispatch.new.inputs ≡ dispatch.old.inputs }
    ensures written { OnOk result (WritesRun dispatch.old.inputs commands.items dispatch.new.history (W.contents out.old.device) (W.contents out.new.device)) }
    ensures partly { OnErr result (WritesSimulationPart dispatch.old.inputs commands.items (W.contents out.old.device) (W.contents out.new.device)) }
    ensures mark { out.new.is_marked ≡ (out.old.is_marked || is_write_failure result) }
{
    pump(dispatch, out)?;
    for command in commands {
        turn(alloc, dispatch, command, out)?;
    }
    Ok(())
}

/// Does what a command asks for, and pumps: one turn of [`take_turns`], with its lines.
///
/// Refuses with `Write` (1) and `Memory` (2) as [`take_turns`] does. The beginning of the turn's text is
/// out then, and the dispatch may have gone on.
#[tactic(auto, using(crate::proofs::Simulating::turns))]
pub fn turn<W: io::Write>(
    alloc: Global,
    dispatch: &mut Dispatch,
    command: Command,
    out: &mut Told<W>,
) -> Result<(), SimFault>
    requires { IsNamed dispatch.old.inputs command }
    ensures inputs { dispatch.new.inputs ≡ dispatch.old.inputs }
    ensures written { OnOk result (TurnedBetween dispatch.old dispatch.new command (W.contents out.old.device) (W.contents out.new.device)) }
    ensures partly { OnErr result (WritesTurnPart dispatch.old.inputs dispatch.old.history command (W.contents out.old.device) (W.contents out.new.device)) }
    ensures mark { out.new.is_marked ≡ (out.old.is_marked || is_write_failure result) }
{
    act(alloc, dispatch, command, out)?;
    pump(dispatch, out)
}

/// Does what a command asks for, and writes what it came to: the line of the entry that it added, its
/// refusal or the reply.
#[tactic(auto, using(crate::proofs::Simulating::acts))]
fn act<W: io::Write>(
    alloc: Global,
    dispatch: &mut Dispatch,
    command: Command,
    out: &mut Told<W>,
) -> Result<(), SimFault>
    requires { IsNamed dispatch.old.inputs command }
    ensures inputs { dispatch.new.inputs ≡ dispatch.old.inputs }
    ensures written { OnOk result (ObeyedBetween dispatch.old dispatch.new command (W.contents out.old.device) (W.contents out.new.device)) }
    ensures partly { OnErr result (WritesTurnPart dispatch.old.inputs dispatch.old.history command (W.contents out.old.device) (W.contents out.new.device)) }
    ensures mark { out.new.is_marked ≡ (out.old.is_marked || is_write_failure result) }
{
    let before = dispatch.history().len();
    match obey(alloc, dispatch, command) {
        Ok(Answer::Added) => match write_added(dispatch, before, out) {
            Ok(()) => Ok(()),
            Err(WriteError::Write) => Err(SimFault::Write),
        },
        Ok(Answer::Refused(refusal)) => match write_refused(refusal, out) {
            Ok(()) => Ok(()),
            Err(WriteError::Write) => Err(SimFault::Write),
        },
        Ok(Answer::Replied(reply)) => match write_replied(&reply, dispatch, out) {
            Ok(()) => Ok(()),
            Err(WriteError::Write) => Err(SimFault::Write),
        },
        Err(AllocError) => Err(SimFault::Memory),
    }
}

/// Takes the steps that are due until there is none, and writes their lines; those of the steps that
/// were taken before want of memory, too.
///
/// Refuses with `Write` (1) and `Memory` (2) as [`take_turns`] does. The beginning of the lines is out
/// then, and the dispatch may have gone on: at `Memory` the lines of all steps that it took are out.
#[tactic(auto, using(crate::proofs::Simulating::pumps))]
pub fn pump<W: io::Write>(dispatch: &mut Dispatch, out: &mut Told<W>) -> Result<(), SimFault>
    ensures inputs { dispatch.new.inputs ≡ dispatch.old.inputs }
    ensures written { OnOk result (PumpedBetween dispatch.old dispatch.new (W.contents out.old.device) (W.contents out.new.device)) }
    ensures partly { OnErr result (WritesPumpedPart dispatch.old.inputs dispatch.old.history (W.contents out.old.device) (W.contents out.new.device)) }
    ensures short { IfErr result (PumpedUntil dispatch.old dispatch.new (W.contents out.old.device) (W.contents out.new.device)) }
    ensures mark { out.new.is_marked ≡ (out.old.is_marked || is_write_failure result) }
{
    let before = dispatch.history().len();
    match dispatch.pump() {
        Ok(_) => match write_added(dispatch, before, out) {
            Ok(()) => Ok(()),
            Err(WriteError::Write) => Err(SimFault::Write),
        },
        Err(AllocError) => match write_added(dispatch, before, out) {
            Ok(()) => Err(SimFault::Memory),
            Err(WriteError::Write) => Err(SimFault::Write),
        },
    }
}
