//! A command of a script, as a call on a dispatch.

ghost use Rattle.std.specs.Prelude.{◌≡◌, MatchBool, reverse, IfOk, IfErr, OnErr};
ghost use Rattle.nd_ledger.specs.declared.refusal.Refusal.{Refusal};
ghost use Rattle.nd_sim.specs.Answers.{IsNamed};
ghost use Rattle.nd_sim.specs.Outcomes.{ComesTo, IsAnswer, IsRefusal, TakesMemory};

use crate::answer::Answer;
use crate::calls::{built, built_with, down, drain, enable, fail, lose, start, start_with, stop};
use nd_ledger::{Dispatch, Refusal};
use nd_script::Command;
use std::alloc::{AllocError, Global};

/// Does what a command of a script asks for. The ticket of a call is that of the derivation's live
/// lease; where it has none, the command is refused as `NotLive`. `start` copies what the lease's
/// machine lacks, and `built` without lists reports no references for any output.
///
/// A refusal is an answer, and leaves the dispatch as it was. Where an allocation is refused the
/// dispatch is as it was, too. `fail`, `lose`, `down`, `stop` and `ask` take no memory, and `start`,
/// `startwith` and `built` only where the derivation has a live lease.
#[tactic(auto, using(crate::proofs::Recording::genuinely_refused, crate::proofs::Recording::wanting))]
pub fn obey(alloc: Global, dispatch: &mut Dispatch, command: Command) -> Result<Answer, AllocError>
    requires { IsNamed dispatch.old.inputs command }
    ensures inputs { dispatch.new.inputs ≡ dispatch.old.inputs }
    ensures answer { IfOk result (ComesTo dispatch.old.inputs dispatch.old.history dispatch.new.history command) }
    ensures kept { OnErr result (dispatch.new ≡ dispatch.old) }
    ensures memory { OnErr result (TakesMemory (reverse dispatch.old.history) command) }
{
    match call(alloc, dispatch, command) {
        Ok(answer) => Ok(answer),
        Err(refusal) => {
            if is_want_of_memory(refusal) {
                Err(AllocError)
            } else {
                Ok(Answer::Refused(refusal))
            }
        }
    }
}

/// The call that a command asks for.
fn call(alloc: Global, dispatch: &mut Dispatch, command: Command) -> Result<Answer, Refusal>
    requires { IsNamed dispatch.old.inputs command }
    ensures inputs { dispatch.new.inputs ≡ dispatch.old.inputs }
    ensures answer { IfOk result (IsAnswer dispatch.old.inputs dispatch.old.history dispatch.new.history command) }
    ensures refused { IfErr result (IsRefusal dispatch.old.inputs (reverse dispatch.old.history) command) }
    ensures kept { OnErr result (dispatch.new ≡ dispatch.old) }
{
    match command {
        Command::Start { drv } => start(alloc, dispatch, drv),
        Command::StartWith { drv, paths } => start_with(alloc, dispatch, drv, paths),
        Command::Built { drv } => built(alloc, dispatch, drv),
        Command::BuiltWith { drv, refs } => built_with(alloc, dispatch, drv, refs),
        Command::Fail { drv, status } => fail(dispatch, drv, status),
        Command::Lose { drv } => lose(dispatch, drv),
        Command::Down { drv } => down(dispatch, drv),
        Command::Stop => stop(dispatch),
        Command::Drain { machine } => drain(dispatch, machine),
        Command::Enable { machine } => enable(dispatch, machine),
        Command::Ask { drv } => Ok(Answer::Replied(dispatch.ask(drv))),
    }
}

/// Whether it is want of memory.
fn is_want_of_memory(refusal: Refusal) -> bool
    ensures { MatchBool result (refusal ≡ Refusal.Memory) (refusal ≡ Refusal.Memory → ⊥) }
{
    matches!(refusal, Refusal::Memory)
}
