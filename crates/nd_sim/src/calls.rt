//! The calls that the commands of a script stand for. Each answers that its entry was added, or else is
//! refused and leaves the dispatch as it was.

ghost use Rattle.std.specs.Prelude.{◌≡◌, ◌<◌, length, reverse, IfOk, IfErr, OnErr};
ghost use Rattle.nd_history.specs.Choices.{machines_in};
ghost use Rattle.nd_script.specs.declared.command.Command.{Command};
ghost use Rattle.nd_sim.specs.Outcomes.{IsAnswer, IsRefusal};

use crate::answer::Answer;
use crate::leases::{lacking, live_ticket, no_reports};
use nd_closure::Refs;
use nd_history::Why;
use nd_ledger::{Dispatch, Refusal};
use nd_path::PathSet;
use std::alloc::Global;

/// `start`: the lease starts, once what its machine lacks was copied.
#[tactic(auto, using(crate::proofs::Recording::full_start, crate::proofs::Recording::full_start_refused, crate::proofs::Recording::start_wants))]
pub(crate) fn start(alloc: Global, dispatch: &mut Dispatch, drv: u32) -> Result<Answer, Refusal>
    ensures inputs { dispatch.new.inputs ≡ dispatch.old.inputs }
    ensures answer { IfOk result (IsAnswer dispatch.old.inputs dispatch.old.history dispatch.new.history (Command.Start drv)) }
    ensures refused { IfErr result (IsRefusal dispatch.old.inputs (reverse dispatch.old.history) (Command.Start drv)) }
    ensures kept { OnErr result (dispatch.new ≡ dispatch.old) }
{
    let ticket = live_ticket(dispatch, drv)?;
    let paths = lacking(alloc, dispatch, ticket)?;
    match dispatch.started(alloc, ticket, paths) {
        Ok(()) => Ok(Answer::Added),
        Err(refused) => Err(refused.why),
    }
}

/// `startwith`: it starts, once these paths were copied.
#[tactic(auto, using(crate::proofs::Recording::started, crate::proofs::Recording::start_refused))]
pub(crate) fn start_with(
    alloc: Global,
    dispatch: &mut Dispatch,
    drv: u32,
    paths: PathSet,
) -> Result<Answer, Refusal>
    ensures inputs { dispatch.new.inputs ≡ dispatch.old.inputs }
    ensures answer { IfOk result (IsAnswer dispatch.old.inputs dispatch.old.history dispatch.new.history (Command.StartWith drv paths)) }
    ensures refused { IfErr result (IsRefusal dispatch.old.inputs (reverse dispatch.old.history) (Command.StartWith drv paths)) }
    ensures kept { OnErr result (dispatch.new ≡ dispatch.old) }
{
    let ticket = live_ticket(dispatch, drv)?;
    match dispatch.started(alloc, ticket, paths) {
        Ok(()) => Ok(Answer::Added),
        Err(refused) => Err(refused.why),
    }
}

/// `built`: the build ends with its outputs, which refer to nothing.
#[tactic(auto, using(crate::proofs::Recording::bare_end, crate::proofs::Recording::bare_end_refused, crate::proofs::Recording::end_wants))]
pub(crate) fn built(alloc: Global, dispatch: &mut Dispatch, drv: u32) -> Result<Answer, Refusal>
    requires { drv < length dispatch.old.inputs.graph.paths }
    ensures inputs { dispatch.new.inputs ≡ dispatch.old.inputs }
    ensures answer { IfOk result (IsAnswer dispatch.old.inputs dispatch.old.history dispatch.new.history (Command.Built drv)) }
    ensures refused { IfErr result (IsRefusal dispatch.old.inputs (reverse dispatch.old.history) (Command.Built drv)) }
    ensures kept { OnErr result (dispatch.new ≡ dispatch.old) }
{
    let ticket = live_ticket(dispatch, drv)?;
    let refs = no_reports(alloc, dispatch, drv)?;
    match dispatch.built(alloc, ticket, refs) {
        Ok(()) => Ok(Answer::Added),
        Err(refused) => Err(refused.why),
    }
}

/// `built` with lists: the build ends with its outputs, which have these references.
#[tactic(auto, using(crate::proofs::Recording::ended, crate::proofs::Recording::end_refused))]
pub(crate) fn built_with(
    alloc: Global,
    dispatch: &mut Dispatch,
    drv: u32,
    refs: Refs,
) -> Result<Answer, Refusal>
    ensures inputs { dispatch.new.inputs ≡ dispatch.old.inputs }
    ensures answer { IfOk result (IsAnswer dispatch.old.inputs dispatch.old.history dispatch.new.history (Command.BuiltWith drv refs)) }
    ensures refused { IfErr result (IsRefusal dispatch.old.inputs (reverse dispatch.old.history) (Command.BuiltWith drv refs)) }
    ensures kept { OnErr result (dispatch.new ≡ dispatch.old) }
{
    let ticket = live_ticket(dispatch, drv)?;
    match dispatch.built(alloc, ticket, refs) {
        Ok(()) => Ok(Answer::Added),
        Err(refused) => Err(refused.why),
    }
}

/// `fail`: the build ends with this status.
#[tactic(auto, using(crate::proofs::Recording::failed, crate::proofs::Recording::fail_refused))]
pub(crate) fn fail(dispatch: &mut Dispatch, drv: u32, status: u8) -> Result<Answer, Refusal>
    ensures inputs { dispatch.new.inputs ≡ dispatch.old.inputs }
    ensures answer { IfOk result (IsAnswer dispatch.old.inputs dispatch.old.history dispatch.new.history (Command.Fail drv status)) }
    ensures refused { IfErr result (IsRefusal dispatch.old.inputs (reverse dispatch.old.history) (Command.Fail drv status)) }
    ensures kept { OnErr result (dispatch.new ≡ dispatch.old) }
{
    let ticket = live_ticket(dispatch, drv)?;
    dispatch.failed(ticket, Why::Status(status))?;
    Ok(Answer::Added)
}

/// `lose`: the transport is lost during the build.
#[tactic(auto, using(crate::proofs::Recording::lost, crate::proofs::Recording::lose_refused))]
pub(crate) fn lose(dispatch: &mut Dispatch, drv: u32) -> Result<Answer, Refusal>
    ensures inputs { dispatch.new.inputs ≡ dispatch.old.inputs }
    ensures answer { IfOk result (IsAnswer dispatch.old.inputs dispatch.old.history dispatch.new.history (Command.Lose drv)) }
    ensures refused { IfErr result (IsRefusal dispatch.old.inputs (reverse dispatch.old.history) (Command.Lose drv)) }
    ensures kept { OnErr result (dispatch.new ≡ dispatch.old) }
{
    let ticket = live_ticket(dispatch, drv)?;
    dispatch.failed(ticket, Why::Lost)?;
    Ok(Answer::Added)
}

/// `down`: the lease is given back before its start.
#[tactic(auto, using(crate::proofs::Recording::given_back, crate::proofs::Recording::down_refused))]
pub(crate) fn down(dispatch: &mut Dispatch, drv: u32) -> Result<Answer, Refusal>
    ensures inputs { dispatch.new.inputs ≡ dispatch.old.inputs }
    ensures answer { IfOk result (IsAnswer dispatch.old.inputs dispatch.old.history dispatch.new.history (Command.Down drv)) }
    ensures refused { IfErr result (IsRefusal dispatch.old.inputs (reverse dispatch.old.history) (Command.Down drv)) }
    ensures kept { OnErr result (dispatch.new ≡ dispatch.old) }
{
    let ticket = live_ticket(dispatch, drv)?;
    dispatch.down(ticket)?;
    Ok(Answer::Added)
}

/// `stop`: no further lease is made.
#[tactic(auto, using(crate::proofs::Recording::added))]
pub(crate) fn stop(dispatch: &mut Dispatch) -> Result<Answer, Refusal>
    ensures inputs { dispatch.new.inputs ≡ dispatch.old.inputs }
    ensures answer { IfOk result (IsAnswer dispatch.old.inputs dispatch.old.history dispatch.new.history Command.Stop) }
    ensures refused { IfErr result (IsRefusal dispatch.old.inputs (reverse dispatch.old.history) Command.Stop) }
    ensures kept { OnErr result (dispatch.new ≡ dispatch.old) }
{
    dispatch.stop()?;
    Ok(Answer::Added)
}

/// `drain`: the machine gets no more leases.
#[tactic(auto, using(crate::proofs::Recording::added, crate::proofs::Recording::drain_wants))]
pub(crate) fn drain(dispatch: &mut Dispatch, machine: u32) -> Result<Answer, Refusal>
    requires { machine < machines_in dispatch.old.inputs }
    ensures inputs { dispatch.new.inputs ≡ dispatch.old.inputs }
    ensures answer { IfOk result (IsAnswer dispatch.old.inputs dispatch.old.history dispatch.new.history (Command.Drain machine)) }
    ensures refused { IfErr result (IsRefusal dispatch.old.inputs (reverse dispatch.old.history) (Command.Drain machine)) }
    ensures kept { OnErr result (dispatch.new ≡ dispatch.old) }
{
    dispatch.drain(machine)?;
    Ok(Answer::Added)
}

/// `enable`: the machine gets leases again.
#[tactic(auto, using(crate::proofs::Recording::added, crate::proofs::Recording::enable_wants))]
pub(crate) fn enable(dispatch: &mut Dispatch, machine: u32) -> Result<Answer, Refusal>
    requires { machine < machines_in dispatch.old.inputs }
    ensures inputs { dispatch.new.inputs ≡ dispatch.old.inputs }
    ensures answer { IfOk result (IsAnswer dispatch.old.inputs dispatch.old.history dispatch.new.history (Command.Enable machine)) }
    ensures refused { IfErr result (IsRefusal dispatch.old.inputs (reverse dispatch.old.history) (Command.Enable machine)) }
    ensures kept { OnErr result (dispatch.new ≡ dispatch.old) }
{
    dispatch.enable(machine)?;
    Ok(Answer::Added)
}
