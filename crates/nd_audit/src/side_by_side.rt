//! The audit of a whole history by two threads: this one goes through entries with what is kept of references and holdings,
//! which asks for memory for each, and another one judges them by the other rules.

ghost use Rattle.std.specs.Prelude.{◌≡◌, ◌<◌, ◌≤◌, length, reverse, IfOk, OnOk, IfErr};
ghost use Rattle.std.specs.Vec.Iter.{into_iter_items};
ghost use Rattle.nd_graph.specs.Graphs.{IsSound};
ghost use Rattle.nd_history.specs.Legal.{IsLegal};
ghost use Rattle.nd_history.specs.Premises.{premises_of};
ghost use Rattle.nd_audit.specs.Ahead.{IsSizedFor, IsNext};
ghost use Rattle.nd_audit.specs.Judging.{IsNotAdmitted, AreRecorded, IsRefusedIn, IsBegun, IsAuditOf, IsSomeAudit, HasStepped, IsRefusedFor, IsDoneWith, work_left};
ghost use Rattle.nd_ledger.specs.Followed.{IsFollowed};
ghost use Rattle.nd_ledger.specs.States.{IsFresh};

use crate::ahead::{Ahead, Batch, End};
use crate::judging::{Unadmitted, judge};
use nd_history::{Entry, Inputs};
use nd_ledger::{AdmitError, State, learn_jobs};
use std::alloc::{AllocError, Global};
use std::thread::{Threads, join};
use std::vec::IntoIter;

/// What was kept for an audit that found a legal history. It is of no more use, and takes time to let go.
#[derive(Drop)]
pub struct Audited {
    ahead: Ahead,
    state: State,
}

/// An audit that is under way: what goes through entries, those that are left, what follows those that are recorded, and the
/// batch between them.
#[derive(Drop)]
pub(crate) struct UnderWay {
    ahead: Ahead,
    left: IntoIter<Entry>,
    state: State,
    batch: Batch,
}

/// What goes through entries, those that are left, and the first batch.
type Begun = (Ahead, IntoIter<Entry>, Batch);

/// What goes through entries, those that are left, and the next batch.
type Advance = (Ahead, IntoIter<Entry>, Result<Batch, AllocError>);

/// Whether a history is a legal one of these inputs: each entry is allowed after those before it. There are at most 1,024
/// builders. The entries are taken over. This thread goes through them with what is kept of references and holdings alone;
/// another one judges those that were gone through by the rules that take no memory, and records them.
///
/// Refuses the first entry that isn't allowed with its place and `Illegal` (1), the first rule that refuses it, and with
/// `Memory` (2) where an allocation is refused.
#[tactic(auto, using(crate::proofs::Judged::audits))]
pub fn audit_side_by_side(
    rt: &(impl Threads + Sync),
    alloc: Global,
    inputs: &Inputs,
    entries: Vec<Entry>,
) -> Result<Audited, Unadmitted>
    requires { length inputs.now.machines ≤ 1024 }
    ensures legal { OnOk result (IsLegal (premises_of inputs.now) (reverse entries.items)) }
    ensures refused { IfErr result (IsNotAdmitted (premises_of inputs.now) entries.items) }
{
    let Ok(mut way) = begin(rt, alloc, inputs, entries) else {
        return Err(out_of_memory());
    };
    'judging: while let End::More = way.batch.end {
        match step(rt, alloc, inputs, way) {
            Ok(next) => way = next,
            Err(unadmitted) => return Err(unadmitted),
        }
    }
    finish(inputs, way)
}

/// Another thread judges a batch while this one goes through the next one.
#[tactic(auto, using(crate::proofs::Judged::ways))]
fn step(
    rt: &(impl Threads + Sync),
    alloc: Global,
    inputs: &Inputs,
    way: UnderWay,
) -> Result<UnderWay, Unadmitted>
    requires audit { IsSomeAudit inputs.now way }
    requires more { way.batch.end ≡ End.More }
    ensures stepped { IfOk result (λ w. HasStepped inputs.now way w) }
    ensures less { IfOk result (λ w. work_left w < work_left way) }
    ensures refused { IfErr result (λ u. IsRefusedFor inputs.now way u) }
{
    let (judged, advanced) = step_halves(rt, alloc, inputs, way);
    let (ahead, left, next) = advanced;
    let state = match judged {
        Ok(state) => state,
        Err(unadmitted) => return Err(unadmitted),
    };
    let Ok(batch) = next else {
        return Err(out_of_memory());
    };
    Ok(UnderWay {
        ahead,
        left,
        state,
        batch,
    })
}

/// The two halves of that.
#[tactic(auto, using(crate::proofs::Judged::ways))]
fn step_halves(
    rt: &(impl Threads + Sync),
    alloc: Global,
    inputs: &Inputs,
    way: UnderWay,
) -> (Result<State, Unadmitted>, Advance)
    requires audit { IsSomeAudit inputs.now way }
    ensures sized { IsSizedFor (premises_of inputs.now) result.1.0 }
    ensures next { IfOk result.1.2 (IsNext (premises_of inputs.now) way.ahead result.1.0 (into_iter_items way.left) (into_iter_items result.1.1)) }
    ensures followed { IfOk result.0 (λ s. IsFollowed inputs.now s) }
    ensures recorded { IfOk result.0 (AreRecorded way.state way.batch) }
    ensures refused { IfErr result.0 (IsRefusedIn (premises_of inputs.now) way.state.book.entries way.batch) }
{
    let UnderWay {
        ahead,
        left,
        state,
        batch,
    } = way;
    join(
        rt,
        || judge(inputs, state, batch),
        || advance(alloc, inputs, ahead, left),
    )
}

/// Judges the last batch.
#[tactic(auto, using(crate::proofs::Judged::ways))]
fn finish(inputs: &Inputs, way: UnderWay) -> Result<Audited, Unadmitted>
    requires audit { IsSomeAudit inputs.now way }
    requires last { way.batch.end ≡ End.More → ⊥ }
    ensures done { OnOk result (IsDoneWith inputs.now way) }
    ensures refused { IfErr result (λ u. IsRefusedFor inputs.now way u) }
{
    let UnderWay {
        ahead,
        left,
        state,
        batch,
    } = way;
    drop(left);
    match judge(inputs, state, batch) {
        Ok(state) => Ok(Audited { ahead, state }),
        Err(unadmitted) => Err(unadmitted),
    }
}

/// What is answered where an allocation is refused.
fn out_of_memory() -> Unadmitted
    ensures { result.error ≡ AdmitError.Memory }
{
    Unadmitted {
        index: 0,
        error: AdmitError::Memory,
    }
}

/// The empty history, which another thread makes, and the first batch of these entries.
#[tactic(auto, using(crate::proofs::Judged::way_begun))]
fn begin(
    rt: &(impl Threads + Sync),
    alloc: Global,
    inputs: &Inputs,
    entries: Vec<Entry>,
) -> Result<UnderWay, AllocError>
    requires { length inputs.now.machines ≤ 1024 }
    ensures { IfOk result (λ way. IsAuditOf inputs.now entries.items way) }
{
    learn_jobs(inputs.machines.as_slice(), &inputs.local);
    let (state, begun) = begin_halves(rt, alloc, inputs, entries);
    let Ok((ahead, left, batch)) = begun else {
        return Err(AllocError);
    };
    let Ok(state) = state else {
        return Err(AllocError);
    };
    Ok(UnderWay {
        ahead,
        left,
        state,
        batch,
    })
}

/// The two halves of that.
fn begin_halves(
    rt: &(impl Threads + Sync),
    alloc: Global,
    inputs: &Inputs,
    entries: Vec<Entry>,
) -> (Result<State, AllocError>, Result<Begun, AllocError>)
    requires { length inputs.now.machines ≤ 1024 }
    ensures begun { IfOk result.1 (λ r. IsBegun (premises_of inputs.now) entries.items r.0 (into_iter_items r.1) r.2) }
    ensures fresh { IfOk result.0 (IsFresh inputs.now.graph inputs.now.machines inputs.now.local inputs.now.keep_going) }
    ensures sound { IsSound inputs.now.graph }
{
    join(
        rt,
        || State::new(
            alloc,
            &inputs.graph,
            inputs.machines.as_slice(),
            &inputs.local,
            inputs.keep_going,
        ),
        || begin_ahead(alloc, inputs, entries),
    )
}

/// What goes through the first batch of these entries, those that are left, and the batch.
#[tactic(auto, using(crate::proofs::Judged::begun_by))]
fn begin_ahead(alloc: Global, inputs: &Inputs, entries: Vec<Entry>) -> Result<Begun, AllocError>
    requires { length inputs.now.machines ≤ 1024 }
    ensures { IfOk result (λ r. IsBegun (premises_of inputs.now) entries.items r.0 (into_iter_items r.1) r.2) }
{
    let mut ahead = Ahead::new(alloc, inputs)?;
    let mut left = entries.into_iter();
    let batch = ahead.next(alloc, inputs, &mut left)?;
    Ok((ahead, left, batch))
}

/// Goes through the next batch of the entries that are left.
fn advance(alloc: Global, inputs: &Inputs, mut ahead: Ahead, mut left: IntoIter<Entry>) -> Advance
    requires { IsSizedFor (premises_of inputs.now) ahead }
    ensures sized { IsSizedFor (premises_of inputs.now) result.0 }
    ensures next { IfOk result.2 (IsNext (premises_of inputs.now) ahead result.0 (into_iter_items left) (into_iter_items result.1)) }
{
    let next = ahead.next(alloc, inputs, &mut left);
    (ahead, left, next)
}
