//! Entries that are judged by the rules which take no memory, and recorded.

ghost use Rattle.std.specs.Prelude.{◌≡◌, ◌<◌, ◌++◌, ◌∷◌, [], length, reverse, IfOk, OnOk, IfErr};
ghost use Rattle.nd_history.specs.Fitting.{FitTogether};
ghost use Rattle.nd_history.specs.History.{is_leased};
ghost use Rattle.nd_history.specs.Legal.{IsInRange};
ghost use Rattle.nd_history.specs.Marks.{AreMarked};
ghost use Rattle.nd_history.specs.Premises.{premises_of};
ghost use Rattle.nd_history.specs.Standing.{drvs_in};
ghost use Rattle.nd_ledger.specs.Admitting.{IsAdmitRefused};
ghost use Rattle.nd_audit.specs.Ahead.{IsCleared, AreCleared, IsHeldUp};
ghost use Rattle.nd_ledger.specs.Followed.{IsFollowed};
ghost use Rattle.nd_audit.specs.Judging.{IsFreelyJudged, IsUnadmitted, AwaitsJudge, AreRecorded, IsFree, IsRefusedIn};

use crate::ahead::{Batch, End};
use nd_closure::Refs;
use nd_failure::Board;
use nd_history::auditing::{check_ready, is_in_range, judge_ready_choice, judge_ready_no_builder};
use nd_history::{Book, Entry, Inputs, Rule, Why};
use nd_ledger::{AdmitError, State};
use nd_path::PathSet;

/// The first of some entries that isn't admitted behind those before it.
#[derive(Clone, Copy, Debug, PartialEq, Eq)]
pub struct Unadmitted {
    /// Its place, from 0. Where an allocation was refused it says nothing.
    pub index: usize,
    /// Why it isn't admitted.
    pub error: AdmitError,
}

/// Judges the entries of a batch behind those that are recorded, and records them, until one isn't admitted.
#[tactic(auto, using(crate::proofs::Judged::recorded_by, crate::proofs::Judged::refused_early, crate::proofs::Judged::refused_held, crate::proofs::Judged::held_there))]
pub(crate) fn judge(inputs: &Inputs, mut state: State, batch: Batch) -> Result<State, Unadmitted>
    requires followed { IsFollowed inputs.now state }
    requires awaited { AwaitsJudge (premises_of inputs.now) (reverse state.book.entries) batch }
    ensures followed { IfOk result (λ s. IsFollowed inputs.now s) }
    ensures recorded { IfOk result (AreRecorded state batch) }
    ensures free { OnOk result (IsFree batch.end) }
    ensures refused { IfErr result (IsRefusedIn (premises_of inputs.now) state.book.entries batch) }
{
    let Batch { entries, end } = batch;
    record_all(inputs, &mut state, entries)?;
    let End::Stopped(entry, error) = end else {
        return Ok(state);
    };
    Err(refuse(inputs, &mut state, &entry, error))
}

/// The answer about an entry that was held up with this error.
#[tactic(auto, using(crate::proofs::Judged::held_refused))]
fn refuse(inputs: &Inputs, state: &mut State, entry: &Entry, error: AdmitError) -> Unadmitted
    requires followed { IsFollowed inputs.now state.old }
    requires held { IsHeldUp (premises_of inputs.now) (reverse state.old.book.entries) entry.now error }
    ensures index { result.index ≡ length state.old.book.entries }
    ensures refused { IsAdmitRefused (premises_of inputs.now) (reverse state.old.book.entries) entry.now result.error }
{
    let index = state.book.entries().len();
    match judge_entry(inputs, state, entry) {
        Ok(()) => Unadmitted { index, error },
        Err(rule) => Unadmitted {
            index,
            error: AdmitError::Illegal(rule),
        },
    }
}

/// Records entries that were gone through, each if no rule that takes no memory refuses it.
#[tactic(auto, using(crate::proofs::Judged::recorded_none, crate::proofs::Judged::recorded_next, crate::proofs::Judged::recorded_one, crate::proofs::Judged::recorded_all, crate::proofs::Judged::recorded_refused))]
fn record_all(inputs: &Inputs, state: &mut State, entries: Vec<Entry>) -> Result<(), Unadmitted>
    requires followed { IsFollowed inputs.now state.old }
    requires cleared { AreCleared (premises_of inputs.now) (reverse state.old.book.entries) entries.items }
    ensures followed { OnOk result (IsFollowed inputs.now state.new) }
    ensures entries { OnOk result (state.new.book.entries ≡ state.old.book.entries ++ entries.items) }
    ensures refused { IfErr result (IsUnadmitted (premises_of inputs.now) (state.old.book.entries ++ entries.items)) }
{
    'recording: for entry in entries {
        let index = state.book.entries().len();
        if let Err(error) = record(inputs, state, entry) {
            return Err(Unadmitted { index, error });
        }
    }
    Ok(())
}

/// Records an entry that was gone through, if no rule that takes no memory refuses it.
#[tactic(auto, using(crate::proofs::Judged::cleared_allowed, crate::proofs::Judged::cleared_behind, nd_ledger::proofs::Followed::followed_may, nd_ledger::proofs::Followed::followed_can, nd_ledger::proofs::Followed::followed_turn))]
fn record(inputs: &Inputs, state: &mut State, entry: Entry) -> Result<(), AdmitError>
    requires followed { IsFollowed inputs.now state.old }
    requires cleared { IsCleared (premises_of inputs.now) (reverse state.old.book.entries) entry }
    ensures followed { OnOk result (IsFollowed inputs.now state.new) }
    ensures entries { OnOk result (state.new.book.entries ≡ state.old.book.entries ++ entry ∷ []) }
    ensures refused { IfErr result (IsAdmitRefused (premises_of inputs.now) (reverse state.old.book.entries) entry) }
{
    if let Err(rule) = judge_entry(inputs, state, &entry) {
        return Err(AdmitError::Illegal(rule));
    }
    state.append(entry)?;
    Ok(())
}

/// Tests an entry by the rules that take no memory, in their order.
#[tactic(auto, using(nd_ledger::proofs::Followed::followed_fit, nd_ledger::proofs::Followed::followed_marked, crate::proofs::Judged::drain_free, crate::proofs::Judged::enable_free, nd_history::proofs::Rules::first_range))]
fn judge_entry(inputs: &Inputs, state: &mut State, entry: &Entry) -> Result<(), Rule>
    requires followed { IsFollowed inputs.now state.old }
    ensures followed { IsFollowed inputs.now state.new }
    ensures book { state.new.book ≡ state.old.book }
    ensures judged { IsFreelyJudged (premises_of inputs.now) (reverse state.old.book.entries) entry.now result }
{
    if !is_in_range(inputs, entry) {
        return Err(Rule::Range);
    }
    match entry {
        Entry::Chosen { drv, machine, slot } => judge_choice(inputs, state, *drv, *machine, *slot),
        Entry::NoBuilder { drv } => judge_word(inputs, state, *drv),
        Entry::Started { drv, paths } => judge_start(inputs, &state.book, *drv, paths),
        Entry::Down { drv } => judge_down(inputs, &state.book, *drv),
        Entry::Built { drv, refs } => judge_end(inputs, &state.book, *drv, refs),
        Entry::Failed { drv, why } => judge_failure(inputs, &state.book, *drv, *why),
        Entry::Stop => judge_stop(inputs, &state.book, &state.board),
        Entry::Drain { .. } | Entry::Enable { .. } => Ok(()),
    }
}

/// Tests the choice of a slot.
#[tactic(auto, using(crate::proofs::Judged::followed))]
fn judge_choice(
    inputs: &Inputs,
    state: &mut State,
    drv: u32,
    machine: u32,
    slot: u32,
) -> Result<(), Rule>
    requires followed { IsFollowed inputs.now state.old }
    requires ranged { IsInRange (premises_of inputs.now) (Entry.Chosen drv machine slot) }
    ensures followed { IsFollowed inputs.now state.new }
    ensures book { state.new.book ≡ state.old.book }
    ensures judged { IsFreelyJudged (premises_of inputs.now) (reverse state.old.book.entries) (Entry.Chosen drv machine slot) result }
{
    check_ready(inputs, &state.book, &state.board, drv)?;
    let decision = state
        .turns
        .decide_by_kind(inputs, &state.book, drv as usize);
    judge_ready_choice(inputs, &state.book, decision, drv, machine, slot)
}

/// Tests the word that nothing can build a derivation.
#[tactic(auto, using(crate::proofs::Judged::followed))]
fn judge_word(inputs: &Inputs, state: &mut State, drv: u32) -> Result<(), Rule>
    requires followed { IsFollowed inputs.now state.old }
    requires ranged { drv < drvs_in (premises_of inputs.now) }
    ensures followed { IsFollowed inputs.now state.new }
    ensures book { state.new.book ≡ state.old.book }
    ensures judged { IsFreelyJudged (premises_of inputs.now) (reverse state.old.book.entries) (Entry.NoBuilder drv) result }
{
    check_ready(inputs, &state.book, &state.board, drv)?;
    let decision = state
        .turns
        .decide_by_kind(inputs, &state.book, drv as usize);
    judge_ready_no_builder(inputs, &state.book, decision, drv)
}

/// Whether a derivation has a live lease.
#[tactic(auto, using(crate::proofs::Judged::leased_told))]
fn is_leased(book: &Book, drv: u32) -> bool
    ensures { result ≡ is_leased drv (reverse book.now.entries) }
{
    book.lease(drv).is_some()
}

/// Tests a start, but for its paths.
#[tactic(auto, using(crate::proofs::Judged::start_unleased, crate::proofs::Judged::start_begun, nd_ledger::proofs::Admitting::free_start))]
fn judge_start(inputs: &Inputs, book: &Book, drv: u32, paths: &PathSet) -> Result<(), Rule>
    requires fit { FitTogether (premises_of inputs.now) book.now }
    requires ranged { drv < drvs_in (premises_of inputs.now) }
    ensures { IsFreelyJudged (premises_of inputs.now) (reverse book.now.entries) (Entry.Started drv paths.now) result }
{
    if !is_leased(book, drv) {
        return Err(Rule::Live);
    }
    if book.is_started(drv as usize) {
        return Err(Rule::Started);
    }
    Ok(())
}

/// Tests that a lease is given back.
#[tactic(auto, using(crate::proofs::Judged::back_unleased, crate::proofs::Judged::back_late, crate::proofs::Judged::back_free))]
fn judge_down(inputs: &Inputs, book: &Book, drv: u32) -> Result<(), Rule>
    requires fit { FitTogether (premises_of inputs.now) book.now }
    requires ranged { drv < drvs_in (premises_of inputs.now) }
    ensures { IsFreelyJudged (premises_of inputs.now) (reverse book.now.entries) (Entry.Down drv) result }
{
    if !is_leased(book, drv) {
        return Err(Rule::Live);
    }
    if book.is_started(drv as usize) {
        return Err(Rule::Started);
    }
    Ok(())
}

/// Tests the end of a build, but of its references only how many lists of them there are.
#[tactic(auto, using(crate::proofs::Judged::end_unleased, crate::proofs::Judged::end_early, crate::proofs::Judged::end_unlisted, nd_ledger::proofs::Admitting::free_end))]
fn judge_end(inputs: &Inputs, book: &Book, drv: u32, refs: &Refs) -> Result<(), Rule>
    requires fit { FitTogether (premises_of inputs.now) book.now }
    requires ranged { drv < drvs_in (premises_of inputs.now) }
    ensures { IsFreelyJudged (premises_of inputs.now) (reverse book.now.entries) (Entry.Built drv refs.now) result }
{
    if !is_leased(book, drv) {
        return Err(Rule::Live);
    }
    if !book.is_started(drv as usize) {
        return Err(Rule::Started);
    }
    if refs.lists().len() != inputs.graph.outputs(drv as usize).len() {
        return Err(Rule::References);
    }
    Ok(())
}

/// Tests a failure.
#[tactic(auto, using(crate::proofs::Judged::failure_unleased, crate::proofs::Judged::failure_free))]
fn judge_failure(inputs: &Inputs, book: &Book, drv: u32, why: Why) -> Result<(), Rule>
    requires { drv < drvs_in (premises_of inputs.now) }
    ensures { IsFreelyJudged (premises_of inputs.now) (reverse book.now.entries) (Entry.Failed drv why) result }
{
    // For the proof: only the contract speaks of the cause.
    let _why = why;
    if !is_leased(book, drv) {
        return Err(Rule::Live);
    }
    Ok(())
}

/// Tests a stop.
#[tactic(auto, using(crate::proofs::Judged::stop_again, crate::proofs::Judged::stop_free))]
fn judge_stop(inputs: &Inputs, book: &Book, board: &Board) -> Result<(), Rule>
    requires { AreMarked (premises_of inputs.now) (reverse book.now.entries) board.now }
    ensures { IsFreelyJudged (premises_of inputs.now) (reverse book.now.entries) Entry.Stop result }
{
    if board.has_stop() {
        return Err(Rule::Stopped);
    }
    Ok(())
}
