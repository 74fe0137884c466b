//! What a run ended with: what came back of it, compared with its history.

ghost use Rattle.std.specs.Prelude.{◌≡◌, ◌+◌, ◌<◌, ◌≤◌, ◌↔◌, ℕ, length, drop, count_by, replicate, reverse, true, false, IsTrue};
ghost use Rattle.std.specs.List.{list_any};
ghost use Rattle.nd_history.specs.Standing.{drvs_in};
ghost use Rattle.nd_receipts.specs.Dealt.{AreApart};
ghost use Rattle.nd_receipts.specs.Noted.{AreRowsNoted};
ghost use Rattle.nd_receipts.specs.Standing.{IsIdle};
ghost use Rattle.nd_receipts.specs.Walks.{AreUnknown};
ghost use Rattle.nd_workers.specs.Faults.{IsAlikeFrom, IsFaultBy, IsHalted, IsStopped};
ghost use Rattle.nd_workers.specs.Runs.{AreReceiptedFrom};
ghost use Rattle.nd_workers.specs.Served.{is_refused};

use crate::run_end::{Evidence, RunFault};
use crate::threads::Stint;
use nd_history::Entry;
use nd_ledger::Dispatch;
use nd_receipts::{
    ParkPlace, Receipt, Standing, Tables, are_dealt, are_rows_judged, are_rows_noted, has_stop,
    is_quiet,
};
use nd_run_desk::entries_since;
use nd_transports::Transport;
use nd_work::End;

/// Whether a worker ended so since an entry of its own was refused.
fn is_refused(end: End) -> bool
    ensures { result ≡ is_refused end }
{
    match end {
        End::Refused => true,
        End::Again | End::Finished | End::Left => false,
    }
}

/// Whether an entry of a worker's own was refused.
pub(crate) fn is_any_refused<T: Transport>(stints: &[Stint<T>]) -> bool
    ensures { result ≡ list_any (λ stint. is_refused stint.end) stints.now }
{
    stints.iter().any(|stint| is_refused(stint.end))
}

/// How many of the workers had a thread.
pub(crate) fn count_threads<T: Transport>(stints: &[Stint<T>]) -> usize
    ensures { result ≡ count_by (λ stint. stint.threaded) stints.now }
{
    stints.iter().filter(|stint| stint.threaded).count()
}

/// Whether the entries that workers made behind the first `opened` are the receipts, each of one worker.
#[tactic(auto, using(crate::proofs::Faulted::all_within, crate::proofs::Faulted::all_before))]
fn are_receipted(
    opened: usize,
    dispatch: &Dispatch,
    places: &[ParkPlace],
    receipts: &[Vec<Receipt>],
    tables: Tables,
) -> bool
    requires apart { AreApart places.now }
    requires choices { AreUnknown (length places.now) tables.choices.items }
    requires sized { length tables.choices.items ≡ drvs_in dispatch.now.inputs }
    requires met { tables.met.items ≡ replicate (length places.now) 0 }
    requires long { opened ≤ length dispatch.now.history }
    ensures receipted { result ≡ true → AreReceiptedFrom opened dispatch.now.history places.now receipts.now }
    ensures unlike { result ≡ false → AreReceiptedFrom opened dispatch.now.history places.now receipts.now → ⊥ }
{
    let history = dispatch.history();
    let (old, new) = history.split_at(opened);
    are_dealt(old, new, opened, places, receipts, tables)
}

/// Whether each receipt names the entry that its worker noted, in a run that began behind the first `opened`.
#[tactic(auto, using(crate::proofs::Faulted::all_before))]
fn are_noted(
    opened: usize,
    dispatch: &Dispatch,
    receipts: &[Vec<Receipt>],
    copies: &[Vec<Entry>],
    standing: Standing,
) -> bool
    requires idle { IsIdle standing }
    requires wide { length standing.leased.items ≡ drvs_in dispatch.now.inputs }
    requires long { opened ≤ length dispatch.now.history }
    ensures noted { result ≡ true → AreRowsNoted opened dispatch.now.history receipts.now copies.now }
    ensures unlike { result ≡ false → AreRowsNoted opened dispatch.now.history receipts.now copies.now → ⊥ }
{
    are_rows_noted(dispatch.history(), opened, standing, receipts, copies)
}

/// Whether a stop is in the history, where fewer workers had a thread than there are.
fn is_stopped(dispatch: &Dispatch, threads: usize, workers: usize) -> bool
    ensures { IsTrue result ↔ IsStopped threads workers dispatch.now.history }
{
    if threads >= workers {
        return true;
    }
    has_stop(dispatch.history())
}

/// Whether a stop is in the history, where the journal doesn't hold all of it.
fn is_halted(dispatch: &Dispatch, kept: bool) -> bool
    ensures { IsTrue result ↔ IsHalted kept dispatch.now.history }
{
    if kept {
        return true;
    }
    has_stop(dispatch.history())
}

/// Whether what came back of a run that began behind the first `opened` entries is what its history says.
pub(crate) fn is_alike(
    opened: usize,
    dispatch: &Dispatch,
    places: &[ParkPlace],
    receipts: &[Vec<Receipt>],
    evidence: &Evidence,
    tables: Tables,
    standing: Standing,
) -> bool
    requires apart { AreApart places.now }
    requires choices { AreUnknown (length places.now) tables.choices.items }
    requires sized { length tables.choices.items ≡ drvs_in dispatch.now.inputs }
    requires met { tables.met.items ≡ replicate (length places.now) 0 }
    requires idle { IsIdle standing }
    requires wide { length standing.leased.items ≡ drvs_in dispatch.now.inputs }
    requires long { opened ≤ length dispatch.now.history }
    ensures alike { result ≡ true → IsAlikeFrom opened dispatch.now places.now receipts.now evidence.now }
    ensures unlike { result ≡ false → IsAlikeFrom opened dispatch.now places.now receipts.now evidence.now → ⊥ }
{
    if !dispatch.finished() {
        return false;
    }
    if evidence.refused {
        return false;
    }
    if !is_stopped(dispatch, evidence.threads, places.len()) {
        return false;
    }
    if !is_halted(dispatch, evidence.kept) {
        return false;
    }
    let copies = evidence.copies.as_slice();
    if !are_noted(opened, dispatch, receipts, copies, standing) {
        return false;
    }
    if !are_rows_judged(&evidence.misreports, receipts, copies) {
        return false;
    }
    are_receipted(opened, dispatch, places, receipts, tables)
}

/// What a run ended with that began behind the first `opened` entries, with so many of its workers in threads.
/// `alike` says whether what came back is what the history says, and `kept` whether the journal holds it.
pub(crate) fn fault_of(
    opened: usize,
    dispatch: &Dispatch,
    alike: bool,
    kept: bool,
    threads: usize,
    workers: usize,
) -> Option<RunFault>
    ensures { IsFaultBy alike kept threads workers (drop opened dispatch.now.history) result }
{
    if !alike {
        return Some(RunFault::Receipts);
    }
    if !kept {
        return Some(RunFault::Journal);
    }
    if threads < workers {
        return Some(RunFault::Thread);
    }
    if is_quiet(entries_since(dispatch, opened)) {
        return None;
    }
    Some(RunFault::Memory)
}
