//! Runs that keep their history in a journal.

ghost use Rattle.std.specs.Prelude.{◌≡◌, ◌+◌, ◌≤◌, length, vec_len, sum_by, true, false, IfOk, IfErr, Some, None};
ghost use Rattle.std.specs.List.{list_any, list_all};
ghost use Rattle.nd_history.specs.History.{is_stop};
ghost use Rattle.nd_receipts.specs.Made.{made, is_quiet};
ghost use Rattle.nd_workers.specs.Faults.{IsFaultOf, AreAllWrong};
ghost use Rattle.nd_run_desk.specs.Judgements.{AreJudged};
ghost use Rattle.nd_run_desk.specs.Leaves.{IsFrontOf};
ghost use Rattle.nd_workers.specs.Runs.{AreManned, IsRunRefused, Agrees, IsOver, AreServedKept, AreReceiptedSince, since};
ghost use Rattle.nd_workers.specs.Served.{places_served};
ghost use Rattle.nd_run_desk.specs.Steps.{RunsOn};
ghost use Rattle.nd_run_desk.specs.Written.{IsUnwritten, IsWrittenWhole};

use crate::run_end::{NotWritten, RunFault, Written};
use crate::running::run_by;
use crate::seat::Seat;
use nd_keeping::{Journal, Scribe};
use nd_ledger::Dispatch;
use nd_transports::Transport;
use std::sync::Wait;
use std::thread::Threads;

/// As [`run`](crate::run), with the history kept in the scribe's journal, which holds its first entries already: each
/// entry is durable there, in its place, before anything outside acts on it. A transport is called for a lease once
/// the lease's choice is durable, and so is all that stands before that, the ends of what it depends on among it; and
/// it builds once the lease's start is. A scribe has a thread of its own, and writes what workers added meanwhile by
/// one append and one sync; a worker that waits for that holds no lock.
///
/// Refuses as `run` does, and hands back the scribe too, of which nothing was changed. It may end with a fault more,
/// `Journal` (4), where the journal doesn't hold the whole history, durable, in the end; then nothing was begun
/// behind the entries that it lacks, and a stop is in the history. After every other end but `Receipts` (3) it holds
/// it.
pub fn run_kept<T: Transport, J: Journal + Send + Drop, R: Threads + Wait + Sync>(
    rt: &R,
    dispatch: Dispatch,
    workers: Vec<Seat<T>>,
    scribe: Scribe<J>,
) -> Result<Written<T, J>, NotWritten<T, J>>
    requires handed { IsFrontOf scribe.handed.entries dispatch.history }
    requires durable { IsFrontOf scribe.kept.entries dispatch.history }
    ensures dispatch { IfErr result (λ r. r.run.dispatch ≡ dispatch) }
    ensures workers { IfErr result (λ r. r.run.workers ≡ workers) }
    ensures refused { IfErr result (λ r. IsRunRefused dispatch.inputs (places_served workers.items) r.run.why) }
    ensures scribe { IfErr result (λ r. r.scribe ≡ scribe) }
    ensures manned { IfOk result (λ e. AreManned dispatch.inputs (places_served workers.items)) }
    ensures few { IfOk result (λ e. vec_len workers ≤ 1024) }
    ensures places { IfOk result (λ e. places_served e.run.workers.items ≡ places_served workers.items) }
    ensures count { IfOk result (λ e. vec_len e.run.receipts ≡ vec_len workers) }
    ensures total { IfOk result (λ e. made e.run.dispatch.history ≡ made dispatch.history + sum_by (λ v. vec_len v) e.run.receipts.items) }
    ensures runs { IfOk result (λ e. RunsOn dispatch e.run.dispatch) }
    ensures goes_on { IfOk result (λ e. Agrees e.run.fault → IsOver dispatch e.run.dispatch) }
    ensures receipted { IfOk result (λ e. Agrees e.run.fault → AreReceiptedSince dispatch e.run.dispatch (places_served workers.items) e.run.receipts.items) }
    ensures quiet { IfOk result (λ e. e.run.fault ≡ None → list_all is_quiet (since dispatch e.run.dispatch) ≡ true) }
    ensures thread { IfOk result (λ e. e.run.fault ≡ Some RunFault.Thread → list_any is_stop e.run.dispatch.history ≡ true) }
    ensures memory { IfOk result (λ e. e.run.fault ≡ Some RunFault.Memory → list_any is_stop e.run.dispatch.history ≡ true) }
    ensures journal { IfOk result (λ e. e.run.fault ≡ Some RunFault.Journal → list_any is_stop e.run.dispatch.history ≡ true) }
    ensures written { IfOk result (λ e. e.run.evidence.kept ≡ true → IsWrittenWhole e.scribe e.run.dispatch.history) }
    ensures unwritten { IfOk result (λ e. e.run.evidence.kept ≡ false → IsUnwritten e.scribe e.run.evidence.handed.entries e.run.dispatch.history) }
    ensures calls { IfOk result (λ e. Agrees e.run.fault → AreServedKept scribe T.state dispatch e.run.dispatch workers.items e.run.workers.items e.run.receipts.items) }
    ensures judged { IfOk result (λ e. Agrees e.run.fault → AreAllWrong e.run.dispatch.inputs e.run.dispatch.history e.run.receipts.items) }
    ensures misreports { IfOk result (λ e. AreJudged dispatch e.run.dispatch e.run.evidence.misreports) }
    ensures fault { IfOk result (λ e. IsFaultOf dispatch e.run.dispatch (places_served workers.items) e.run.receipts.items e.run.evidence e.run.fault) }
{
    run_by(rt, dispatch, workers, scribe, true)
}
