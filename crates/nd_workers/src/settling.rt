//! What comes back of a run, compared with its history.

ghost use Rattle.std.specs.Prelude.{◌≡◌, ◌+◌, ◌<◌, ◌≤◌, ℕ, length, vec_len, vec_capacity, count_by, sum_by, map, replicate, IfOk};
ghost use Rattle.std.specs.List.{AllZip, zip, list_any};
ghost use Rattle.nd_history.specs.Standing.{drvs_in};
ghost use Rattle.nd_receipts.specs.Dealt.{AreApart};
ghost use Rattle.nd_receipts.specs.Standing.{IsIdle};
ghost use Rattle.nd_receipts.specs.Walks.{AreUnknown};
ghost use Rattle.nd_workers.specs.Faults.{IsFaultFrom};
ghost use Rattle.nd_workers.specs.Served.{is_refused, receipts_in};

use crate::faults::{count_threads, fault_of, is_alike, is_any_refused};
use crate::run_end::{Evidence, Ran, RunFault};
use crate::seat::Seat;
use crate::threads::Stint;
use nd_history::Entry;
use nd_keeping::Front;
use nd_ledger::Dispatch;
use nd_receipts::{Misreports, ParkPlace, Receipt, Standing, Tables};
use nd_transports::Transport;
use std::alloc::{AllocError, Global};

/// What the end of a run is compared with.
#[derive(Drop)]
pub(crate) struct Plan {
    pub(crate) opened: usize,
    pub(crate) places: Vec<ParkPlace>,
    pub(crate) tables: Tables,
    pub(crate) standing: Standing,
    ghost apart: { AreApart places.items },
    ghost met: { tables.met.items ≡ replicate (length places.items) 0 },
    ghost idle: { IsIdle standing },
    ghost wide: { length standing.leased.items ≡ length tables.choices.items },
}

/// Room for the workers, their receipts and the copies beside them.
#[derive(Drop)]
pub(crate) struct Back<T> {
    pub(crate) workers: Vec<Seat<T>>,
    pub(crate) receipts: Vec<Vec<Receipt>>,
    pub(crate) copies: Vec<Vec<Entry>>,
    ghost no_workers: { vec_len workers ≡ 0 },
    ghost no_receipts: { vec_len receipts ≡ 0 },
    ghost no_copies: { vec_len copies ≡ 0 },
}

/// What came of a run's leases.
#[derive(Drop)]
pub(crate) struct Served<T> {
    pub(crate) dispatch: Dispatch,
    pub(crate) stints: Vec<Stint<T>>,
    pub(crate) misreports: Misreports,
    pub(crate) kept: bool,
    pub(crate) handed: Front,
}

/// Room for so many workers, their receipts and the copies beside them.
pub(crate) fn make_back<T: Transport>(alloc: Global, count: usize) -> Result<Back<T>, AllocError>
    ensures workers { IfOk result (λ b. count ≤ vec_capacity b.workers) }
    ensures receipts { IfOk result (λ b. count ≤ vec_capacity b.receipts) }
    ensures copies { IfOk result (λ b. count ≤ vec_capacity b.copies) }
{
    let receipts = Vec::with_capacity(alloc, count)?;
    let copies = Vec::with_capacity(alloc, count)?;
    match Vec::with_capacity(alloc, count) {
        Ok(workers) => Ok(Back {
            workers,
            receipts,
            copies,
        }),
        Err(error) => {
            drop(receipts);
            drop(copies);
            Err(error)
        }
    }
}

/// Takes the workers, their receipts and the copies beside them apart.
#[tactic(auto, using(crate::proofs::Zips::zips))]
fn take_apart<T: Transport>(
    stints: Vec<Stint<T>>,
    workers: &mut Vec<Seat<T>>,
    receipts: &mut Vec<Vec<Receipt>>,
    copies: &mut Vec<Vec<Entry>>,
)
    requires no_workers { vec_len workers.old ≡ 0 }
    requires no_receipts { vec_len receipts.old ≡ 0 }
    requires no_copies { vec_len copies.old ≡ 0 }
    requires workers_room { vec_len stints ≤ vec_capacity workers.old }
    requires receipts_room { vec_len stints ≤ vec_capacity receipts.old }
    requires copies_room { vec_len stints ≤ vec_capacity copies.old }
    ensures each { AllZip (λ y x. (x.0 ≡ y.seat) × (x.1.items ≡ y.notes.receipts)) stints.items (zip workers.new.items receipts.new.items) }
    ensures workers { workers.new.items ≡ map (λ y. y.seat) stints.items }
    ensures count { vec_len receipts.new ≡ vec_len stints }
    ensures total { sum_by (λ v. vec_len v) receipts.new.items ≡ receipts_in stints.items }
    ensures beside { AllZip (λ y x. x.items ≡ y.notes.copies) stints.items copies.new.items }
{
    'parting: for stint in stints {
        let Stint {
            seat,
            notes,
            end: _,
            threaded: _,
        } = stint;
        let (mine, beside) = notes.into_parts();
        workers.push_reserved(seat);
        receipts.push_reserved(mine);
        copies.push_reserved(beside);
    }
}

/// Compares what came back with the history, and hands it back.
pub(crate) fn settle<T: Transport>(served: Served<T>, plan: Plan, back: Back<T>) -> Ran<T>
    requires choices { AreUnknown (length plan.places.items) plan.tables.choices.items }
    requires sized { length plan.tables.choices.items ≡ drvs_in served.dispatch.inputs }
    requires long { plan.opened ≤ length served.dispatch.history }
    requires workers_room { vec_len served.stints ≤ vec_capacity back.workers }
    requires receipts_room { vec_len served.stints ≤ vec_capacity back.receipts }
    requires copies_room { vec_len served.stints ≤ vec_capacity back.copies }
    ensures dispatch { result.dispatch ≡ served.dispatch }
    ensures each { AllZip (λ y x. (x.0 ≡ y.seat) × (x.1.items ≡ y.notes.receipts)) served.stints.items (zip result.workers.items result.receipts.items) }
    ensures workers { result.workers.items ≡ map (λ y. y.seat) served.stints.items }
    ensures count { vec_len result.receipts ≡ vec_len served.stints }
    ensures total { sum_by (λ v. vec_len v) result.receipts.items ≡ receipts_in served.stints.items }
    ensures beside { AllZip (λ y x. x.items ≡ y.notes.copies) served.stints.items result.evidence.copies.items }
    ensures misreports { result.evidence.misreports ≡ served.misreports }
    ensures refused { result.evidence.refused ≡ list_any (λ stint. is_refused stint.end) served.stints.items }
    ensures threads { result.evidence.threads ≡ count_by (λ stint. stint.threaded) served.stints.items }
    ensures kept { result.evidence.kept ≡ served.kept }
    ensures handed { result.evidence.handed ≡ served.handed }
    ensures fault { IsFaultFrom plan.opened result.dispatch plan.places.items result.receipts.items result.evidence result.fault }
{
    let Served {
        dispatch,
        stints,
        misreports,
        kept,
        handed,
    } = served;
    let Back {
        mut workers,
        mut receipts,
        mut copies,
    } = back;
    let refused = is_any_refused(stints.as_slice());
    let threads = count_threads(stints.as_slice());
    take_apart(stints, &mut workers, &mut receipts, &mut copies);
    let evidence = Evidence {
        copies,
        misreports,
        refused,
        threads,
        kept,
        handed,
    };
    let fault = judge(plan, &dispatch, receipts.as_slice(), &evidence);
    Ran {
        dispatch,
        workers,
        receipts,
        evidence,
        fault,
    }
}

/// What a run of this plan ended with.
#[tactic(auto, using(crate::proofs::Faulted::fault_by))]
fn judge(
    plan: Plan,
    dispatch: &Dispatch,
    receipts: &[Vec<Receipt>],
    evidence: &Evidence,
) -> Option<RunFault>
    requires choices { AreUnknown (length plan.places.items) plan.tables.choices.items }
    requires sized { length plan.tables.choices.items ≡ drvs_in dispatch.now.inputs }
    requires long { plan.opened ≤ length dispatch.now.history }
    ensures { IsFaultFrom plan.opened dispatch.now plan.places.items receipts.now evidence.now result }
{
    let Plan {
        opened,
        places,
        tables,
        standing,
    } = plan;
    let alike = is_alike(
        opened,
        dispatch,
        places.as_slice(),
        receipts,
        evidence,
        tables,
        standing,
    );
    let workers = places.len();
    drop(places);
    let Evidence { threads, kept, .. } = evidence;
    fault_of(opened, dispatch, alike, *kept, *threads, workers)
}
