//! A run of all leases of a dispatch by its workers, each in a thread of its own.

ghost use Rattle.std.specs.Prelude.{◌≡◌, ◌+◌, ◌<◌, ◌≤◌, ℕ, length, vec_len, vec_capacity, count_by, sum_by, map, replicate, true, IfOk, IfErr, OnOk, Some, None};
ghost use Rattle.std.specs.List.{AllZip, zip, list_any, list_all};
ghost use Rattle.nd_history.specs.History.{is_stop};
ghost use Rattle.nd_history.specs.Standing.{drvs_in};
ghost use Rattle.nd_receipts.specs.Made.{made, is_quiet};
ghost use Rattle.nd_receipts.specs.Dealt.{AreApart};
ghost use Rattle.nd_receipts.specs.Standing.{IsIdle};
ghost use Rattle.nd_receipts.specs.Walks.{AreUnknown};
ghost use Rattle.nd_workers.specs.Faults.{IsFaultFrom, IsFaultOf, AreAllWrong};
ghost use Rattle.nd_workers.specs.Runs.{AreManned, IsRunRefused, Agrees, IsOver, AreServed, AreServedBy, AreReceiptedSince, keeping_of, since};
ghost use Rattle.nd_workers.specs.Served.{places_served, HaveServed, is_refused, receipts_in};
ghost use Rattle.nd_run_desk.specs.Jobs.{IsDue};
ghost use Rattle.nd_run_desk.specs.Judgements.{AreJudged};
ghost use Rattle.nd_run_desk.specs.Leaves.{IsFrontOf};
ghost use Rattle.nd_run_desk.specs.Steps.{RunsOn, StopsAreTold};
ghost use Rattle.nd_run_desk.specs.Written.{IsWritten, IsWrittenWhole};

use crate::preparing::{Stations, prepare};
use crate::run_end::{NotRun, NotWritten, Ran, RunError, RunFault, Written};
use crate::seat::Seat;
use crate::settling::{Back, Plan, Served, make_back, settle};
use crate::threads::{Ended, Joined, Ready, Running, Stint, in_scope};
use nd_keeping::{Journal, NoJournal, Scribe};
use nd_ledger::Dispatch;
use nd_receipts::count_made;
use nd_run_desk::{Closed, Desk, Opened, Writing};
use nd_transports::Transport;
use nd_work::Shared;
use std::alloc::{AllocError, Global};
use std::marker::Brand;
use std::sync::Wait;
use std::sync::ledger::Blank;
use std::thread::Threads;

/// The most slots of a run.
pub const MOST_SLOTS: usize = 1024;

/// Room for what comes back of a run.
#[derive(Drop)]
struct Room<L: Opened, T: Transport> {
    running: Vec<Running<L, T>>,
    stints: Vec<Stint<T>>,
    back: Back<T>,
    ghost no_threads: { vec_len running ≡ 0 },
    ghost no_stints: { vec_len stints ≡ 0 },
}

/// Room for so many workers.
fn make_room<L: Opened, T: Transport>(alloc: Global, count: usize) -> Result<Room<L, T>, AllocError>
    ensures running { IfOk result (λ r. count ≤ vec_capacity r.running) }
    ensures stints { IfOk result (λ r. count ≤ vec_capacity r.stints) }
    ensures workers { IfOk result (λ r. count ≤ vec_capacity r.back.workers) }
    ensures receipts { IfOk result (λ r. count ≤ vec_capacity r.back.receipts) }
    ensures copies { IfOk result (λ r. count ≤ vec_capacity r.back.copies) }
{
    let back = make_back(alloc, count)?;
    let stints = match Vec::with_capacity(alloc, count) {
        Ok(stints) => stints,
        Err(error) => {
            drop(back);
            return Err(error);
        }
    };
    match Vec::with_capacity(alloc, count) {
        Ok(running) => Ok(Room {
            running,
            stints,
            back,
        }),
        Err(error) => {
            drop(back);
            drop(stints);
            Err(error)
        }
    }
}

/// Refuses a run.
fn refused<T, J: Journal>(
    why: RunError,
    dispatch: Dispatch,
    workers: Vec<Seat<T>>,
    scribe: Scribe<J>,
) -> Result<Written<T, J>, NotWritten<T, J>>
    ensures ok { IfOk result (λ e. ⊥) }
    ensures why { IfErr result (λ r. r.run.why ≡ why) }
    ensures dispatch { IfErr result (λ r. r.run.dispatch ≡ dispatch) }
    ensures workers { IfErr result (λ r. r.run.workers ≡ workers) }
    ensures scribe { IfErr result (λ r. r.scribe ≡ scribe) }
{
    Err(NotWritten {
        run: NotRun {
            why,
            dispatch,
            workers,
        },
        scribe,
    })
}

/// What a run's history is written by: the scribe with its journal, and whether the run keeps its history there.
#[derive(Drop)]
struct Paper<J: Journal> {
    scribe: Scribe<J>,
    keeps: bool,
}

/// What came of a run's leases, and the scribe.
#[derive(Drop)]
struct Brought<T, J: Journal> {
    served: Served<T>,
    scribe: Scribe<J>,
}

/// Serves the leases of a dispatch, with a ledger of the entries that workers make.
fn serve_leases<
    L: Opened + Send + Sync,
    T: Transport,
    J: Journal + Send + Drop,
    R: Threads + Wait + Sync,
>(
    rt: &R,
    alloc: Global,
    dispatch: Dispatch,
    seats: Vec<Seat<T>>,
    stations: Stations,
    running: Vec<Running<L, T>>,
    stints: Vec<Stint<T>>,
    blank: Blank,
    paper: Paper<J>,
) -> Brought<T, J>
    requires name { blank.name ≡ L.name }
    requires parts { blank.parts ≡ L.parts }
    requires one_more { blank.parts ≡ vec_len seats + 1 }
    requires opening { L.opening ≡ dispatch }
    requires book { paper.scribe.handed.book ≡ L.keeping.book }
    requires keeps { paper.keeps ≡ L.keeping.keeps }
    requires handed { IsFrontOf paper.scribe.handed.entries dispatch.history }
    requires durable { IsFrontOf paper.scribe.kept.entries dispatch.history }
    requires no_threads { vec_len running ≡ 0 }
    requires running_room { vec_len seats ≤ vec_capacity running }
    requires no_stints { vec_len stints ≡ 0 }
    requires stints_room { vec_len seats ≤ vec_capacity stints }
    ensures runs { RunsOn dispatch result.served.dispatch }
    ensures told { StopsAreTold dispatch result.served.dispatch }
    ensures misreports { AreJudged dispatch result.served.dispatch result.served.misreports }
    ensures count { vec_len result.served.stints ≡ vec_len seats }
    ensures total { made result.served.dispatch.history ≡ made dispatch.history + receipts_in result.served.stints.items }
    ensures each { HaveServed (IsDue L.keeping L.opening) T.state seats.items result.served.stints.items }
    ensures written { IsWritten paper.keeps result.served.kept result.scribe result.served.handed.entries result.served.dispatch.history }
{
    let Stations { manned, bells } = stations;
    let Paper { scribe, keeps } = paper;
    let (mut book, mut rest) = blank.open::<L>();
    book.add(&mut rest, count_made(dispatch.history()) as u64);
    let mut desk = Desk::open(alloc, dispatch, manned, book, &scribe);
    desk.begin(seats.len());
    let shared = Shared::new(desk, bells, keeps, scribe.kept());
    let ready = Ready {
        seats,
        rest,
        running,
        stints,
    };
    let Joined { ended, writing } = in_scope(rt, alloc, &shared, ready, Writing::new(scribe));
    let Ended { all, stints } = ended;
    let closed = shared.into_desk().close(all, keeps, &writing);
    let Writing { scribe, .. } = writing;
    let Closed {
        dispatch,
        misreports,
        kept,
        handed,
    } = closed;
    let served = Served {
        dispatch,
        stints,
        misreports,
        kept,
        handed,
    };
    Brought { served, scribe }
}

/// Runs the dispatch, with room for what comes back.
fn run_in<
    L: Opened + Send + Sync,
    T: Transport,
    J: Journal + Send + Drop,
    R: Threads + Wait + Sync,
>(
    rt: &R,
    alloc: Global,
    dispatch: Dispatch,
    seats: Vec<Seat<T>>,
    stations: Stations,
    plan: Plan,
    room: Room<L, T>,
    blank: Blank,
    paper: Paper<J>,
) -> Written<T, J>
    requires name { blank.name ≡ L.name }
    requires parts { blank.parts ≡ L.parts }
    requires one_more { blank.parts ≡ vec_len seats + 1 }
    requires begun { L.opening ≡ dispatch }
    requires book { paper.scribe.handed.book ≡ L.keeping.book }
    requires keeps { paper.keeps ≡ L.keeping.keeps }
    requires handed { IsFrontOf paper.scribe.handed.entries dispatch.history }
    requires durable { IsFrontOf paper.scribe.kept.entries dispatch.history }
    requires opened { plan.opened ≡ length dispatch.history }
    requires choices { AreUnknown (length plan.places.items) plan.tables.choices.items }
    requires running { vec_len seats ≤ vec_capacity room.running }
    requires stints { vec_len seats ≤ vec_capacity room.stints }
    requires workers { vec_len seats ≤ vec_capacity room.back.workers }
    requires receipts { vec_len seats ≤ vec_capacity room.back.receipts }
    requires copies { vec_len seats ≤ vec_capacity room.back.copies }
    requires sized { length plan.tables.choices.items ≡ drvs_in dispatch.inputs }
    ensures places { places_served result.run.workers.items ≡ places_served seats.items }
    ensures count { vec_len result.run.receipts ≡ vec_len seats }
    ensures total { made result.run.dispatch.history ≡ made dispatch.history + sum_by (λ v. vec_len v) result.run.receipts.items }
    ensures runs { RunsOn dispatch result.run.dispatch }
    ensures goes_on { Agrees result.run.fault → IsOver dispatch result.run.dispatch }
    ensures receipted { Agrees result.run.fault → AreReceiptedSince dispatch result.run.dispatch plan.places.items result.run.receipts.items }
    ensures quiet { result.run.fault ≡ None → list_all is_quiet (since dispatch result.run.dispatch) ≡ true }
    ensures thread { result.run.fault ≡ Some RunFault.Thread → list_any is_stop result.run.dispatch.history ≡ true }
    ensures memory { result.run.fault ≡ Some RunFault.Memory → list_any is_stop result.run.dispatch.history ≡ true }
    ensures journal { result.run.fault ≡ Some RunFault.Journal → list_any is_stop result.run.dispatch.history ≡ true }
    ensures written { IsWritten paper.keeps result.run.evidence.kept result.scribe result.run.evidence.handed.entries result.run.dispatch.history }
    ensures calls { Agrees result.run.fault → AreServedBy (IsDue L.keeping L.opening) T.state dispatch result.run.dispatch seats.items result.run.workers.items result.run.receipts.items }
    ensures judged { Agrees result.run.fault → AreAllWrong result.run.dispatch.inputs result.run.dispatch.history result.run.receipts.items }
    ensures misreports { AreJudged dispatch result.run.dispatch result.run.evidence.misreports }
    ensures fault { IsFaultOf dispatch result.run.dispatch plan.places.items result.run.receipts.items result.run.evidence result.run.fault }
{
    let Room {
        running,
        stints,
        back,
    } = room;
    let brought = serve_leases(
        rt, alloc, dispatch, seats, stations, running, stints, blank, paper,
    );
    let Brought { served, scribe } = brought;
    let run = settle(served, plan, back);
    Written { run, scribe }
}

/// Makes room for what comes back, and runs the dispatch.
fn run_named<
    L: Opened + Send + Sync,
    T: Transport,
    J: Journal + Send + Drop,
    R: Threads + Wait + Sync,
>(
    rt: &R,
    alloc: Global,
    dispatch: Dispatch,
    seats: Vec<Seat<T>>,
    stations: Stations,
    plan: Plan,
    blank: Blank,
    paper: Paper<J>,
) -> Result<Written<T, J>, NotWritten<T, J>>
    requires name { blank.name ≡ L.name }
    requires parts { blank.parts ≡ L.parts }
    requires one_more { blank.parts ≡ vec_len seats + 1 }
    requires begun { L.opening ≡ dispatch }
    requires book { paper.scribe.handed.book ≡ L.keeping.book }
    requires keeps { paper.keeps ≡ L.keeping.keeps }
    requires handed { IsFrontOf paper.scribe.handed.entries dispatch.history }
    requires durable { IsFrontOf paper.scribe.kept.entries dispatch.history }
    requires opened { plan.opened ≡ length dispatch.history }
    requires choices { AreUnknown (length plan.places.items) plan.tables.choices.items }
    requires sized { length plan.tables.choices.items ≡ drvs_in dispatch.inputs }
    ensures why { IfErr result (λ r. r.run.why ≡ RunError.Memory) }
    ensures dispatch { IfErr result (λ r. r.run.dispatch ≡ dispatch) }
    ensures workers { IfErr result (λ r. r.run.workers ≡ seats) }
    ensures scribe { IfErr result (λ r. r.scribe ≡ paper.scribe) }
    ensures places { IfOk result (λ e. places_served e.run.workers.items ≡ places_served seats.items) }
    ensures count { IfOk result (λ e. vec_len e.run.receipts ≡ vec_len seats) }
    ensures total { IfOk result (λ e. made e.run.dispatch.history ≡ made dispatch.history + sum_by (λ v. vec_len v) e.run.receipts.items) }
    ensures runs { IfOk result (λ e. RunsOn dispatch e.run.dispatch) }
    ensures goes_on { IfOk result (λ e. Agrees e.run.fault → IsOver dispatch e.run.dispatch) }
    ensures receipted { IfOk result (λ e. Agrees e.run.fault → AreReceiptedSince dispatch e.run.dispatch plan.places.items e.run.receipts.items) }
    ensures quiet { IfOk result (λ e. e.run.fault ≡ None → list_all is_quiet (since dispatch e.run.dispatch) ≡ true) }
    ensures thread { IfOk result (λ e. e.run.fault ≡ Some RunFault.Thread → list_any is_stop e.run.dispatch.history ≡ true) }
    ensures memory { IfOk result (λ e. e.run.fault ≡ Some RunFault.Memory → list_any is_stop e.run.dispatch.history ≡ true) }
    ensures journal { IfOk result (λ e. e.run.fault ≡ Some RunFault.Journal → list_any is_stop e.run.dispatch.history ≡ true) }
    ensures written { IfOk result (λ e. IsWritten paper.keeps e.run.evidence.kept e.scribe e.run.evidence.handed.entries e.run.dispatch.history) }
    ensures calls { IfOk result (λ e. Agrees e.run.fault → AreServedBy (IsDue L.keeping L.opening) T.state dispatch e.run.dispatch seats.items e.run.workers.items e.run.receipts.items) }
    ensures judged { IfOk result (λ e. Agrees e.run.fault → AreAllWrong e.run.dispatch.inputs e.run.dispatch.history e.run.receipts.items) }
    ensures misreports { IfOk result (λ e. AreJudged dispatch e.run.dispatch e.run.evidence.misreports) }
    ensures fault { IfOk result (λ e. IsFaultOf dispatch e.run.dispatch plan.places.items e.run.receipts.items e.run.evidence e.run.fault) }
{
    let Ok(room) = make_room::<L, T>(alloc, seats.len()) else {
        drop(stations);
        drop(plan);
        drop(blank);
        let Paper { scribe, keeps: _ } = paper;
        return refused(RunError::Memory, dispatch, seats, scribe);
    };
    Ok(run_in(
        rt, alloc, dispatch, seats, stations, plan, room, blank, paper,
    ))
}

/// As [`run`], where a run that `keeps` its history does so by the scribe.
pub(crate) fn run_by<T: Transport, J: Journal + Send + Drop, R: Threads + Wait + Sync>(
    rt: &R,
    dispatch: Dispatch,
    workers: Vec<Seat<T>>,
    scribe: Scribe<J>,
    keeps: bool,
) -> Result<Written<T, J>, NotWritten<T, J>>
    requires handed { IsFrontOf scribe.handed.entries dispatch.history }
    requires durable { IsFrontOf scribe.kept.entries dispatch.history }
    ensures dispatch { IfErr result (λ r. r.run.dispatch ≡ dispatch) }
    ensures workers { IfErr result (λ r. r.run.workers ≡ workers) }
    ensures refused { IfErr result (λ r. IsRunRefused dispatch.inputs (places_served workers.items) r.run.why) }
    ensures scribe { IfErr result (λ r. r.scribe ≡ scribe) }
    ensures manned { IfOk result (λ e. AreManned dispatch.inputs (places_served workers.items)) }
    ensures few { IfOk result (λ e. vec_len workers ≤ 1024) }
    ensures places { IfOk result (λ e. places_served e.run.workers.items ≡ places_served workers.items) }
    ensures count { IfOk result (λ e. vec_len e.run.receipts ≡ vec_len workers) }
    ensures total { IfOk result (λ e. made e.run.dispatch.history ≡ made dispatch.history + sum_by (λ v. vec_len v) e.run.receipts.items) }
    ensures runs { IfOk result (λ e. RunsOn dispatch e.run.dispatch) }
    ensures goes_on { IfOk result (λ e. Agrees e.run.fault → IsOver dispatch e.run.dispatch) }
    ensures receipted { IfOk result (λ e. Agrees e.run.fault → AreReceiptedSince dispatch e.run.dispatch (places_served workers.items) e.run.receipts.items) }
    ensures quiet { IfOk result (λ e. e.run.fault ≡ None → list_all is_quiet (since dispatch e.run.dispatch) ≡ true) }
    ensures thread { IfOk result (λ e. e.run.fault ≡ Some RunFault.Thread → list_any is_stop e.run.dispatch.history ≡ true) }
    ensures memory { IfOk result (λ e. e.run.fault ≡ Some RunFault.Memory → list_any is_stop e.run.dispatch.history ≡ true) }
    ensures journal { IfOk result (λ e. e.run.fault ≡ Some RunFault.Journal → list_any is_stop e.run.dispatch.history ≡ true) }
    ensures written { IfOk result (λ e. IsWritten keeps e.run.evidence.kept e.scribe e.run.evidence.handed.entries e.run.dispatch.history) }
    ensures calls { IfOk result (λ e. Agrees e.run.fault → AreServedBy (IsDue (keeping_of scribe keeps) dispatch) T.state dispatch e.run.dispatch workers.items e.run.workers.items e.run.receipts.items) }
    ensures judged { IfOk result (λ e. Agrees e.run.fault → AreAllWrong e.run.dispatch.inputs e.run.dispatch.history e.run.receipts.items) }
    ensures misreports { IfOk result (λ e. AreJudged dispatch e.run.dispatch e.run.evidence.misreports) }
    ensures fault { IfOk result (λ e. IsFaultOf dispatch e.run.dispatch (places_served workers.items) e.run.receipts.items e.run.evidence e.run.fault) }
{
    let alloc = *workers.allocator();
    match prepare(alloc, &dispatch, workers.as_slice()) {
        Ok(prepared) => {
            let (stations, plan) = prepared;
            let blank = Blank::new(workers.len() as u64 + 1);
            let paper = Paper { scribe, keeps };
            run_named::<Brand, T, J, R>(rt, alloc, dispatch, workers, stations, plan, blank, paper)
        }
        Err(why) => refused(why, dispatch, workers, scribe),
    }
}

/// Runs the dispatch by one worker for each slot of the park, each in a thread of its own. Each worker, with
/// the lock free, copies and builds through its transport, and under the lock records what came of it.
/// Unless the fault is `Receipts`, nothing waits and nothing is leased any more in the end.
///
/// Refuses with `Slots` (1) where there isn't exactly one worker for each slot of the park, then with
/// `TooManySlots` (2) where there are more than 1,024, and with `Memory` (3) where an allocation is
/// refused before the first thread starts. What was handed in comes back then.
///
/// It may end with a fault, which [`RunFault`] lists with its cause: the fault is the one whose cause stands, and
/// there is none where none does; `Journal` (4) doesn't come. After `Thread` (1) and `Memory` (2) a stop is in the history; as without a
/// fault, each worker's calls are those of its receipts, the receipts are the entries that workers made, and a
/// build failed for its references only where those that it reported aren't those that it may have, by what
/// stands before that entry. `Receipts` (3) says that this isn't so, or that the run isn't over. However it ends,
/// the workers that come back are on the places of those that were handed in, in their order, each with a list
/// of receipts; each choice since the opening is the pump's step of its place in the history, and no machine was
/// drained or enabled.
///
/// A lease that is live at the start is taken up by the worker of its slot as any other. Where it was started
/// before, no second start is recorded: its build is asked for again, and the lease ends as that build says. Where
/// its machine isn't reached then, or the copy fails, it fails as `Lost`, since it can't be given back. Such an end
/// has a receipt with `again`, and no other has.
pub fn run<T: Transport, R: Threads + Wait + Sync>(
    rt: &R,
    dispatch: Dispatch,
    workers: Vec<Seat<T>>,
) -> Result<Ran<T>, NotRun<T>>
    ensures dispatch { IfErr result (λ r. r.dispatch ≡ dispatch) }
    ensures workers { IfErr result (λ r. r.workers ≡ workers) }
    ensures refused { IfErr result (λ r. IsRunRefused dispatch.inputs (places_served workers.items) r.why) }
    ensures manned { IfOk result (λ e. AreManned dispatch.inputs (places_served workers.items)) }
    ensures few { IfOk result (λ e. vec_len workers ≤ 1024) }
    ensures places { IfOk result (λ e. places_served e.workers.items ≡ places_served workers.items) }
    ensures count { IfOk result (λ e. vec_len e.receipts ≡ vec_len workers) }
    ensures total { IfOk result (λ e. made e.dispatch.history ≡ made dispatch.history + sum_by (λ v. vec_len v) e.receipts.items) }
    ensures runs { IfOk result (λ e. RunsOn dispatch e.dispatch) }
    ensures goes_on { IfOk result (λ e. Agrees e.fault → IsOver dispatch e.dispatch) }
    ensures receipted { IfOk result (λ e. Agrees e.fault → AreReceiptedSince dispatch e.dispatch (places_served workers.items) e.receipts.items) }
    ensures quiet { IfOk result (λ e. e.fault ≡ None → list_all is_quiet (since dispatch e.dispatch) ≡ true) }
    ensures thread { IfOk result (λ e. e.fault ≡ Some RunFault.Thread → list_any is_stop e.dispatch.history ≡ true) }
    ensures memory { IfOk result (λ e. e.fault ≡ Some RunFault.Memory → list_any is_stop e.dispatch.history ≡ true) }
    ensures unkept { IfOk result (λ e. e.fault ≡ Some RunFault.Journal → ⊥) }
    ensures calls { IfOk result (λ e. Agrees e.fault → AreServed T.state dispatch e.dispatch workers.items e.workers.items e.receipts.items) }
    ensures judged { IfOk result (λ e. Agrees e.fault → AreAllWrong e.dispatch.inputs e.dispatch.history e.receipts.items) }
    ensures misreports { IfOk result (λ e. AreJudged dispatch e.dispatch e.evidence.misreports) }
    ensures fault { IfOk result (λ e. IsFaultOf dispatch e.dispatch (places_served workers.items) e.receipts.items e.evidence e.fault) }
{
    let scribe = Scribe::fresh(*workers.allocator(), NoJournal);
    match run_by(rt, dispatch, workers, scribe, false) {
        Ok(Written { run, scribe }) => {
            drop(scribe);
            Ok(run)
        }
        Err(NotWritten { run, scribe }) => {
            drop(scribe);
            Err(run)
        }
    }
}
