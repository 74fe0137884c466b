//! The threads of a run: one for each worker, and one for the scribe where there is a journal, started and joined in
//! one scope.

ghost use Rattle.std.specs.Prelude.{◌≡◌, ◌+◌, ◌<◌, ◌≤◌, [], ℕ, List, length, vec_len, vec_capacity, sum_by, is_ok, MatchResult};
ghost use Rattle.std.specs.List.{AllZip};
ghost use Rattle.nd_receipts.specs.Noted.{track_of};
ghost use Rattle.nd_run_desk.specs.Jobs.{IsDue};
ghost use Rattle.nd_work.specs.Ends.{EndsWell};
ghost use Rattle.nd_workers.specs.AtWork.{IsAtWork, HaveEnded};
ghost use Rattle.nd_workers.specs.Served.{seat_of, HasServed, HaveServed, receipts_in};

use crate::seat::Seat;
use nd_keeping::Journal;
use nd_receipts::Notes;
use nd_run_desk::{Opened, Writing};
use nd_transports::Transport;
use nd_work::{End, Floor, Guarded, Hand, Shared};
use std::alloc::Global;
use std::snapshot::Snapshot;
use std::sync::Wait;
use std::sync::ledger::Share;
use std::thread;
use std::thread::{JoinHandle, Promise, PromisedHandle, Scope, Threads};

/// What a worker hands back.
#[derive(Drop)]
pub(crate) struct Done<L: Opened, T: Transport> {
    pub(crate) seat: Seat<T>,
    pub(crate) hand: Hand<L>,
    pub(crate) end: End,
}

/// Serves the leases of a place until nothing is leased or waits any more.
fn work<L: Opened, T: Transport, R: Wait>(
    floor: &Floor<'_, L, R>,
    hand: Hand<L>,
    seat: Seat<T>,
) -> Done<L, T>
    ensures goes { EndsWell (IsDue L.keeping L.opening) result.end (track_of hand.notes (T.state seat.transport)) (track_of result.hand.notes (T.state result.seat.transport)) }
    ensures place { result.seat.place ≡ seat.place }
{
    let Seat { place, transport } = seat;
    let mut hand = hand;
    let mut guarded = Guarded::new(transport);
    let end = floor.work(&mut hand, &mut guarded, place);
    Done {
        seat: Seat {
            place,
            transport: guarded.into_inner(),
        },
        hand,
        end,
    }
}

/// That a worker's calls are those of its receipts, and that it kept its place.
#[derive(Drop)]
pub(crate) struct Serves<T> {
    pub(crate) seat: Snapshot<Seat<T>>,
}

impl<L: Opened, T: Transport> Promise<Done<L, T>> for Serves<T> {
    ghost use Rattle.nd_run_desk.specs.Jobs.{IsDue};
    ghost use Rattle.nd_workers.specs.Served.{seat_of, IsServed};

    ghost kept_by = { λ p d. IsServed (IsDue L.keeping L.opening) (seat_of T.state p.seat.value) d.end (seat_of T.state d.seat) d.hand.notes };
}

/// The thread of a worker, or what the worker handed back where it has none.
pub(crate) type Running<L, T> = Result<PromisedHandle<Done<L, T>, Serves<T>>, Done<L, T>>;

/// A worker's whole work, and whether it had a thread for it.
#[derive(Drop)]
pub(crate) struct Stint<T> {
    pub(crate) seat: Seat<T>,
    pub(crate) notes: Notes,
    pub(crate) end: End,
    pub(crate) threaded: bool,
}

/// Starts a worker's thread, `started` others having theirs. Where it can't be started the run is
/// stopped, and the worker ends its work on the calling thread. Once one couldn't be started no further
/// one is.
#[tactic(auto, using(crate::proofs::Stints::servings))]
fn start<'s, E, L: Opened + Send + Sync + 's, T: Transport + 's, R: Wait + Sync>(
    scope: &Scope<'s, E>,
    rt: &'s R,
    alloc: Global,
    shared: &'s Shared<L>,
    hand: Hand<L>,
    seat: Seat<T>,
    stopped: bool,
    started: usize,
) -> Running<L, T>
    requires receipts { hand.notes.receipts ≡ [] }
    requires copies { hand.notes.copies ≡ [] }
    ensures { IsAtWork (IsDue L.keeping L.opening) T.state seat result }
{
    if stopped {
        return Err(Done {
            seat,
            hand,
            end: End::Left,
        });
    }
    let promise = Serves {
        seat: Snapshot::of(&seat),
    };
    match scope.spawn_with(
        promise,
        move || work(&Floor::new(rt, alloc, shared), hand, seat),
    ) {
        Ok(handle) => Ok(handle),
        Err(refused) => {
            Floor::new(rt, alloc, shared).serve_by_few(started);
            Err((refused.value)())
        }
    }
}

/// What is needed before the first thread starts: the workers, the ledger's whole share, and room for
/// all that comes back.
#[derive(Drop)]
pub(crate) struct Ready<L: Opened, T: Transport> {
    pub(crate) seats: Vec<Seat<T>>,
    pub(crate) rest: Share<L>,
    pub(crate) running: Vec<Running<L, T>>,
    pub(crate) stints: Vec<Stint<T>>,
    ghost parts: { rest.parts ≡ vec_len seats + 1 },
    ghost no_threads: { vec_len running ≡ 0 },
    ghost no_stints: { vec_len stints ≡ 0 },
    ghost running_room: { vec_len seats ≤ vec_capacity running },
    ghost stints_room: { vec_len seats ≤ vec_capacity stints },
}

/// Starts a thread for each worker.
#[tactic(auto, using(crate::proofs::Zips::zips))]
fn start_all<'s, E, L: Opened + Send + Sync + 's, T: Transport + 's, R: Wait + Sync>(
    scope: &Scope<'s, E>,
    rt: &'s R,
    alloc: Global,
    shared: &'s Shared<L>,
    seats: Vec<Seat<T>>,
    rest: &mut Share<L>,
    running: &mut Vec<Running<L, T>>,
)
    requires parts { rest.old.parts ≡ vec_len seats + 1 }
    requires empty { vec_len running.old ≡ 0 }
    requires room { vec_len seats ≤ vec_capacity running.old }
    ensures parts { rest.new.parts ≡ 1 }
    ensures amount { rest.new.amount ≡ rest.old.amount }
    ensures count { vec_len running.new ≡ vec_len seats }
    ensures each { AllZip (IsAtWork (IsDue L.keeping L.opening) T.state) seats.items running.new.items }
{
    let mut stopped = false;
    'starting: for seat in seats {
        let hand = Hand::new(alloc, rest.split_off(1, 0));
        let started = running.len();
        let next = start(scope, rt, alloc, shared, hand, seat, stopped, started);
        stopped = next.is_err();
        running.push_reserved(next);
    }
}

/// What a worker handed back that had a thread, or hadn't, with its share given to `all`.
fn take_in<L: Opened, T: Transport>(
    done: Done<L, T>,
    threaded: bool,
    all: &mut Share<L>,
) -> Stint<T>
    ensures parts { all.new.parts ≡ all.old.parts + 1 }
    ensures amount { all.new.amount ≡ all.old.amount + length result.notes.receipts }
    ensures seat { result.seat ≡ done.seat }
    ensures notes { result.notes ≡ done.hand.notes }
    ensures end { result.end ≡ done.end }
    ensures threaded { result.threaded ≡ threaded }
{
    let Done { seat, hand, end } = done;
    let Hand { share, notes } = hand;
    all.merge(share);
    Stint {
        seat,
        notes,
        end,
        threaded,
    }
}

/// Joins a worker's thread, if it has one.
fn join<L: Opened, T: Transport, R: Threads>(
    rt: &R,
    running: Running<L, T>,
    all: &mut Share<L>,
) -> Stint<T>
    ensures parts { all.new.parts ≡ all.old.parts + 1 }
    ensures amount { all.new.amount ≡ all.old.amount + length result.notes.receipts }
    ensures threaded { result.threaded ≡ is_ok running }
    ensures served { (w : _) → IsAtWork (IsDue L.keeping L.opening) T.state w running → HasServed (IsDue L.keeping L.opening) T.state (seat_of T.state w) result }
{
    match running {
        Ok(handle) => take_in(handle.join(rt), true, all),
        Err(done) => take_in(done, false, all),
    }
}

/// Joins all threads.
#[tactic(auto, using(crate::proofs::Zips::zips))]
fn join_all<L: Opened, T: Transport, R: Threads>(
    rt: &R,
    running: Vec<Running<L, T>>,
    all: &mut Share<L>,
    stints: &mut Vec<Stint<T>>,
)
    requires empty { vec_len stints.old ≡ 0 }
    requires room { vec_len running ≤ vec_capacity stints.old }
    ensures parts { all.new.parts ≡ all.old.parts + vec_len running }
    ensures count { vec_len stints.new ≡ vec_len running }
    ensures amount { all.new.amount ≡ all.old.amount + receipts_in stints.new.items }
    ensures each { AllZip (λ r x. (w : _) → IsAtWork (IsDue L.keeping L.opening) T.state w r → HasServed (IsDue L.keeping L.opening) T.state (seat_of T.state w) x) running.items stints.new.items }
{
    'joining: for next in running {
        let stint = join(rt, next, all);
        stints.push_reserved(stint);
    }
}

/// What came back of all workers, with the ledger's whole share.
#[derive(Drop)]
pub(crate) struct Ended<L: Opened, T: Transport> {
    pub(crate) all: Share<L>,
    pub(crate) stints: Vec<Stint<T>>,
}

/// The scribe's thread, or the scribe where it has none.
type Scribing<L, J> = Result<JoinHandle<Writing<L, J>>, Writing<L, J>>;

/// Starts the scribe's thread, where the run keeps its entries. Where it can't be started that is as if the journal
/// had refused.
fn start_scribe<'s, E, L: Opened + Send + Sync + 's, J: Journal + Send + Drop + 's, R: Wait + Sync>(
    scope: &Scope<'s, E>,
    rt: &'s R,
    alloc: Global,
    shared: &'s Shared<L>,
    writing: Writing<L, J>,
) -> Scribing<L, J> {
    if !shared.keeps() {
        return Err(writing);
    }
    match scope.spawn(move || Floor::new(rt, alloc, shared).keep_all(writing)) {
        Ok(handle) => Ok(handle),
        Err(refused) => {
            Floor::new(rt, alloc, shared).refuse();
            Err((refused.value)())
        }
    }
}

/// Joins the scribe's thread, once all workers have ended.
fn join_scribe<L: Opened, J: Journal + Drop, R: Threads + Wait>(
    rt: &R,
    alloc: Global,
    shared: &Shared<L>,
    scribing: Scribing<L, J>,
) -> Writing<L, J> {
    match scribing {
        Ok(handle) => {
            Floor::new(rt, alloc, shared).end_all();
            handle.join(rt)
        }
        Err(writing) => writing,
    }
}

/// What came back of a run's threads: what came back of the workers, and the scribe.
#[derive(Drop)]
pub(crate) struct Joined<L: Opened, T: Transport, J: Journal + Drop> {
    pub(crate) ended: Ended<L, T>,
    pub(crate) writing: Writing<L, J>,
}

/// Starts a thread for each worker, and joins them all.
#[tactic(auto, using(crate::proofs::Zips::zip_through))]
fn serve_all<'s, E, L: Opened + Send + Sync + 's, T: Transport + 's, R: Threads + Wait + Sync>(
    scope: &Scope<'s, E>,
    rt: &'s R,
    alloc: Global,
    shared: &'s Shared<L>,
    ready: Ready<L, T>,
) -> Ended<L, T>
    ensures parts { result.all.parts ≡ vec_len ready.seats + 1 }
    ensures count { vec_len result.stints ≡ vec_len ready.seats }
    ensures amount { result.all.amount ≡ ready.rest.amount + receipts_in result.stints.items }
    ensures each { HaveServed (IsDue L.keeping L.opening) T.state ready.seats.items result.stints.items }
{
    let Ready {
        seats,
        mut rest,
        mut running,
        mut stints,
    } = ready;
    start_all(scope, rt, alloc, shared, seats, &mut rest, &mut running);
    join_all(rt, running, &mut rest, &mut stints);
    Ended { all: rest, stints }
}

/// Starts a thread for the scribe and one for each worker, and joins them all, the scribe last.
fn keep_and_serve<
    's,
    E,
    L: Opened + Send + Sync + 's,
    T: Transport + 's,
    J: Journal + Send + Drop + 's,
    R: Threads + Wait + Sync,
>(
    scope: &Scope<'s, E>,
    rt: &'s R,
    alloc: Global,
    shared: &'s Shared<L>,
    ready: Ready<L, T>,
    writing: Writing<L, J>,
) -> Joined<L, T, J>
    ensures { HaveEnded (IsDue L.keeping L.opening) T.state ready.seats ready.rest.amount result.ended }
{
    let scribing = start_scribe(scope, rt, alloc, shared, writing);
    let ended = serve_all(scope, rt, alloc, shared, ready);
    Joined {
        ended,
        writing: join_scribe(rt, alloc, shared, scribing),
    }
}

/// Starts the threads of a run in a scope of their own, and joins them all.
pub(crate) fn in_scope<
    L: Opened + Send + Sync,
    T: Transport,
    J: Journal + Send + Drop,
    R: Threads + Wait + Sync,
>(
    rt: &R,
    alloc: Global,
    shared: &Shared<L>,
    ready: Ready<L, T>,
    writing: Writing<L, J>,
) -> Joined<L, T, J>
    ensures { HaveEnded (IsDue L.keeping L.opening) T.state ready.seats ready.rest.amount result.ended }
{
    thread::scope(
        thread::scope_env(),
        rt,
        |scope| -> Joined<L, T, J>
            ensures { HaveEnded (IsDue L.keeping L.opening) T.state ready.seats ready.rest.amount result.ended }
        { keep_and_serve(scope, rt, alloc, shared, ready, writing) },
    )
}
