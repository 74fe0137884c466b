//! What lies under the lock: the dispatch, how many entries the workers made, the references that builds reported
//! and may not have, and how far the run's journal is.

ghost use Rattle.std.specs.Prelude.{◌≡◌, ◌+◌, ◌<◌, ◌≤◌, drop, length, reverse, true, IfOk, IfErr, OnOk, OnErr, IsTrue};
ghost use Rattle.nd_history.specs.History.{is_started};
ghost use Rattle.nd_history.specs.Statuses.{IsFinished};
ghost use Rattle.nd_ledger.specs.Moves.{IsStartRefused, IsEndRefused};
ghost use Rattle.nd_ledger.specs.Refusals.{IsDownRefused, IsFailRefused};
ghost use Rattle.nd_receipts.specs.Made.{made};
ghost use Rattle.nd_run_desk.specs.Jobs.{IsNextOf, IsToldOf};
ghost use Rattle.nd_run_desk.specs.Judgements.{is_own_cause};
ghost use Rattle.nd_run_desk.specs.Steps.{IsUpheld, Records};

use crate::abandoning::abandon;
use crate::keeping::Progress;
use crate::opened::Opened;
use nd_closure::Refs;
use nd_history::{Entry, Why};
use nd_leases::Ticket;
use nd_ledger::{Dispatch, Job, Refusal, Refused};
use nd_path::PathSet;
use nd_receipts::{Misreports, ParkPlace, is_started};
use std::alloc::{AllocError, Global};
use std::sync::ledger::{Book, Share};

/// The dispatch with the book of what the workers made, the places that workers serve, the references that were
/// refused, and what is handed to the scribe and durable.
#[derive(Drop)]
pub struct Desk<L: Opened> {
    /// The leases and their history.
    pub dispatch: Dispatch,
    pub(crate) book: Book<L>,
    pub(crate) manned: Vec<ParkPlace>,
    pub(crate) misreports: Misreports,
    pub(crate) progress: Progress<L>,
    /// How many entries the history had when the run began.
    pub(crate) opened: usize,
    ghost counted: { made dispatch.history ≡ book.total },
    ghost since: { opened ≡ length L.opening.history },
    ghost upheld: { IsUpheld L.opening dispatch misreports progress.handed.entries progress.kept.entries },
}

/// What there is to do for a worker.
#[derive(Drop)]
pub enum Next {
    /// Nothing is leased or waits any more.
    Finished,
    /// Its slot has no lease.
    Wait,
    /// Its slot's lease, and whether it was started before the run.
    Serve(Job, bool),
    /// There was no memory for the job of its slot's lease. It may have been started before the run too.
    Short(Ticket, bool),
}

impl<L: Opened> Desk<L> {
    /// Records a start, as `Dispatch::started` does, and a unit for it in the worker's share. The answer is the entry's
    /// place in the history. Refuses as that does; the paths come back then, and nothing has changed.
    pub fn start(
        &mut self,
        alloc: Global,
        ticket: Ticket,
        paths: PathSet,
        mine: &mut Share<L>,
    ) -> Result<usize, Refused<PathSet>>
        requires { 0 < mine.old.parts }
        ensures ok { OnOk result (mine.new.amount ≡ mine.old.amount + 1) }
        ensures err { OnErr result (mine.new.amount ≡ mine.old.amount) }
        ensures parts { mine.new.parts ≡ mine.old.parts }
        ensures back { IfErr result (λ r. r.value ≡ paths) }
        ensures recorded { OnOk result (Records self.old.dispatch (Entry.Started ticket.drv paths) self.new.dispatch) }
        ensures place { IfOk result (λ place. place ≡ length self.old.dispatch.history) }
        ensures refused { IfErr result (λ r. IsStartRefused self.old.dispatch.inputs (reverse self.old.dispatch.history) ticket paths r.why) }
        ensures same { OnErr result (self.new.dispatch ≡ self.old.dispatch) }
    {
        let Desk { dispatch, book, .. } = self;
        let index = dispatch.history().len();
        match dispatch.started(alloc, ticket, paths) {
            Ok(()) => {
                book.add(mine, 1);
                Ok(index)
            }
            Err(refused) => Err(refused),
        }
    }

    /// Records that a lease is given back, as `Dispatch::down` does, and refuses as that does. The answer is the entry's
    /// place in the history.
    pub fn down(&mut self, ticket: Ticket, mine: &mut Share<L>) -> Result<usize, Refusal>
        requires { 0 < mine.old.parts }
        ensures ok { OnOk result (mine.new.amount ≡ mine.old.amount + 1) }
        ensures err { OnErr result (mine.new.amount ≡ mine.old.amount) }
        ensures parts { mine.new.parts ≡ mine.old.parts }
        ensures recorded { OnOk result (Records self.old.dispatch (Entry.Down ticket.drv) self.new.dispatch) }
        ensures place { IfOk result (λ place. place ≡ length self.old.dispatch.history) }
        ensures refused { IfErr result (λ e. IsDownRefused (reverse self.old.dispatch.history) ticket e) }
        ensures same { OnErr result (self.new.dispatch ≡ self.old.dispatch) }
    {
        let Desk { dispatch, book, .. } = self;
        let index = dispatch.history().len();
        match dispatch.down(ticket) {
            Ok(()) => {
                book.add(mine, 1);
                Ok(index)
            }
            Err(refusal) => Err(refusal),
        }
    }

    /// Records the end of a build with its outputs, as `Dispatch::built` does. The answer is the entry's place in the
    /// history. Refuses as that does; a refusal hands the references back, and is about the history as it is then.
    pub fn end(
        &mut self,
        alloc: Global,
        ticket: Ticket,
        refs: Refs,
        mine: &mut Share<L>,
    ) -> Result<usize, Refused<Refs>>
        requires { 0 < mine.old.parts }
        ensures ok { OnOk result (mine.new.amount ≡ mine.old.amount + 1) }
        ensures err { OnErr result (mine.new.amount ≡ mine.old.amount) }
        ensures parts { mine.new.parts ≡ mine.old.parts }
        ensures back { IfErr result (λ r. r.value ≡ refs) }
        ensures refused { IfErr result (λ r. IsEndRefused self.new.dispatch.inputs (reverse self.new.dispatch.history) ticket refs r.why) }
        ensures recorded { OnOk result (Records self.old.dispatch (Entry.Built ticket.drv refs) self.new.dispatch) }
        ensures place { IfOk result (λ place. place ≡ length self.old.dispatch.history) }
        ensures same { OnErr result (self.new.dispatch ≡ self.old.dispatch) }
    {
        let Desk { dispatch, book, .. } = self;
        let index = dispatch.history().len();
        match dispatch.built(alloc, ticket, refs) {
            Ok(()) => {
                book.add(mine, 1);
                Ok(index)
            }
            Err(refused) => Err(refused),
        }
    }

    /// Records that a build may not have the references that it reported, and keeps them beside the entry. The answer is
    /// the entry's place in the history. Where there is no memory to keep them nothing is recorded.
    #[tactic(auto, using(crate::proofs::Upheld::upheld_same))]
    pub fn misreport(
        &mut self,
        ticket: Ticket,
        refs: Refs,
        mine: &mut Share<L>,
    ) -> Result<usize, AllocError>
        requires part { 0 < mine.old.parts }
        requires wrong { IsEndRefused self.old.dispatch.inputs (reverse self.old.dispatch.history) ticket refs Refusal.BadReferences }
        ensures ok { OnOk result (mine.new.amount ≡ mine.old.amount + 1) }
        ensures err { OnErr result (mine.new.amount ≡ mine.old.amount) }
        ensures parts { mine.new.parts ≡ mine.old.parts }
        ensures recorded { OnOk result (Records self.old.dispatch (Entry.Failed ticket.drv Why.BadReferences) self.new.dispatch) }
        ensures place { IfOk result (λ place. place ≡ length self.old.dispatch.history) }
        ensures same { OnErr result (self.new.dispatch ≡ self.old.dispatch) }
    {
        let Desk {
            dispatch,
            book,
            misreports,
            ..
        } = self;
        let index = dispatch.history().len();
        misreports.keep(index, refs)?;
        match dispatch.failed(ticket, Why::BadReferences) {
            Ok(()) => {
                book.add(mine, 1);
                Ok(index)
            }
            Err(_) => unreachable!(),
        }
    }

    /// Records the end of a lease without outputs, as `Dispatch::failed` does, and refuses as that does. The answer is the
    /// entry's place in the history. The cause is one that a worker says by its own word: that a build may not have the
    /// references that it reported is recorded by [`Desk::misreport`] alone.
    pub fn fail(&mut self, ticket: Ticket, why: Why, mine: &mut Share<L>) -> Result<usize, Refusal>
        requires part { 0 < mine.old.parts }
        requires cause { is_own_cause why ≡ true }
        ensures ok { OnOk result (mine.new.amount ≡ mine.old.amount + 1) }
        ensures err { OnErr result (mine.new.amount ≡ mine.old.amount) }
        ensures parts { mine.new.parts ≡ mine.old.parts }
        ensures recorded { OnOk result (Records self.old.dispatch (Entry.Failed ticket.drv why) self.new.dispatch) }
        ensures place { IfOk result (λ place. place ≡ length self.old.dispatch.history) }
        ensures refused { IfErr result (λ e. IsFailRefused (reverse self.old.dispatch.history) ticket e) }
        ensures same { OnErr result (self.new.dispatch ≡ self.old.dispatch) }
    {
        let Desk { dispatch, book, .. } = self;
        let index = dispatch.history().len();
        match dispatch.failed(ticket, why) {
            Ok(()) => {
                book.add(mine, 1);
                Ok(index)
            }
            Err(refusal) => Err(refusal),
        }
    }

    /// Called once, before the first of so many workers begins. Where there is none the calling thread makes the choices
    /// that can be made.
    pub fn begin(&mut self, workers: usize) {
        if workers == 0 {
            self.pump();
        }
    }

    /// Makes the choices that can be made. Where memory is refused no further lease is made.
    pub fn pump(&mut self) {
        if !self.choose() {
            self.begin_no_more();
        }
    }

    /// Makes the choices that can be made. The answer is whether there was memory for them all.
    fn choose(&mut self) -> bool {
        let Desk { dispatch, .. } = self;
        match dispatch.pump() {
            Ok(_) => true,
            Err(_) => false,
        }
    }

    /// No further lease is made.
    pub(crate) fn begin_no_more(&mut self) {
        let Desk {
            dispatch,
            manned,
            ..
        } = self;
        abandon(dispatch, manned.as_slice());
    }

    /// The worker of this place leaves for want of memory, and no further lease is made.
    pub fn leave(&mut self, place: ParkPlace) {
        self.manned.retain(|one| *one != place);
        self.begin_no_more();
    }

    /// Only the first `started` workers have threads, and no further lease is made.
    pub fn unstarted(&mut self, started: usize) {
        self.manned.truncate(started);
        self.begin_no_more();
    }

    /// What there is to do for the worker of this place. A job names the lease's derivation and its outputs by the graph,
    /// and what its machine lacks of the input closure now.
    pub fn next(&mut self, alloc: Global, place: ParkPlace) -> Next
        ensures of { IsNextOf L.opening result }
        ensures again { IsToldOf L.opening result }
        ensures finished { result ≡ Next.Finished → IsFinished self.new.dispatch.inputs (reverse self.new.dispatch.history) }
    {
        self.pump();
        if self.dispatch.finished() {
            return Next::Finished;
        }
        let Some(ticket) = self.dispatch.current(place.machine, place.slot) else {
            return Next::Wait;
        };
        let again = self.was_started(ticket);
        match self.dispatch.job(alloc, &ticket) {
            Ok(job) => Next::Serve(job, again),
            Err(_) => Next::Short(ticket, again),
        }
    }

    /// Whether this lease, which its worker takes up, was started before the run.
    fn was_started(&self, ticket: Ticket) -> bool
        ensures started { result ≡ true → is_started ticket.drv (reverse self.now.dispatch.history) ≡ true }
        ensures before { result ≡ true → ticket.serial < length L.opening.history }
    {
        if ticket.serial >= self.opened {
            return false;
        }
        is_started(self.dispatch.history(), ticket.drv)
    }
}

/// The entries behind the first `opening`; none where there are fewer.
pub fn entries_since(dispatch: &Dispatch, opening: usize) -> &[Entry]
    ensures { result.now ≡ drop opening dispatch.now.history }
{
    let history = dispatch.history();
    if history.len() < opening {
        return &[];
    }
    let (_, new) = history.split_at(opening);
    new
}
