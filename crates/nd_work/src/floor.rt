//! What the workers and the scribe of a run share, and where each of them stands.

ghost use Rattle.std.specs.Prelude.{◌≡◌, ◌<◌, [], true, IfErr, OnOk, OnErr};
ghost use Rattle.nd_receipts.specs.Noted.{HasNoted, HasJudged, afresh};
ghost use Rattle.nd_run_desk.specs.Judgements.{is_own_cause};

use crate::bells::Bells;
use crate::hand::Hand;
use nd_closure::Refs;
use nd_history::{Entry, Why};
use nd_keeping::Kept;
use nd_leases::Ticket;
use nd_ledger::{Refusal, Refused};
use nd_path::PathSet;
use nd_receipts::{Behind, Kind};
use nd_run_desk::{Desk, Leave, Opened};
use std::alloc::Global;
use std::sync::{Condvar, Mutex, Wait};

/// What the workers and the scribe share. Who makes an entry wakes nobody: a worker looks for its next lease after
/// each end, and rings for the others then; and who waits, for a lease or for an entry to be durable, rings for the
/// scribe.
#[derive(Drop)]
pub struct Shared<L: Opened> {
    pub(crate) desk: Mutex<Desk<L>>,
    pub(crate) bells: Bells,
    /// The scribe's bell.
    pub(crate) news: Condvar,
    /// Whether the run keeps its history in a journal.
    pub(crate) keeps: bool,
    /// What is durable when the run begins.
    pub(crate) first: Kept,
    ghost keeps_is: { keeps ≡ L.keeping.keeps },
    ghost there: { first.book ≡ L.keeping.book },
}

impl<L: Opened> Shared<L> {
    /// What is shared in a run with this desk, of which `first` is durable when it begins.
    pub fn new(desk: Desk<L>, bells: Bells, keeps: bool, first: Kept) -> Shared<L>
        requires keeps { keeps ≡ L.keeping.keeps }
        requires there { first.book ≡ L.keeping.book }
    {
        Shared {
            desk: Mutex::new(desk),
            bells,
            news: Condvar::new(),
            keeps,
            first,
        }
    }

    /// The desk, once nobody shares it any more.
    pub fn into_desk(self) -> Desk<L> {
        let Shared { desk, bells, .. } = self;
        drop(bells);
        desk.into_inner()
    }

    /// Whether the run keeps its history in a journal.
    pub fn keeps(&self) -> bool {
        self.keeps
    }

    /// Leave where the run keeps no history, and nothing has to be durable.
    pub(crate) fn free_leave(&self) -> Leave<L> {
        Leave::free(&self.first)
    }

    /// Rings for the scribe, where there is one.
    pub(crate) fn tell(&self) {
        if self.keeps {
            self.news.notify_one();
        }
    }
}

/// Where a worker or the scribe stands in its thread: what they share, by what it may wait for that, and the allocator.
#[derive(Drop)]
pub struct Floor<'a, L: Opened, R> {
    pub(crate) rt: &'a R,
    pub(crate) alloc: Global,
    pub(crate) shared: &'a Shared<L>,
}

impl<'a, L: Opened, R: Wait> Floor<'a, L, R> {
    /// A place to stand at.
    pub fn new(rt: &'a R, alloc: Global, shared: &'a Shared<L>) -> Floor<'a, L, R> {
        Floor { rt, alloc, shared }
    }
}

impl<'a, L: Opened, R: Wait> Floor<'a, L, R> {
    /// Under the lock, gives a lease back.
    pub(crate) fn down(
        &self,
        hand: &mut Hand<L>,
        ticket: Ticket,
        calls: u8,
        paths: PathSet,
    ) -> Result<(), Refusal>
        requires room { 0 < hand.old.notes.room }
        ensures ok { OnOk result (HasNoted hand.old.notes hand.new.notes Kind.Down (afresh calls paths) (Entry.Down ticket.drv)) }
    {
        let mut desk = self.shared.desk.lock(self.rt);
        hand.down(self.alloc, &mut *desk, ticket, calls, paths)
    }

    /// Under the lock, ends a lease without outputs.
    pub(crate) fn fail(
        &self,
        hand: &mut Hand<L>,
        ticket: Ticket,
        why: Why,
        behind: Behind,
    ) -> Result<(), Refusal>
        requires room { 0 < hand.old.notes.room }
        requires cause { is_own_cause why ≡ true }
        ensures ok { OnOk result (HasNoted hand.old.notes hand.new.notes Kind.Failed behind (Entry.Failed ticket.drv why)) }
    {
        let mut desk = self.shared.desk.lock(self.rt);
        hand.fail(self.alloc, &mut *desk, ticket, why, behind)
    }

    /// Under the lock, makes a start.
    pub(crate) fn start(
        &self,
        hand: &mut Hand<L>,
        ticket: Ticket,
        paths: PathSet,
        copy: Entry,
    ) -> Result<(), Refused<PathSet>>
        requires room { 0 < hand.old.notes.room }
        requires copy { copy ≡ Entry.Started ticket.drv paths }
        ensures ok { OnOk result (HasNoted hand.old.notes hand.new.notes Kind.Started (afresh 2 []) (Entry.Started ticket.drv paths)) }
        ensures err { OnErr result (hand.new.notes ≡ hand.old.notes) }
        ensures back { IfErr result (λ r. r.value ≡ paths) }
    {
        let mut desk = self.shared.desk.lock(self.rt);
        hand.start(self.alloc, &mut *desk, ticket, paths, copy)
    }

    /// In one hold of the lock, judges the references that a build reported, and makes the entry of its end: with its
    /// outputs where it may have them, and else the failure for them.
    pub(crate) fn end(
        &self,
        hand: &mut Hand<L>,
        ticket: Ticket,
        refs: Refs,
        copy: Refs,
        behind: Behind,
    ) -> Result<(), Refused<Behind>>
        requires room { 0 < hand.old.notes.room }
        requires copy { copy ≡ refs }
        ensures ok { OnOk result (HasJudged hand.old.notes hand.new.notes ticket.drv behind refs) }
        ensures err { OnErr result (hand.new.notes ≡ hand.old.notes) }
        ensures back { IfErr result (λ r. r.value ≡ behind) }
    {
        let mut desk = self.shared.desk.lock(self.rt);
        hand.end(self.alloc, &mut *desk, ticket, refs, copy, behind)
    }
}
