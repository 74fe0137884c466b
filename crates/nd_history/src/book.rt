//! The entries so far, and what follows from them for leases and machines.

ghost use Rattle.std.specs.Prelude.{◌≡◌, ℕ, ◌+◌, ◌<◌, ◌≤◌, ◌^◌, ◌++◌, [], ◌∷◌, false, length, reverse, slice_index_or, vec_capacity, ◌↔◌, IsTrue, IfOk, OnOk};
ghost use Rattle.nd_history.specs.History.{live, lease_of, current_of, load, is_started, is_up};
ghost use Rattle.nd_history.specs.Legal.{IsLeastFree};
ghost use Rattle.nd_history.specs.Books.{CanRecord, MayRecord};
ghost use Rattle.nd_history.specs.Sameness.{BeginsWith};

use crate::entry::Entry;
use crate::sameness::begins_with;
use crate::tables::{follow_leases, follow_ups};
use nd_leases::{Leases, Ticket};
use std::alloc::{AllocError, Global};
use std::marker::Model;

/// A history with the tables that follow it: the live leases, which derivations were started since
/// their newest choice, and which machines are up. What is ready, built or failed, and whether there
/// was a stop, a board says. No question is answered by a search of the entries. Contracts see the
/// entries oldest first, how many more can be recorded without memory, the numbers of derivations and
/// machines, and how many slots of each machine the tables have.
#[derive(Drop, Debug)]
pub struct Book {
    entries: Vec<Entry>,
    leases: Leases,
    ups: Vec<bool>,
}

impl Model for Book {
    ghost use Rattle.nd_history.specs.Books.{Recorded};

    ghost Value = { Recorded };

    ghost use Rattle.nd_history.specs.BooksKept.{recorded, AreFollowed};

    ghost view = { recorded };

    ghost invariant = { AreFollowed };
}

impl Book {
    /// Records one more entry. It takes no memory.
    pub fn record(&mut self, entry: Entry)
        requires room { 0 < self.old.room }
        requires can { CanRecord self.old entry }
        ensures entries { self.new.entries ≡ self.old.entries ++ entry ∷ [] }
        ensures room { self.old.room ≤ self.new.room + 1 }
        ensures drvs { self.new.drvs ≡ self.old.drvs }
        ensures machines { self.new.machines ≡ self.old.machines }
    {
        follow_ups(&mut self.ups, &self.leases, &entry);
        follow_leases(&mut self.leases, self.entries.len(), &entry);
        self.entries.push_reserved(entry);
    }

    /// A book without entries, for this many derivations and machines, the local one among them. It
    /// has room for at least one entry, and for those of a history in which each derivation is built once.
    pub fn new(alloc: Global, drvs: usize, machines: usize) -> Result<Book, AllocError>
        ensures entries { IfOk result (λ b. b.entries ≡ []) }
        ensures room { IfOk result (λ b. 1 ≤ b.room) }
        ensures drvs { IfOk result (λ b. b.drvs ≡ drvs) }
        ensures machines { IfOk result (λ b. b.machines ≡ machines) }
    {
        Ok(Book {
            entries: Vec::with_capacity(alloc, usual_room(drvs))?,
            leases: Leases::new(alloc, drvs, machines)?,
            ups: vec![in alloc; true; machines]?,
        })
    }

    /// A copy with the same entries, with room for the end of each live lease and for one entry more.
    pub fn try_clone(&self, alloc: Global) -> Result<Book, AllocError>
        ensures entries { IfOk result (λ copy. copy.entries ≡ self.now.entries) }
        ensures drvs { IfOk result (λ copy. copy.drvs ≡ self.now.drvs) }
        ensures machines { IfOk result (λ copy. copy.machines ≡ self.now.machines) }
        ensures room { IfOk result (λ copy. length (live (reverse self.now.entries)) + 1 ≤ copy.room) }
    {
        let more = self.live_len() + 1;
        let entries = copy_entries(alloc, self.entries.as_slice(), more)?;
        Ok(Book {
            entries,
            leases: self.leases.try_clone(alloc)?,
            ups: Vec::from_slice(alloc, self.ups.as_slice())?,
        })
    }

    /// Whether the entries begin with those of the other book. It takes no memory.
    pub fn extends(&self, other: &Book) -> bool
        ensures { IsTrue result ↔ BeginsWith self.now.entries other.now.entries }
    {
        begins_with(self.entries.as_slice(), other.entries.as_slice())
    }

    /// Makes room for `more` entries.
    pub fn make_room(&mut self, more: usize) -> Result<(), AllocError>
        ensures entries { self.new.entries ≡ self.old.entries }
        ensures drvs { self.new.drvs ≡ self.old.drvs }
        ensures machines { self.new.machines ≡ self.old.machines }
        ensures kept { self.old.room ≤ self.new.room }
        ensures made { OnOk result (more ≤ self.new.room) }
    {
        self.entries.reserve(more)
    }

    /// Makes the slot that a choice takes, where the entry is one.
    pub fn make_slot(&mut self, entry: &Entry) -> Result<(), AllocError>
        requires { MayRecord self.old entry.now }
        ensures entries { self.new.entries ≡ self.old.entries }
        ensures drvs { self.new.drvs ≡ self.old.drvs }
        ensures machines { self.new.machines ≡ self.old.machines }
        ensures kept { self.new.room ≡ self.old.room }
        ensures made { OnOk result (CanRecord self.new entry.now) }
    {
        match entry {
            Entry::Chosen { machine, .. } => self.leases.make_slot(*machine),
            Entry::NoBuilder { .. } | Entry::Started { .. } | Entry::Down { .. } => Ok(()),
            Entry::Built { .. } | Entry::Failed { .. } | Entry::Stop => Ok(()),
            Entry::Drain { .. } | Entry::Enable { .. } => Ok(()),
        }
    }

    /// The entries, oldest first.
    pub fn entries(&self) -> &[Entry]
        ensures { result.now ≡ self.now.entries }
    {
        self.entries.as_slice()
    }

    /// The number of live leases.
    pub fn live_len(&self) -> usize
        ensures live { result ≡ length (live (reverse self.now.entries)) }
        ensures small { result < 2 ^ 63 }
    {
        self.leases.len()
    }

    /// The live lease of derivation `drv`.
    pub fn lease(&self, drv: u32) -> Option<Ticket>
        ensures { result ≡ lease_of drv (reverse self.now.entries) }
    {
        self.leases.lease(drv)
    }

    /// The live lease on this slot of this machine.
    pub fn current(&self, machine: u32, slot: u32) -> Option<Ticket>
        ensures { result ≡ current_of machine slot (reverse self.now.entries) }
    {
        self.leases.current(machine, slot)
    }

    /// The load of this machine: the number of its live leases.
    pub fn load(&self, machine: u32) -> usize
        ensures { result ≡ load machine (reverse self.now.entries) }
    {
        self.leases.load(machine) as usize
    }

    /// The loads of all machines, the local one's first.
    pub(crate) fn loads(&self) -> &[u32]
        ensures sized { length result.now ≡ self.now.machines }
        ensures each { (m : ℕ) → slice_index_or result.now m 0 ≡ load m (reverse self.now.entries) }
    {
        self.leases.loads()
    }

    /// Which machines are up, the local one first.
    pub(crate) fn ups(&self) -> &[bool]
        ensures sized { length result.now ≡ self.now.machines }
        ensures each { (m : ℕ) → m < self.now.machines → slice_index_or result.now m false ≡ is_up m (reverse self.now.entries) }
    {
        self.ups.as_slice()
    }

    /// The least slot of this machine that no live lease is on.
    pub(crate) fn least_free(&self, machine: u32) -> usize
        requires { machine < self.now.machines }
        ensures { IsLeastFree (reverse self.now.entries) machine result }
    {
        self.leases.least_free(machine)
    }

    /// Whether derivation `drv` was started since its newest choice.
    pub fn is_started(&self, drv: usize) -> bool
        requires { drv < self.now.drvs }
        ensures { result ≡ is_started drv (reverse self.now.entries) }
    {
        self.leases.is_started(drv)
    }

    /// Whether this machine is up.
    pub fn is_up(&self, machine: usize) -> bool
        requires { machine < self.now.machines }
        ensures { result ≡ is_up machine (reverse self.now.entries) }
    {
        self.ups[machine]
    }
}

/// For how many entries a book has room at first: a choice, a start and an end of each of so many derivations, and
/// the room that is kept for the end of each live lease, of which there are no more. So a list of entries is
/// seldom moved while it grows, and leaves no holes in the heap.
fn usual_room(drvs: usize) -> usize
    ensures { 1 ≤ result }
{
    drvs.saturating_mul(4).saturating_add(4)
}

/// Copies of these entries, with room for `more` beside them.
fn copy_entries(alloc: Global, entries: &[Entry], more: usize) -> Result<Vec<Entry>, AllocError>
    requires { more ≤ 2 ^ 63 }
    ensures items { IfOk result (λ copy. copy.items ≡ entries.now) }
    ensures room { IfOk result (λ copy. length entries.now + more ≤ vec_capacity copy) }
{
    let mut copy = Vec::with_capacity(alloc, entries.len() + more)?;
    for entry in entries {
        copy.push_reserved(entry.try_clone()?);
    }
    Ok(copy)
}
