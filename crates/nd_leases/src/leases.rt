//! The live leases, in tables.

ghost use Rattle.std.specs.Prelude.{◌≡◌, ℕ, ◌+◌, ◌<◌, ◌≤◌, ◌^◌, true, false, None, [], ◌∷◌, List, length, replicate, slice_set, slice_index_or, IfOk, OnOk};
ghost use Rattle.nd_leases.specs.declared.ticket.Ticket.{Ticket};
ghost use Rattle.nd_leases.specs.Tickets.{without, ticket_of, ticket_on, tickets_on};
ghost use Rattle.nd_leases.specs.Tables.{holder_at, load_at, slot_at, room_at, AreTabled, Answers, Become, HasFreeSlot, IsLeastFreeSlot};

use crate::row::Row;
use crate::ticket::Ticket;
use std::alloc::{AllocError, Global};
use std::marker::Model;

/// The live leases, kept in tables: for each derivation its ticket and whether its build started, for
/// each machine its load and which derivation is on each of its slots.
///
/// A lease, a load and the lease of a slot are found in one step, and the least free slot of a machine
/// in a few, however many slots the machine ever needed at once. Only `new`, `make_slot` and
/// `try_clone` take memory.
#[derive(Drop, Debug)]
pub struct Leases {
    holders: Vec<Option<Ticket>>,
    started: Vec<bool>,
    loads: Vec<u32>,
    rows: Vec<Row>,
    len: usize,
}

impl Model for Leases {
    ghost use Rattle.nd_leases.specs.Tables.{Tables};

    ghost Value = { Tables };

    ghost use Rattle.nd_leases.specs.Whole.{tables_of, AreWhole};

    ghost view = { tables_of };

    ghost invariant = { AreWhole };
}

impl Leases {
    /// No leases, of this many derivations on this many machines.
    pub fn new(alloc: Global, drvs: usize, machines: usize) -> Result<Leases, AllocError>
        ensures none { IfOk result (λ made. AreTabled made []) }
        ensures drvs { IfOk result (λ made. length made.holders ≡ drvs) }
        ensures machines { IfOk result (λ made. length made.loads ≡ machines) }
        ensures marks { IfOk result (λ made. length made.started ≡ drvs) }
        ensures started { IfOk result (λ made. (d : ℕ) → slice_index_or made.started d false ≡ false) }
    {
        Ok(Leases {
            holders: no_tickets(alloc, drvs)?,
            started: vec![in alloc; false; drvs]?,
            loads: vec![in alloc; 0; machines]?,
            rows: empty_rows(alloc, machines)?,
            len: 0,
        })
    }

    /// The number of leases.
    pub fn len(&self) -> usize
        ensures { Answers self.now length result }
    {
        self.len
    }

    /// The lease of derivation `drv`.
    pub fn lease(&self, drv: u32) -> Option<Ticket>
        ensures { Answers self.now (ticket_of drv) result }
    {
        let place = drv as usize;
        if place < self.holders.len() {
            self.holders[place]
        } else {
            None
        }
    }

    /// The lease on this slot of this machine.
    pub fn current(&self, machine: u32, slot: u32) -> Option<Ticket>
        ensures { Answers self.now (ticket_on machine slot) result }
    {
        let place = machine as usize;
        if place >= self.rows.len() {
            return None;
        }
        match self.rows[place].at(slot as usize) {
            Some(drv) => self.lease(drv),
            None => None,
        }
    }

    /// The load of this machine: the number of its leases.
    pub fn load(&self, machine: u32) -> u32
        ensures { Answers self.now (tickets_on machine) result }
    {
        let place = machine as usize;
        if place < self.loads.len() {
            self.loads[place]
        } else {
            0
        }
    }

    /// The loads of all machines, the local one's first.
    pub fn loads(&self) -> &[u32]
        ensures { result.now ≡ self.now.loads }
    {
        self.loads.as_slice()
    }

    /// The least slot of this machine that no lease is on.
    pub fn least_free(&self, machine: u32) -> usize
        requires { machine < length self.now.loads }
        ensures { (tickets : List Ticket) → AreTabled self.now tickets → IsLeastFreeSlot machine result tickets }
    {
        self.rows[machine as usize].least_free()
    }

    /// Makes room for a lease on the least free slot of this machine.
    pub fn make_slot(&mut self, machine: u32) -> Result<(), AllocError>
        requires { machine < length self.old.loads }
        ensures same { Become self.old self.new (λ tickets. tickets) }
        ensures holders { self.new.holders ≡ self.old.holders }
        ensures started { self.new.started ≡ self.old.started }
        ensures loads { self.new.loads ≡ self.old.loads }
        ensures longer { (m : ℕ) → room_at self.old m ≤ room_at self.new m }
        ensures made { OnOk result (HasFreeSlot self.new machine) }
    {
        self.rows[machine as usize].make_slot()
    }

    /// Begins a lease on a free slot, and its derivation isn't marked as started any more. It takes no
    /// memory.
    pub fn begin(&mut self, ticket: Ticket)
        requires drv { ticket.drv < length self.old.holders }
        requires unleased { holder_at self.old ticket.drv ≡ None }
        requires room { ticket.slot < room_at self.old ticket.machine }
        requires free { slot_at self.old ticket.machine ticket.slot ≡ None }
        requires light { load_at self.old ticket.machine + 1 < 2 ^ 32 }
        requires few { self.old.len + 1 < 2 ^ 64 }
        ensures begun { Become self.old self.new (λ tickets. ticket ∷ tickets) }
        ensures drvs { length self.new.holders ≡ length self.old.holders }
        ensures started { self.new.started ≡ slice_set self.old.started ticket.drv false }
        ensures machines { length self.new.loads ≡ length self.old.loads }
        ensures rooms { (m : ℕ) → room_at self.new m ≡ room_at self.old m }
    {
        let drv = ticket.drv as usize;
        let machine = ticket.machine as usize;
        self.holders[drv] = Some(ticket);
        put_mark(&mut self.started, drv, false);
        self.loads[machine] += 1;
        put_slot(
            &mut self.rows,
            machine,
            ticket.slot as usize,
            Some(ticket.drv),
        );
        self.len += 1;
    }

    /// Ends the lease of derivation `drv`, if it has one. It takes no memory.
    pub fn end(&mut self, drv: u32)
        ensures ended { Become self.old self.new (without drv) }
        ensures drvs { length self.new.holders ≡ length self.old.holders }
        ensures started { self.new.started ≡ self.old.started }
        ensures machines { length self.new.loads ≡ length self.old.loads }
        ensures rooms { (m : ℕ) → room_at self.new m ≡ room_at self.old m }
    {
        if let Some(ticket) = self.lease(drv) {
            let machine = ticket.machine as usize;
            self.holders[drv as usize] = None;
            self.loads[machine] -= 1;
            put_slot(&mut self.rows, machine, ticket.slot as usize, None);
            self.len -= 1;
        }
    }

    /// Marks derivation `drv` as started; where there is none nothing is marked.
    pub fn start(&mut self, drv: u32)
        ensures same { Become self.old self.new (λ tickets. tickets) }
        ensures holders { self.new.holders ≡ self.old.holders }
        ensures started { self.new.started ≡ slice_set self.old.started drv true }
        ensures loads { self.new.loads ≡ self.old.loads }
        ensures rooms { (m : ℕ) → room_at self.new m ≡ room_at self.old m }
    {
        let place = drv as usize;
        if place < self.started.len() {
            self.started[place] = true;
        }
    }

    /// Whether derivation `drv` is marked as started.
    pub fn is_started(&self, drv: usize) -> bool
        ensures { result ≡ slice_index_or self.now.started drv false }
    {
        if drv < self.started.len() {
            self.started[drv]
        } else {
            false
        }
    }

    /// Equal tables.
    pub fn try_clone(&self, alloc: Global) -> Result<Leases, AllocError>
        ensures { IfOk result (λ copy. copy ≡ self.now) }
    {
        Ok(Leases {
            holders: Vec::from_slice(alloc, self.holders.as_slice())?,
            started: Vec::from_slice(alloc, self.started.as_slice())?,
            loads: Vec::from_slice(alloc, self.loads.as_slice())?,
            rows: copy_rows(alloc, self.rows.as_slice())?,
            len: self.len,
        })
    }
}

/// Marks a derivation as started, or as not started.
fn put_mark(marks: &mut Vec<bool>, drv: usize, started: bool)
    requires { drv < length marks.old.items }
    ensures { marks.new.items ≡ slice_set marks.old.items drv started }
{
    marks[drv] = started;
}

/// Puts this derivation on the slot of the machine, or none.
fn put_slot(rows: &mut Vec<Row>, machine: usize, slot: usize, drv: Option<u32>)
    requires machine { machine < length rows.old.items }
    requires slot { slot < length (slice_index_or rows.old.items machine []) }
    ensures { rows.new.items ≡ slice_set rows.old.items machine (slice_set (slice_index_or rows.old.items machine []) slot drv) }
{
    rows[machine].put(slot, drv);
}

/// No ticket for each of this many derivations.
fn no_tickets(alloc: Global, drvs: usize) -> Result<Vec<Option<Ticket>>, AllocError>
    ensures { IfOk result (λ holders. holders.items ≡ replicate drvs None) }
{
    vec![in alloc; None; drvs]
}

/// This many rows without slots.
fn empty_rows(alloc: Global, machines: usize) -> Result<Vec<Row>, AllocError>
    ensures { IfOk result (λ rows. rows.items ≡ replicate machines []) }
{
    let mut rows = Vec::with_capacity(alloc, machines)?;
    for _ in 0..machines {
        rows.push_reserved(Row::new(alloc)?);
    }
    Ok(rows)
}

/// Equal rows.
fn copy_rows(alloc: Global, rows: &[Row]) -> Result<Vec<Row>, AllocError>
    ensures { IfOk result (λ copy. copy.items ≡ rows.now) }
{
    let mut copy = Vec::with_capacity(alloc, rows.len())?;
    for row in rows {
        copy.push_reserved(row.try_clone(alloc)?);
    }
    Ok(copy)
}
