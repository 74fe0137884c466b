//! What starts and the ends of builds need before they are recorded: their tests, and their memory.

ghost use Rattle.std.specs.Prelude.{◌≡◌, ◌↔◌, reverse, IfOk, IfErr, IsTrue};
ghost use Rattle.nd_history.specs.Fitting.{FitTogether};
ghost use Rattle.nd_ledger.specs.Moves.{IsStartRefused, IsEndRefused, refusal_for, IsReadyToStart, IsReadyToEnd};
ghost use Rattle.nd_history.specs.Premises.{premises_of};
ghost use Rattle.nd_ledger.specs.Refusals.{IsLive};
ghost use Rattle.nd_ledger.specs.States.{IsRoomier};
ghost use Rattle.nd_provision.specs.Stored.{AreStored, IsSameStored};

use crate::refusal::Refusal;
use nd_closure::Refs;
use nd_history::{Book, Inputs};
use nd_leases::Ticket;
use nd_path::PathSet;
use nd_provision::{Additions, PathsError, Stores};
use std::alloc::Global;

/// Whether the ticket is a live lease's.
pub(crate) fn is_live(book: &Book, ticket: Ticket) -> bool
    ensures { IsTrue result ↔ IsLive (reverse book.now.entries) ticket }
{
    match book.lease(ticket.drv) {
        Some(found) => found == ticket,
        None => false,
    }
}

/// Tests a start with these copied paths, and takes the memory that it needs.
pub(crate) fn prepare_start(
    alloc: Global,
    inputs: &Inputs,
    book: &mut Book,
    stores: &mut Stores,
    ticket: Ticket,
    paths: &PathSet,
) -> Result<Additions, Refusal>
    requires fit { FitTogether (premises_of inputs.now) book.old }
    requires stored { AreStored (premises_of inputs.now) (reverse book.old.entries) stores.old }
    ensures book { IsRoomier book.old book.new }
    ensures stores { IsSameStored stores.old stores.new }
    ensures ready { IfOk result (IsReadyToStart (premises_of inputs.now) (reverse book.old.entries) ticket paths.now book.new stores.new) }
    ensures refused { IfErr result (IsStartRefused (premises_of inputs.now) (reverse book.old.entries) ticket paths.now) }
{
    if !is_live(book, ticket) {
        return Err(Refusal::NotLive);
    }
    if book.is_started(ticket.drv as usize) {
        return Err(Refusal::AlreadyStarted);
    }
    let machine = ticket.machine as usize;
    let numbers = match stores.check_paths(alloc, inputs, ticket.drv as usize, machine, paths) {
        Ok(numbers) => numbers,
        Err(fault) => return Err(refusal_of(fault)),
    };
    let room = book.live_len() + 2;
    book.make_room(room)?;
    Ok(stores.prepare_start(alloc, machine, paths, numbers)?)
}

/// Tests the end of a build with these references, and takes the memory that it needs.
pub(crate) fn prepare_end(
    alloc: Global,
    inputs: &Inputs,
    book: &Book,
    stores: &mut Stores,
    ticket: Ticket,
    refs: &Refs,
) -> Result<Additions, Refusal>
    requires fit { FitTogether (premises_of inputs.now) book.now }
    requires stored { AreStored (premises_of inputs.now) (reverse book.now.entries) stores.old }
    ensures stores { IsSameStored stores.old stores.new }
    ensures ready { IfOk result (IsReadyToEnd (premises_of inputs.now) (reverse book.now.entries) ticket refs.now stores.new) }
    ensures refused { IfErr result (IsEndRefused (premises_of inputs.now) (reverse book.now.entries) ticket refs.now) }
{
    if !is_live(book, ticket) {
        return Err(Refusal::NotLive);
    }
    if !book.is_started(ticket.drv as usize) {
        return Err(Refusal::NotStarted);
    }
    let right = stores.check_references(alloc, inputs, ticket.drv as usize, refs)?;
    if !right {
        return Err(Refusal::BadReferences);
    }
    Ok(stores.prepare_built(
        alloc,
        inputs,
        ticket.drv as usize,
        ticket.machine as usize,
        refs,
    )?)
}

/// The refusal of a call with paths that aren't right.
pub fn refusal_of(fault: PathsError) -> Refusal
    ensures { result ≡ refusal_for fault }
{
    match fault {
        PathsError::Uncovered => Refusal::Uncovered,
        PathsError::Extra => Refusal::Extra,
        PathsError::Memory => Refusal::Memory,
    }
}
