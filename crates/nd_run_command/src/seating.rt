//! The places of a park: each machine with each of its slots, and a stand-in for each.

ghost use Rattle.std.specs.Prelude.{◌≡◌, ◌+◌, ◌≤◌, ◌++◌, length, map, vec_len, IfOk, IfErr, OnOk};
ghost use Rattle.nd_run_desk.specs.Abandoned.{places_on, places_of};
ghost use Rattle.nd_workers.specs.Runs.{AreManned};
ghost use Rattle.nd_run_command.specs.Seats.{AreTooMany, stand_in_on};

use nd_cli::CliFault;
use nd_ledger::Dispatch;
use nd_receipts::ParkPlace;
use nd_script::Rule;
use nd_transports::{RuleBook, StandIn};
use nd_workers::Seat;
use std::alloc::{AllocError, Global};

/// The most slots that a run serves.
const MOST: usize = 1024;

/// A stand-in for each place of the park, in the order of [`places`]. Each has these rules, all of
/// them, and has made no call yet; none has a fuse. They share the rules, so that these take memory once.
///
/// `TooManySlots`: there are more than 1,024 places. `Memory`.
pub fn stand_ins(
    alloc: Global,
    dispatch: &Dispatch,
    rules: Vec<Rule>,
) -> Result<Vec<Seat<StandIn>>, CliFault>
    ensures placed { IfOk result (λ seats. map (λ w. w.place) seats.items ≡ places_of dispatch.now.inputs) }
    ensures ruled { IfOk result (λ seats. map (λ w. w.transport) seats.items ≡ map (stand_in_on rules.items) (places_of dispatch.now.inputs)) }
    ensures manned { IfOk result (λ seats. AreManned dispatch.now.inputs (map (λ w. w.place) seats.items)) }
    ensures refused { IfErr result (AreTooMany (places_of dispatch.now.inputs)) }
{
    let places = places(alloc, dispatch)?;
    match seats(alloc, places, rules) {
        Ok(seats) => Ok(seats),
        Err(_) => Err(CliFault::Memory),
    }
}

/// A stand-in with these rules on each of these places.
fn seats(
    alloc: Global,
    places: Vec<ParkPlace>,
    rules: Vec<Rule>,
) -> Result<Vec<Seat<StandIn>>, AllocError>
    ensures placed { IfOk result (λ seats. map (λ w. w.place) seats.items ≡ places.items) }
    ensures ruled { IfOk result (λ seats. map (λ w. w.transport) seats.items ≡ map (stand_in_on rules.items) places.items) }
{
    let book = RuleBook::new(rules)?;
    seats_by(alloc, places, &book)
}

/// A stand-in on each of these places, which has the rules of this book.
fn seats_by(
    alloc: Global,
    places: Vec<ParkPlace>,
    book: &RuleBook,
) -> Result<Vec<Seat<StandIn>>, AllocError>
    ensures placed { IfOk result (λ seats. map (λ w. w.place) seats.items ≡ places.items) }
    ensures ruled { IfOk result (λ seats. map (λ w. w.transport) seats.items ≡ map (stand_in_on book.now) places.items) }
{
    let mut seats = Vec::new(alloc);
    for place in places {
        let seat = Seat {
            place,
            transport: StandIn::new(alloc, place.machine, book.try_clone()?),
        };
        seats.push(seat)?;
    }
    Ok(seats)
}

/// The places of the park, in the order of the machines and their slots.
/// A run by a worker on each has a worker for each slot.
///
/// `TooManySlots`: there are more than 1,024. `Memory`.
#[tactic(auto, using(crate::proofs::Seated::none_yet, crate::proofs::Seated::one_machine, crate::proofs::Seated::too_many, crate::proofs::Seated::all_places))]
pub fn places(alloc: Global, dispatch: &Dispatch) -> Result<Vec<ParkPlace>, CliFault>
    ensures found { IfOk result (λ places. places.items ≡ places_of dispatch.now.inputs) }
    ensures manned { IfOk result (λ places. AreManned dispatch.now.inputs places.items) }
    ensures few { IfOk result (λ places. length places.items ≤ 1024) }
    ensures refused { IfErr result (AreTooMany (places_of dispatch.now.inputs)) }
{
    let mut places = Vec::new(alloc);
    for machine in 0..dispatch.machine_count() {
        add_machine(dispatch, machine, &mut places)?;
    }
    Ok(places)
}

/// Puts the places of a machine behind these.
#[tactic(auto, using(crate::proofs::Seated::none_added, crate::proofs::Seated::one_place, crate::proofs::Seated::too_many_there))]
fn add_machine(
    dispatch: &Dispatch,
    machine: u32,
    places: &mut Vec<ParkPlace>,
) -> Result<(), CliFault>
    requires { length places.old.items ≤ 1024 }
    ensures added { OnOk result (places.new.items ≡ places.old.items ++ places_on dispatch.now.inputs machine) }
    ensures few { OnOk result (length places.new.items ≤ 1024) }
    ensures refused { IfErr result (AreTooMany (places.old.items ++ places_on dispatch.now.inputs machine)) }
{
    for slot in 0..dispatch.jobs_on(machine) {
        if places.len() >= MOST {
            return Err(CliFault::TooManySlots);
        }
        match places.push(ParkPlace { machine, slot }) {
            Ok(()) => {}
            Err(_) => return Err(CliFault::Memory),
        }
    }
    Ok(())
}
