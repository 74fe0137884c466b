//! Whether there is one worker for each slot of the park.

ghost use Rattle.std.specs.Prelude.{◌≡◌, ◌+◌, ◌<◌, ◌≤◌, ◌&&◌, ◌==◌, ℕ, length, count_by, map, IfOk, IsTrue, ◌↔◌};
ghost use Rattle.std.specs.List.{list_all};
ghost use Rattle.nd_workers.specs.Runs.{is_at, is_in_park, IsMachineManned, AreManned};
ghost use Rattle.nd_workers.specs.Served.{places_served};

use crate::seat::Seat;
use nd_ledger::Dispatch;
use nd_receipts::ParkPlace;
use std::alloc::{AllocError, Global};

/// How many of these places are this one.
fn count_at(places: &[ParkPlace], place: ParkPlace) -> usize
    ensures { result ≡ count_by (is_at place.0 place.1) places.now }
{
    places.iter().filter(|one| place == **one).count()
}

/// Whether each slot of this machine is one of the places, and only once.
fn is_machine_manned(dispatch: &Dispatch, places: &[ParkPlace], machine: u32) -> bool
    ensures { IsTrue result ↔ IsMachineManned dispatch.now.inputs places.now machine }
{
    for slot in 0..dispatch.jobs_on(machine) {
        if count_at(places, ParkPlace { machine, slot }) != 1 {
            return false;
        }
    }
    true
}

/// Whether each of the places is one of the park.
fn are_in_park(dispatch: &Dispatch, places: &[ParkPlace]) -> bool
    ensures { result ≡ list_all (is_in_park dispatch.now.inputs) places.now }
{
    places.iter().all(|place| is_in_park(dispatch, *place))
}

/// Whether the place is one of the park.
fn is_in_park(dispatch: &Dispatch, place: ParkPlace) -> bool
    ensures { result ≡ is_in_park dispatch.now.inputs place }
{
    place.machine < dispatch.machine_count() && place.slot < dispatch.jobs_on(place.machine)
}

/// Whether there is one worker for each slot of the park, and each worker is on one.
pub(crate) fn are_manned(dispatch: &Dispatch, places: &[ParkPlace]) -> bool
    ensures { IsTrue result ↔ AreManned dispatch.now.inputs places.now }
{
    if !are_in_park(dispatch, places) {
        return false;
    }
    for machine in 0..dispatch.machine_count() {
        if !is_machine_manned(dispatch, places, machine) {
            return false;
        }
    }
    true
}

/// The places of these workers.
pub(crate) fn places_of<T>(alloc: Global, seats: &[Seat<T>]) -> Result<Vec<ParkPlace>, AllocError>
    ensures { IfOk result (λ v. v.items ≡ places_served seats.now) }
{
    seats.iter().map(|seat| seat.place).collect(alloc)
}
