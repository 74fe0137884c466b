//! The places of parks.

use crate::tests::giving::{Words, given, is_refused};
use nd_cli::CliFault;
use nd_receipts::ParkPlace;
use nd_test_fixtures::bundles::PLAIN_1;
use std::alloc::Global;
use std::thread::Threads;

/// This slot of this machine.
fn at(machine: u32, slot: u32) -> ParkPlace {
    ParkPlace { machine, slot }
}

/// The places of the park with these builders and local jobs.
fn places_with<R: Threads + Sync>(
    rt: &R,
    alloc: Global,
    builders: &str,
    jobs: u16,
) -> Result<Vec<ParkPlace>, CliFault> {
    let words = Words {
        builders,
        jobs,
        info: "",
        stand: "",
    };
    match given(rt, alloc, &words, PLAIN_1) {
        Ok(seen) => seen.places,
        Err(fault) => Err(fault),
    }
}

/// Whether these are the places.
fn are(places: Result<Vec<ParkPlace>, CliFault>, wanted: &[ParkPlace]) -> bool {
    match places {
        Ok(places) => places.as_slice() == wanted,
        Err(_) => false,
    }
}

/// Whether there are so many places.
fn are_so_many(places: Result<Vec<ParkPlace>, CliFault>, wanted: usize) -> bool {
    match places {
        Ok(places) => places.len() == wanted,
        Err(_) => false,
    }
}

/// The machines with their slots stand in order, a machine without a job being left out.
#[test]
fn places_of_a_park(rt: HostRuntime) {
    let places = places_with(&rt, rt.alloc(), "m - - 2;n - - 0;o", 1);
    assert!(rt; are(places, &[at(0, 0), at(1, 0), at(1, 1), at(3, 0)]));
    let none = places_with(&rt, rt.alloc(), "", 0);
    assert!(rt; are(none, &[]));
}

#[test]
fn slots_of_a_run(rt: HostRuntime) {
    let alloc = rt.alloc();
    let most = places_with(&rt, alloc, "m - - 1024", 0);
    assert!(rt; are_so_many(most, 1024));
    let said = "nix-dispatch: builders: TooManySlots";
    let one = places_with(&rt, alloc, "m - - 1025", 0);
    assert!(rt; is_refused(alloc, one, said), "on one machine");
    let two = places_with(&rt, alloc, "m - - 1024", 1);
    assert!(rt; is_refused(alloc, two, said), "on two machines");
}
