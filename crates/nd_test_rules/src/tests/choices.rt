//! The worked examples of the choice. Want of memory is a no.

use crate::tests::values::{machines_of, plain_need};
use nd_choose::{beats, choose, choose_in};
use nd_machines::Machine;
use std::alloc::Global;

/// Whether this is chosen of two machines for a plain need.
fn is_chosen(
    alloc: Global,
    machines: &[Machine],
    loads: &[u32; 2],
    up: &[bool; 2],
    want: Option<usize>,
) -> bool {
    if machines.len() != 2 {
        return false;
    }
    match plain_need(alloc) {
        Ok(need) => {
            let is_so = choose(machines, loads, up, &need) == want;
            drop(need);
            is_so
        }
        Err(_) => false,
    }
}

/// Whether both choices are this place of two machines that are up.
fn is_best(alloc: Global, machines: &[Machine], loads: &[u32; 2], place: usize) -> bool {
    machines.len() == 2
        && is_chosen(alloc, machines, loads, &[true, true], Some(place))
        && choose_in(machines, &[0, 1], loads, &[true, true]) == Some(place)
}

/// The same of a list of two machines.
fn is_best_of(alloc: Global, list: &[u8], loads: &[u32; 2], place: usize) -> bool {
    match machines_of(alloc, list) {
        Ok(machines) => {
            let is_so = is_best(alloc, &machines, loads, place);
            drop(machines);
            is_so
        }
        Err(_) => false,
    }
}

#[test]
fn exact_tie(rt: HostRuntime) {
    let alloc = rt.alloc();
    assert!(rt; is_best_of(alloc, b"a - - 4 0.1;b - - 4 0.3", &[1, 3], 1));
    assert!(rt; is_best_of(alloc, b"a - - 4 1;b - - 4 3", &[0, 1], 0));
    assert!(rt; beats(3, 300_000, 1, 100_000) && !beats(1, 100_000, 3, 300_000));
    assert!(rt; beats(u32::MAX, u64::MAX, u32::MAX, u64::MAX - 1));
}

/// Whether the second place, and no place, are chosen where they alone may be.
fn is_only_choice(machines: &[Machine]) -> bool {
    machines.len() == 2
        && choose_in(machines, &[1], &[1, 1], &[true, true]) == Some(1)
        && choose_in(machines, &[], &[1, 1], &[true, true]).is_none()
}

/// Whether of the two machines of a list the first is the best, then the second, and neither when both
/// are full.
fn are_equals(alloc: Global, list: &[u8]) -> bool {
    match machines_of(alloc, list) {
        Ok(machines) => {
            let is_so = is_best(alloc, &machines, &[1, 1], 0)
                && is_chosen(alloc, &machines, &[1, 1], &[false, true], Some(1))
                && is_chosen(alloc, &machines, &[2, 2], &[true, true], None)
                && is_only_choice(&machines);
            drop(machines);
            is_so
        }
        Err(_) => false,
    }
}

/// Whether nothing is chosen of no machines.
fn is_none_chosen(alloc: Global) -> bool {
    match plain_need(alloc) {
        Ok(need) => {
            let is_so = choose(&[], &[], &[], &need).is_none();
            drop(need);
            is_so
        }
        Err(_) => false,
    }
}

#[test]
fn earliest_of_equals(rt: HostRuntime) {
    assert!(rt; are_equals(rt.alloc(), b"a - - 2;b - - 2"));
    assert!(rt; is_none_chosen(rt.alloc()));
}
