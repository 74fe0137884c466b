//! The dispatches of the examples, and their workers.

use nd_ledger::Dispatch;
use nd_receipts::ParkPlace;
use nd_script::Rule;
use nd_test_fixtures::parks::{builders_alone, close, dispatch_that};
use nd_transports::{RuleBook, StandIn, Transport};
use nd_workers::{NotRun, Ran, Seat, run};
use std::alloc::{AllocError, Global};
use std::sync::Wait;
use std::thread::Threads;

/// A dispatch over this bundle and these builders alone, or none where memory is wanting.
pub(crate) fn dispatch(alloc: Global, bundle: &str, builders: &str) -> Option<Dispatch> {
    dispatch_where(alloc, bundle, builders, false)
}

/// As [`dispatch`], where the rest goes on after a failure if it is to keep going.
pub(crate) fn dispatch_where(
    alloc: Global,
    bundle: &str,
    builders: &str,
    keep_going: bool,
) -> Option<Dispatch> {
    match dispatch_that(alloc, &builders_alone(bundle, builders), keep_going) {
        Ok(dispatch) => Some(dispatch),
        Err(_) => None,
    }
}

/// A stand-in for this machine that follows these rules.
pub(crate) fn stand_in(
    alloc: Global,
    machine: u32,
    rules: Vec<Rule>,
) -> Result<StandIn, AllocError> {
    Ok(StandIn::new(alloc, machine, RuleBook::new(rules)?))
}

/// This slot of this machine.
pub(crate) fn at(machine: u32, slot: u32) -> ParkPlace {
    ParkPlace { machine, slot }
}

/// A worker on this place with a stand-in that follows this rule and, where there is a fuse, lets so many calls pass.
pub(crate) fn stand_at(
    alloc: Global,
    place: ParkPlace,
    rule: Rule,
    passes: Option<u32>,
) -> Option<Seat<StandIn>> {
    let mut rules = Vec::new(alloc);
    rules.push(rule).ok()?;
    let mut transport = stand_in(alloc, place.machine, rules).ok()?;
    if let Some(passes) = passes {
        transport.fuse(passes);
    }
    Some(Seat { place, transport })
}

/// So many workers on the slots of machine 1; fewer where memory is wanting.
pub(crate) fn stands(alloc: Global, count: u32) -> Vec<Seat<StandIn>> {
    let mut seats = Vec::new(alloc);
    for slot in 0..count {
        if let Ok(stand) = stand_in(alloc, 1, Vec::new(alloc)) {
            push_stand(&mut seats, slot, stand);
        }
    }
    seats
}

/// Puts a worker on this slot of machine 1.
fn push_stand(seats: &mut Vec<Seat<StandIn>>, slot: u32, transport: StandIn) -> bool {
    seats
        .push(Seat {
            place: at(1, slot),
            transport,
        })
        .is_ok()
}

/// Runs a dispatch. No test asks for what the run promises, so that this alone is proved beside it.
pub(crate) fn ran<T: Transport, R: Threads + Wait + Sync>(
    rt: &R,
    opened: Dispatch,
    seats: Vec<Seat<T>>,
) -> Result<Ran<T>, NotRun<T>> {
    run(rt, opened, seats)
}

/// Lets go of what came back of a run.
pub(crate) fn close_run<T: Transport>(end: Ran<T>) {
    let Ran {
        dispatch,
        workers: _,
        receipts: _,
        evidence: _,
        fault: _,
    } = end;
    close(dispatch);
}

/// Lets go of what a refused run handed back.
pub(crate) fn close_refused<T: Transport>(refused: NotRun<T>) {
    let NotRun {
        why: _,
        dispatch,
        workers: _,
    } = refused;
    close(dispatch);
}
