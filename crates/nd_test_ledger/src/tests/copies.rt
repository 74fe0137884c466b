//! What a lease's start wants, copies of a dispatch, and a local machine that is drained.

use crate::tests::calls::make;
use nd_leases::Ticket;
use nd_ledger::Dispatch;
use nd_path::PathSet;
use nd_test_fixtures::bundles::{FLIGHT, PLAIN_2, S1, S2, S3};
use nd_test_fixtures::parks::{Park, builders_alone, close, dispatch_of};
use std::alloc::Global;

/// Whether the set holds just these paths, in this order.
fn holds(set: &PathSet, texts: &[&str]) -> bool {
    let paths = set.as_slice();
    if paths.len() != texts.len() {
        return false;
    }
    for (path, text) in paths.iter().zip(texts) {
        if path.bytes() != text.as_bytes() {
            return false;
        }
    }
    true
}

/// Whether just these paths are missing for a lease.
fn is_missing(alloc: Global, dispatch: &Dispatch, ticket: &Ticket, texts: &[&str]) -> bool {
    match dispatch.missing(alloc, ticket) {
        Ok(missing) => holds(&missing, texts),
        Err(_) => false,
    }
}

/// Whether the job of a lease has just these paths and one output.
fn is_job(alloc: Global, dispatch: &Dispatch, ticket: &Ticket, texts: &[&str]) -> bool {
    match dispatch.job(alloc, ticket) {
        Ok(job) => holds(&job.paths, texts) && job.output_paths.len() == 1,
        Err(_) => false,
    }
}

/// Whether the lease of a derivation lacks just these paths, and its job says so.
fn lacks(alloc: Global, dispatch: &Dispatch, drv: u32, texts: &[&str]) -> bool {
    match dispatch.lease(drv) {
        Some(ticket) => {
            is_missing(alloc, dispatch, &ticket, texts) && is_job(alloc, dispatch, &ticket, texts)
        }
        None => false,
    }
}

/// Whether node 0 lacks S1 and S2 and node 1 lacks S1 and S3 after the two choices, and nothing and S3
/// alone once node 0 started.
fn lacks_less(alloc: Global, dispatch: &mut Dispatch) -> bool {
    if dispatch.pump().is_err() {
        return false;
    }
    let first = lacks(alloc, dispatch, 0, &[S1, S2]);
    let second = lacks(alloc, dispatch, 1, &[S1, S3]);
    if make(alloc, dispatch, "startwith 0 s1 s2").is_err() {
        return false;
    }
    first && second && lacks(alloc, dispatch, 0, &[]) && lacks(alloc, dispatch, 1, &[S3])
}

/// The same on a new dispatch. Want of memory is a no.
fn are_jobs_right(alloc: Global) -> bool {
    match dispatch_of(alloc, &builders_alone(FLIGHT, "m - - 2")) {
        Ok(mut dispatch) => {
            let right = lacks_less(alloc, &mut dispatch);
            close(dispatch);
            right
        }
        Err(_) => false,
    }
}

#[test]
fn jobs_in_flight(rt: HostRuntime) {
    assert!(rt; are_jobs_right(rt.alloc()));
}

/// Whether a copy of the dispatch is taken, and each of the two goes on from the other.
fn is_copied(alloc: Global, dispatch: &Dispatch) -> bool {
    match dispatch.try_clone(alloc) {
        Ok(copy) => {
            let same = copy.extends(dispatch) && dispatch.extends(&copy);
            close(copy);
            same
        }
        Err(_) => false,
    }
}

/// Whether the dispatch goes on from a copy that was taken before a pump of two choices, which doesn't go
/// on from it.
fn goes_on(dispatch: &mut Dispatch, copy: &Dispatch) -> bool {
    if !matches!(dispatch.pump(), Ok(2)) {
        return false;
    }
    dispatch.extends(copy) && !copy.extends(dispatch)
}

/// The two on a dispatch, and the first after the pump again.
fn is_followed(alloc: Global, dispatch: &mut Dispatch) -> bool {
    let first = is_copied(alloc, dispatch);
    match dispatch.try_clone(alloc) {
        Ok(copy) => {
            let followed = first && goes_on(dispatch, &copy) && is_copied(alloc, dispatch);
            close(copy);
            followed
        }
        Err(_) => false,
    }
}

/// The same on a new dispatch. Want of memory is a no.
fn are_copies_right(alloc: Global) -> bool {
    match dispatch_of(alloc, &builders_alone(FLIGHT, "m - - 2")) {
        Ok(mut dispatch) => {
            let right = is_followed(alloc, &mut dispatch);
            close(dispatch);
            right
        }
        Err(_) => false,
    }
}

#[test]
fn copies_of_a_dispatch(rt: HostRuntime) {
    assert!(rt; are_copies_right(rt.alloc()));
}

/// Two plain derivations and a local machine with one job.
const AT_HOME: Park = Park {
    bundle: PLAIN_2,
    builders: "",
    jobs: 1,
};

/// Whether the local machine is down once it is drained, with one slot taken.
fn goes_down(dispatch: &mut Dispatch) -> bool {
    if dispatch.pump().is_err() || dispatch.drain(0).is_err() {
        return false;
    }
    !dispatch.up(0) && dispatch.taken(0) == 1
}

/// The same on a new dispatch. Want of memory is a no.
fn is_drained(alloc: Global) -> bool {
    match dispatch_of(alloc, &AT_HOME) {
        Ok(mut dispatch) => {
            let down = goes_down(&mut dispatch);
            close(dispatch);
            down
        }
        Err(_) => false,
    }
}

#[test]
fn drained_local(rt: HostRuntime) {
    assert!(rt; is_drained(rt.alloc()));
}
