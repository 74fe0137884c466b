//! Runs of several workers, whose histories hang on how their threads come along: what is the same in each of them.

use crate::tests::parks::{at, close_refused, close_run, dispatch, ran};
use crate::tests::runs::{FIRST, SECOND, Stand, TWO, workers};
use nd_history::Entry;
use nd_ledger::Dispatch;
use nd_path::PathSet;
use nd_receipts::{ParkPlace, Receipt};
use nd_test_fixtures::bundles::{DIAMOND, PLAIN_2, PLAIN_3};
use nd_test_fixtures::entries::told;
use nd_test_fixtures::parks::close;
use nd_transports::StandIn;
use nd_workers::{Ran, Seat};
use std::alloc::Global;
use std::sync::Wait;
use std::thread::Threads;

/// What is the same in the histories of a run.
#[derive(Clone, Copy)]
struct Same {
    /// The lines that it begins with.
    first: &'static [&'static str],
    /// Lines that come behind these, in whatever order.
    behind: &'static [&'static str],
    /// How many other lines it has at most.
    others: usize,
}

/// Whether this is the line of an entry.
fn is_line(alloc: Global, entry: &Entry, line: &str) -> bool {
    match entry.try_clone() {
        Ok(copy) => match told(alloc, &[copy]) {
            Ok(found) => found.as_slice() == line.as_bytes(),
            Err(_) => false,
        },
        Err(_) => false,
    }
}

impl Same {
    /// Whether a history has this.
    fn is_in(&self, alloc: Global, history: &[Entry]) -> bool {
        let known = self.first.len().saturating_add(self.behind.len());
        let Some((begun, rest)) = history.split_at_checked(self.first.len()) else {
            return false;
        };
        history.len() >= known
            && history.len() - known <= self.others
            && begun
                .iter()
                .zip(self.first)
                .all(|(entry, line)| is_line(alloc, entry, line))
            && self.behind.iter().all(|line| rest.iter().any(|entry| is_line(alloc, entry, line)))
    }
}

/// Whether a run of this dispatch by these workers ends without a fault and with such a history.
fn gives<R: Threads + Wait + Sync>(
    rt: &R,
    alloc: Global,
    opened: Option<Dispatch>,
    seats: Vec<Seat<StandIn>>,
    same: &Same,
) -> bool {
    let Some(opened) = opened else {
        return false;
    };
    match ran(rt, opened, seats) {
        Ok(end) => {
            let right = end.fault.is_none() && same.is_in(alloc, end.dispatch.history());
            close_run(end);
            right
        }
        Err(refused) => {
            close_refused(refused);
            false
        }
    }
}

/// The places of a machine with two slots.
const SLOTS: [ParkPlace; 2] = [
    FIRST,
    ParkPlace {
        machine: 1,
        slot: 1,
    },
];

/// Three derivations on two slots: the third is chosen on the slot that is free first.
const IN_TURN: Same = Same {
    first: &["chosen 0 1 0\n", "chosen 1 1 1\n"],
    behind: &[
        "started 0\n",
        "built 0 o\n",
        "started 1\n",
        "built 1 o\n",
        "started 2\n",
        "built 2 o\n",
    ],
    others: 1,
};

/// The first of three derivations is lost, and the lease beside it goes on. The third is cancelled, or it was chosen
/// before, and is built.
const LOST_BESIDE: Same = Same {
    first: &["chosen 0 1 0\n", "chosen 1 1 1\n"],
    behind: &[
        "started 0\n",
        "failed 0 lost\n",
        "started 1\n",
        "built 1 o\n",
    ],
    others: 3,
};

#[test]
fn two_slots(rt: HostRuntime) {
    let alloc = rt.alloc();
    let plain = dispatch(alloc, PLAIN_3, "m - - 2");
    assert!(rt;
        gives(
            &rt,
            alloc,
            plain,
            workers(alloc, &SLOTS, Stand::Plain),
            &IN_TURN
        )
    );
    let losing = dispatch(alloc, PLAIN_3, "m - - 2");
    assert!(rt;
        gives(
            &rt,
            alloc,
            losing,
            workers(alloc, &SLOTS, Stand::Lose),
            &LOST_BESIDE
        )
    );
}

/// Two derivations on two machines, the first of which isn't reached: its derivation waits for the other one.
const ON_THE_OTHER: Same = Same {
    first: &["chosen 0 1 0\n", "chosen 1 2 0\n"],
    behind: &[
        "down 0\n",
        "started 1\n",
        "built 1 o\n",
        "chosen 0 2 0\n",
        "started 0\n",
        "built 0 o\n",
    ],
    others: 0,
};

/// The diamond on two machines: what an input's machine has isn't copied there, and is to the other one.
const COPIED: Same = Same {
    first: &[
        "chosen 0 1 0\n",
        "started 0\n",
        "built 0 o\n",
        "chosen 1 1 0\n",
        "chosen 2 2 0\n",
    ],
    behind: &[
        "started 1\n",
        "built 1 o\n",
        "started 2 n0\n",
        "built 2 o\n",
        "built 3 o\n",
        "built 4 o\n",
    ],
    others: 4,
};

#[test]
fn two_machines(rt: HostRuntime) {
    let alloc = rt.alloc();
    for places in [[FIRST, SECOND], [SECOND, FIRST]] {
        let unreached = workers(alloc, &places, Stand::NoConnect(1));
        let plain = dispatch(alloc, PLAIN_2, "m;n");
        assert!(rt; gives(&rt, alloc, plain, unreached, &ON_THE_OTHER));
        let diamond = dispatch(alloc, DIAMOND, "m;n");
        assert!(rt;
            gives(
                &rt,
                alloc,
                diamond,
                workers(alloc, &places, Stand::Plain),
                &COPIED
            )
        );
    }
}

/// The derivation of an entry that a worker makes.
fn derivation_of(entry: &Entry) -> Option<u32> {
    match entry {
        Entry::Started { drv, .. } | Entry::Built { drv, .. } => Some(*drv),
        _ => None,
    }
}

/// Whether these are the calls of a worker's receipts, which are about this derivation, and say `again` or not.
fn are_of(
    receipts: Option<&Vec<Receipt>>,
    history: &[Entry],
    drv: u32,
    calls: &[u8],
    again: bool,
) -> bool {
    let Some(receipts) = receipts else {
        return false;
    };
    receipts.len() == calls.len()
        && receipts.iter().zip(calls).all(|(receipt, calls)| {
            receipt.calls == *calls
                && receipt.again == again
                && history.get(receipt.index).and_then(derivation_of) == Some(drv)
        })
}

/// Whether a run of two derivations on two machines, whose workers were handed in the other way round, came to the
/// receipts of each.
fn are_otherwise(end: Option<Ran<StandIn>>) -> bool {
    let Some(end) = end else {
        return false;
    };
    let history = end.dispatch.history();
    let right = end.fault.is_none()
        && are_of(end.receipts.get(0), history, 1, &[2, 1], false)
        && are_of(end.receipts.get(1), history, 0, &[2, 1], false);
    close_run(end);
    right
}

/// Whether a run from two live leases, the second of which was started, came to the receipts of each.
fn are_half_again(end: Option<Ran<StandIn>>) -> bool {
    let Some(end) = end else {
        return false;
    };
    let history = end.dispatch.history();
    let right = end.fault.is_none()
        && history.len() == 6
        && are_of(end.receipts.get(0), history, 0, &[2, 1], false)
        && are_of(end.receipts.get(1), history, 1, &[3], true);
    close_run(end);
    right
}

/// What comes back of a run of this dispatch by plain workers on these places.
fn comes_to<R: Threads + Wait + Sync>(
    rt: &R,
    alloc: Global,
    opened: Option<Dispatch>,
    places: &[ParkPlace],
) -> Option<Ran<StandIn>> {
    let Some(opened) = opened else {
        return None;
    };
    match ran(rt, opened, workers(alloc, places, Stand::Plain)) {
        Ok(end) => Some(end),
        Err(refused) => {
            close_refused(refused);
            None
        }
    }
}

#[test]
fn workers_in_another_order(rt: HostRuntime) {
    let alloc = rt.alloc();
    let plain = dispatch(alloc, PLAIN_2, "m;n");
    assert!(rt; are_otherwise(comes_to(&rt, alloc, plain, &[SECOND, FIRST])));
}

/// Leases two derivations on two machines, and starts the second lease.
fn start_second(alloc: Global, opened: &mut Dispatch) -> bool {
    if opened.pump().is_err() {
        return false;
    }
    match opened.current(2, 0) {
        Some(ticket) => opened.started(alloc, ticket, PathSet::new(alloc)).is_ok(),
        None => false,
    }
}

/// The dispatch of two plain nodes with a live lease on machine 1 and a started one on machine 2.
fn half_started(alloc: Global) -> Option<Dispatch> {
    let mut opened = dispatch(alloc, PLAIN_2, "m;n")?;
    if !start_second(alloc, &mut opened) {
        close(opened);
        return None;
    }
    Some(opened)
}

#[test]
fn live_leases_of_two_workers(rt: HostRuntime) {
    let alloc = rt.alloc();
    assert!(rt; are_half_again(comes_to(&rt, alloc, half_started(alloc), &TWO)));
}

/// Leases two derivations, and stops.
fn stop_pumped(opened: &mut Dispatch) -> bool {
    opened.pump().is_ok() && opened.stop().is_ok()
}

/// The dispatch of three plain nodes, of which two are leased, that is stopped.
fn stopped(alloc: Global) -> Option<Dispatch> {
    let mut opened = dispatch(alloc, PLAIN_3, "m - - 2")?;
    if !stop_pumped(&mut opened) {
        close(opened);
        return None;
    }
    Some(opened)
}

/// What was leased before the stop goes on, and what waited is cancelled.
const STOPPED: Same = Same {
    first: &["chosen 0 1 0\n", "chosen 1 1 1\n", "stop\n"],
    behind: &["started 0\n", "built 0 o\n", "started 1\n", "built 1 o\n"],
    others: 0,
};

#[test]
fn stopped_before(rt: HostRuntime) {
    let alloc = rt.alloc();
    assert!(rt;
        gives(
            &rt,
            alloc,
            stopped(alloc),
            workers(alloc, &SLOTS, Stand::Plain),
            &STOPPED
        )
    );
}
