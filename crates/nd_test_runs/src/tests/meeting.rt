//! Transports that wait for one another in each copy and in each build.

ghost use Rattle.std.specs.Prelude.{◌≡◌};
ghost use Rattle.nd_transports.specs.Calls.{Builds};

use crate::tests::parks::{at, dispatch, ran, stand_in};
use nd_closure::Refs;
use nd_keeping::Kept;
use nd_ledger::Job;
use nd_receipts::ParkPlace;
use nd_test_fixtures::bundles::PLAIN_3;
use nd_test_fixtures::parks::close;
use nd_transports::{Ended, Phase, StandIn, Transport};
use nd_workers::{Ran, Seat};
use std::alloc::{AllocError, Global};
use std::sync::atomic::{AtomicU64, Ordering};
use std::sync::{Arc, Wait};
use std::thread::Threads;

/// How many transports came to their copy, and how many to their build.
#[derive(Drop)]
struct Meeting {
    copies: AtomicU64,
    builds: AtomicU64,
}

/// A stand-in that copies and builds only where two others come to do so too.
#[derive(Drop)]
struct Meets {
    stand: StandIn,
    meeting: Arc<Meeting, Global>,
}

/// Some turns, which take about a millisecond.
fn pause(count: &AtomicU64) {
    for _ in 0..50_000u32 {
        count.load(Ordering::SeqCst);
    }
}

/// Whether three come, this one among them. It looks 10,000 times at most.
fn come(count: &AtomicU64) -> bool {
    count.fetch_add(1, Ordering::SeqCst);
    for _ in 0..10_000u32 {
        if count.load(Ordering::SeqCst) >= 3 {
            return true;
        }
        pause(count);
    }
    false
}

/// As the trait says it of any transport.
fn build_by<T: Transport>(transport: &mut T, by: &Kept) -> Ended
    requires { (T.state transport.old).phase ≡ Phase.Copied }
    ensures { Builds (T.state transport.old) by.now result (T.state transport.new) }
{
    transport.build(by)
}

impl Transport for Meets {
    ghost state = { λ m. m.stand.state };

    fn prepare(&mut self, job: &Job) -> Result<(), AllocError> {
        self.stand.prepare(job)
    }

    fn connect(&mut self, by: &Kept) -> bool {
        self.stand.connect(by)
    }

    fn copy(&mut self, by: &Kept) -> bool {
        if !come(&self.meeting.copies) {
            self.stand.fuse(0);
        }
        self.stand.copy(by)
    }

    fn build(&mut self, by: &Kept) -> Ended {
        if !come(&self.meeting.builds) {
            self.stand.fuse(0);
        }
        build_by(&mut self.stand, by)
    }

    fn reported(&self) -> Result<Refs, AllocError> {
        self.stand.reported()
    }

    fn phase(&self) -> Phase {
        self.stand.phase()
    }
}

/// Puts a worker whose transport meets the others on this place.
fn push_seat(
    seats: &mut Vec<Seat<Meets>>,
    place: ParkPlace,
    stand: StandIn,
    meeting: Arc<Meeting, Global>,
) -> bool {
    seats
        .push(Seat {
            place,
            transport: Meets { stand, meeting },
        })
        .is_ok()
}

/// Puts three workers that meet on their places.
fn push_seats(
    alloc: Global,
    seats: &mut Vec<Seat<Meets>>,
    meeting: &Arc<Meeting, Global>,
) -> Option<()> {
    for place in [at(1, 0), at(1, 1), at(2, 0)] {
        let known = Arc::try_clone(meeting).ok()?;
        let stand = stand_in(alloc, place.machine, Vec::new(alloc)).ok()?;
        push_seat(seats, place, stand, known);
    }
    Some(())
}

/// Three workers that meet; fewer where memory is wanting.
fn seats(alloc: Global) -> Vec<Seat<Meets>> {
    let mut seats = Vec::new(alloc);
    let meeting = Meeting {
        copies: AtomicU64::new(0),
        builds: AtomicU64::new(0),
    };
    if let Ok(meeting) = Arc::new(alloc, meeting) {
        push_seats(alloc, &mut seats, &meeting);
    }
    seats
}

/// How many derivations were built, where the run ended without a fault.
fn built_in(end: Ran<Meets>) -> Option<usize> {
    let Ran {
        dispatch,
        workers: _,
        receipts: _,
        evidence: _,
        fault,
    } = end;
    let built = dispatch.counts().built;
    close(dispatch);
    match fault {
        None => Some(built),
        Some(_) => None,
    }
}

/// How many derivations three workers that meet build, where the run ends without a fault.
fn built<R: Threads + Wait + Sync>(rt: &R, alloc: Global) -> Option<usize> {
    let opened = dispatch(alloc, PLAIN_3, "m - - 2;n")?;
    match ran(rt, opened, seats(alloc)) {
        Ok(end) => built_in(end),
        Err(refused) => {
            close(refused.dispatch);
            None
        }
    }
}

#[test]
fn three_slots_meet(rt: HostRuntime) {
    assert_eq!(rt; built(&rt, rt.alloc()), Some(3));
}
