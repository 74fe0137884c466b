//! The conversation of a driver, as the two in examples/serve hold it.

use crate::tests::driver::Driver;
use crate::tests::holding::{Begun, End, Held, begin, end_of, held_to, hold};
use crate::tests::outputs::Grants;
use nd_test_fixtures::bundles::DIAMOND;
use nd_test_fixtures::journals::MemoryJournal;
use nd_test_fixtures::places::{Place, park};
use std::alloc::Global;
use std::thread::Threads;

/// What became of a session with a driver.
#[derive(Drop)]
struct Driven {
    /// The session.
    held: Held,
    /// Whether a line was read before the answer to the line before it was out.
    early: bool,
    /// How many derivations have run at once.
    most: usize,
}

/// A session whose driver ends after so many commands, over a journal that begins with these bytes. Where it
/// begins with some, the driver takes up the leases from before.
fn drive<R: Threads + Sync>(
    rt: &R,
    alloc: Global,
    place: Place<'_>,
    journal: &[u8],
    commands: usize,
) -> Option<Driven> {
    let resumes = !journal.is_empty();
    let Begun { opened, bytes } = match begin(rt, alloc, place, journal) {
        Some(begun) => begun,
        None => return None,
    };
    let journal = MemoryJournal::holding(bytes, usize::MAX);
    let mut driver = Driver::new(alloc, journal, resumes, commands);
    let end = end_of(alloc, opened, &mut driver);
    Some(driven_to(end, driver))
}

/// What became of a session that ended so, by its driver.
fn driven_to(end: End, driver: Driver) -> Driven {
    let most = driver.most();
    let early = driver.early;
    Driven {
        held: held_to(end, driver.devices),
        early,
        most,
    }
}

/// Two machines with a slot each: what is built on one has to be copied to the other.
fn two_machines() -> Place<'static> {
    park(DIAMOND, "m;n", 0)
}

/// How all stands in the end.
const REPORT: &str = "\
    total 5\n\
    waiting 0\n\
    leased 0\n\
    built 5\n\
    failed 0\n\
    cancelled 0\n\
    machine 0 up 0/0 local\n\
    machine 1 up 0/1 ssh://m\n\
    machine 2 up 0/1 ssh://n\n\
    drv 0 built /nix/store/00000000000000000000000000000000-n0.drv\n\
    drv 1 built /nix/store/11111111111111111111111111111111-n1.drv\n\
    drv 2 built /nix/store/22222222222222222222222222222222-n2.drv\n\
    drv 3 built /nix/store/33333333333333333333333333333333-n3.drv\n\
    drv 4 built /nix/store/44444444444444444444444444444444-n4.drv\n\
    ready\n";

/// What is answered before that.
const ANSWERS: &str = "\
    chosen 0 1 0\n\
    ready\n\
    job 0 1 0 /nix/store/00000000000000000000000000000000-n0.drv\n\
    ready\n\
    started 0\n\
    ready\n\
    built 0 o\n\
    chosen 1 1 0\n\
    chosen 2 2 0\n\
    ready\n\
    job 1 1 0 /nix/store/11111111111111111111111111111111-n1.drv\n\
    ready\n\
    started 1\n\
    ready\n\
    job 2 2 0 /nix/store/22222222222222222222222222222222-n2.drv /nix/store/aaaaaaaaaaaaaaaaaaaaaaaaaaaaaaaa-n0\n\
    ready\n\
    started 2 /nix/store/aaaaaaaaaaaaaaaaaaaaaaaaaaaaaaaa-n0\n\
    ready\n\
    built 1 o\n\
    ready\n\
    built 2 o\n\
    chosen 3 1 0\n\
    chosen 4 2 0\n\
    ready\n\
    job 3 1 0 /nix/store/33333333333333333333333333333333-n3.drv /nix/store/cccccccccccccccccccccccccccccccc-n2\n\
    ready\n\
    started 3 /nix/store/cccccccccccccccccccccccccccccccc-n2\n\
    ready\n\
    job 4 2 0 /nix/store/44444444444444444444444444444444-n4.drv\n\
    ready\n\
    started 4\n\
    ready\n\
    built 3 o\n\
    ready\n\
    built 4 o\n\
    ready\n";

/// What the journal holds in the end.
const JOURNAL: &str = "\
    nix-dispatch-history 2\n\
    chosen 0 1 0\n\
    started 0\n\
    built 0 o\n\
    chosen 1 1 0\n\
    chosen 2 2 0\n\
    started 1\n\
    started 2 /nix/store/aaaaaaaaaaaaaaaaaaaaaaaaaaaaaaaa-n0\n\
    built 1 o\n\
    built 2 o\n\
    chosen 3 1 0\n\
    chosen 4 2 0\n\
    started 3 /nix/store/cccccccccccccccccccccccccccccccc-n2\n\
    started 4\n\
    built 3 o\n\
    built 4 o\n";

/// Whether a session ended with status 0, and everything was built when it was asked at last.
fn is_built(held: &Held) -> bool {
    held.end == End::Status(0) && held.text.ends_with(REPORT.as_bytes())
}

/// Whether a session that goes on from these bytes of a journal has nothing left to do, and keeps them as they are.
fn has_nothing_left<R: Threads + Sync>(
    rt: &R,
    alloc: Global,
    place: Place<'_>,
    journal: &[u8],
) -> bool {
    match hold(rt, alloc, place, journal, Grants::ALL, b"report\n") {
        Some(held) => {
            let opening = held.text.len().saturating_sub(REPORT.len());
            is_built(&held)
                && held.text.starts_with(b"ready\n")
                && opening == 6
                && held.journal.bytes.as_slice() == journal
        }
        None => false,
    }
}

/// The drivers' conversation: the job of each lease and its start, several before the first end, and the ends.
/// Each answer is out before the next line is read.
#[test]
fn whole_conversation(rt: HostRuntime) {
    let Some(driven) = drive(&rt, rt.alloc(), two_machines(), b"", usize::MAX) else {
        assert!(rt; false);
        return;
    };
    assert!(rt; !driven.early && driven.most == 2 && is_built(&driven.held));
    assert!(rt; driven.held.text.starts_with(ANSWERS.as_bytes()));
    assert!(rt; driven.held.text.len() == ANSWERS.len().saturating_add(REPORT.len()));
    assert!(rt; driven.held.journal.bytes.as_slice() == JOURNAL.as_bytes());
    assert!(rt; has_nothing_left(&rt, rt.alloc(), two_machines(), JOURNAL.as_bytes()));
}

/// Whether a driver that ends after so many commands leaves a journal from which another one goes on to the end.
fn is_driven_on<R: Threads + Sync>(
    rt: &R,
    alloc: Global,
    place: Place<'_>,
    commands: usize,
) -> bool {
    let Some(first) = drive(rt, alloc, place, b"", commands) else {
        return false;
    };
    if first.early || first.held.end != End::Status(0) {
        return false;
    }
    let Some(second) = drive(
        rt,
        alloc,
        place,
        first.held.journal.bytes.as_slice(),
        usize::MAX,
    ) else {
        return false;
    };
    !second.early
        && is_built(&second.held)
        && has_nothing_left(rt, alloc, place, second.held.journal.bytes.as_slice())
}

/// A driver that ends anywhere, and one that goes on from its journal.
#[test]
fn driver_after_driver(rt: HostRuntime) {
    for commands in 0..17 {
        assert!(rt; is_driven_on(&rt, rt.alloc(), two_machines(), commands));
    }
}
