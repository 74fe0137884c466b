//! Lines that ask for nothing, and sessions that end within a line.

use crate::tests::holding::{End, Held, hold};
use crate::tests::outputs::Grants;
use crate::tests::texts::{first_answers, first_lines, newline_count, ready_count};
use nd_test_fixtures::examples::TWO_SLOTS;
use std::alloc::Global;
use std::thread::Threads;

/// Whether this line is answered as one that asks for nothing, and the one behind it as ever.
fn is_passed_over<R: Threads + Sync>(rt: &R, alloc: Global, line: &[u8]) -> bool {
    let Ok(mut lines) = Vec::from_slice(alloc, line) else {
        return false;
    };
    if lines.extend_from_slice(b"\nstart 0\n").is_err() {
        return false;
    }
    let wanted = b"chosen 0 1 0\nready\nrefused BadLine\nready\nstarted 0\nready\n".as_slice();
    match hold(rt, alloc, TWO_SLOTS, b"", Grants::ALL, lines.as_slice()) {
        Some(held) => held.end == End::Status(0) && held.text.as_slice() == wanted,
        None => false,
    }
}

/// Lines that are no commands, also bytes that aren't UTF-8.
#[test]
fn no_commands(rt: HostRuntime) {
    for line in [
        "",
        " ",
        "start",
        "start 5",
        "start  0",
        "start 0 ",
        "jobs",
        "job",
        "job 5",
        "reports",
        "\u{feff}stop",
    ] {
        assert!(rt; is_passed_over(&rt, rt.alloc(), line.as_bytes()));
    }
    assert!(rt; is_passed_over(&rt, rt.alloc(), b"\xff\xfe"));
    assert!(rt; is_passed_over(&rt, rt.alloc(), b"start 0\r"));
    assert!(rt; is_passed_over(&rt, rt.alloc(), b"start 0\0"));
}

/// A line of 64 MiB.
#[test]
fn long_line(rt: HostRuntime) {
    let Ok(line) = vec![in rt.alloc(); b'x'; 67_108_864] else {
        return;
    };
    assert!(rt; is_passed_over(&rt, rt.alloc(), line.as_slice()));
}

/// Whether a session that has the first so many of these bytes ends with this status, has answered to its whole
/// lines what the whole one answers to them, and has done nothing for a part of a line.
fn ends_within<R: Threads + Sync>(
    rt: &R,
    alloc: Global,
    lines: &[u8],
    end: usize,
    whole: &[u8],
    status: u8,
) -> bool {
    let (cut, _) = lines.split_at(end.min(lines.len()));
    let Some(held) = hold(rt, alloc, TWO_SLOTS, b"", Grants::ALL, cut) else {
        return false;
    };
    let turns = newline_count(cut).saturating_add(1);
    held.end == End::Status(status)
        && held.text.as_slice() == first_answers(whole, turns)
        && is_journal_of_lines(rt, alloc, cut, &held)
}

/// Whether the session with the whole lines of these bytes alone leaves the same journal.
fn is_journal_of_lines<R: Threads + Sync>(rt: &R, alloc: Global, cut: &[u8], held: &Held) -> bool {
    let lines = first_lines(cut, newline_count(cut));
    match hold(rt, alloc, TWO_SLOTS, b"", Grants::ALL, lines) {
        Some(other) => other.journal.bytes.as_slice() == held.journal.bytes.as_slice(),
        None => false,
    }
}

/// The session's end at each byte. The last command fails a derivation, and without its newline, or without a
/// digit of its status too, it would be a command as well: it is done only once it is whole.
#[test]
fn end_at_each_byte(rt: HostRuntime) {
    let lines = b"start 0\nbuilt 0\njob 1\nstart 2\nask 3\nfail 2 12\n".as_slice();
    let Some(whole) = hold(&rt, rt.alloc(), TWO_SLOTS, b"", Grants::ALL, lines) else {
        assert!(rt; false);
        return;
    };
    assert!(rt; ready_count(whole.text.as_slice()) == 7);
    for end in 0..=lines.len() {
        let status = u8::from(end >= lines.len());
        assert!(rt; ends_within(&rt, rt.alloc(), lines, end, whole.text.as_slice(), status));
    }
}
