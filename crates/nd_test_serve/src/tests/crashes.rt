//! Crashes of a session, and sessions that go on from what they left.

use crate::tests::holding::{End, Held, hold, opening};
use crate::tests::outputs::Grants;
use crate::tests::texts::{
    first_answers, later_lines, newline_count, plain_bundle, ready_count, starts_and_ends,
};
use nd_history::Rule;
use nd_serve_command::ResumeError;
use nd_test_fixtures::bundles::PLAIN_2;
use nd_test_fixtures::places::{Place, park};
use std::alloc::Global;
use std::thread::Threads;

/// A session over derivations without inputs, each of which is started and built.
#[derive(Drop)]
struct Session {
    /// The bundle.
    bundle: String,
    /// The lines of the session.
    lines: Vec<u8>,
    /// What becomes of it where nothing stops it.
    whole: Held,
}

impl Session {
    /// What is answered where nothing stops it.
    fn text(&self) -> &[u8] {
        self.whole.text.as_slice()
    }
}

/// Derivations without inputs, on four slots.
fn plain_place(bundle: &str) -> Place<'_> {
    park(bundle, "m - - 2;n - - 1", 1)
}

/// The session over so many derivations, where it answers each line and its opening and ends with status 0.
fn session_of<R: Threads + Sync>(rt: &R, alloc: Global, drvs: u32) -> Option<Session> {
    let bundle = plain_bundle(alloc, drvs).ok()?;
    let lines = starts_and_ends(alloc, drvs).ok()?;
    let place = plain_place(bundle.as_str());
    let whole = hold(rt, alloc, place, b"", Grants::ALL, lines.as_slice())?;
    let answers = newline_count(lines.as_slice()).saturating_add(1);
    if whole.end != End::Status(0) || ready_count(whole.text.as_slice()) != answers {
        return None;
    }
    Some(Session {
        bundle,
        lines,
        whole,
    })
}

/// How a session is stopped.
#[derive(Clone, Copy)]
struct Stop<'a> {
    /// What its devices grant.
    grants: Grants,
    /// How it ends then.
    end: End,
    /// What is out of its answers then.
    out: &'a [u8],
    /// How many quarters of what wasn't synced its journal keeps.
    quarters: usize,
}

/// Whether a session is stopped so, and what its journal keeps is gone on from to the same journal as one that
/// isn't stopped.
fn goes_on<R: Threads + Sync>(rt: &R, alloc: Global, session: &Session, stop: Stop<'_>) -> bool {
    let place = plain_place(session.bundle.as_str());
    let lines = session.lines.as_slice();
    let Some(stopped) = hold(rt, alloc, place, b"", stop.grants, lines) else {
        return false;
    };
    if stopped.end != stop.end || stopped.text.as_slice() != stop.out {
        return false;
    }
    // The turn that it ended in is asked for once more: what is recorded of it already is refused.
    let answered = ready_count(stopped.text.as_slice()).saturating_sub(1);
    let left = stopped.journal.left(stop.quarters);
    let later = later_lines(lines, answered);
    match hold(rt, alloc, place, left, Grants::ALL, later) {
        Some(resumed) => {
            resumed.end == session.whole.end
                && resumed.journal.bytes.as_slice() == session.whole.journal.bytes.as_slice()
        }
        None => false,
    }
}

/// A crash at each append and each sync of a session of forty commands, which leaves nothing, a part or all of
/// what wasn't synced.
#[test]
fn crash_at_each_call(rt: HostRuntime) {
    let Some(session) = session_of(&rt, rt.alloc(), 20) else {
        assert!(rt; false);
        return;
    };
    // The opening and each command are an append and a sync, and then an answer.
    for calls in 0..82 {
        for quarters in [0, 1, 2, 4] {
            let stop = Stop {
                grants: Grants {
                    calls,
                    ..Grants::ALL
                },
                end: End::JournalFailed,
                out: first_answers(session.text(), calls / 2),
                quarters,
            };
            assert!(rt; goes_on(&rt, rt.alloc(), &session, stop));
        }
    }
}

/// Whether a session whose output grants so much ends by that with this out of its answers, and is gone on from.
fn goes_on_after_output<R: Threads + Sync>(
    rt: &R,
    alloc: Global,
    session: &Session,
    grants: Grants,
    out: &[u8],
) -> bool {
    let stop = Stop {
        grants,
        end: End::OutputFailed,
        out,
        quarters: 0,
    };
    goes_on(rt, alloc, session, stop)
}

/// An output that refuses at each byte of the answers: each byte before it is out, and what was told is kept.
#[test]
fn output_refused_at_each_byte(rt: HostRuntime) {
    let Some(session) = session_of(&rt, rt.alloc(), 6) else {
        assert!(rt; false);
        return;
    };
    let text = session.text();
    for bytes in 0..text.len() {
        let grants = Grants {
            bytes,
            ..Grants::ALL
        };
        let (out, _) = text.split_at(bytes);
        assert!(rt; goes_on_after_output(&rt, rt.alloc(), &session, grants, out));
    }
}

/// An output that refuses to be flushed: the answers before are out, the one that it holds back isn't, and the
/// session ends.
#[test]
fn each_flush_refused(rt: HostRuntime) {
    let Some(session) = session_of(&rt, rt.alloc(), 6) else {
        assert!(rt; false);
        return;
    };
    for flushes in 0..13 {
        let grants = Grants {
            flushes,
            ..Grants::ALL
        };
        let out = first_answers(session.text(), flushes);
        assert!(rt; goes_on_after_output(&rt, rt.alloc(), &session, grants, out));
    }
}

/// A journal's refusals, and those that are none.
#[test]
fn refusals_of_journals(rt: HostRuntime) {
    let place = park(PLAIN_2, "m", 0);
    let wanted = [
        ("", End::Status(0)),
        ("nix-dispatch", End::Status(0)),
        ("nix-dispatch-history 2\n", End::Status(0)),
        ("nix-dispatch-history 2\nchosen 0 1 0\nstar", End::Status(0)),
        (
            "nix-dispatch-history 2\nchosen 0 1 0\nstart\n",
            End::Refused(ResumeError::BadLine(3)),
        ),
        (
            "nix-dispatch-history 1\n",
            End::Refused(ResumeError::BadLine(1)),
        ),
        (
            "\nnix-dispatch-history 2\n",
            End::Refused(ResumeError::BadLine(1)),
        ),
        (
            "line without newline, my notes",
            End::Refused(ResumeError::BadLine(1)),
        ),
        (
            "nix-dispatch-history 2\nchosen 0 1 0\nmy notes",
            End::Refused(ResumeError::BadLine(3)),
        ),
        (
            "nix-dispatch-history 2\nstarted 0\n",
            End::Refused(ResumeError::Illegal {
                index: 0,
                rule: Rule::Live,
            }),
        ),
        (
            "nix-dispatch-history 2\nchosen 0 1 0\nbuilt 0 o\n",
            End::Refused(ResumeError::Illegal {
                index: 1,
                rule: Rule::Started,
            }),
        ),
    ];
    for (journal, end) in wanted {
        assert!(rt; opening(&rt, rt.alloc(), place, journal.as_bytes(), true) == end);
    }
    assert!(rt; opening(&rt, rt.alloc(), place, b"nix", false) == End::NotEmpty);
    assert!(rt; opening(&rt, rt.alloc(), place, b"", false) == End::Status(0));
}

/// Each beginning of a journal is gone on from, and none with a byte behind it that no entry's line has.
#[test]
fn beginnings_of_a_journal(rt: HostRuntime) {
    let place = park(PLAIN_2, "m", 0);
    let whole = b"nix-dispatch-history 2\nchosen 0 1 0\nstarted 0\nbuilt 0 o\n!";
    for end in 0..whole.len() {
        let (front, _) = whole.split_at(end);
        assert!(rt; opening(&rt, rt.alloc(), place, front, true) == End::Status(0));
    }
    let end = opening(&rt, rt.alloc(), place, whole, true);
    assert!(rt; end == End::Refused(ResumeError::BadLine(5)));
}
