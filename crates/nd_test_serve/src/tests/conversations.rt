//! Conversations of the worked examples.

use crate::tests::holding::{End, hold, simulate};
use crate::tests::outputs::Grants;
use crate::tests::texts::{
    before_report, first_answers, first_lines, newline_count, ready_count, without_ready,
};
use nd_test_fixtures::bundles::{CHAIN, FLIGHT, STRUCTURED};
use nd_test_fixtures::examples::{self, Example, TWO_SLOTS};
use nd_test_fixtures::places::{Place, park};
use nd_test_fixtures::printing::Parts;
use std::alloc::{AllocError, Global};
use std::thread::Threads;

/// Whether the session with these lines answers so and ends with this status. Want of memory is a no.
fn answers<R: Threads + Sync>(
    rt: &R,
    alloc: Global,
    place: Place<'_>,
    lines: &str,
    text: &str,
    status: u8,
) -> bool {
    match hold(rt, alloc, place, b"", Grants::ALL, lines.as_bytes()) {
        Some(held) => held.end == End::Status(status) && held.text.as_slice() == text.as_bytes(),
        None => false,
    }
}

/// Inputs first, on two slots; commands that come too early or twice are refused, questions change nothing,
/// and so do lines that ask for nothing.
#[test]
fn diamond(rt: HostRuntime) {
    assert!(rt;
        answers(
            &rt,
            rt.alloc(),
            TWO_SLOTS,
            "job 0\nbuilt 0\njob 3\nstart 0\nsomething else\nbuilt 0\nstart 1\n\nreport\nstop\njob 9\n",
            "\
        chosen 0 1 0\n\
        ready\n\
        job 0 1 0 /nix/store/00000000000000000000000000000000-n0.drv\n\
        ready\n\
        refused NotStarted\n\
        ready\n\
        refused NotLive\n\
        ready\n\
        started 0\n\
        ready\n\
        refused BadLine\n\
        ready\n\
        built 0 o\n\
        chosen 1 1 0\n\
        chosen 2 1 1\n\
        ready\n\
        started 1\n\
        ready\n\
        refused BadLine\n\
        ready\n\
        total 5\n\
        waiting 2\n\
        leased 2\n\
        built 1\n\
        failed 0\n\
        cancelled 0\n\
        machine 0 up 0/0 local\n\
        machine 1 up 2/2 ssh://m\n\
        drv 0 built /nix/store/00000000000000000000000000000000-n0.drv\n\
        drv 1 leased /nix/store/11111111111111111111111111111111-n1.drv\n\
        drv 2 leased /nix/store/22222222222222222222222222222222-n2.drv\n\
        drv 3 waiting /nix/store/33333333333333333333333333333333-n3.drv\n\
        drv 4 waiting /nix/store/44444444444444444444444444444444-n4.drv\n\
        ready\n\
        stop\n\
        ready\n\
        refused BadLine\n\
        ready\n",
            1
        )
    );
}

/// What is missing on the machine is told with the job of a lease.
#[test]
fn jobs_of_leases(rt: HostRuntime) {
    let place = park(FLIGHT, "m - - 2", 0);
    assert!(rt;
        answers(
            &rt,
            rt.alloc(),
            place,
            "job 1\n",
            "\
        chosen 0 1 0\n\
        chosen 1 1 1\n\
        ready\n\
        job 1 1 1 /nix/store/11111111111111111111111111111111-n1.drv /nix/store/pppppppppppppppppppppppppppppppp-s1 /nix/store/rrrrrrrrrrrrrrrrrrrrrrrrrrrrrrrr-s3\n\
        ready\n",
            0
        )
    );
}

/// A script in parts as whole lines: the last one may have no newline there.
fn whole_lines(alloc: Global, script: &[&str]) -> Result<String, AllocError> {
    let parts = Parts(script);
    let mut lines = format!(in alloc; "{parts}")?;
    if !lines.as_str().is_empty() && !lines.as_str().ends_with('\n') {
        lines.push('\n')?;
    }
    Ok(lines)
}

/// Whether a session with the lines of an example, and with one more that asks for the report, answers what
/// `sim` writes and ends with its status.
fn simulates<R: Threads + Sync>(rt: &R, alloc: Global, example: &Example<'_>) -> bool {
    let place = example.place;
    let Ok(script) = whole_lines(alloc, example.script) else {
        return false;
    };
    let Ok(lines) = format!(in alloc; "{script}report\n") else {
        return false;
    };
    let Some(simulated) = simulate(rt, alloc, place, script.as_bytes()) else {
        return false;
    };
    let Some(held) = hold(rt, alloc, place, b"", Grants::ALL, lines.as_bytes()) else {
        return false;
    };
    let Ok(rest) = without_ready(alloc, held.text.as_slice()) else {
        return false;
    };
    rest.as_slice() == simulated.text.as_slice()
        && held.end == End::Status(simulated.status)
        && are_ready(rt, alloc, place, lines.as_bytes(), held.text.as_slice())
}

/// Whether of these answers to these lines, the last of which asks for the report, each ends with its line
/// `ready`, and there is no other one.
fn are_ready<R: Threads + Sync>(
    rt: &R,
    alloc: Global,
    place: Place<'_>,
    lines: &[u8],
    text: &[u8],
) -> bool {
    let commands = newline_count(lines);
    for count in 0..commands {
        let answers = first_answers(text, count.saturating_add(1));
        if !is_answer_to(rt, alloc, place, first_lines(lines, count), answers) {
            return false;
        }
    }
    text.ends_with(b"\nready\n") && ready_count(text) == commands.saturating_add(1)
}

/// Whether these answers end with a line `ready`, and are, without such lines, what `sim` writes of this script
/// before its report.
fn is_answer_to<R: Threads + Sync>(
    rt: &R,
    alloc: Global,
    place: Place<'_>,
    script: &[u8],
    answers: &[u8],
) -> bool {
    let Some(simulated) = simulate(rt, alloc, place, script) else {
        return false;
    };
    match without_ready(alloc, answers) {
        Ok(rest) => {
            answers.ends_with(b"ready\n")
                && rest.as_slice() == before_report(simulated.text.as_slice())
        }
        Err(_) => false,
    }
}

/// The worked examples of choices, down machines and drains.
#[test]
fn examples_of_choices(rt: HostRuntime) {
    let failing = Example {
        place: park(STRUCTURED, "m", 1),
        script: &["ask 0\nfail 0 3\n"],
    };
    for example in [
        examples::WAITING,
        examples::DECLINING,
        examples::PREFERRING,
        examples::NO_BUILDER,
        examples::DOWN,
        examples::STOPPING,
        examples::DRAINING,
        examples::DRAINING_LOCAL,
        examples::EMPTY,
        examples::TURNED,
        examples::STRUCTURED_ATTRIBUTES,
        failing,
    ] {
        assert!(rt; simulates(&rt, rt.alloc(), &example));
    }
}

/// The worked examples of graphs: what comes too early or twice, and what a failure leaves.
#[test]
fn examples_of_graphs(rt: HostRuntime) {
    let chain = Example {
        place: park(CHAIN, "m", 1),
        script: &["start 0\nbuilt 0\nstart 1\nbuilt 1\nstart 2\nbuilt 2\n"],
    };
    for example in [
        examples::BUILDING,
        examples::KEEPING_GOING,
        examples::FAILING,
        chain,
    ] {
        assert!(rt; simulates(&rt, rt.alloc(), &example));
    }
}

/// The worked examples of copies and references. `startwith` is a command of a session too.
#[test]
fn examples_of_copies(rt: HostRuntime) {
    for example in [
        examples::ENDING_BADLY,
        examples::SHARING,
        examples::REFERRING,
    ] {
        assert!(rt; simulates(&rt, rt.alloc(), &example));
    }
}
