//! Runs whose machines are agents, with the calls and the answers as bytes in memory.

use crate::tests::parks::{at, close_refused, close_run, dispatch, ran};
use crate::tests::runs::{blown, has_lines};
use nd_agents::Agent;
use nd_ledger::Dispatch;
use nd_test_fixtures::bundles::{CHAIN, PLAIN_1};
use nd_test_fixtures::devices::{CountedReader, CountedWriter};
use nd_workers::{Ran, Seat};
use std::alloc::Global;
use std::sync::Wait;
use std::thread::Threads;

/// An agent over memory.
type Spoken = Agent<CountedReader<'static>, CountedWriter>;

/// What an agent answers that builds the three derivations of the chain.
const ANSWERS: &[u8] = b"yes\nyes\nbuilt o\nyes\nyes\nbuilt o\nyes\nyes\nbuilt o\n";

/// What an agent does.
#[derive(Clone, Copy)]
struct Script {
    answers: &'static [u8],
    /// How many reads and writes are granted before each is refused.
    reads: usize,
    writes: usize,
}

/// These answers, with no device that refuses.
fn plainly(answers: &'static [u8]) -> Script {
    Script {
        answers,
        reads: usize::MAX,
        writes: usize::MAX,
    }
}

/// The agent of slot 0 of this machine.
fn agent_at(alloc: Global, machine: u32, script: Script) -> Seat<Spoken> {
    let answers = CountedReader::new(script.answers, 1, script.reads);
    let calls = CountedWriter::new(alloc, 4096, script.writes, false);
    Seat {
        place: at(machine, 0),
        transport: Agent::new(alloc, answers, calls),
    }
}

/// The agents of machines 1, 2 ..; fewer where memory is wanting.
fn agents(alloc: Global, scripts: &[Script]) -> Vec<Seat<Spoken>> {
    let mut seats = Vec::new(alloc);
    let mut machine = 0u32;
    for script in scripts {
        machine = machine.saturating_add(1);
        if seats.push(agent_at(alloc, machine, *script)).is_err() {
            return seats;
        }
    }
    seats
}

/// Whether a run ended without a fault and with these lines. Its history is legal, since a dispatch holds no
/// other.
fn is_end(alloc: Global, end: Ran<Spoken>, lines: &str) -> bool {
    let right = end.fault.is_none() && has_lines(alloc, &end.dispatch, lines);
    close_run(end);
    right
}

/// Whether the run of this dispatch by these agents ends without a fault and with these lines.
fn gives<R: Threads + Wait + Sync>(
    rt: &R,
    alloc: Global,
    opened: Option<Dispatch>,
    scripts: &[Script],
    lines: &str,
) -> bool {
    let Some(opened) = opened else {
        return false;
    };
    match ran(rt, opened, agents(alloc, scripts)) {
        Ok(end) => is_end(alloc, end, lines),
        Err(refused) => {
            close_refused(refused);
            false
        }
    }
}

/// How many whole lines these bytes have, 9 at most.
fn lines_in(bytes: &[u8]) -> u32 {
    let mut lines = 0;
    for byte in bytes {
        if *byte == b'\n' && lines < 9 {
            lines += 1;
        }
    }
    lines
}

/// Whether the chain's run by this agent ends as that of a transport which lets so many calls pass.
fn goes<R: Threads + Wait + Sync>(rt: &R, alloc: Global, script: Script, passes: u32) -> bool {
    let chain = dispatch(alloc, CHAIN, "m");
    gives(rt, alloc, chain, &[script], blown(passes))
}

/// The answers end behind each byte of them, which is in each phase of each lease; or the reader refuses there.
#[test]
fn gone_at_each_byte(rt: HostRuntime) {
    let alloc = rt.alloc();
    let mut all = true;
    for end in 0..ANSWERS.len() {
        let (part, _) = ANSWERS.split_at(end);
        let refused = Script {
            answers: ANSWERS,
            reads: end,
            writes: usize::MAX,
        };
        if !goes(&rt, alloc, plainly(part), lines_in(part))
            || !goes(&rt, alloc, refused, lines_in(part))
        {
            all = false;
        }
    }
    assert!(rt; all);
}

/// Each write is refused in turn, and none.
#[test]
fn refused_writes(rt: HostRuntime) {
    let alloc = rt.alloc();
    let mut all = true;
    for passes in 0..10u32 {
        let script = Script {
            answers: ANSWERS,
            reads: usize::MAX,
            writes: passes as usize,
        };
        if !goes(&rt, alloc, script, passes) {
            all = false;
        }
    }
    assert!(rt; all);
}

/// What the first machine's agent doesn't take, the second's builds.
#[test]
fn next_machine(rt: HostRuntime) {
    let alloc = rt.alloc();
    let lines = "chosen 0 1 0\ndown 0\nchosen 0 2 0\nstarted 0\nbuilt 0 o\n";
    let second = plainly(ANSWERS);
    let plain = dispatch(alloc, PLAIN_1, "m;n");
    assert!(rt; gives(&rt, alloc, plain, &[plainly(b""), second], lines));
    let plain = dispatch(alloc, PLAIN_1, "m;n");
    assert!(rt; gives(&rt, alloc, plain, &[plainly(b"no\n"), second], lines));
    let plain = dispatch(alloc, PLAIN_1, "m;n");
    assert!(rt; gives(&rt, alloc, plain, &[plainly(b"yes\nno\n"), second], lines));
}

/// What a dishonest agent says of a build.
#[test]
fn dishonest_agents(rt: HostRuntime) {
    let alloc = rt.alloc();
    let lost = "chosen 0 1 0\nstarted 0\nfailed 0 lost\n";
    let plain = dispatch(alloc, PLAIN_1, "m");
    assert!(rt; gives(&rt, alloc, plain, &[plainly(b"yes\nyes\nbuilt\n")], lost));
    let plain = dispatch(alloc, PLAIN_1, "m");
    assert!(rt;
        gives(
            &rt,
            alloc,
            plain,
            &[plainly(b"yes\nyes\nbuilt o o\n")],
            lost
        )
    );
    let strange = "chosen 0 1 0\nstarted 0\nfailed 0 references\n";
    let answers = b"yes\nyes\nbuilt o /nix/store/rrrrrrrrrrrrrrrrrrrrrrrrrrrrrrrr-s3\n";
    let plain = dispatch(alloc, PLAIN_1, "m");
    assert!(rt; gives(&rt, alloc, plain, &[plainly(answers)], strange));
}
