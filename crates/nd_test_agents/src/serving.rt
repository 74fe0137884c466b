//! One lease served by an agent.

use nd_agents::Agent;
use nd_bytes::Items;
use nd_closure::Refs;
use nd_leases::Ticket;
use nd_ledger::Job;
use nd_path::{PathSet, StorePath};
use nd_test_fixtures::bundles::S1;
use nd_test_fixtures::devices::{CountedReader, CountedWriter, EndlessReader};
use nd_test_fixtures::journals::nothing_kept;
use nd_transports::{Fetch, Outcome, Transport, serve_build, serve_copy};
use std::alloc::Global;
use std::test::Fail;

const DRV: &str = "/nix/store/00000000000000000000000000000000-n0.drv";

/// The paths of its outputs, in the order of the outputs' names.
const OUTPUTS: [&str; 2] = [
    "/nix/store/bbbbbbbbbbbbbbbbbbbbbbbbbbbbbbbb-n0-doc",
    "/nix/store/aaaaaaaaaaaaaaaaaaaaaaaaaaaaaaaa-n0",
];

/// The lines of the calls of a lease of that derivation, which wants one path.
const CALLS: &[u8] = b"\
    connect\n\
    copy /nix/store/pppppppppppppppppppppppppppppppp-s1\n\
    build /nix/store/00000000000000000000000000000000-n0.drv /nix/store/bbbbbbbbbbbbbbbbbbbbbbbbbbbbbbbb-n0-doc /nix/store/aaaaaaaaaaaaaaaaaaaaaaaaaaaaaaaa-n0\n";

/// What an agent answers that builds it.
const ANSWERS: &[u8] = b"yes\nyes\nbuilt o /nix/store/pppppppppppppppppppppppppppppppp-s1 o\n";

fn path(alloc: Global, text: &str) -> Option<StorePath> {
    StorePath::parse(alloc, text.as_bytes()).ok()
}

/// The one path that is to be copied.
fn one_path(alloc: Global) -> Option<PathSet> {
    let mut paths = Vec::new(alloc);
    paths.push(path(alloc, S1)?).ok()?;
    PathSet::from_vec(paths).ok()
}

/// The paths of its outputs.
fn output_paths(alloc: Global) -> Option<Items<StorePath>> {
    let mut paths = Vec::new(alloc);
    for text in OUTPUTS {
        paths.push(path(alloc, text)?).ok()?;
    }
    Some(Items::new(paths))
}

/// Derivation 0, leased on slot 0 of machine 1, with these paths of its outputs and to copy.
fn job_of(alloc: Global, output_paths: Items<StorePath>, paths: PathSet) -> Option<Job> {
    let Some(path) = path(alloc, DRV) else {
        drop(paths);
        drop(output_paths);
        return None;
    };
    Some(Job {
        ticket: Ticket {
            machine: 1,
            slot: 0,
            drv: 0,
            serial: 0,
        },
        path,
        output_paths,
        paths,
    })
}

/// Derivation 0 with two outputs and one path to copy.
fn job(alloc: Global) -> Option<Job> {
    let paths = one_path(alloc)?;
    let Some(output_paths) = output_paths(alloc) else {
        drop(paths);
        return None;
    };
    job_of(alloc, output_paths, paths)
}

/// How a lease went, as far as it came.
#[derive(Clone, Copy, Debug, PartialEq, Eq)]
enum Went {
    /// So many lists of references, of which the first has so many paths.
    Built(usize, usize),
    Status(u8),
    Lost,
    Refused(u8),
    Memory,
}

fn came_to(outcome: Outcome) -> Went {
    match outcome {
        Outcome::Built(refs) => Went::Built(refs.lists().len(), first_length(&refs)),
        Outcome::Status(code) => Went::Status(code),
        Outcome::Lost => Went::Lost,
        Outcome::Memory => Went::Memory,
    }
}

/// How many paths the first list has.
fn first_length(refs: &Refs) -> usize {
    match refs.lists().first() {
        Some(set) => set.len(),
        None => 0,
    }
}

/// How the lease goes through this agent.
fn served<T: Transport>(alloc: Global, job: &Job, agent: &mut T) -> Went {
    let kept = nothing_kept(alloc);
    match serve_copy(agent, job, &kept) {
        Fetch::Copied => came_to(serve_build(agent, &kept)),
        Fetch::Refused(calls) => Went::Refused(calls),
        Fetch::Memory => Went::Memory,
    }
}

/// How the lease goes where these are the answers and so many writes are granted, and whether the agent is gone
/// then.
fn answered(alloc: Global, answers: &[u8], writes: usize) -> Option<(Went, bool)> {
    let job = job(alloc)?;
    let mut calls = CountedWriter::new(alloc, 4096, writes, false);
    let reader = CountedReader::new(answers, 7, usize::MAX);
    let mut agent = Agent::new(alloc, reader, &mut calls);
    let how = served(alloc, &job, &mut agent);
    Some((how, agent.is_gone()))
}

/// Whether the lease goes so.
fn goes(alloc: Global, answers: &[u8], writes: usize, how: Went, gone: bool) -> bool {
    match answered(alloc, answers, writes) {
        Some(found) => found.0 == how && found.1 == gone,
        None => false,
    }
}

#[test]
fn each_call_and_answer(rt: HostRuntime) -> Result<(), Fail> {
    let alloc = rt.alloc();
    let Some(job) = job(alloc) else {
        assert!(rt; false, "no memory");
        return Ok(());
    };
    let mut calls = CountedWriter::new(alloc, 5, usize::MAX, false);
    let mut agent = Agent::new(
        alloc,
        CountedReader::new(ANSWERS, 1, usize::MAX),
        &mut calls,
    );
    let how = served(alloc, &job, &mut agent);
    drop(agent);
    assert!(rt; how == Went::Built(2, 1));
    assert!(rt; calls.bytes() == CALLS);
    assert!(rt; calls.is_flushed());
    Ok(())
}

#[test]
fn each_answer(rt: HostRuntime) -> Result<(), Fail> {
    let alloc = rt.alloc();
    let most = usize::MAX;
    assert!(rt; goes(alloc, b"no\n", most, Went::Refused(1), false));
    assert!(rt; goes(alloc, b"yes\nno\n", most, Went::Refused(2), false));
    assert!(rt; goes(alloc, b"yes\nyes\nfailed 3\n", most, Went::Status(3), false));
    assert!(rt; goes(alloc, b"yes\nyes\nlost\n", most, Went::Lost, false));
    assert!(rt;
        goes(
            alloc,
            b"yes\nyes\nbuilt o o\n",
            most,
            Went::Built(2, 0),
            false
        )
    );
    Ok(())
}

#[test]
fn other_answers(rt: HostRuntime) -> Result<(), Fail> {
    let alloc = rt.alloc();
    let most = usize::MAX;
    assert!(rt; goes(alloc, b"yess\n", most, Went::Refused(1), true));
    assert!(rt; goes(alloc, b"yes\n\nyes\n", most, Went::Refused(2), true));
    assert!(rt; goes(alloc, b"yes\nyes\nfailed 256\n", most, Went::Lost, true));
    assert!(rt; goes(alloc, b"yes\nyes\nfailed\n", most, Went::Lost, true));
    assert!(rt; goes(alloc, b"yes\nyes\nbuilt o x\n", most, Went::Lost, true));
    assert!(rt; goes(alloc, b"yes\nyes\nlost \n", most, Went::Lost, true));
    Ok(())
}

/// What an agent answers to leases one after another, in each form.
const TURNS: &[u8] = b"\
    no\n\
    yes\nno\n\
    yes\nyes\nfailed 0\n\
    yes\nyes\nlost\n\
    yes\nyes\nbuilt o /nix/store/pppppppppppppppppppppppppppppppp-s1 o\n\
    yes\nyes\nfailed 255\n\
    yes\nyes\nbuilt o o\n";

/// How those leases go.
const TURNED: [Went; 7] = [
    Went::Refused(1),
    Went::Refused(2),
    Went::Status(0),
    Went::Lost,
    Went::Built(2, 1),
    Went::Status(255),
    Went::Built(2, 0),
];

/// Whether leases through one agent with these answers go so, one after another, and it is gone then or not.
fn turns(alloc: Global, answers: &[u8], turned: &[Went], gone: bool) -> bool {
    let Some(job) = job(alloc) else {
        return false;
    };
    let calls = CountedWriter::new(alloc, 4096, usize::MAX, false);
    let reader = CountedReader::new(answers, 7, usize::MAX);
    let mut agent = Agent::new(alloc, reader, calls);
    let mut are_so = true;
    for went in turned {
        are_so = are_so && served(alloc, &job, &mut agent) == *went;
    }
    are_so && agent.is_gone() == gone
}

/// Each line answers the call at its place, and no later one.
#[test]
fn lines_in_turn(rt: HostRuntime) -> Result<(), Fail> {
    let alloc = rt.alloc();
    assert!(rt; turns(alloc, TURNS, &TURNED, false));
    let two = b"yes\nyes\nfailed 3\nfailed 4\nyes\nyes\nfailed 5\n";
    let after = [Went::Status(3), Went::Refused(1), Went::Refused(1)];
    assert!(rt; turns(alloc, two, &after, true));
    let half = b"yes\nyes\nlost\nyes\nyes\nfailed 3";
    let lost = [Went::Lost, Went::Lost, Went::Refused(1)];
    assert!(rt; turns(alloc, half, &lost, true));
    Ok(())
}

/// What is no answer to a build is a lost build, and the agent is gone.
#[test]
fn no_answers(rt: HostRuntime) -> Result<(), Fail> {
    let alloc = rt.alloc();
    let lost = [Went::Lost, Went::Refused(1)];
    let lines = [
        b"yes\nyes\n\n".as_slice(),
        b"yes\nyes\nyes\n",
        b"yes\nyes\nbuild o o\n",
        b"yes\nyes\nfailed 256\n",
        b"yes\nyes\nfailed 03\n",
        b"yes\nyes\nfailed 3 3\n",
        b"yes\nyes\nbuilt o\n",
        b"yes\nyes\nbuilt o o o\n",
        b"yes\nyes\nbuilt o s1 o\n",
        b"yes\nyes\nbuilt o o",
        b"yes\nyes\n",
    ];
    for line in lines {
        assert!(rt; turns(alloc, line, &lost, true));
    }
    Ok(())
}

/// Where memory is refused a lease isn't lost for that. Each allocation is refused in turn by
/// `rt try --test --fail-alloc N`.
#[test]
fn memory_is_told_as_memory(rt: HostRuntime) -> Result<(), Fail> {
    let alloc = rt.alloc();
    let built = match answered(alloc, ANSWERS, usize::MAX) {
        Some((Went::Built(lists, paths), gone)) => lists == 2 && paths == 1 && !gone,
        Some((Went::Memory, _)) => true,
        Some(_) => false,
        None => true,
    };
    assert!(rt; built);
    Ok(())
}

/// Another number of lists than the derivation has outputs is no answer.
#[test]
fn other_numbers_of_lists(rt: HostRuntime) -> Result<(), Fail> {
    let alloc = rt.alloc();
    let most = usize::MAX;
    assert!(rt; goes(alloc, b"yes\nyes\nbuilt\n", most, Went::Lost, true));
    assert!(rt; goes(alloc, b"yes\nyes\nbuilt o\n", most, Went::Lost, true));
    assert!(rt; goes(alloc, b"yes\nyes\nbuilt o o o\n", most, Went::Lost, true));
    Ok(())
}

/// How the lease goes where the answers have no end, and whether the agent is gone then.
fn answered_endlessly(alloc: Global, answers: &[u8], byte: u8) -> Option<(Went, bool)> {
    let job = job(alloc)?;
    let calls = CountedWriter::new(alloc, 4096, usize::MAX, false);
    let mut agent = Agent::new(alloc, EndlessReader::new(answers, byte), calls);
    let how = served(alloc, &job, &mut agent);
    Some((how, agent.is_gone()))
}

/// A line without an end is read to the limit, and none of it where no answer begins so.
#[test]
fn endless_lines(rt: HostRuntime) -> Result<(), Fail> {
    let alloc = rt.alloc();
    let connect = answered_endlessly(alloc, b"", b'y');
    assert!(rt; connect == Some((Went::Refused(1), true)));
    let copy = answered_endlessly(alloc, b"yes\nno", b' ');
    assert!(rt; copy == Some((Went::Refused(2), true)));
    let build = answered_endlessly(alloc, b"yes\nyes\nbuilt o ", b'o');
    assert!(rt; build == Some((Went::Lost, true)));
    Ok(())
}

#[test]
fn cut_at_each_byte(rt: HostRuntime) -> Result<(), Fail> {
    let alloc = rt.alloc();
    for end in 0..ANSWERS.len() {
        let (part, _) = ANSWERS.split_at(end);
        let how = if end < 4 {
            Went::Refused(1)
        } else if end < 8 {
            Went::Refused(2)
        } else {
            Went::Lost
        };
        assert!(rt; goes(alloc, part, usize::MAX, how, true));
    }
    Ok(())
}

#[test]
fn refused_writes(rt: HostRuntime) -> Result<(), Fail> {
    let alloc = rt.alloc();
    assert!(rt; goes(alloc, ANSWERS, 0, Went::Refused(1), true));
    assert!(rt; goes(alloc, ANSWERS, 1, Went::Refused(2), true));
    assert!(rt; goes(alloc, ANSWERS, 2, Went::Lost, true));
    assert!(rt; goes(alloc, ANSWERS, 3, Went::Built(2, 1), false));
    Ok(())
}

/// An agent whose answers ended is asked nothing more.
#[test]
fn gone_for_good(rt: HostRuntime) -> Result<(), Fail> {
    let alloc = rt.alloc();
    let Some(job) = job(alloc) else {
        assert!(rt; false, "no memory");
        return Ok(());
    };
    let mut calls = CountedWriter::new(alloc, 4096, usize::MAX, false);
    let mut agent = Agent::new(
        alloc,
        CountedReader::new(b"yes\n", 7, usize::MAX),
        &mut calls,
    );
    let first = served(alloc, &job, &mut agent);
    let second = served(alloc, &job, &mut agent);
    drop(agent);
    assert!(rt; first == Went::Refused(2));
    assert!(rt; second == Went::Refused(1));
    let (connect_and_copy, _) = CALLS.split_at(60);
    assert!(rt; calls.bytes() == connect_and_copy);
    Ok(())
}
