//! The workloads.

use crate::answers::{history_of, run_digest};
use crate::digests::{BEGIN, digest, joined};
use crate::engines;
use crate::graphs::{Form, Names, Shape, bundle};
use crate::parks::{Park, options};
use crate::scripts::{Course, script, stand};
use nd_cli::ParkOptions;
use std::alloc::{AllocError, Global};
use std::sync::Wait;
use std::thread::Threads;

/// The names of the workloads.
pub(crate) const WORKLOADS: [&str; 6] = ["ask", "replay", "park", "deep", "run", "serve"];

/// What the commands are given.
#[derive(Drop)]
struct Given {
    shape: Shape,
    names: Names,
    options: ParkOptions,
    bundle: Vec<u8>,
}

/// Runs a workload, and answers its digest.
pub(crate) fn run<R: Threads + Wait + Sync>(
    rt: &R,
    alloc: Global,
    workload: &str,
    seed: u64,
    count: usize,
) -> Option<u64> {
    match workload {
        "ask" => ask(rt, alloc, seed, count),
        "replay" => replay(rt, alloc, seed, count),
        "park" => park(rt, alloc, seed, count),
        "deep" => deep(rt, alloc, seed, count),
        "run" => run_threads(rt, alloc, seed, count),
        _ => serve(rt, alloc, seed, count),
    }
}

/// What is given for a graph of this shape on this park.
fn make_given(alloc: Global, shape: Shape, park: Park) -> Result<Given, AllocError> {
    let names = Names::new(alloc, &shape)?;
    let bundle = bundle(alloc, &shape, &names)?;
    Ok(Given {
        shape,
        names,
        options: options(alloc, park)?,
        bundle,
    })
}

/// Layers of 64 derivations, 2 to 8 inputs each, of five classes, with texts of 1 KB.
fn layers(seed: u64, count: usize) -> Shape {
    Shape {
        seed,
        count,
        width: 64,
        stride: 1,
        inputs: 2,
        spread: 6,
        length: 1_000,
        form: Form::Classes,
    }
}

/// Layers of 64 packages, 2 to 6 inputs each, with texts of 2 KB.
fn packages(seed: u64, count: usize) -> Shape {
    Shape {
        inputs: 2,
        spread: 4,
        length: 2_000,
        form: Form::Packages,
        ..layers(seed, count)
    }
}

/// A chain: each derivation needs the one before it.
fn chain(seed: u64, count: usize) -> Shape {
    Shape {
        width: 1,
        inputs: 1,
        spread: 0,
        length: 300,
        form: Form::Plain,
        ..layers(seed, count)
    }
}

/// Derivations without inputs, each with a feature of its own or of five classes.
fn apart(seed: u64, count: usize, form: Form) -> Shape {
    Shape {
        inputs: 0,
        spread: 0,
        length: 300,
        form,
        ..layers(seed, count)
    }
}

/// Five classes side by side, in layers of 16 each.
fn deep_layers(seed: u64, count: usize) -> Shape {
    Shape {
        width: 16,
        stride: 5,
        length: 0,
        ..layers(seed, count)
    }
}

/// A course through all of a graph.
fn through(shape: &Shape, window: usize) -> Course {
    Course {
        window,
        from: 0,
        to: shape.count,
        refers: false,
        troubled: false,
        asks: false,
    }
}

/// The replies about five bundles: two of layers, one of packages, a chain, and one whose derivations each want a
/// feature of their own.
fn ask<R: Threads + Wait + Sync>(rt: &R, alloc: Global, seed: u64, count: usize) -> Option<u64> {
    let shapes = [
        (layers(seed, count), Park::Classes),
        (packages(seed ^ 256, count / 2), Park::Eight),
        (chain(seed ^ 512, count), Park::Eight),
        (
            apart(seed ^ 768, count / 4, Form::Features),
            Park::Features(count / 4),
        ),
        (layers(seed ^ 1_024, count / 2), Park::Classes),
    ];
    let mut sum = BEGIN;
    for (shape, park) in shapes {
        sum = joined(sum, ask_one(rt, alloc, shape, park)?);
    }
    Some(sum)
}

/// A digest of the replies about one bundle.
fn ask_one<R: Threads + Sync>(rt: &R, alloc: Global, shape: Shape, park: Park) -> Option<u64> {
    let Ok(given) = make_given(alloc, shape, park) else {
        return None;
    };
    asked(rt, alloc, &given)
}

fn asked<R: Threads + Sync>(rt: &R, alloc: Global, given: &Given) -> Option<u64> {
    let written = engines::ask(rt, alloc, &given.options, given.bundle.as_slice())?;
    Some(digest(BEGIN, written.as_slice()))
}

/// A day on layers, with failures and drained machines: its simulation, and the audit of that history.
fn replay<R: Threads + Sync>(rt: &R, alloc: Global, seed: u64, count: usize) -> Option<u64> {
    let Ok(given) = make_given(alloc, layers(seed, count), Park::Classes) else {
        return None;
    };
    let course = Course {
        troubled: true,
        ..through(&given.shape, 16)
    };
    simulated(rt, alloc, &given, course)
}

/// A digest of a simulation and of the verdict about its history.
fn simulated<R: Threads + Sync>(
    rt: &R,
    alloc: Global,
    given: &Given,
    course: Course,
) -> Option<u64> {
    let Ok(script) = script(alloc, &given.shape, &given.names, course) else {
        return None;
    };
    let bundle = given.bundle.as_slice();
    let written = engines::sim(rt, alloc, &given.options, bundle, script.as_slice())?;
    drop(script);
    let sum = digest(BEGIN, written.as_slice());
    let Ok(history) = history_of(alloc, written.as_slice()) else {
        return None;
    };
    drop(written);
    let verdict = engines::audit(rt, alloc, &given.options, bundle, history.as_slice())?;
    Some(digest(sum, verdict.as_slice()))
}

/// A park of 1,024 machines with tens of thousands of ready derivations: replies, a day and its audit.
fn park<R: Threads + Sync>(rt: &R, alloc: Global, seed: u64, count: usize) -> Option<u64> {
    let Ok(given) = make_given(alloc, apart(seed, count, Form::Classes), Park::Large) else {
        return None;
    };
    let replies = asked(rt, alloc, &given)?;
    let course = Course {
        troubled: true,
        ..through(&given.shape, 256)
    };
    Some(joined(replies, simulated(rt, alloc, &given, course)?))
}

/// Builds that refer to most of what their inputs refer to: a day and its audit.
fn deep<R: Threads + Sync>(rt: &R, alloc: Global, seed: u64, count: usize) -> Option<u64> {
    let Ok(given) = make_given(alloc, deep_layers(seed, count), Park::Classes) else {
        return None;
    };
    let course = Course {
        refers: true,
        ..through(&given.shape, 16)
    };
    simulated(rt, alloc, &given, course)
}

/// Runs with a thread for each of 256 slots, over layers and over deep references, each with its audit.
fn run_threads<R: Threads + Wait + Sync>(
    rt: &R,
    alloc: Global,
    seed: u64,
    count: usize,
) -> Option<u64> {
    let plain = run_one(rt, alloc, layers(seed, count), false)?;
    let deep = run_one(rt, alloc, deep_layers(seed ^ 256, count / 4), true)?;
    Some(joined(plain, deep))
}

/// A digest of one run and of the verdict about its history.
fn run_one<R: Threads + Wait + Sync>(
    rt: &R,
    alloc: Global,
    shape: Shape,
    refers: bool,
) -> Option<u64> {
    let Ok(given) = make_given(alloc, shape, Park::Classes) else {
        return None;
    };
    let rules = if refers {
        match stand(alloc, &given.shape, &given.names) {
            Ok(rules) => rules,
            Err(_) => return None,
        }
    } else {
        Vec::new(alloc)
    };
    ran(rt, alloc, &given, rules.as_slice())
}

fn ran<R: Threads + Wait + Sync>(
    rt: &R,
    alloc: Global,
    given: &Given,
    rules: &[u8],
) -> Option<u64> {
    let bundle = given.bundle.as_slice();
    let written = engines::run(rt, alloc, &given.options, bundle, rules)?;
    let (sum, length) = run_digest(written.as_slice());
    let history = written.as_slice().get(..length)?;
    let verdict = engines::audit(rt, alloc, &given.options, bundle, history)?;
    Some(digest(sum, verdict.as_slice()))
}

/// Two sessions that go on from journals: over layers, and over a park of 1,024 machines.
fn serve<R: Threads + Sync>(rt: &R, alloc: Global, seed: u64, count: usize) -> Option<u64> {
    let small = serve_one(rt, alloc, layers(seed, count / 2), Park::Classes, 16)?;
    let large = apart(seed ^ 256, count, Form::Classes);
    let large = serve_one(rt, alloc, large, Park::Large, 256)?;
    Some(joined(small, large))
}

/// A digest of what a session answers that goes on from a journal of most of the graph's history.
fn serve_one<R: Threads + Sync>(
    rt: &R,
    alloc: Global,
    shape: Shape,
    park: Park,
    window: usize,
) -> Option<u64> {
    let Ok(given) = make_given(alloc, shape, park) else {
        return None;
    };
    let half = shape.count - shape.count / 8;
    let before = Course {
        to: half,
        ..through(&given.shape, window)
    };
    let behind = Course {
        from: half,
        to: half.saturating_add(4_096).min(shape.count),
        asks: true,
        ..through(&given.shape, window)
    };
    served(rt, alloc, &given, before, behind)
}

fn served<R: Threads + Sync>(
    rt: &R,
    alloc: Global,
    given: &Given,
    before: Course,
    behind: Course,
) -> Option<u64> {
    let Ok(first) = script(alloc, &given.shape, &given.names, before) else {
        return None;
    };
    let bundle = given.bundle.as_slice();
    let written = engines::sim(rt, alloc, &given.options, bundle, first.as_slice())?;
    let Ok(journal) = history_of(alloc, written.as_slice()) else {
        return None;
    };
    drop(written);
    let Ok(lines) = script(alloc, &given.shape, &given.names, behind) else {
        return None;
    };
    let journal = journal.as_slice();
    let answers = engines::serve(rt, alloc, &given.options, bundle, journal, lines.as_slice())?;
    Some(digest(BEGIN, answers.as_slice()))
}
