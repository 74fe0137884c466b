//! The workloads of the benchmark: jobs that users wait for, over inputs that are made here from a seed. Each line
//! that is written has a digest of all that the engines answered, and no times.
//!
//!     nd_bench WORKLOAD SEED COUNT
//!
//! COUNT is about how many derivations the largest input of the workload has. `all` runs every workload.
#![tactic(auto)]

mod answers;
mod digests;
mod engines;
mod graphs;
mod jobs;
mod parks;
mod scripts;
mod texts;

use jobs::WORKLOADS;
use std::alloc::Global;
use std::process::ExitCode;
use std::rt::Env;
use std::sync::Wait;
use std::thread::Threads;
use std::{env, io};

/// The exit status where the words aren't understood.
const USAGE: u8 = 2;

fn main(rt: HostRuntime) -> ExitCode {
    ExitCode::from(program(&rt))
}

/// Reads the words, does what they name, and answers the exit status.
fn program<R: Env + Print + Eprint + AllocGlobal + Threads + Wait + Sync>(rt: &R) -> u8 {
    let Ok(words) = env::args(rt) else {
        return USAGE;
    };
    let Ok(words) = words.collect::<Vec<String>>(rt.alloc()) else {
        return USAGE;
    };
    let [_, name, seed, count] = words.as_slice() else {
        return not_understood(rt);
    };
    match (
        seed.as_str().parse::<u64>(),
        count.as_str().parse::<usize>(),
    ) {
        (Ok(seed), Ok(count)) => run(rt, name.as_str(), seed, count),
        _ => not_understood(rt),
    }
}

fn not_understood<R: Eprint>(rt: &R) -> u8 {
    let _ = eprintln!(rt; "nd_bench: WORKLOAD SEED COUNT, or all SEED COUNT");
    USAGE
}

/// Runs the workload of this name, or all of them.
fn run<R: Print + AllocGlobal + Threads + Wait + Sync>(
    rt: &R,
    name: &str,
    seed: u64,
    count: usize,
) -> u8 {
    let mut status = USAGE;
    for workload in WORKLOADS {
        if name == "all" || name == workload {
            status = run_one(rt, rt.alloc(), workload, seed, count);
            if status != 0 {
                return status;
            }
        }
    }
    status
}

/// Runs one workload, and writes its digest.
fn run_one<R: Print + Threads + Wait + Sync>(
    rt: &R,
    alloc: Global,
    workload: &str,
    seed: u64,
    count: usize,
) -> u8 {
    match jobs::run(rt, alloc, workload, seed, count) {
        Some(digest) => written(println!(rt; "{workload} {digest:016x}")),
        None => {
            let _ = println!(rt; "{workload} failed");
            1
        }
    }
}

/// The exit status of a line that was written or not.
fn written(answer: io::Result<()>) -> u8 {
    match answer {
        Ok(()) => 0,
        Err(_) => 1,
    }
}
