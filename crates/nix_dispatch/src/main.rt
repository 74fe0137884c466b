//! `nix-dispatch`: hands the derivations of a whole graph to local slots and remote builders, as
//! Nix's build hook does for one derivation at a time.
//!
//! The program itself reads the command line and the files that it names, and leaves the rest to
//! the engines of `nd_cli`, `nd_commands`, `nd_serve_command`, `nd_run_command` and `nd_kept_run`.
#![tactic(auto)]

mod agents;
mod beginning;
mod commands;
mod endings;
mod journal_files;
mod listing;
mod reporting;
mod running;
mod serving;
mod stand_ins;

use nd_cli::CliFault;
use std::fs::File;
use std::process::ExitCode;
use std::rt::{Env, Files};
use std::sync::Wait;
use std::thread::Threads;
use std::{env, io};

fn main(rt: HostRuntime) -> ExitCode {
    ExitCode::from(program(&rt))
}

/// Reads the words of the command line, runs the command that they name, and answers the exit
/// status.
fn program<
    R: Env + Files<File = File> + Input + Print + Eprint + AllocGlobal + Threads + Wait + Sync,
>(rt: &R) -> u8 {
    let given = match env::args(rt) {
        Ok(given) => given,
        Err(error) => return words_refused(rt, &error),
    };
    let alloc = rt.alloc();
    let Ok(given) = given.collect::<Vec<String>>(alloc) else {
        return commands::told(rt, &CliFault::Memory);
    };
    commands::run(rt, alloc, given.as_slice())
}

/// A word that isn't UTF-8 is a usage fault, and so is any other that the system doesn't give.
fn words_refused<R: Eprint>(rt: &R, error: &io::Error) -> u8 {
    if error.kind() == io::ErrorKind::OutOfMemory {
        return commands::told(rt, &CliFault::Memory);
    }
    commands::not_understood(rt, "a word of the command line can't be read as UTF-8")
}
