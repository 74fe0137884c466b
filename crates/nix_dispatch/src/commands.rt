//! What each command does with its words.

ghost use Rattle.std.specs.Prelude.{◌≡◌, None, IfErr, IfOk};
ghost use Rattle.nd_cli.specs.Statuses.{exit_status};
ghost use Rattle.nix_dispatch.specs.Statuses.{journal_name, usage};

use crate::agents::run_given;
use crate::endings::{Ending, common, exit_by};
use crate::listing::list_park;
use crate::reporting::{Question, look_at, report};
use crate::serving::serve;
use clap::ArgMatches;
use clap::error::{Error, ErrorKind};
use nd_cli::{CliFault, ask_engine, path_engine};
use nd_command_line::{answered, command_line, heard, path_failure, read_inputs, write_failure};
use nd_commands::{audit_engine, sim_engine};
use nd_devices::Told;
use nd_explain::{Failure, Heard};
use std::alloc::Global;
use std::fmt;
use std::fs::File;
use std::io::{self, BufWriter, Read, Write};
use std::rt::Files;
use std::sync::Wait;
use std::thread::Threads;

/// The exit status where the command line isn't understood.
const USAGE: u8 = 2;

/// Runs the command that the words name, and answers the exit status. Help that is asked for goes
/// to standard output with status 0, a word that isn't understood to standard error with status 2.
pub(crate) fn run<
    'a,
    R: Files<File = File> + Input + Print + Eprint + AllocGlobal + Threads + Wait + Sync,
>(rt: &R, alloc: Global, given: &'a [String]) -> u8 {
    let Ok(command) = command_line(alloc) else {
        return told(rt, &CliFault::Memory);
    };
    let matches = match command.try_get_matches_from(given) {
        Ok(matches) => matches,
        Err(error) => return refused_words(rt, error),
    };
    let answer = answer_to(rt, alloc, &matches);
    let explain = match matches.subcommand() {
        Some((_, options)) => options.get_flag("explain"),
        None => false,
    };
    drop(matches);
    exit_by(rt, answer, explain)
}

/// Prints why the words aren't understood, or the help that they ask for, and answers the exit status.
fn refused_words<R: Print + Eprint>(rt: &R, error: Error) -> u8 {
    let status = if error.kind() == ErrorKind::OutOfMemory {
        told(rt, &CliFault::Memory)
    } else {
        let _ = error.print(rt);
        error.exit_code() as u8
    };
    drop(error);
    status
}

/// What the command that was named answers, and `None` where none of the commands was.
fn answer_to<
    'a,
    R: Files<File = File> + Input + Print + Eprint + AllocGlobal + Threads + Wait + Sync,
>(rt: &R, alloc: Global, matches: &ArgMatches<'a>) -> Option<Result<u8, Ending<'a>>> {
    match matches.subcommand() {
        Some(("path", options)) => Some(common(path(rt, alloc, options))),
        Some(("ask", options)) => Some(common(ask(rt, alloc, options))),
        Some(("sim", options)) => Some(common(sim(rt, alloc, options))),
        Some(("audit", options)) => Some(audit(rt, alloc, options)),
        Some(("serve", options)) => Some(serve(rt, alloc, options)),
        Some(("run", options)) => Some(run_given(rt, alloc, options)),
        Some(("report", options)) => Some(report(rt, alloc, options)),
        Some(("park", options)) => Some(common(list_park(rt, alloc, options))),
        _ => None,
    }
}

/// Says in one line on standard error why the command line isn't understood, and answers the exit
/// status for that.
pub(crate) fn not_understood<R: Eprint>(rt: &R, why: &str) -> u8
    ensures { result ≡ usage }
{
    let _ = eprintln!(rt; "error: {why}");
    USAGE
}

/// Says a fault in one line on standard error, and answers its exit status.
pub(crate) fn told<R: Eprint>(rt: &R, fault: &CliFault) -> u8
    ensures { result ≡ exit_status fault.now }
{
    say(rt, fault);
    fault.status()
}

/// Writes a value in a line on standard error, as far as that takes it.
pub(crate) fn say<R: Eprint, T: fmt::Display>(rt: &R, value: &T) {
    let _ = eprintln!(rt; "{value}");
}

fn path<'a, R: Input + Print + AllocGlobal>(
    rt: &R,
    alloc: Global,
    options: &ArgMatches<'a>,
) -> Result<u8, Failure<'a>> {
    let name = options.get_str("name").unwrap_or("").as_bytes();
    let mut output = Told::new(Heard::new(io::writer(rt)));
    let mut input = Told::new(heard(alloc, options, rt.reader()));
    let answer = path_engine(alloc, name, &mut input, &mut output);
    path_answered(alloc, name, answer, input.into_inner(), output.into_inner())
}

/// What `path` answers, which was given this name: the status of its engine, and else what is known of the fault
/// that it ended with over this input and this output.
fn path_answered<'a, I: Read + Drop, O: Write + Drop>(
    alloc: Global,
    name: &[u8],
    answer: Result<u8, CliFault>,
    input: Heard<I>,
    output: Heard<O>,
) -> Result<u8, Failure<'a>>
    ensures status { IfOk result (λ status. answer ≡ Ok status) }
    ensures fault { IfErr result (λ failure. answer ≡ Err failure.fault) }
{
    match answer {
        Ok(status) => {
            drop(input);
            drop(output);
            Ok(status)
        }
        Err(CliFault::Write) => {
            drop(input);
            let failure = write_failure(&output);
            drop(output);
            Err(failure)
        }
        Err(fault) => {
            drop(output);
            let failure = path_failure(alloc, fault, name, &input);
            drop(input);
            Err(failure)
        }
    }
}

fn ask<'a, R: Files + Input + Print + AllocGlobal + Threads + Sync>(
    rt: &R,
    alloc: Global,
    options: &ArgMatches<'a>,
) -> Result<u8, Failure<'a>> {
    let mut inputs = read_inputs(rt, alloc, options, None)?;
    let Ok(buffer) = BufWriter::new(alloc, io::writer(rt)) else {
        drop(inputs);
        return Err(Failure::of(CliFault::Memory));
    };
    let mut output = Told::new(Heard::new(buffer));
    let answer = ask_engine(rt, alloc, &inputs.park, &mut inputs.bundle, &mut output);
    answered(alloc, options, inputs, answer, output)
}

fn sim<'a, R: Files + Input + Print + AllocGlobal + Threads + Sync>(
    rt: &R,
    alloc: Global,
    options: &ArgMatches<'a>,
) -> Result<u8, Failure<'a>> {
    let mut inputs = read_inputs(rt, alloc, options, Some("script"))?;
    let Ok(buffer) = BufWriter::new(alloc, io::writer(rt)) else {
        drop(inputs);
        return Err(Failure::of(CliFault::Memory));
    };
    let mut output = Told::new(Heard::new(buffer));
    let script = inputs.own.as_slice();
    let answer = sim_engine(
        rt,
        alloc,
        &inputs.park,
        script,
        &mut inputs.bundle,
        &mut output,
    );
    answered(alloc, options, inputs, answer, output)
}

/// Audits the journal where one is given, and else the history text.
fn audit<'a, R: Files<File = File> + Input + Print + AllocGlobal + Threads + Sync>(
    rt: &R,
    alloc: Global,
    options: &ArgMatches<'a>,
) -> Result<u8, Ending<'a>> {
    match options.get_str("journal") {
        Some(name) => look_at(rt, alloc, options, name, Question::Audit),
        None => common(audit_history(rt, alloc, options)),
    }
}

/// Audits the history text. No journal is given.
fn audit_history<'a, R: Files + Input + Print + AllocGlobal + Threads + Sync>(
    rt: &R,
    alloc: Global,
    options: &ArgMatches<'a>,
) -> Result<u8, Failure<'a>>
    requires { journal_name options.now ≡ None }
{
    let mut inputs = read_inputs(rt, alloc, options, Some("history"))?;
    let mut output = Told::new(Heard::new(io::writer(rt)));
    let history = inputs.own.as_slice();
    let verdict = audit_engine(
        rt,
        alloc,
        &inputs.park,
        history,
        &mut inputs.bundle,
        &mut output,
    );
    answered(alloc, options, inputs, verdict, output)
}
