//! The command `serve`: a session over standard input and output, with a journal in a file. What was opened is left
//! to the system where the command ends early, since the process ends with it.

ghost use Rattle.std.specs.Prelude.{◌≡◌, IfErr, IfOk};
ghost use Rattle.nix_dispatch.specs.Statuses.{fault_in};

use crate::endings::Ending;
use crate::journal_files::{Kept, find_journal, ready_journal};
use clap::ArgMatches;
use nd_cli::CliFault;
use nd_command_line::{read_inputs, write_failure};
use nd_explain::{Failure, Heard, Source};
use nd_serve_command::{Devices, JournalFailure, Opened, ServeFault, open_session, serve_engine};
use std::alloc::Global;
use std::fs::File;
use std::io::{self, BufReader, Read, Write};
use std::mem;
use std::rt::Files;
use std::thread::Threads;

/// Holds a session, and answers the exit status. It looks at the journal, opens the session with it, and only
/// then makes or changes anything of it.
pub(crate) fn serve<'a, R: Files<File = File> + Input + Print + AllocGlobal + Threads + Sync>(
    rt: &R,
    alloc: Global,
    options: &ArgMatches<'a>,
) -> Result<u8, Ending<'a>> {
    let found = find_journal(rt, alloc, options.get_str("journal"))?;
    let opened = match open(rt, alloc, options, found.bytes.as_slice()) {
        Ok(opened) => opened,
        Err(ending) => {
            drop(found);
            return Err(ending);
        }
    };
    match ready_journal(rt, found, opened.kept) {
        Ok(journal) => hold(rt, alloc, opened, journal),
        Err(ending) => {
            mem::forget(opened);
            Err(ending)
        }
    }
}

/// Reads the bundle and the park, and the journal with these bytes.
fn open<'a, R: Files + Input + Threads + Sync>(
    rt: &R,
    alloc: Global,
    options: &ArgMatches<'a>,
    journal: &[u8],
) -> Result<Opened, Ending<'a>> {
    let mut inputs = match read_inputs(rt, alloc, options, None) {
        Ok(inputs) => inputs,
        Err(failure) => return Err(Ending::Common(failure)),
    };
    let resumes = options.get_flag("resume");
    match open_session(
        rt,
        alloc,
        &inputs.park,
        journal,
        resumes,
        &mut inputs.bundle,
    ) {
        Ok(opened) => {
            drop(inputs);
            Ok(opened)
        }
        Err(ServeFault::Cli(fault)) => Err(Ending::Common(inputs.failure(alloc, options, fault))),
        Err(fault) => {
            drop(inputs);
            let name = options.get_str("journal").unwrap_or("");
            Err(Ending::Journal(JournalFailure::of_bytes(alloc, fault, name, journal)))
        }
    }
}

/// Holds the session that was opened, with this journal.
fn hold<'a, R: Files<File = File> + Input + Print + AllocGlobal>(
    rt: &R,
    alloc: Global,
    opened: Opened,
    journal: Kept<'a, File>,
) -> Result<u8, Ending<'a>> {
    let Ok(input) = BufReader::new(alloc, Heard::new(rt.reader())) else {
        mem::forget(opened);
        return Err(Ending::Common(Failure::of(CliFault::Memory)));
    };
    let mut devices = Devices {
        input,
        output: Heard::new(io::writer(rt)),
        journal,
    };
    let answer = serve_engine(alloc, opened, &mut devices);
    let Devices {
        input,
        output,
        journal,
    } = devices;
    held(answer, input.into_inner(), output, journal)
}

/// What the command answers: the status of its session, and else what is known of the fault that it ended with over
/// these devices.
fn held<'a, I: Read + Drop, O: Write + Drop>(
    answer: Result<u8, ServeFault>,
    input: Heard<I>,
    output: Heard<O>,
    journal: Kept<'a, File>,
) -> Result<u8, Ending<'a>>
    ensures status { IfOk result (λ status. answer ≡ Ok status) }
    ensures fault { IfErr result (λ ending. answer ≡ Err (fault_in ending)) }
{
    match answer {
        Ok(status) => {
            drop(input);
            drop(output);
            drop(journal);
            Ok(status)
        }
        Err(ServeFault::Cli(fault)) => {
            drop(journal);
            Err(Ending::Common(held_failure(fault, input, output)))
        }
        Err(fault) => {
            drop(input);
            drop(output);
            Err(Ending::Journal(journal.into_failure(fault)))
        }
    }
}

/// What is known of a fault that a session ended with over this input and this output.
fn held_failure<'a, I: Read + Drop, O: Write + Drop>(
    fault: CliFault,
    input: Heard<I>,
    output: Heard<O>,
) -> Failure<'a>
    ensures { result.fault ≡ fault }
{
    match fault {
        CliFault::Read => {
            drop(output);
            let refusal = input.refusal();
            drop(input);
            Failure::at(CliFault::Read, Source::Input, refusal)
        }
        CliFault::Write => {
            drop(input);
            let failure = write_failure(&output);
            drop(output);
            failure
        }
        fault => {
            drop(input);
            drop(output);
            Failure::of(fault)
        }
    }
}
