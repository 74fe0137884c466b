//! The commands that look at a journal: `report`, and `audit` where a journal is given.

ghost use Rattle.std.specs.Prelude.{◌≡◌, false, IfErr, IfOk};
ghost use Rattle.nix_dispatch.specs.Looked.{AnswersAbout, IsUnansweredFor};
ghost use Rattle.nix_dispatch.specs.Statuses.{fault_in};

use crate::endings::Ending;
use crate::journal_files::read_aside;
use clap::ArgMatches;
use nd_cli::{CliFault, ParkOptions};
use nd_command_line::{Inputs, read_inputs, write_failure};
use nd_devices::Told;
use nd_explain::{Failure, Heard};
use nd_kept_run::{audit_journal_engine, report_engine};
use nd_serve_command::{JournalFailure, ServeFault};
use std::alloc::Global;
use std::fs::File;
use std::io::{self, BufWriter, Read, Write};
use std::rt::Files;
use std::thread::Threads;

/// What is asked of the history that a journal tells.
#[derive(Clone, Copy)]
pub(crate) enum Question {
    /// Its report.
    Report,
    /// Whether it is legal.
    Audit,
}

/// Writes the report of the history that the journal tells.
pub(crate) fn report<'a, R: Files<File = File> + Input + Print + AllocGlobal + Threads + Sync>(
    rt: &R,
    alloc: Global,
    options: &ArgMatches<'a>,
) -> Result<u8, Ending<'a>> {
    let name = options.get_str("journal").unwrap_or("");
    look_at(rt, alloc, options, name, Question::Report)
}

/// Writes what is asked of the history that the journal of this name tells. Its file isn't locked, and nothing is
/// written to it.
pub(crate) fn look_at<'a, R: Files<File = File> + Input + Print + AllocGlobal + Threads + Sync>(
    rt: &R,
    alloc: Global,
    options: &ArgMatches<'a>,
    name: &'a str,
    asked: Question,
) -> Result<u8, Ending<'a>> {
    let journal = read_aside(rt, alloc, name)?;
    let answer = look_at_bytes(rt, alloc, options, name, journal.as_slice(), asked);
    drop(journal);
    answer
}

/// The same, of a journal with these bytes.
fn look_at_bytes<'a, R: Files + Input + Print + AllocGlobal + Threads + Sync>(
    rt: &R,
    alloc: Global,
    options: &ArgMatches<'a>,
    name: &'a str,
    journal: &[u8],
    asked: Question,
) -> Result<u8, Ending<'a>> {
    let mut inputs = match read_inputs(rt, alloc, options, None) {
        Ok(inputs) => inputs,
        Err(failure) => return Err(Ending::Common(failure)),
    };
    let Ok(buffer) = BufWriter::new(alloc, io::writer(rt)) else {
        drop(inputs);
        return Err(Ending::Common(Failure::of(CliFault::Memory)));
    };
    let mut output = Told::new(Heard::new(buffer));
    let answer = answer_about(
        rt,
        alloc,
        asked,
        &inputs.park,
        journal,
        &mut inputs.bundle,
        &mut output,
    );
    looked(
        alloc,
        options,
        Journal {
            name,
            bytes: journal,
        },
        inputs,
        answer,
        output,
    )
}

/// Writes the answer to what is asked of the history that a journal with these bytes tells, over the bundle on the
/// input and the park of the options.
fn answer_about<R: Read, W: Write>(
    rt: &(impl Threads + Sync),
    alloc: Global,
    asked: Question,
    park: &ParkOptions,
    journal: &[u8],
    input: &mut Told<R>,
    output: &mut Told<W>,
) -> Result<u8, ServeFault>
    requires reader { input.old.is_marked ≡ false }
    requires writer { output.old.is_marked ≡ false }
    ensures answer { IfOk result (λ status. AnswersAbout asked park.now journal.now status R.remaining input.old input.new W.contents output.old output.new) }
    ensures fault { IfErr result (IsUnansweredFor asked park.now journal.now R.remaining input.old input.new W.contents output.old output.new) }
{
    match asked {
        Question::Report => report_engine(rt, alloc, park, journal, input, output),
        Question::Audit => audit_journal_engine(rt, alloc, park, journal, input, output),
    }
}

/// A journal that was read.
#[derive(Clone, Copy)]
struct Journal<'a, 'b> {
    /// Its name.
    name: &'a str,
    /// Its bytes.
    bytes: &'b [u8],
}

/// What a command answers: the status of its engine, and else what is known of the fault that it ended with over
/// this journal, these inputs and this output.
fn looked<'a, I: Read + Drop, F: Read + Drop, W: Write + Drop>(
    alloc: Global,
    options: &ArgMatches<'a>,
    journal: Journal<'a, '_>,
    inputs: Inputs<I, F>,
    answer: Result<u8, ServeFault>,
    output: Told<Heard<W>>,
) -> Result<u8, Ending<'a>>
    ensures status { IfOk result (λ status. answer ≡ Ok status) }
    ensures fault { IfErr result (λ ending. answer ≡ Err (fault_in ending)) }
{
    match answer {
        Ok(status) => {
            drop(inputs);
            drop(output);
            Ok(status)
        }
        Err(ServeFault::Cli(fault)) => {
            Err(Ending::Common(unanswered(alloc, options, inputs, fault, output)))
        }
        Err(fault) => {
            drop(inputs);
            drop(output);
            let Journal { name, bytes } = journal;
            Err(Ending::Journal(JournalFailure::of_bytes(alloc, fault, name, bytes)))
        }
    }
}

/// What is known of a fault that isn't the journal's, over these inputs and this output.
fn unanswered<'a, I: Read + Drop, F: Read + Drop, W: Write + Drop>(
    alloc: Global,
    options: &ArgMatches<'a>,
    inputs: Inputs<I, F>,
    fault: CliFault,
    output: Told<Heard<W>>,
) -> Failure<'a>
    ensures { result.fault ≡ fault }
{
    let output = output.into_inner();
    match fault {
        CliFault::Write => {
            drop(inputs);
            let failure = write_failure(&output);
            drop(output);
            failure
        }
        fault => {
            drop(output);
            inputs.failure(alloc, options, fault)
        }
    }
}
