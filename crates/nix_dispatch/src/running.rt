//! A run by workers of any kind.

ghost use Rattle.std.specs.Prelude.{◌≡◌, map, IfErr, IfOk};
ghost use Rattle.nd_workers.specs.Runs.{AreManned};
ghost use Rattle.nix_dispatch.specs.Statuses.{fault_in};

use crate::endings::{Ending, common};
use crate::journal_files::Kept;
use nd_cli::CliFault;
use nd_command_line::write_failure;
use nd_devices::Told;
use nd_explain::{Failure, Heard};
use nd_kept_run::{KeptEnd, run_kept_engine, scribe_of};
use nd_run_command::run_engine;
use nd_serve_command::{Opened, ServeFault};
use nd_transports::Transport;
use nd_workers::Seat;
use std::alloc::Global;
use std::fs::File;
use std::io::{self, BufWriter, Write};
use std::mem;
use std::sync::Wait;
use std::thread::Threads;

/// Runs what was opened by these workers, who man its park, with this journal, and writes the history to standard
/// output, and where asked the report.
pub(crate) fn run_workers<'a, T: Transport, R: Print + AllocGlobal + Threads + Wait + Sync>(
    rt: &R,
    alloc: Global,
    opened: Opened,
    workers: Vec<Seat<T>>,
    journal: Kept<'a, File>,
    report: bool,
) -> Result<u8, Ending<'a>>
    requires manned { AreManned opened.dispatch.inputs (map (λ w. w.place) workers.items) }
{
    let Ok(buffer) = BufWriter::new(alloc, io::writer(rt)) else {
        // The process ends with the command.
        mem::forget(workers);
        mem::forget(opened);
        mem::forget(journal);
        return Err(Ending::Common(Failure::of(CliFault::Memory)));
    };
    let mut output = Told::new(Heard::new(buffer));
    match journal {
        Kept::Nowhere => {
            let Opened { dispatch, kept: _ } = opened;
            let answer = run_engine(rt, dispatch, workers, report, &mut output);
            common(ended(answer, output.into_inner()))
        }
        journal => match scribe_of(alloc, &opened, journal) {
            Ok(scribe) => {
                let Opened { dispatch, kept: _ } = opened;
                let end = run_kept_engine(rt, dispatch, workers, scribe, report, &mut output);
                kept_ended(end, output.into_inner())
            }
            Err(journal) => {
                // The process ends with the command.
                mem::forget(workers);
                mem::forget(opened);
                mem::forget(journal);
                common(ended(Err(CliFault::Memory), output.into_inner()))
            }
        },
    }
}

/// What a command answers: the status of its engine, and else what is known of the fault that it ended with over
/// this output.
fn ended<'a, W: Write + Drop>(
    answer: Result<u8, CliFault>,
    output: Heard<W>,
) -> Result<u8, Failure<'a>>
    ensures status { IfOk result (λ status. answer ≡ Ok status) }
    ensures fault { IfErr result (λ failure. answer ≡ Err failure.fault) }
{
    match answer {
        Ok(status) => {
            drop(output);
            Ok(status)
        }
        Err(fault) => Err(failed(fault, output)),
    }
}

/// The same, of a run with a journal.
fn kept_ended<'a, W: Write + Drop>(
    end: KeptEnd<Kept<'a, File>>,
    output: Heard<W>,
) -> Result<u8, Ending<'a>>
    ensures status { IfOk result (λ status. end.entry.answer ≡ Ok status) }
    ensures fault { IfErr result (λ ending. end.entry.answer ≡ Err (fault_in ending)) }
{
    let KeptEnd { answer, journal } = end;
    match answer {
        Ok(status) => {
            drop(journal);
            drop(output);
            Ok(status)
        }
        Err(ServeFault::Cli(fault)) => {
            drop(journal);
            Err(Ending::Common(failed(fault, output)))
        }
        Err(fault) => {
            drop(output);
            Err(Ending::Journal(journal.into_failure(fault)))
        }
    }
}

/// What is known of a fault that a run ended with over this output.
fn failed<'a, W: Write + Drop>(fault: CliFault, output: Heard<W>) -> Failure<'a>
    ensures { result.fault ≡ fault }
{
    match fault {
        CliFault::Write => {
            let failure = write_failure(&output);
            drop(output);
            failure
        }
        fault => {
            drop(output);
            Failure::of(fault)
        }
    }
}
