//! A run with a journal, and what is written of it.

ghost use Rattle.std.specs.Prelude.{◌≡◌, ◌==◌, ◌↔◌, None, false, not, reverse, map, vec_len, IfOk, IfErr, IsTrue};
ghost use Rattle.nd_cli.specs.declared.fault.CliFault.{CliFault};
ghost use Rattle.nd_history.specs.Legal.{IsLegal};
ghost use Rattle.nd_keeping.specs.Scribing.{BeginsScribing, HoldsDurably, journal_text};
ghost use Rattle.nd_kept_run.specs.KeptRuns.{ComesBackKept, HoldsHistory, RunsKeptTo, IsKeptFault, IsEndFault, IsToldOf};
ghost use Rattle.nd_run_command.specs.Ended.{IsStatusOf};
ghost use Rattle.nd_run_command.specs.Ran.{EndsIn};
ghost use Rattle.nd_run_desk.specs.Leaves.{IsFrontOf};
ghost use Rattle.nd_workers.specs.Runs.{AreManned};

use crate::kept_end::KeptEnd;
use nd_cli::CliFault;
use nd_devices::Told;
use nd_keeping::{Journal, Scribe};
use nd_ledger::Dispatch;
use nd_report::exit_status;
use nd_run_command::{refusal, write_end};
use nd_serve_command::{Opened, ServeFault};
use nd_transports::Transport;
use nd_workers::{NotWritten, RunFault, Seat, Written, run_kept};
use std::alloc::Global;
use std::io::Write;
use std::mem;
use std::sync::Wait;
use std::thread::Threads;

/// The scribe of a journal that holds the history of what was opened, durable. It takes no memory.
///
/// Hands the journal back where there are 2^62 entries or more.
pub fn scribe_of<J: Journal>(alloc: Global, opened: &Opened, journal: J) -> Result<Scribe<J>, J>
    requires { HoldsDurably (J.stored journal) (journal_text (not (opened.now.kept == 0)) opened.now.dispatch.history) }
    ensures begins { IfOk result (λ scribe. BeginsScribing scribe (J.stored journal) (not (opened.now.kept == 0)) opened.now.dispatch.history) }
    ensures back { IfErr result (λ back. back ≡ journal) }
{
    let Opened { dispatch, kept } = opened;
    Scribe::new(alloc, journal, *kept != 0, dispatch.history())
}

/// Runs a dispatch with these workers, one for each slot of the park, whose transports are of one type, and keeps
/// each entry in the scribe's journal, which holds its first entries already, before anything is begun behind it.
/// Then writes the text of the whole history, the entries that the journal held first, and where asked the report.
/// Unless it ends with `Receipts`, nothing is leased or waits in the end, each worker's transport was called just as
/// the receipts of its entries say, and each time once the lease's choice, and for a build its start, was durable in
/// that journal; and unless it ends with that or with `JournalFailed` the journal holds the whole history, durable.
/// The status is 1 where a derivation failed or was cancelled, and else 0.
///
/// `TooManySlots`: there are more than 1,024 workers, and nothing is written. `Write`: the writer refused, and is
/// marked; a part of the text, from its beginning, is out. `Thread`, `Memory`, `Receipts` and `JournalFailed`: the
/// run ended with that fault, and what came back is written before. `Memory` also where there was none to begin
/// with; then nothing is written.
pub fn run_kept_engine<T: Transport, J: Journal + Send + Drop, R: Threads + Wait + Sync, W: Write>(
    rt: &R,
    dispatch: Dispatch,
    workers: Vec<Seat<T>>,
    scribe: Scribe<J>,
    report: bool,
    output: &mut Told<W>,
) -> KeptEnd<J>
    requires manned { AreManned dispatch.inputs (map (λ w. w.place) workers.items) }
    requires handed { IsFrontOf scribe.handed.entries dispatch.history }
    requires durable { IsFrontOf scribe.kept.entries dispatch.history }
    requires writer { output.old.is_marked ≡ false }
    ensures answer { IfOk result.answer (RunsKeptTo (ComesBackKept T.state scribe dispatch workers.items) report (J.stored result.journal) W.contents output.old output.new) }
    ensures fault { IfErr result.answer (IsKeptFault (ComesBackKept T.state scribe dispatch workers.items) (vec_len workers) report scribe.stored (J.stored result.journal) W.contents output.old output.new) }
    ensures mark { IsTrue output.new.is_marked ↔ (result.answer ≡ Err (ServeFault.Cli CliFault.Write)) }
{
    // What comes back is left to the system: the process ends with the command, and to let go of a large dispatch
    // takes long.
    match run_kept(rt, dispatch, workers, scribe) {
        Ok(written) => {
            let Written { run, scribe } = written;
            let answer = write_and_answer(&run.dispatch, run.fault, report, output);
            mem::forget(run);
            KeptEnd {
                answer,
                journal: journal_of(scribe),
            }
        }
        Err(refused) => {
            let NotWritten { run, scribe } = refused;
            let fault = refusal(run.why);
            mem::forget(run);
            KeptEnd {
                answer: Err(ServeFault::Cli(fault)),
                journal: scribe.into_journal(),
            }
        }
    }
}

/// The journal of a scribe.
#[tactic(auto, using(crate::proofs::Kept::journal_held))]
fn journal_of<J: Journal>(scribe: Scribe<J>) -> J
    ensures { scribe.refused ≡ false → HoldsHistory (J.stored result) scribe.kept.entries }
{
    // For the proof: what a scribe keeps is what its journal holds.
    let _handed = scribe.handed();
    scribe.into_journal()
}

/// Writes what came back of a run, and answers its status or its fault.
fn write_and_answer<W: Write>(
    dispatch: &Dispatch,
    fault: Option<RunFault>,
    report: bool,
    output: &mut Told<W>,
) -> Result<u8, ServeFault>
    requires { output.old.is_marked ≡ false }
    ensures legal { IsLegal dispatch.now.inputs (reverse dispatch.now.history) }
    ensures answer { IfOk result (λ status. EndsIn dispatch.now fault report status (W.contents output.old.device) (W.contents output.new.device)) }
    ensures fault { IfErr result (IsEndFault dispatch.now fault report (W.contents output.old.device) (W.contents output.new.device)) }
    ensures mark { IsTrue output.new.is_marked ↔ (result ≡ Err (ServeFault.Cli CliFault.Write)) }
{
    match write_end(dispatch, report, output) {
        Ok(()) => status_or_fault(dispatch, fault),
        Err(_) => Err(ServeFault::Cli(CliFault::Write)),
    }
}

/// The status of a run that ended without a fault, and else the fault.
fn status_or_fault(dispatch: &Dispatch, fault: Option<RunFault>) -> Result<u8, ServeFault>
    ensures status { IfOk result (λ status. (fault ≡ None) × IsStatusOf dispatch.now status) }
    ensures fault { IfErr result (IsToldOf fault) }
{
    match fault {
        None => Ok(exit_status(dispatch)),
        Some(RunFault::Thread) => Err(ServeFault::Cli(CliFault::Thread)),
        Some(RunFault::Memory) => Err(ServeFault::Cli(CliFault::Memory)),
        Some(RunFault::Receipts) => Err(ServeFault::Cli(CliFault::Receipts)),
        Some(RunFault::Journal) => Err(ServeFault::JournalFailed),
    }
}
