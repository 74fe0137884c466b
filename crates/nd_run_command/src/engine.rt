//! A run, and what is written of it.

ghost use Rattle.std.specs.Prelude.{◌≡◌, ◌↔◌, false, reverse, map, vec_len, Some, IfOk, IfErr, IsTrue};
ghost use Rattle.nd_history.specs.Legal.{IsLegal};
ghost use Rattle.nd_workers.specs.Runs.{AreManned};
ghost use Rattle.nd_run_command.specs.Ran.{ComesBack, RunsTo, IsRunFault, EndsIn, IsEndFault};

use crate::ending::{refusal, status_or_fault, write_end};
use nd_cli::CliFault;
use nd_devices::Told;
use nd_ledger::Dispatch;
use nd_transports::Transport;
use nd_workers::{RunFault, Seat, run};
use std::io::Write;
use std::mem;
use std::sync::Wait;
use std::thread::Threads;

/// Runs a dispatch with these workers, one for each slot of the park, whose transports are of one type, and writes
/// the text of its history, and then where asked the report. Unless it ends with `Receipts`, nothing is leased or
/// waits in the end, and each worker's transport was called just as the receipts of its entries say. The status is 1 where a derivation failed or was cancelled, and else 0.
///
/// `TooManySlots`: there are more than 1,024 workers, and nothing is written. `Write`: the writer
/// refused, and is marked; a part of the text, from its beginning, is out. `Thread`, `Memory` and
/// `Receipts`: the run ended with that fault, and what came back is written before. `Memory` also where
/// there was none to begin with; then nothing is written.
#[tactic(auto, using(crate::proofs::Endings::never_slots, crate::proofs::Endings::runs_to, crate::proofs::Endings::came_back))]
pub fn run_engine<T: Transport, R: Threads + Wait + Sync, W: Write>(
    rt: &R,
    dispatch: Dispatch,
    workers: Vec<Seat<T>>,
    report: bool,
    output: &mut Told<W>,
) -> Result<u8, CliFault>
    requires manned { AreManned dispatch.inputs (map (λ w. w.place) workers.items) }
    requires writer { output.old.is_marked ≡ false }
    ensures answer { IfOk result (λ status. RunsTo (ComesBack T.state dispatch workers.items) report status (W.contents output.old.device) (W.contents output.new.device)) }
    ensures fault { IfErr result (IsRunFault (ComesBack T.state dispatch workers.items) (vec_len workers) report W.contents output.old output.new) }
    ensures mark { IsTrue output.new.is_marked ↔ (result ≡ Err CliFault.Write) }
{
    // What comes back is left to the system: the process ends with the command, and to let go of a large dispatch
    // takes long.
    match run(rt, dispatch, workers) {
        Ok(end) => {
            let answer = write_and_answer(&end.dispatch, end.fault, report, output);
            mem::forget(end);
            answer
        }
        Err(refused) => {
            let fault = refusal(refused.why);
            mem::forget(refused);
            Err(fault)
        }
    }
}

/// Writes what came back of a run, and answers its status or its fault.
fn write_and_answer<W: Write>(
    dispatch: &Dispatch,
    fault: Option<RunFault>,
    report: bool,
    output: &mut Told<W>,
) -> Result<u8, CliFault>
    requires writer { output.old.is_marked ≡ false }
    requires unkept { fault ≡ Some RunFault.Journal → ⊥ }
    ensures legal { IsLegal dispatch.now.inputs (reverse dispatch.now.history) }
    ensures answer { IfOk result (λ status. EndsIn dispatch.now fault report status (W.contents output.old.device) (W.contents output.new.device)) }
    ensures fault { IfErr result (IsEndFault dispatch.now fault report (W.contents output.old.device) (W.contents output.new.device)) }
    ensures mark { IsTrue output.new.is_marked ↔ (result ≡ Err CliFault.Write) }
{
    match write_end(dispatch, report, output) {
        Ok(()) => status_or_fault(dispatch, fault),
        Err(_) => Err(CliFault::Write),
    }
}
