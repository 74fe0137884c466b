//! What is written of a run, its status, and why there is none.

ghost use Rattle.std.specs.Prelude.{◌≡◌, ◌||◌, false, is_err, reverse, Some, None, IfOk, IfErr, OnOk, OnErr};
ghost use Rattle.std.specs.Io.KnownBytes.{Keeps};
ghost use Rattle.nd_history.specs.Legal.{IsLegal};
ghost use Rattle.nd_run_command.specs.Ended.{WritesEnd, WritesEndPart, IsStatusOf, IsToldOf};
ghost use Rattle.nd_run_command.specs.Ran.{IsRefusedAs};

use nd_cli::CliFault;
use nd_devices::{Told, WriteError};
use nd_history_text::write_history;
use nd_ledger::Dispatch;
use nd_report::{exit_status, write_report};
use nd_workers::{RunError, RunFault};
use std::io::Write;

/// Writes the history, and then where asked the report; then it has the writer pass on what it holds
/// back. It takes no memory.
///
/// `Write`: the writer refused, and is marked; a part of the text, from its beginning, is out.
pub fn write_end<W: Write>(
    dispatch: &Dispatch,
    report: bool,
    output: &mut Told<W>,
) -> Result<(), WriteError>
    ensures written { OnOk result (WritesEnd dispatch.now report (W.contents output.old.device) (W.contents output.new.device)) }
    ensures partly { OnErr result (WritesEndPart dispatch.now report (W.contents output.old.device) (W.contents output.new.device)) }
    ensures mark { output.new.is_marked ≡ (output.old.is_marked || is_err result) }
    ensures legal { IsLegal dispatch.now.inputs (reverse dispatch.now.history) }
{
    write_history(dispatch.history(), output)?;
    if !report {
        return pass_on(output);
    }
    match write_report(dispatch, output) {
        Ok(()) => pass_on(output),
        Err(refusal) => Err(refusal),
    }
}

/// Has the writer pass on what it holds back.
fn pass_on<W: Write>(output: &mut Told<W>) -> Result<(), WriteError>
    ensures kept { Keeps (W.contents output.old.device) (W.contents output.new.device) }
    ensures mark { output.new.is_marked ≡ (output.old.is_marked || is_err result) }
{
    match output.flush() {
        Ok(()) => Ok(()),
        Err(_) => Err(WriteError::Write),
    }
}

/// The status of a run that ended without a fault, and else the fault, of one that keeps no journal.
pub(crate) fn status_or_fault(dispatch: &Dispatch, fault: Option<RunFault>) -> Result<u8, CliFault>
    requires { fault ≡ Some RunFault.Journal → ⊥ }
    ensures status { IfOk result (λ status. (fault ≡ None) × IsStatusOf dispatch.now status) }
    ensures fault { IfErr result (IsToldOf fault) }
{
    match fault {
        None => Ok(exit_status(dispatch)),
        Some(RunFault::Thread) => Err(CliFault::Thread),
        Some(RunFault::Memory) => Err(CliFault::Memory),
        Some(RunFault::Receipts) => Err(CliFault::Receipts),
        Some(RunFault::Journal) => unreachable!(),
    }
}

/// The fault of a refused run, whose workers were one for each slot.
pub fn refusal(why: RunError) -> CliFault
    requires { why ≡ RunError.Slots → ⊥ }
    ensures { IsRefusedAs why result }
{
    match why {
        RunError::Slots => unreachable!(),
        RunError::TooManySlots => CliFault::TooManySlots,
        RunError::Memory => CliFault::Memory,
    }
}
