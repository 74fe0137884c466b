//! The command `report`.

ghost use Rattle.std.specs.Prelude.{◌≡◌, ◌||◌, false, is_err, IfOk, IfErr, OnOk, OnErr};
ghost use Rattle.nd_cli.specs.declared.fault.CliFault.{CliFault};
ghost use Rattle.nd_serve_command.specs.Sessions.{is_unread};
ghost use Rattle.nd_kept_run.specs.Reported.{AnswersAcceptedReport, IsReportFault, ReportsJournal, ReportsPartTo, ReportsTo, is_unwritten};

use nd_cli::{CliFault, ParkOptions};
use nd_commands::close_dispatch;
use nd_devices::{Told, WriteError};
use nd_ledger::Dispatch;
use nd_report::write_report;
use nd_serve_command::{Opened, ServeFault, open_session};
use std::alloc::Global;
use std::io::{Read, Write};
use std::thread::Threads;

/// Writes the report of the history that the whole lines of a journal with these bytes tell, over the bundle on
/// the input and the park of the options. The status is 0.
///
/// The first refusal in this order is answered, and nothing is written then: `Read`; `TooLarge` or `Drvs` for the
/// bundle; `TooLarge` or `Builders` for the builders list; `TooLarge` or `Info` for the info text; `TooLarge` as a
/// history text, `BadLine` or `Illegal` for the journal. `Memory` may come at any point before the report is
/// written. `Write` leaves a part of it, from its beginning. The reader is marked exactly at `Read`, and the writer
/// exactly at `Write`. Where a reader that is known to have a whole bundle left has one that is accepted, with the
/// park and the journal, nothing but `Read`, `Write` and `Memory` comes.
pub fn report_engine<R: Read, W: Write>(
    rt: &(impl Threads + Sync),
    alloc: Global,
    options: &ParkOptions,
    journal: &[u8],
    input: &mut Told<R>,
    output: &mut Told<W>,
) -> Result<u8, ServeFault>
    requires reader { input.old.is_marked ≡ false }
    requires writer { output.old.is_marked ≡ false }
    ensures status { IfOk result (λ status. status ≡ 0) }
    ensures answer { OnOk result (ReportsJournal options.now journal.now R.remaining input.old input.new W.contents output.old output.new) }
    ensures fault { IfErr result (IsReportFault options.now journal.now R.remaining input.old input.new W.contents output.old output.new) }
    ensures reader_mark { input.new.is_marked ≡ is_unread result }
    ensures writer_mark { output.new.is_marked ≡ is_unwritten result }
    ensures exactly { AnswersAcceptedReport options.now journal.now R.remaining input.old W.contents output.old output.new result }
{
    match open_session(rt, alloc, options, journal, true, input) {
        Ok(opened) => report_opened(opened, output),
        Err(fault) => Err(fault),
    }
}

/// Writes the report of the dispatch that was opened, and answers the status.
fn report_opened<W: Write>(opened: Opened, output: &mut Told<W>) -> Result<u8, ServeFault>
    requires { output.old.is_marked ≡ false }
    ensures status { IfOk result (λ status. status ≡ 0) }
    ensures written { OnOk result (ReportsTo opened.dispatch W.contents output.old output.new) }
    ensures partly { OnErr result (ReportsPartTo opened.dispatch W.contents output.old output.new) }
    ensures fault { IfErr result (λ fault. fault ≡ ServeFault.Cli CliFault.Write) }
    ensures mark { output.new.is_marked ≡ is_err result }
{
    let Opened { dispatch, kept: _ } = opened;
    match send_report(&dispatch, output) {
        Ok(()) => {
            close_dispatch(dispatch);
            Ok(0)
        }
        Err(_) => {
            close_dispatch(dispatch);
            Err(ServeFault::Cli(CliFault::Write))
        }
    }
}

/// Writes the report of a dispatch, and has the writer pass on what it holds back.
///
/// `Write`: the writer refused, and is marked; a part of the report, from its beginning, may be out.
#[tactic(auto, using(crate::proofs::Told::sending))]
fn send_report<W: Write>(dispatch: &Dispatch, output: &mut Told<W>) -> Result<(), WriteError>
    ensures written { OnOk result (ReportsTo dispatch.now W.contents output.old output.new) }
    ensures partly { OnErr result (ReportsPartTo dispatch.now W.contents output.old output.new) }
    ensures mark { output.new.is_marked ≡ (output.old.is_marked || is_err result) }
{
    write_report(dispatch, output)?;
    match output.flush() {
        Ok(()) => Ok(()),
        Err(_) => Err(WriteError::Write),
    }
}
