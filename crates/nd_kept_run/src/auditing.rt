//! The command `audit` over a journal.

ghost use Rattle.std.specs.Prelude.{◌≡◌, false, is_err, IfOk, IfErr, OnOk, OnErr};
ghost use Rattle.std.specs.Io.KnownBytes.{Appends};
ghost use Rattle.nd_devices.specs.Written.{WritesPart};
ghost use Rattle.nd_cli.specs.declared.fault.CliFault.{CliFault};
ghost use Rattle.nd_serve_command.specs.Sessions.{is_unread};
ghost use Rattle.nd_serve_command.specs.declared.fault.ServeFault.{ServeFault};
ghost use Rattle.nd_kept_run.specs.Audited.{AnswersAcceptedAudit, AuditsJournal, IsAuditFault, IsUnjudged};
ghost use Rattle.nd_kept_run.specs.Verdicts.{JudgesAccepted, JudgesJournal, legal_verdict, verdict_of, verdict_status, verdict_text};
ghost use Rattle.nd_kept_run.specs.Reported.{is_unwritten};

use nd_cli::{CliFault, ParkOptions};
use nd_commands::{close_dispatch, say_illegal, say_legal};
use nd_devices::Told;
use nd_history::Rule;
use nd_serve_command::{Opened, ResumeError, ServeFault, open_session};
use std::alloc::Global;
use std::io::{Read, Write};
use std::thread::Threads;

/// What is found of the history that a journal tells.
#[derive(Clone, Copy)]
enum Verdict {
    /// It is a legal one, of so many entries.
    Legal(usize),
    /// The entry at this place, from 0, is the first that is not allowed, and this is the first rule that refuses it.
    Illegal { index: usize, rule: Rule },
}

/// Writes `legal N` where the history that a journal with these bytes tells is a legal one of N entries over the bundle on
/// the input and the park of the options, and the status is 0; else `illegal INDEX RULE` with the place of the first entry
/// that is not allowed, from 0, and the first rule that refuses it, and the status is 4. The journal is read as by
/// [`report_engine`](crate::report_engine), so what that refuses for any other reason is refused here with the same words.
///
/// The first refusal in this order is answered, and nothing is written then: `Read`; `TooLarge` or `Drvs` for the
/// bundle; `TooLarge` or `Builders` for the builders list; `TooLarge` or `Info` for the info text; `TooLarge` as a
/// history text or `BadLine` for the journal. `Memory` may come at any point before the line is written. `Write` leaves a
/// part of it, from its beginning. The reader is marked exactly at `Read`, and the writer exactly at `Write`. Where a
/// reader that is known to have a whole bundle left has one that is accepted, with the park and a journal of a legal
/// history, nothing but `Read`, `Write` and `Memory` comes.
pub fn audit_journal_engine<R: Read, W: Write>(
    rt: &(impl Threads + Sync),
    alloc: Global,
    options: &ParkOptions,
    journal: &[u8],
    input: &mut Told<R>,
    output: &mut Told<W>,
) -> Result<u8, ServeFault>
    requires reader { input.old.is_marked ≡ false }
    requires writer { output.old.is_marked ≡ false }
    ensures answer { IfOk result (λ status. AuditsJournal options.now journal.now status R.remaining input.old input.new W.contents output.old output.new) }
    ensures fault { IfErr result (IsAuditFault options.now journal.now R.remaining input.old input.new W.contents output.old output.new) }
    ensures reader_mark { input.new.is_marked ≡ is_unread result }
    ensures writer_mark { output.new.is_marked ≡ is_unwritten result }
    ensures exactly { AnswersAcceptedAudit options.now journal.now R.remaining input.old W.contents output.old output.new result }
{
    match judge(rt, alloc, options, journal, input) {
        Ok(verdict) => tell(verdict, output),
        Err(fault) => Err(fault),
    }
}

/// The verdict on the history that a journal with these bytes tells, over the bundle on the input and the park of the
/// options. It is refused as [`audit_journal_engine`] says.
#[tactic(auto, using(crate::proofs::Judged::judgements))]
fn judge<R: Read>(
    rt: &(impl Threads + Sync),
    alloc: Global,
    options: &ParkOptions,
    journal: &[u8],
    input: &mut Told<R>,
) -> Result<Verdict, ServeFault>
    requires { input.old.is_marked ≡ false }
    ensures judged { IfOk result (JudgesJournal options.now journal.now (R.remaining input.old.device) (R.remaining input.new.device)) }
    ensures fault { IfErr result (IsUnjudged options.now journal.now R.remaining input.old input.new) }
    ensures mark { input.new.is_marked ≡ is_unread result }
    ensures exactly { JudgesAccepted options.now journal.now (R.remaining input.old.device) result }
{
    match open_session(rt, alloc, options, journal, true, input) {
        Ok(opened) => Ok(legal(opened)),
        Err(fault) => refused(fault),
    }
}

/// The verdict on what was opened, whose history is legal.
fn legal(opened: Opened) -> Verdict
    ensures { result ≡ legal_verdict opened.dispatch }
{
    let Opened { dispatch, kept: _ } = opened;
    let count = dispatch.history().len();
    close_dispatch(dispatch);
    Verdict::Legal(count)
}

/// The verdict that a journal which isn't gone on from gets: where an entry isn't allowed. Else there is none.
fn refused(fault: ServeFault) -> Result<Verdict, ServeFault>
    ensures { result ≡ verdict_of fault }
{
    match fault {
        ServeFault::Journal(ResumeError::Illegal { index, rule }) => {
            Ok(Verdict::Illegal { index, rule })
        }
        fault => Err(fault),
    }
}

/// Writes a verdict, and answers the status. `Write`: the writer refused, and is marked; a part of the line may be out.
fn tell<W: Write>(verdict: Verdict, output: &mut Told<W>) -> Result<u8, ServeFault>
    requires { output.old.is_marked ≡ false }
    ensures status { IfOk result (λ status. status ≡ verdict_status verdict) }
    ensures written { OnOk result (Appends (W.contents output.old.device) (W.contents output.new.device) (verdict_text verdict)) }
    ensures partly { OnErr result (WritesPart (W.contents output.old.device) (W.contents output.new.device) (verdict_text verdict)) }
    ensures fault { IfErr result (λ fault. fault ≡ ServeFault.Cli CliFault.Write) }
    ensures mark { output.new.is_marked ≡ is_err result }
{
    match say(verdict, output) {
        Ok(status) => Ok(status),
        Err(_) => Err(ServeFault::Cli(CliFault::Write)),
    }
}

/// The same, over a writer alone.
fn say<W: Write>(verdict: Verdict, output: &mut Told<W>) -> Result<u8, CliFault>
    requires { output.old.is_marked ≡ false }
    ensures status { IfOk result (λ status. status ≡ verdict_status verdict) }
    ensures written { OnOk result (Appends (W.contents output.old.device) (W.contents output.new.device) (verdict_text verdict)) }
    ensures partly { OnErr result (WritesPart (W.contents output.old.device) (W.contents output.new.device) (verdict_text verdict)) }
    ensures fault { IfErr result (λ e. e ≡ CliFault.Write) }
    ensures mark { output.new.is_marked ≡ is_err result }
{
    match verdict {
        Verdict::Legal(count) => say_legal(count, output),
        Verdict::Illegal { index, rule } => say_illegal(index, rule, output),
    }
}
