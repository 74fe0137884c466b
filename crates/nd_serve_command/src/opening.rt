//! What a session begins with, and a run that is kept.

ghost use Rattle.std.specs.Prelude.{◌≡◌, ◌==◌, [], false, length, IfOk, IfErr, OnOk, OnErr};
ghost use Rattle.nd_serve_command.specs.Crashes.{IsBegunWith};
ghost use Rattle.nd_history.specs.Premises.{Premises};
ghost use Rattle.nd_journal.specs.WholeLines.{whole_lines};
ghost use Rattle.nd_serve_command.specs.Resumes.{IsResumable};
ghost use Rattle.nd_serve_command.specs.Sessions.{AnswersAcceptedSession, OpensSession, IsOpenFault, is_unread};
ghost use Rattle.nd_serve_command.specs.Sessions.{IsJournalFault, MayHold, TakesResumable};

use crate::fault::{ServeFault, journal_fault};
use crate::opened::Opened;
use crate::reading::{JOURNAL_LIMIT, read_dispatch};
use crate::resuming::resume;
use nd_cli::{CliFault, ParkOptions, Place};
use nd_commands::close_dispatch;
use nd_devices::Told;
use nd_ledger::Dispatch;
use std::alloc::Global;
use std::io::Read;
use std::thread::Threads;

/// Reads the bundle on the input and what the options name, and then the journal with these bytes, which
/// has to be empty where it isn't to be resumed from. The journal itself isn't touched. Cut to the bytes
/// that are gone on from, it is what a session of [`serve_engine`](crate::serve_engine) begins with.
///
/// The first refusal in this order is answered: `Read`; `TooLarge` or `Drvs` for the bundle; `TooLarge` or
/// `Builders` for the builders list; `TooLarge` or `Info` for the info text; `NotEmpty`, or else `TooLarge` as a
/// history text, `BadLine` or `Illegal`, for the journal. `Memory` may come at any point. The reader is marked
/// exactly at `Read`.
#[tactic(auto, using(crate::proofs::Begun::session_refused))]
pub fn open_session<R: Read>(
    rt: &(impl Threads + Sync),
    alloc: Global,
    options: &ParkOptions,
    journal: &[u8],
    resumes: bool,
    input: &mut Told<R>,
) -> Result<Opened, ServeFault>
    requires reader { input.old.is_marked ≡ false }
    ensures opened { IfOk result (OpensSession options.now journal.now resumes (R.remaining input.old.device) (R.remaining input.new.device)) }
    ensures kept { IfOk result (λ opened. opened.kept ≡ length (whole_lines journal.now)) }
    ensures begun { IfOk result (λ opened. IsBegunWith opened.dispatch.inputs (opened.kept == 0) (whole_lines journal.now) opened.dispatch.history) }
    ensures fault { IfErr result (IsOpenFault options.now journal.now resumes R.remaining input.old input.new) }
    ensures mark { input.new.is_marked ≡ is_unread result }
    ensures exactly { AnswersAcceptedSession options.now journal.now resumes (R.remaining input.old.device) result }
{
    let dispatch = match read_dispatch(rt, alloc, options, input) {
        Ok(dispatch) => dispatch,
        Err(fault) => return Err(ServeFault::Cli(fault)),
    };
    match take_journal(alloc, dispatch, journal, resumes) {
        Ok(opened) => Ok(opened),
        Err(fault) => Err(fault),
    }
}

/// Gives a dispatch without a history the one of the journal with these bytes, which has to be empty where it
/// isn't to be resumed from. The journal itself isn't touched.
///
/// Refuses with `NotEmpty` where the journal holds something and isn't to be resumed from, and one that is to be
/// with `TooLarge`, as a history text, where it has more than [`JOURNAL_LIMIT`] bytes, or else with `BadLine` or `Illegal`,
/// as [`ResumeError`](crate::ResumeError) says. `Memory` may come at any point. The dispatch is gone then.
pub fn take_journal(
    alloc: Global,
    dispatch: Dispatch,
    journal: &[u8],
    resumes: bool,
) -> Result<Opened, ServeFault>
    requires { dispatch.history ≡ [] }
    ensures inputs { IfOk result (λ opened. opened.dispatch.inputs ≡ dispatch.inputs) }
    ensures may { OnOk result (MayHold resumes journal.now) }
    ensures history { IfOk result (λ opened. IsResumable dispatch.inputs journal.now opened.dispatch.history) }
    ensures kept { IfOk result (λ opened. opened.kept ≡ length (whole_lines journal.now)) }
    ensures begun { IfOk result (λ opened. IsBegunWith opened.dispatch.inputs (opened.kept == 0) (whole_lines journal.now) opened.dispatch.history) }
    ensures refused { IfErr result (IsJournalFault dispatch.inputs journal.now resumes) }
    ensures exactly { TakesResumable dispatch.inputs journal.now resumes result }
{
    if let Err(fault) = look_at(journal, resumes) {
        close_dispatch(dispatch);
        return Err(fault);
    }
    let mut dispatch = dispatch;
    match resume(alloc, &mut dispatch, journal) {
        Ok(kept) => Ok(Opened { dispatch, kept }),
        Err(error) => {
            close_dispatch(dispatch);
            Err(journal_fault(error))
        }
    }
}

/// Looks at whether a session may begin with a journal that holds these bytes.
///
/// `NotEmpty`: it isn't to be resumed from, and holds something. `TooLarge`: it is, and has more than [`JOURNAL_LIMIT`]
/// bytes.
#[tactic(auto, using(crate::proofs::Begun::beginnings))]
fn look_at(journal: &[u8], resumes: bool) -> Result<(), ServeFault>
    ensures may { OnOk result (MayHold resumes journal.now) }
    ensures refused { IfErr result (λ fault. (i : Premises) → IsJournalFault i journal.now resumes fault) }
    ensures unfit { OnErr result (MayHold resumes journal.now → ⊥) }
{
    if resumes {
        if journal.len() > JOURNAL_LIMIT {
            return Err(ServeFault::Cli(CliFault::TooLarge(Place::History)));
        }
        return Ok(());
    }
    if journal.is_empty() {
        return Ok(());
    }
    Err(ServeFault::NotEmpty)
}
