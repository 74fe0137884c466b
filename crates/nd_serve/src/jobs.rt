//! The job of a lease, as it is answered.

ghost use Rattle.std.specs.Prelude.{◌≡◌, ◌<◌, length, reverse, codes, IfOk, OnOk};
ghost use Rattle.std.specs.Io.KnownBytes.{Appends};
ghost use Rattle.nd_path.specs.PathSets.{IsRising};
ghost use Rattle.nd_ledger.specs.Refusals.{IsLive};
ghost use Rattle.nd_history_text.specs.Rows.{row, texts_of};
ghost use Rattle.nd_serve.specs.Steps.{WritesJob, WritesJobOf};
ghost use Rattle.nd_serve.specs.Turns.{job_words};

use nd_devices::{Fault, Page, Told, WriteError};
use nd_history_text::rows::{Word, put_row};
use nd_leases::Ticket;
use nd_ledger::{Dispatch, Job, Refusal};
use nd_sim::{live_ticket, write_refused};
use std::alloc::{AllocError, Global};
use std::io;

/// Writes the job of the derivation's lease, or that it has none.
#[tactic(auto, using(crate::proofs::JobRows::jobs))]
pub(crate) fn write_job<W: io::Write>(
    alloc: Global,
    dispatch: &Dispatch,
    drv: u32,
    out: &mut Told<W>,
) -> Result<(), AllocError>
    requires { drv < length dispatch.now.inputs.graph.paths }
    ensures { OnOk result (WritesJob dispatch.now.inputs (reverse dispatch.now.history) drv (W.contents out.old.device) (W.contents out.new.device)) }
{
    match live_ticket(dispatch, drv) {
        Ok(ticket) => write_leased(alloc, dispatch, ticket, out),
        Err(refusal) => match write_refused(refusal, out) {
            Ok(()) => Ok(()),
            Err(WriteError::Write) => Err(AllocError),
        },
    }
}

/// Writes the job of a live lease.
#[tactic(auto, using(crate::proofs::JobRows::leased))]
fn write_leased<W: io::Write>(
    alloc: Global,
    dispatch: &Dispatch,
    ticket: Ticket,
    out: &mut Told<W>,
) -> Result<(), AllocError>
    requires { IsLive (reverse dispatch.now.history) ticket }
    ensures { OnOk result (WritesJobOf dispatch.now.inputs (reverse dispatch.now.history) ticket (W.contents out.old.device) (W.contents out.new.device)) }
{
    let job = match dispatch.job(alloc, &ticket) {
        Ok(job) => job,
        Err(_refusal) => return Err(AllocError),
    };
    let words = words_of(alloc, &job)?;
    match write_row(&words, out) {
        Ok(()) => Ok(()),
        Err(Fault) => Err(AllocError),
    }
}

/// The words of a job behind the first.
fn words_of<'a>(alloc: Global, job: &'a Job) -> Result<Vec<Word<'a>>, AllocError>
    ensures rising { OnOk result (IsRising job.now.paths) }
    ensures words { IfOk result (λ words. texts_of words.items ≡ job_words job.now.ticket job.now.path job.now.paths) }
{
    let mut words = Vec::new(alloc);
    words.push(Word::Number(job.ticket.drv as usize))?;
    words.push(Word::Number(job.ticket.machine as usize))?;
    words.push(Word::Number(job.ticket.slot as usize))?;
    words.push(Word::Text(job.path.bytes()))?;
    for path in job.paths.as_slice() {
        words.push(Word::Text(path.bytes()))?;
    }
    Ok(words)
}

/// Writes a job's line.
#[tactic(auto, using(nd_devices::proofs::Sent::ends))]
fn write_row<W: io::Write>(words: &[Word<'_>], out: &mut Told<W>) -> Result<(), Fault>
    ensures { OnOk result (Appends (W.contents out.old.device) (W.contents out.new.device) (row (codes "job") (texts_of words.now))) }
{
    let mut page = Page::new();
    put_row(b"job", words, &mut page, out)?;
    page.send(out)
}
