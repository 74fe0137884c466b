//! What a line does and what is written of it, before any of that leaves the program.

ghost use Rattle.std.specs.Prelude.{◌≡◌, ◌≤◌, ◌++◌, length, IfOk, OnOk};
ghost use Rattle.nd_history.specs.Choices.{machines_in};
ghost use Rattle.nd_serve.specs.Asked.{Asks};
ghost use Rattle.nd_serve.specs.Sessions.{first_of};
ghost use Rattle.nd_serve.specs.Turns.{ready_line, unknown_line};
ghost use Rattle.nd_serve.specs.Steps.{AreLinesSince, IsRequestNamed, IsAnswer, IsPrepared, IsOpeningAnswer, PreparesOpening, RepliesBetween};

use crate::asking::read_request;
use crate::jobs::write_job;
use crate::request::Request;
use nd_devices::{Fault, Told, WriteError};
use nd_journal::{first_line, look_at};
use nd_ledger::Dispatch;
use nd_report::write_report;
use nd_sim::{pump, turn, write_added};
use std::alloc::{AllocError, Global};
use std::io;

/// What is to leave the program of a turn.
#[derive(Drop)]
pub(crate) struct Prepared {
    /// The lines for the journal.
    pub(crate) lines: Vec<u8>,
    /// The answer.
    pub(crate) answer: Vec<u8>,
}

/// Does what a line asks for, with the steps of the pump behind it.
#[tactic(auto, using(crate::proofs::Prepares::prepared))]
pub(crate) fn prepare(
    alloc: Global,
    dispatch: &mut Dispatch,
    line: &[u8],
) -> Result<Prepared, AllocError>
    ensures inputs { dispatch.new.inputs ≡ dispatch.old.inputs }
    ensures prepared { IfOk result (λ p. IsPrepared dispatch.old.inputs dispatch.old.history dispatch.new.history line.now p.answer.items p.lines.items) }
{
    let before = dispatch.history().len();
    let request = request_of(alloc, dispatch, line)?;
    let answer = answer(alloc, dispatch, request)?;
    let lines = lines_since(alloc, &[], dispatch, before)?;
    Ok(Prepared { lines, answer })
}

/// Takes the steps of the pump that are due, for the opening of a session.
#[tactic(auto, using(crate::proofs::Prepares::opened))]
pub(crate) fn prepare_opening(
    alloc: Global,
    dispatch: &mut Dispatch,
    fresh: bool,
) -> Result<Prepared, AllocError>
    ensures inputs { dispatch.new.inputs ≡ dispatch.old.inputs }
    ensures prepared { IfOk result (λ p. PreparesOpening dispatch.old dispatch.new (first_of fresh) p.answer.items p.lines.items) }
{
    let before = dispatch.history().len();
    let answer = opening_answer(alloc, dispatch)?;
    let lines = lines_since(alloc, first_bytes(fresh), dispatch, before)?;
    Ok(Prepared { lines, answer })
}

/// What a line asks this dispatch for.
fn request_of(alloc: Global, dispatch: &Dispatch, line: &[u8]) -> Result<Request, AllocError>
    ensures asks { IfOk result (Asks (length dispatch.now.inputs.graph.paths) (machines_in dispatch.now.inputs) line.now) }
    ensures named { IfOk result (IsRequestNamed dispatch.now.inputs) }
{
    let drvs = dispatch.graph().len();
    let machines = dispatch.machine_count() as usize;
    read_request(alloc, line, drvs, machines)
}

/// The answer to a request, with the line that ends it.
#[tactic(auto, using(crate::proofs::Prepares::answers))]
fn answer(alloc: Global, dispatch: &mut Dispatch, request: Request) -> Result<Vec<u8>, AllocError>
    requires { IsRequestNamed dispatch.old.inputs request }
    ensures inputs { dispatch.new.inputs ≡ dispatch.old.inputs }
    ensures answered { IfOk result (λ v. IsAnswer dispatch.old.inputs dispatch.old.history dispatch.new.history request v.items) }
{
    let mut out = Told::new(Vec::new(alloc));
    reply(alloc, dispatch, request, &mut out)?;
    end_answer(out)
}

/// The answer that opens a session, with the line that ends it.
#[tactic(auto, using(crate::proofs::Prepares::opening_answered))]
fn opening_answer(alloc: Global, dispatch: &mut Dispatch) -> Result<Vec<u8>, AllocError>
    ensures inputs { dispatch.new.inputs ≡ dispatch.old.inputs }
    ensures answered { IfOk result (λ v. IsOpeningAnswer dispatch.old.inputs dispatch.old.history dispatch.new.history v.items) }
{
    let mut out = Told::new(Vec::new(alloc));
    match pump(dispatch, &mut out) {
        Ok(()) => {}
        Err(_) => return Err(AllocError),
    }
    end_answer(out)
}

/// The text so far, with the line that ends an answer.
fn end_answer(out: Told<Vec<u8>>) -> Result<Vec<u8>, AllocError>
    ensures { IfOk result (λ v. v.items ≡ out.device.items ++ ready_line) }
{
    let mut out = out;
    match out.put_all(ready()) {
        Ok(()) => Ok(out.into_inner()),
        Err(Fault) => Err(AllocError),
    }
}

/// Does what a request asks for, and writes the reply.
fn reply<W: io::Write>(
    alloc: Global,
    dispatch: &mut Dispatch,
    request: Request,
    out: &mut Told<W>,
) -> Result<(), AllocError>
    requires { IsRequestNamed dispatch.old.inputs request }
    ensures inputs { dispatch.new.inputs ≡ dispatch.old.inputs }
    ensures written { OnOk result (RepliesBetween dispatch.old dispatch.new request (W.contents out.old.device) (W.contents out.new.device)) }
{
    match request {
        Request::Call(command) => match turn(alloc, dispatch, command, out) {
            Ok(()) => Ok(()),
            Err(_) => Err(AllocError),
        },
        Request::Job { drv } => write_job(alloc, dispatch, drv, out),
        Request::Report => match write_report(dispatch, out) {
            Ok(()) => Ok(()),
            Err(WriteError::Write) => Err(AllocError),
        },
        Request::Unknown => match out.put_all(unknown()) {
            Ok(()) => Ok(()),
            Err(Fault) => Err(AllocError),
        },
    }
}

/// These bytes, and the lines of the entries from the one with number `before` on.
#[tactic(auto, using(crate::proofs::Prepares::lines_since))]
fn lines_since(
    alloc: Global,
    first: &[u8],
    dispatch: &Dispatch,
    before: usize,
) -> Result<Vec<u8>, AllocError>
    requires { before ≤ length dispatch.now.history }
    ensures { IfOk result (λ v. AreLinesSince before dispatch.now.history first.now v.items) }
{
    let (_, added) = dispatch.history().split_at(before);
    look_at(added);
    let mut out = Told::new(Vec::from_slice(alloc, first)?);
    match write_added(dispatch, before, &mut out) {
        Ok(()) => Ok(out.into_inner()),
        Err(WriteError::Write) => Err(AllocError),
    }
}

/// What a journal begins with, where it has nothing yet.
fn first_bytes(fresh: bool) -> &'static [u8]
    ensures { result.now ≡ first_of fresh }
{
    if fresh { first_line() } else { b"" }
}

/// The line that ends each answer.
#[tactic(auto, unfolding(crate::specs::Turns::ready_line, nd_hook::specs::ReplyText::line))]
fn ready() -> &'static [u8]
    ensures { result.now ≡ ready_line }
{
    b"ready\n"
}

/// The answer to a line that asks for nothing that is known.
#[tactic(auto, unfolding(crate::specs::Turns::unknown_line, nd_hook::specs::ReplyText::line))]
fn unknown() -> &'static [u8]
    ensures { result.now ≡ unknown_line }
{
    b"refused BadLine\n"
}
