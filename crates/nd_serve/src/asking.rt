//! Reading a line of a session.

ghost use Rattle.std.specs.Prelude.{IfOk, MatchOption};
ghost use Rattle.nd_serve.specs.Asked.{Asks, IsJobLine, IsNoJobLine, AsksExtra};

use crate::request::Request;
use nd_bytes::cut;
use nd_script::{LineError, only_operand, read_line};
use std::alloc::{AllocError, Global};

/// What a line asks for, given without its newline, for a graph of `drvs` derivations and a park of
/// `machines` machines, the local one among them: a command of a script, `job D` with a derivation D below
/// `drvs`, `report`, or nothing that is known. The form is this project's own.
pub fn read_request(
    alloc: Global,
    line: &[u8],
    drvs: usize,
    machines: usize,
) -> Result<Request, AllocError>
    ensures { IfOk result (Asks drvs machines line.now) }
{
    match read_line(alloc, line, drvs, machines) {
        Ok(command) => Ok(Request::Call(command)),
        Err(LineError::Memory) => Err(AllocError),
        Err(LineError::Bad) => Ok(read_extra(line, drvs)),
    }
}

/// What a line asks for that is no command of a script.
fn read_extra(line: &[u8], drvs: usize) -> Request
    ensures { AsksExtra drvs line.now result }
{
    if line == b"report".as_slice() {
        return Request::Report;
    }
    match job_of(line, drvs) {
        Some(drv) => Request::Job { drv },
        None => Request::Unknown,
    }
}

/// The derivation whose job a line asks for.
#[tactic(auto, using(crate::proofs::JobLines::jobs))]
fn job_of(line: &[u8], drvs: usize) -> Option<u32>
    ensures { MatchOption result (IsNoJobLine drvs line.now) (IsJobLine drvs line.now) }
{
    let (first, words) = cut(line, b' ');
    if first != b"job".as_slice() {
        return None;
    }
    match only_operand(words, drvs) {
        Some(drv) => Some(drv),
        None => None,
    }
}
