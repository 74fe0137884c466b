//! A session over a desk.

ghost use Rattle.std.specs.Prelude.{◌≡◌, IfOk, IfErr, OnOk};
ghost use Rattle.nd_serve.specs.Sessions.{first_of, Serves, ServesPart};
ghost use Rattle.nd_serve.specs.Steps.{Opens, OpensPart, Takes, TakesPart, GoesOn, CutsTurn};

use crate::preparing::{prepare, prepare_opening};
use nd_desk::{Desk, DeskFault, SessionFault, hand_over};
use nd_ledger::Dispatch;
use std::alloc::{AllocError, Global};

/// Takes the steps of the pump that are due and answers them; then reads one line after another, does what
/// each asks for with the steps of the pump behind it, and answers, until the input ends or 2^64 − 1 lines
/// were read. An answer ends with the line `ready`.
///
/// Before an answer is written, the lines of the entries that it tells of are appended to the journal and
/// made durable; and before the next line is read, the answer is passed on. A journal that is `fresh` is to
/// hold nothing yet, and gets the first line of a history text of the second version. One that isn't is to
/// hold the text of the dispatch's history in that version.
///
/// A line ends with a newline. What stands behind the last newline of the input is no line and asks for nothing,
/// as a command that was cut off while it was written.
///
/// A line that asks for nothing that is known is answered `refused BadLine`, a refused command `refused`
/// and the refusal's name, and the session goes on.
///
/// Refuses with `Read` (1), `Journal` (2), `Write` (3) and `Memory` (4), as [`SessionFault`] says. Of the
/// turn that it ends in nothing is answered, but for a part of the answer at `Write`; its entries may stand
/// in the journal.
///
/// Where it is known what the output holds, it holds at the end what it held before and all that was
/// answered, but for an end by `Write`. Where it is known what the input has left, the lines of the turns are the
/// beginning of that.
#[tactic(auto, using(crate::proofs::Serving::sessions))]
pub fn serve<D: Desk>(
    alloc: Global,
    dispatch: &mut Dispatch,
    fresh: bool,
    desk: &mut D,
) -> Result<(), SessionFault>
    ensures inputs { dispatch.new.inputs ≡ dispatch.old.inputs }
    ensures served { OnOk result (Serves dispatch.old.inputs dispatch.old.history dispatch.new.history (first_of fresh) (D.seen desk.old) (D.seen desk.new)) }
    ensures partly { IfErr result (ServesPart dispatch.old.inputs dispatch.old.history (first_of fresh) (D.seen desk.old) (D.seen desk.new)) }
{
    open(alloc, dispatch, fresh, desk)?;
    for _turn in 0..u64::MAX {
        if !take_turn(alloc, dispatch, desk)? {
            return Ok(());
        }
    }
    Ok(())
}

/// Takes the steps of the pump that are due, and hands them over.
#[tactic(auto, using(crate::proofs::Serving::openings))]
fn open<D: Desk>(
    alloc: Global,
    dispatch: &mut Dispatch,
    fresh: bool,
    desk: &mut D,
) -> Result<(), SessionFault>
    ensures inputs { dispatch.new.inputs ≡ dispatch.old.inputs }
    ensures opened { OnOk result (Opens dispatch.old.inputs dispatch.old.history dispatch.new.history (first_of fresh) (D.seen desk.old) (D.seen desk.new)) }
    ensures partly { IfErr result (OpensPart dispatch.old.inputs dispatch.old.history (first_of fresh) (D.seen desk.old) (D.seen desk.new)) }
{
    let prepared = match prepare_opening(alloc, dispatch, fresh) {
        Ok(prepared) => prepared,
        Err(AllocError) => return Err(SessionFault::Memory),
    };
    hand_over(prepared.lines.as_slice(), prepared.answer.as_slice(), desk)
}

/// Reads a line, does what it asks for and hands that over. It answers whether there was a line.
#[tactic(auto, using(crate::proofs::Serving::hearings))]
fn take_turn<D: Desk>(
    alloc: Global,
    dispatch: &mut Dispatch,
    desk: &mut D,
) -> Result<bool, SessionFault>
    ensures inputs { dispatch.new.inputs ≡ dispatch.old.inputs }
    ensures goes_on { IfOk result (GoesOn dispatch.old.inputs dispatch.old.history dispatch.new.history (D.seen desk.old) (D.seen desk.new)) }
    ensures cut { IfErr result (CutsTurn dispatch.old.inputs dispatch.old.history (D.seen desk.old) (D.seen desk.new)) }
{
    let line = match desk.hear(alloc) {
        Ok(Some(line)) => line,
        Ok(None) => return Ok(false),
        Err(DeskFault::Refused) => return Err(SessionFault::Read),
        Err(DeskFault::Memory) => return Err(SessionFault::Memory),
    };
    take_line(alloc, dispatch, line.as_slice(), desk)?;
    Ok(true)
}

/// Does what a line asks for, and hands that over.
#[tactic(auto, using(crate::proofs::Serving::takings))]
fn take_line<D: Desk>(
    alloc: Global,
    dispatch: &mut Dispatch,
    line: &[u8],
    desk: &mut D,
) -> Result<(), SessionFault>
    ensures inputs { dispatch.new.inputs ≡ dispatch.old.inputs }
    ensures taken { OnOk result (Takes dispatch.old.inputs dispatch.old.history dispatch.new.history line.now (D.seen desk.old) (D.seen desk.new)) }
    ensures partly { IfErr result (TakesPart dispatch.old.inputs dispatch.old.history line.now (D.seen desk.old) (D.seen desk.new)) }
{
    let prepared = match prepare(alloc, dispatch, line) {
        Ok(prepared) => prepared,
        Err(AllocError) => return Err(SessionFault::Memory),
    };
    hand_over(prepared.lines.as_slice(), prepared.answer.as_slice(), desk)
}
