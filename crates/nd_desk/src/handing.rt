//! Handing a turn of a session over to its desk.

ghost use Rattle.std.specs.Prelude.{◌≡◌, IfErr, OnOk};
ghost use Rattle.nd_desk.specs.Handing.{kept, handed, HandsPart, KeepsPart, AnswersPart, said};
ghost use Rattle.nd_desk.specs.Hearing.{HearsNothing};
ghost use Rattle.nd_desk.specs.Notes.{Notes};

use crate::desk::Desk;
use crate::fault::{DeskFault, SessionFault};

/// Hands a turn over: appends its lines to the journal, where it has some, then makes them durable, and
/// only then answers.
///
/// Refuses with `Journal` (2) where the journal refused the append or the sync, with `Write` (3) where the
/// output refused the answer, and with `Memory` (4) where an allocation was refused. What was to come
/// behind a refusal isn't done. Nothing is read of the input.
#[tactic(auto, using(crate::proofs::Noting::handings))]
pub fn hand_over<D: Desk>(lines: &[u8], answer: &[u8], desk: &mut D) -> Result<(), SessionFault>
    ensures done { OnOk result (Notes (D.seen desk.old) (D.seen desk.new) (handed lines.now answer.now)) }
    ensures partly { IfErr result (HandsPart (D.seen desk.old) (D.seen desk.new) lines.now answer.now) }
    ensures input { HearsNothing (D.seen desk.old) (D.seen desk.new) }
{
    keep(lines, desk)?;
    say(answer, desk)
}

/// Appends lines to the journal and makes them durable, where there are some.
#[tactic(auto, using(crate::proofs::Noting::keepings))]
fn keep<D: Desk>(lines: &[u8], desk: &mut D) -> Result<(), SessionFault>
    ensures done { OnOk result (Notes (D.seen desk.old) (D.seen desk.new) (kept lines.now)) }
    ensures partly { IfErr result (KeepsPart (D.seen desk.old) (D.seen desk.new) lines.now) }
    ensures input { HearsNothing (D.seen desk.old) (D.seen desk.new) }
{
    if lines.is_empty() {
        return Ok(());
    }
    match desk.append(lines) {
        Ok(()) => {}
        Err(DeskFault::Refused) => return Err(SessionFault::Journal),
        Err(DeskFault::Memory) => return Err(SessionFault::Memory),
    }
    match desk.sync() {
        Ok(()) => Ok(()),
        Err(DeskFault::Refused) => Err(SessionFault::Journal),
        Err(DeskFault::Memory) => Err(SessionFault::Memory),
    }
}

/// Writes an answer, and has it passed on.
fn say<D: Desk>(answer: &[u8], desk: &mut D) -> Result<(), SessionFault>
    ensures done { OnOk result (Notes (D.seen desk.old) (D.seen desk.new) (said answer.now)) }
    ensures partly { IfErr result (AnswersPart (D.seen desk.old) (D.seen desk.new) answer.now) }
    ensures input { HearsNothing (D.seen desk.old) (D.seen desk.new) }
{
    match desk.answer(answer) {
        Ok(()) => Ok(()),
        Err(DeskFault::Refused) => Err(SessionFault::Write),
        Err(DeskFault::Memory) => Err(SessionFault::Memory),
    }
}
