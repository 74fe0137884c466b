//! A session, from its opening to its status.

ghost use Rattle.std.specs.Prelude.{◌≡◌, ◌==◌, IfOk, IfErr};
ghost use Rattle.nd_serve_command.specs.Sessions.{EndsSession, CutsSession};

use crate::fault::{ServeFault, session_fault};
use crate::opened::Opened;
use nd_commands::close_dispatch;
use nd_desk::Desk;
use nd_report::exit_status;
use nd_serve::serve;
use std::alloc::Global;

/// Holds a session over a desk, whose journal is to hold, durably, the whole lines of the one that it was
/// opened with. The status is 1 where a derivation failed or was cancelled when the input ended, and else 0.
///
/// Ends with `Read`, `Write` and `Memory`, as the other commands, and with `JournalFailed` where the journal
/// refused an append or a sync. Of the turn that it ends in nothing is answered, but for a part of the
/// answer at `Write`.
///
/// Of a desk that notes what is done to it: at whatever moment the session stops, and wherever what wasn't
/// durable is cut off, the journal is gone on from with a legal history, which begins with every entry that
/// was answered by a whole answer. Of a desk whose output is known: it gets all that was answered, and
/// nothing else, unless it refuses an answer. Of one whose input is known: the session's lines are those that it
/// had left, in their order, of which each ends with a newline.
///
/// What is noted of [`Devices`](crate::Devices) isn't known, and of what they do in a session only that is
/// proved which speaks of the input and the output. That their journal gets what is noted and makes it durable
/// is only tested.
#[tactic(auto, using(crate::proofs::Ended::sessions))]
pub fn serve_engine<D: Desk>(alloc: Global, opened: Opened, desk: &mut D) -> Result<u8, ServeFault>
    ensures ended { IfOk result (λ status. EndsSession opened.dispatch (opened.kept == 0) status (D.seen desk.old) (D.seen desk.new)) }
    ensures cut { IfErr result (λ e. CutsSession opened.dispatch (opened.kept == 0) e (D.seen desk.old) (D.seen desk.new)) }
{
    let Opened { mut dispatch, kept } = opened;
    match serve(alloc, &mut dispatch, kept == 0, desk) {
        Ok(()) => {
            let status = exit_status(&dispatch);
            close_dispatch(dispatch);
            Ok(status)
        }
        Err(fault) => {
            close_dispatch(dispatch);
            Err(session_fault(fault))
        }
    }
}
