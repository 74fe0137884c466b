//! The exit status that a history comes to.

ghost use Rattle.std.specs.Prelude.{reverse};
ghost use Rattle.nd_history.specs.Statuses.{IsExitStatus};

use nd_ledger::Dispatch;

/// The exit status of a run, a simulation or a session that came to this: 1 where a derivation failed or was
/// cancelled, and else 0.
pub fn exit_status(dispatch: &Dispatch) -> u8
    ensures { IsExitStatus dispatch.now.inputs (reverse dispatch.now.history) result }
{
    let counts = dispatch.counts();
    if counts.failed > 0 {
        return 1;
    }
    if counts.cancelled > 0 {
        return 1;
    }
    0
}
