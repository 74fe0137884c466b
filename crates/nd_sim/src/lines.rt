//! The lines that are written of a command.

ghost use Rattle.std.specs.Prelude.{◌≡◌, ◌||◌, ◌≤◌, length, drop, reverse, is_err, OnOk, OnErr};
ghost use Rattle.std.specs.List.{flat_map};
ghost use Rattle.std.specs.Io.KnownBytes.{Appends};
ghost use Rattle.nd_devices.specs.Written.{WritesPart};
ghost use Rattle.nd_history_text.specs.HistoryTexts.{line_of};
ghost use Rattle.nd_hook.specs.ReplyText.{reply_text};
ghost use Rattle.nd_sim.specs.Runs.{refused_line};
ghost use Rattle.nd_sim.specs.Outcomes.{IsReplyNow};

use nd_devices::{Told, WriteError};
use nd_history_text::write_lines;
use nd_hook::{Reply, write_reply};
use nd_ledger::{Dispatch, Refusal};
use std::io;

/// Writes the lines of the entries from the one with number `before` on, each with its newline. There are
/// no fewer entries than `before`.
///
/// Refusal 1 `Write`: the device refused a write. Its mark is then set, and a part of the lines, from
/// their beginning, may be out.
pub fn write_added<W: io::Write>(
    dispatch: &Dispatch,
    before: usize,
    out: &mut Told<W>,
) -> Result<(), WriteError>
    requires { before ≤ length dispatch.now.history }
    ensures written { OnOk result (Appends (W.contents out.old.device) (W.contents out.new.device) (flat_map line_of (drop before dispatch.now.history))) }
    ensures partly { OnErr result (WritesPart (W.contents out.old.device) (W.contents out.new.device) (flat_map line_of (drop before dispatch.now.history))) }
    ensures mark { out.new.is_marked ≡ (out.old.is_marked || is_err result) }
{
    let (_, added) = dispatch.history().split_at(before);
    write_lines(added, out)
}

/// Writes the reply about a derivation.
pub(crate) fn write_replied<W: io::Write>(
    reply: &Reply,
    dispatch: &Dispatch,
    out: &mut Told<W>,
) -> Result<(), WriteError>
    requires { IsReplyNow dispatch.now.inputs (reverse dispatch.now.history) reply.now }
    ensures written { OnOk result (Appends (W.contents out.old.device) (W.contents out.new.device) (reply_text dispatch.now.inputs.machines reply.now)) }
    ensures partly { OnErr result (WritesPart (W.contents out.old.device) (W.contents out.new.device) (reply_text dispatch.now.inputs.machines reply.now)) }
    ensures mark { out.new.is_marked ≡ (out.old.is_marked || is_err result) }
{
    write_reply(reply, dispatch.machines(), out)
}

/// Writes `refused` and the refusal's name, as a line.
///
/// Refusal 1 `Write`: the device refused a write. Its mark is then set, and a part of the line, from its
/// beginning, may be out.
pub fn write_refused<W: io::Write>(refusal: Refusal, out: &mut Told<W>) -> Result<(), WriteError>
    ensures written { OnOk result (Appends (W.contents out.old.device) (W.contents out.new.device) (refused_line refusal)) }
    ensures partly { OnErr result (WritesPart (W.contents out.old.device) (W.contents out.new.device) (refused_line refusal)) }
    ensures mark { out.new.is_marked ≡ (out.old.is_marked || is_err result) }
{
    out.put_all(refused(refusal))?;
    Ok(())
}

/// The line of a refused command, with its newline.
#[tactic(auto, unfolding(crate::specs::Runs::refused_line, nd_hook::specs::ReplyText::line))]
fn refused(refusal: Refusal) -> &'static [u8]
    ensures { result.now ≡ refused_line refusal }
{
    match refusal {
        Refusal::NotLive => b"refused NotLive\n",
        Refusal::AlreadyStarted => b"refused AlreadyStarted\n",
        Refusal::NotStarted => b"refused NotStarted\n",
        Refusal::Uncovered => b"refused Uncovered\n",
        Refusal::Extra => b"refused Extra\n",
        Refusal::BadReferences => b"refused BadReferences\n",
        Refusal::AlreadyStopped => b"refused AlreadyStopped\n",
        Refusal::Memory => b"refused Memory\n",
    }
}
