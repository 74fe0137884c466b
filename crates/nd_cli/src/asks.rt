//! The replies that `ask` writes.

ghost use Rattle.std.specs.Prelude.{◌≡◌, ◌<◌, ◌↔◌, ◌⊎◌, ◌||◌, true, false, IsTrue, length, take, IfOk, IfSome, OnOk, OnErr, IfErr, is_err};
ghost use Rattle.std.specs.List.{All, AllZip, flat_map};
ghost use Rattle.std.specs.Io.KnownBytes.{Appends};
ghost use Rattle.nd_devices.specs.Sending.{IsPut};
ghost use Rattle.nd_devices.specs.Written.{WritesPart};
ghost use Rattle.nd_cli.specs.ClassReplies.{IsClassReply};
ghost use Rattle.nd_cli.specs.Inputs.{is_write_fault, is_write_failure};
ghost use Rattle.nd_cli.specs.PlacedReplies.{HaveNeeds, WritesRepliesAt, WritesSomeRepliesAt};
ghost use Rattle.nd_hook.specs.Idle.{IsFreeHere, IsIdleReply, idle, all_up};
ghost use Rattle.nd_hook.specs.ReplyText.{IsInList, accept_text, line, reply_text};

use crate::fault::CliFault;
use crate::shares::replies_at;
use nd_bundle::Needs;
use nd_devices::{Fault, Page, Told};
use nd_eligible::{Local, Need, eligible_places, local_ok};
use nd_hook::{Reply, reply_in};
use nd_machines::Machine;
use std::alloc::{AllocError, Global};
use std::io::Write;
use std::thread::Threads;

/// Writes for each derivation, in the order of the places of their needs, the reply on an idle park: no slot is taken,
/// and every machine is up. Then it has the writer pass on what it holds back.
///
/// `Memory`: nothing is written then. `Write`: the writer refused, and is marked; the replies about
/// some of the first derivations, the last of them perhaps in part, are out.
#[tactic(auto, using(crate::proofs::PlacedReplying::none_written_at, crate::proofs::PlacedReplying::all_written_at, crate::proofs::PlacedReplying::some_written_at))]
pub(crate) fn write_replies_side_by_side<W: Write>(
    rt: &(impl Threads + Sync),
    alloc: Global,
    machines: &[Machine],
    local: &Local,
    needs: &Needs,
    output: &mut Told<W>,
) -> Result<(), CliFault>
    requires { HaveNeeds needs.now }
    ensures written { OnOk result (WritesRepliesAt machines.now local.now needs.now (W.contents output.old.device) (W.contents output.new.device)) }
    ensures partly { OnErr result (WritesSomeRepliesAt machines.now local.now needs.now (W.contents output.old.device) (W.contents output.new.device)) }
    ensures fault { IfErr result (λ e. (e ≡ CliFault.Write) ⊎ (e ≡ CliFault.Memory)) }
    ensures mark { output.new.is_marked ≡ (output.old.is_marked || is_write_failure result) }
    ensures untouched { IfErr result (λ e. is_write_fault e ≡ false → output.new ≡ output.old) }
{
    let Ok(replies) = replies_at(rt, alloc, machines, local, needs) else {
        return Err(CliFault::Memory);
    };
    let sent = pass_replies(&replies, machines, output);
    drop(replies);
    match sent {
        Ok(()) => Ok(()),
        Err(Fault) => Err(CliFault::Write),
    }
}

/// Writes the replies, one behind another, and has the writer pass on what it holds back. It takes no memory.
///
/// `Fault`: the writer refused. Its mark is then set, and a part of the replies, from their beginning, is out.
#[tactic(auto, using(nd_devices::proofs::Pieces::flushes))]
fn pass_replies<W: Write>(
    replies: &[Reply],
    machines: &[Machine],
    out: &mut Told<W>,
) -> Result<(), Fault>
    requires listed { All (IsInList machines.now) replies.now }
    ensures written { OnOk result (Appends (W.contents out.old.device) (W.contents out.new.device) (flat_map (reply_text machines.now) replies.now)) }
    ensures partly { OnErr result (WritesPart (W.contents out.old.device) (W.contents out.new.device) (flat_map (reply_text machines.now) replies.now)) }
    ensures mark { out.new.is_marked ≡ (out.old.is_marked || is_err result) }
{
    send_replies(replies, machines, out)?;
    out.flush()
}

/// Writes the replies, one behind another, in pieces of about 4,096 bytes.
///
/// `Fault`: the writer refused. Its mark is then set, and a part of the replies, from their beginning, is out.
#[tactic(auto, using(nd_devices::proofs::Sent::ends))]
fn send_replies<W: Write>(
    replies: &[Reply],
    machines: &[Machine],
    out: &mut Told<W>,
) -> Result<(), Fault>
    requires listed { All (IsInList machines.now) replies.now }
    ensures written { OnOk result (Appends (W.contents out.old.device) (W.contents out.new.device) (flat_map (reply_text machines.now) replies.now)) }
    ensures partly { OnErr result (WritesPart (W.contents out.old.device) (W.contents out.new.device) (flat_map (reply_text machines.now) replies.now)) }
    ensures mark { out.new.is_marked ≡ (out.old.is_marked || is_err result) }
{
    let mut page = Page::new();
    put_replies(replies, machines, &mut page, out)?;
    page.send(out)?;
    Ok(())
}

/// Puts the replies behind what the page holds.
///
/// `Fault`: the writer refused. Its mark is then set.
#[tactic(auto, using(nd_devices::proofs::Sent::no_text))]
fn put_replies<W: Write>(
    replies: &[Reply],
    machines: &[Machine],
    page: &mut Page,
    out: &mut Told<W>,
) -> Result<(), Fault>
    requires { All (IsInList machines.now) replies.now }
    ensures { IsPut W.contents out.old page.old out.new page.new (flat_map (reply_text machines.now) replies.now) result }
{
    for number in 0..replies.len() {
        put_reply(&replies[number], machines, page, out)?;
    }
    Ok(())
}

/// Puts a reply behind what the page holds, as `write_reply` of `nd_hook` writes it.
///
/// `Fault`: the writer refused. Its mark is then set.
fn put_reply<W: Write>(
    reply: &Reply,
    machines: &[Machine],
    page: &mut Page,
    out: &mut Told<W>,
) -> Result<(), Fault>
    requires { IsInList machines.now reply.now }
    ensures { IsPut W.contents out.old page.old out.new page.new (reply_text machines.now reply.now) result }
{
    match reply {
        Reply::Accept(place) => put_accept(machines[*place].uri(), page, out),
        Reply::Postpone => put_line(b"# postpone", page, out),
        Reply::Decline => put_line(b"# decline", page, out),
        Reply::DeclinePermanently => put_line(b"# decline-permanently", page, out),
    }
}

/// Puts the two lines that accept a machine.
fn put_accept<W: Write>(uri: &[u8], page: &mut Page, out: &mut Told<W>) -> Result<(), Fault>
    ensures { IsPut W.contents out.old page.old out.new page.new (accept_text uri.now) result }
{
    put_line(b"# accept", page, out)?;
    put_line(uri, page, out)
}

/// Puts a line and its newline.
fn put_line<W: Write>(text: &[u8], page: &mut Page, out: &mut Told<W>) -> Result<(), Fault>
    ensures { IsPut W.contents out.old page.old out.new page.new (line text.now) result }
{
    page.put(text, out)?;
    page.put(b"\n", out)
}

/// The replies about some classes, in order, where no slot is taken and every machine is up.
pub(crate) fn replies_about(
    alloc: Global,
    machines: &[Machine],
    local: &Local,
    firsts: &[&Need],
) -> Result<Vec<Reply>, AllocError>
    ensures { IfOk result (λ replies. AllZip (IsClassReply machines.now local.now) firsts.now replies.items) }
{
    let loads = vec![in alloc; 0u32; machines.len()]?;
    let up = vec![in alloc; true; machines.len()]?;
    let mut replies = Vec::with_capacity(alloc, firsts.len())?;
    for class in 0..firsts.len() {
        let reply = make_reply(alloc, machines, local, &loads, &up, firsts[class])?;
        replies.push(reply)?;
    }
    Ok(replies)
}

/// The reply about a derivation with this need, where no slot is taken and every machine is up.
fn make_reply(
    alloc: Global,
    machines: &[Machine],
    local: &Local,
    loads: &[u32],
    up: &[bool],
    need: &Need,
) -> Result<Reply, AllocError>
    requires loads { loads.now ≡ idle machines.now }
    requires up { up.now ≡ all_up machines.now }
    ensures { IfOk result (IsIdleReply machines.now local.now need.now) }
{
    let places = eligible_places(alloc, machines, need)?;
    let free_here = is_free_here(local, need);
    Ok(reply_in(machines, places.as_slice(), loads, up, free_here))
}

/// Whether a derivation with this need may be built here, on a slot that is free as long as the
/// park is idle.
fn is_free_here(local: &Local, need: &Need) -> bool
    ensures { IsTrue result ↔ IsFreeHere local.now need.now }
{
    if local.jobs() == 0 {
        return false;
    }
    local_ok(local, need)
}
