//! The replies about many derivations: one for each class of them, of which many threads make a share each.

ghost use Rattle.std.specs.Prelude.{◌<◌, ℕ, List, IfOk};
ghost use Rattle.std.specs.List.{AllZip};
ghost use Rattle.nd_machines.specs.Builders.{Builder};
ghost use Rattle.nd_eligible.specs.Settings.{Settings};
ghost use Rattle.nd_hook.specs.Idle.{IsIdleReply};
ghost use Rattle.nd_cli.specs.ClassReplies.{IsClassReply};
ghost use Rattle.nd_cli.specs.PlacedReplies.{AreRepliesAt, HaveNeeds};
ghost use Rattle.nd_cli.specs.Shares.{AreShares};

use crate::asks::replies_about;
use crate::classes::{Classes, by_class};
use nd_bundle::Needs;
use nd_eligible::{Local, Need};
use nd_hook::Reply;
use nd_machines::Machine;
use std::alloc::{AllocError, Global};
use std::num::NonZeroUsize;
use std::thread::{Threads, available_parallelism, map_chunks};

/// The least share of a thread: the replies about fewer classes are mostly made before another thread has started.
const SHARE: usize = 64;

/// The replies about derivations with these needs, in order, where no slot is taken and every machine is up.
#[tactic(auto, using(crate::proofs::ClassReplying::are_made, crate::proofs::ClassReplying::all_replies))]
fn replies_side_by_side<R: Threads + Sync>(
    rt: &R,
    alloc: Global,
    machines: &[Machine],
    local: &Local,
    needs: &[Need],
) -> Result<Vec<Reply>, AllocError>
    ensures { IfOk result (λ replies. AllZip (IsIdleReply machines.now local.now) needs.now replies.items) }
{
    let classes = Classes::of(alloc, needs)?;
    let made = class_replies(rt, alloc, machines, local, classes.firsts())?;
    by_class(alloc, &made, classes.members())
}

/// The replies about derivations whose needs stand at places of a table, in the order of the places, where no slot is
/// taken and every machine is up.
pub(crate) fn replies_at<R: Threads + Sync>(
    rt: &R,
    alloc: Global,
    machines: &[Machine],
    local: &Local,
    needs: &Needs,
) -> Result<Vec<Reply>, AllocError>
    requires { HaveNeeds needs.now }
    ensures { IfOk result (λ replies. AreRepliesAt machines.now local.now needs.now replies.items) }
{
    let made = replies_side_by_side(rt, alloc, machines, local, needs.table())?;
    by_class(alloc, &made, needs.places())
}

/// The replies about some classes, in order. Those about more classes than [`SHARE`] are made by as many threads as
/// there are processors.
fn class_replies<R: Threads + Sync>(
    rt: &R,
    alloc: Global,
    machines: &[Machine],
    local: &Local,
    firsts: &[&Need],
) -> Result<Vec<Reply>, AllocError>
    ensures { IfOk result (λ replies. AllZip (IsClassReply machines.now local.now) firsts.now replies.items) }
{
    if firsts.len() <= SHARE {
        return replies_about(alloc, machines, local, firsts);
    }
    let processors = available_parallelism(rt).map_or(1, NonZeroUsize::get);
    let size = (firsts.len() / processors + 1).max(SHARE);
    let shares = make_shares(rt, alloc, machines, local, firsts, size)?;
    join_shares(alloc, firsts, shares)
}

/// The replies about so many classes each, the last ones perhaps about fewer, made by a thread each.
fn make_shares<R: Threads + Sync>(
    rt: &R,
    alloc: Global,
    machines: &[Machine],
    local: &Local,
    firsts: &[&Need],
    size: usize,
) -> Result<Vec<Result<Vec<Reply>, AllocError>>, AllocError>
    requires { 0 < size }
    ensures { IfOk result (λ shares. AreShares machines.now local.now size firsts.now shares.items) }
{
    map_chunks(
        rt,
        alloc,
        firsts,
        size,
        &|_, share: &[&Need]| -> Result<Vec<Reply>, AllocError>
            ensures { IfOk result (λ replies. AllZip (IsClassReply machines.entry.now local.entry.now) share.entry.now replies.items) }
        { replies_about(alloc, machines, local, share) },
    )
}

/// All replies in one list.
fn join_shares(
    alloc: Global,
    firsts: &[&Need],
    shares: Vec<Result<Vec<Reply>, AllocError>>,
) -> Result<Vec<Reply>, AllocError>
    ensures { (machines : List Builder) (local : Settings) (size : ℕ) → AreShares machines local size firsts.now shares.items
        → IfOk result (λ replies. AllZip (IsClassReply machines local) firsts.now replies.items) }
{
    let mut replies = Vec::with_capacity(alloc, firsts.len())?;
    for share in shares {
        let mut share = share?;
        replies.append(&mut share)?;
    }
    Ok(replies)
}
