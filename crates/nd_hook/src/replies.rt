//! The reply about a derivation.

ghost use Rattle.std.specs.Prelude.{◌≡◌, ◌<◌, ◌↔◌, length, All, Contains, IsTrue};
ghost use Rattle.std.specs.List.Sorted.{IsStrictlyIncreasing};
ghost use Rattle.nd_eligible.specs.Eligibility.{IsEligibleAt};
ghost use Rattle.nd_choose.specs.Best.{IsChoice};
ghost use Rattle.nd_hook.specs.Few.{HoldFree};
ghost use Rattle.nd_hook.specs.Replies.{IsReply, IsOneUp};

use crate::kinds::Reply;
use nd_choose::{choose, choose_in};
use nd_eligible::{Need, eligible};
use nd_machines::Machine;

/// The reply about a derivation with this need: accepted on the best eligible machine that is up
/// and has a free slot; else postponed where an eligible machine is up and `loc_free` doesn't
/// hold; else declined, and for good where the list is empty. `loads` are the numbers of taken
/// slots and `up` says which machines are up, place by place; `loc_free` says that the local
/// machine may build the derivation, is up and has a free slot. It takes no memory.
pub fn reply(machines: &[Machine], loads: &[u32], up: &[bool], need: &Need, loc_free: bool) -> Reply
    requires loads { length loads.now ≡ length machines.now }
    requires ups { length up.now ≡ length machines.now }
    ensures { IsReply machines.now loads.now up.now (IsEligibleAt machines.now need.now) loc_free result }
{
    if machines.is_empty() {
        return Reply::DeclinePermanently;
    }
    if let Some(place) = choose(machines, loads, up, need) {
        return Reply::Accept(place);
    }
    if !loc_free && is_one_up(machines, up, need) {
        return Reply::Postpone;
    }
    Reply::Decline
}

/// The reply as [`reply`] has it, but with the places of `among` for the eligible machines. It
/// takes no memory.
#[tactic(auto, using(crate::proofs::FewPlaces::hold_themselves))]
pub fn reply_in(
    machines: &[Machine],
    among: &[usize],
    loads: &[u32],
    up: &[bool],
    loc_free: bool,
) -> Reply
    requires loads { length loads.now ≡ length machines.now }
    requires ups { length up.now ≡ length machines.now }
    requires rising { IsStrictlyIncreasing among.now }
    requires in_range { All (λ place. place < length machines.now) among.now }
    ensures { IsReply machines.now loads.now up.now (Contains among.now) loc_free result }
{
    reply_among(machines, among, among, loads, up, loc_free)
}

/// The reply as [`reply_in`] has it, but with the best machine looked for among `few`: some places of `among`,
/// with each of these whose machine is up and has a free slot. It takes no memory.
pub fn reply_among(
    machines: &[Machine],
    among: &[usize],
    few: &[usize],
    loads: &[u32],
    up: &[bool],
    loc_free: bool,
) -> Reply
    requires loads { length loads.now ≡ length machines.now }
    requires ups { length up.now ≡ length machines.now }
    requires rising { IsStrictlyIncreasing few.now }
    requires in_range { All (λ place. place < length machines.now) among.now }
    requires few { HoldFree machines.now loads.now up.now among.now few.now }
    ensures { IsReply machines.now loads.now up.now (Contains among.now) loc_free result }
{
    if machines.is_empty() {
        return Reply::DeclinePermanently;
    }
    if let Some(place) = choose_among(machines, among, few, loads, up) {
        return Reply::Accept(place);
    }
    if !loc_free && is_one_up_in(among, up) {
        return Reply::Postpone;
    }
    Reply::Decline
}

/// The best machine of the places of `among`, found among `few`.
#[tactic(auto, using(crate::proofs::FewPlaces::chosen_of_many))]
fn choose_among(
    machines: &[Machine],
    among: &[usize],
    few: &[usize],
    loads: &[u32],
    up: &[bool],
) -> Option<usize>
    requires loads { length loads.now ≡ length machines.now }
    requires ups { length up.now ≡ length machines.now }
    requires rising { IsStrictlyIncreasing few.now }
    requires in_range { All (λ place. place < length machines.now) among.now }
    requires few { HoldFree machines.now loads.now up.now among.now few.now }
    ensures { IsChoice machines.now loads.now up.now (Contains among.now) result }
{
    choose_in(machines, few, loads, up)
}

/// Whether an eligible machine is up.
fn is_one_up(machines: &[Machine], up: &[bool], need: &Need) -> bool
    requires { length up.now ≡ length machines.now }
    ensures { IsTrue result ↔ IsOneUp up.now (IsEligibleAt machines.now need.now) }
{
    for place in 0..machines.len() {
        if up[place] && eligible(&machines[place], need) {
            return true;
        }
    }
    false
}

/// Whether a machine at one of the places is up.
fn is_one_up_in(among: &[usize], up: &[bool]) -> bool
    requires { All (λ place. place < length up.now) among.now }
    ensures { IsTrue result ↔ IsOneUp up.now (Contains among.now) }
{
    for place in among {
        if up[*place] {
            return true;
        }
    }
    false
}
