//! The decision about a derivation.

ghost use Rattle.std.specs.Prelude.{◌≡◌, ◌<◌, length, All, Contains, IsTrue};
ghost use Rattle.std.specs.List.Sorted.{IsStrictlyIncreasing};
ghost use Rattle.nd_eligible.specs.Eligibility.{IsEligibleAt};
ghost use Rattle.nd_hook.specs.Few.{HoldFree};
ghost use Rattle.nd_hook.specs.Decisions.{IsDecision, decision_after, decision_at_home};

use crate::kinds::{Decision, Reply};
use crate::replies::{reply, reply_among};
use nd_eligible::Need;
use nd_machines::Machine;

/// What is done with a derivation with this need. Where it prefers the local machine and `loc`
/// holds: built there where `loc_free` holds, else it waits. Otherwise the reply decides: accepted
/// is built remotely, postponed waits, and declined is built locally where `loc_free` holds, waits
/// where `loc` holds, and else has no builder. `loc` says that the local machine may build the
/// derivation and is up, `loc_free` that it has a free slot too. It takes no memory.
pub fn decide(
    machines: &[Machine],
    loads: &[u32],
    up: &[bool],
    need: &Need,
    loc: bool,
    loc_free: bool,
) -> Decision
    requires loads { length loads.now ≡ length machines.now }
    requires ups { length up.now ≡ length machines.now }
    requires local { IsTrue loc_free → IsTrue loc }
    ensures { IsDecision machines.now loads.now up.now (IsEligibleAt machines.now need.now) need.now.prefer_local loc loc_free result }
{
    if need.prefer_local && loc {
        return at_home(loc, loc_free);
    }
    after(reply(machines, loads, up, need, loc_free), loc, loc_free)
}

/// The decision as [`decide`] has it, but with the places of `among` for the eligible machines and
/// with `prefer_local` for the need's preference. It takes no memory.
#[tactic(auto, using(crate::proofs::FewPlaces::hold_themselves))]
pub fn decide_in(
    machines: &[Machine],
    among: &[usize],
    loads: &[u32],
    up: &[bool],
    prefer_local: bool,
    loc: bool,
    loc_free: bool,
) -> Decision
    requires loads { length loads.now ≡ length machines.now }
    requires ups { length up.now ≡ length machines.now }
    requires rising { IsStrictlyIncreasing among.now }
    requires in_range { All (λ place. place < length machines.now) among.now }
    requires local { IsTrue loc_free → IsTrue loc }
    ensures { IsDecision machines.now loads.now up.now (Contains among.now) prefer_local loc loc_free result }
{
    decide_among(
        machines,
        among,
        among,
        loads,
        up,
        prefer_local,
        loc,
        loc_free,
    )
}

/// The decision as [`decide_in`] has it, but with the best machine looked for among `few`: some places of `among`,
/// with each of these whose machine is up and has a free slot. It takes no memory.
pub fn decide_among(
    machines: &[Machine],
    among: &[usize],
    few: &[usize],
    loads: &[u32],
    up: &[bool],
    prefer_local: bool,
    loc: bool,
    loc_free: bool,
) -> Decision
    requires loads { length loads.now ≡ length machines.now }
    requires ups { length up.now ≡ length machines.now }
    requires rising { IsStrictlyIncreasing few.now }
    requires in_range { All (λ place. place < length machines.now) among.now }
    requires few { HoldFree machines.now loads.now up.now among.now few.now }
    requires local { IsTrue loc_free → IsTrue loc }
    ensures { IsDecision machines.now loads.now up.now (Contains among.now) prefer_local loc loc_free result }
{
    if prefer_local && loc {
        return at_home(loc, loc_free);
    }
    after(
        reply_among(machines, among, few, loads, up, loc_free),
        loc,
        loc_free,
    )
}

/// What a reply leads to.
fn after(reply: Reply, loc: bool, loc_free: bool) -> Decision
    ensures { result ≡ decision_after reply loc loc_free }
{
    match reply {
        Reply::Accept(place) => Decision::Remote(place),
        Reply::Postpone => Decision::Wait,
        Reply::Decline | Reply::DeclinePermanently => at_home(loc, loc_free),
    }
}

/// Whether it is built locally now, waits for a local slot, or has no builder.
fn at_home(loc: bool, loc_free: bool) -> Decision
    ensures { result ≡ decision_at_home loc loc_free }
{
    if loc_free {
        Decision::Local
    } else if loc {
        Decision::Wait
    } else {
        Decision::NoBuilder
    }
}
