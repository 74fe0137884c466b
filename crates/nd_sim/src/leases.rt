//! What a call on a derivation's live lease needs.

ghost use Rattle.std.specs.Prelude.{◌≡◌, ◌<◌, [], length, replicate, reverse, Some, IfOk, IfErr};
ghost use Rattle.nd_history.specs.History.{lease_of};
ghost use Rattle.nd_path.specs.PathSets.{IsRising};
ghost use Rattle.nd_provision.specs.Stored.{IsMissing};
ghost use Rattle.nd_ledger.specs.Refusals.{IsLive};
ghost use Rattle.nd_sim.specs.Answers.{HasNoLease, no_references};

use nd_closure::Refs;
use nd_leases::Ticket;
use nd_ledger::{Dispatch, Refusal};
use nd_path::PathSet;
use std::alloc::{AllocError, Global};

/// The ticket of the derivation's live lease.
///
/// Refuses with `NotLive` (1) where it has none.
#[tactic(auto, using(crate::proofs::Tickets::own_ticket, crate::proofs::Tickets::live_lease))]
pub fn live_ticket(dispatch: &Dispatch, drv: u32) -> Result<Ticket, Refusal>
    ensures found { IfOk result (λ t. lease_of drv (reverse dispatch.now.history) ≡ Some t) }
    ensures own { IfOk result (λ t. t.drv ≡ drv) }
    ensures live { IfOk result (IsLive (reverse dispatch.now.history)) }
    ensures none { IfErr result (HasNoLease (reverse dispatch.now.history) drv) }
{
    match dispatch.lease(drv) {
        Some(ticket) => Ok(ticket),
        None => Err(Refusal::NotLive),
    }
}

/// What the machine of a live lease lacks of the derivation's closure.
///
/// Refuses for want of memory alone.
#[tactic(auto, using(crate::proofs::Tickets::memory_alone))]
pub(crate) fn lacking(
    alloc: Global,
    dispatch: &Dispatch,
    ticket: Ticket,
) -> Result<PathSet, Refusal>
    requires { IsLive (reverse dispatch.now.history) ticket }
    ensures missing { IfOk result (IsMissing dispatch.now.inputs (reverse dispatch.now.history) ticket.drv ticket.machine) }
    ensures rising { IfOk result IsRising }
    ensures memory { IfErr result (λ e. e ≡ Refusal.Memory) }
{
    match dispatch.missing(alloc, &ticket) {
        Ok(paths) => {
            let _rising = paths.as_slice();
            Ok(paths)
        }
        Err(refusal) => Err(refusal),
    }
}

/// No references for any output of the derivation.
pub(crate) fn no_reports(alloc: Global, dispatch: &Dispatch, drv: u32) -> Result<Refs, AllocError>
    requires { drv < length dispatch.now.inputs.graph.paths }
    ensures { IfOk result (λ refs. refs ≡ no_references dispatch.now.inputs drv) }
{
    empty_sets(alloc, dispatch.graph().outputs(drv as usize).len())
}

/// So many empty sets.
fn empty_sets(alloc: Global, count: usize) -> Result<Refs, AllocError>
    ensures { IfOk result (λ refs. refs ≡ replicate count []) }
{
    let mut sets = Vec::with_capacity(alloc, count)?;
    for _made in 0..count {
        sets.push(PathSet::new(alloc))?;
    }
    Ok(Refs::new(sets))
}
