//! Tables of leases and flags that follow a history entry by entry.

ghost use Rattle.std.specs.Prelude.{◌≡◌, ◌<◌, ◌^◌, ◌+◌, List, length, slice_set};
ghost use Rattle.nd_leases.specs.declared.ticket.Ticket.{Ticket};
ghost use Rattle.nd_leases.specs.Tables.{AreTabled, Become};
ghost use Rattle.nd_history.specs.Kept.{leases_after, started_after, AreUpsAfter, AreLowered, CanTable};

use crate::entry::Entry;
use nd_leases::{Leases, Ticket};

/// Follows the live leases, and the marks of started derivations, over one more entry. `serial` is the
/// number of entries before it.
pub(crate) fn follow_leases(leases: &mut Leases, serial: usize, entry: &Entry)
    requires { CanTable leases.old entry.now }
    ensures tickets { Become leases.old leases.new (leases_after serial entry.now) }
    ensures started { leases.new.started ≡ started_after entry.now leases.old.started }
    ensures drvs { length leases.new.holders ≡ length leases.old.holders }
    ensures machines { length leases.new.loads ≡ length leases.old.loads }
{
    match entry {
        Entry::Chosen { drv, machine, slot } => leases.begin(Ticket {
            machine: *machine,
            slot: *slot,
            drv: *drv,
            serial,
        }),
        Entry::Started { drv, .. } => leases.start(*drv),
        Entry::Down { drv } | Entry::Built { drv, .. } | Entry::Failed { drv, .. } => leases.end(
            *drv,
        ),
        Entry::NoBuilder { .. } | Entry::Stop | Entry::Drain { .. } | Entry::Enable { .. } => {}
    }
}

/// Follows the flags of machines that are up over one more entry. `leases` are the live leases
/// before it.
pub(crate) fn follow_ups(ups: &mut Vec<bool>, leases: &Leases, entry: &Entry)
    ensures { (tickets : List Ticket) → AreTabled leases.now tickets → AreUpsAfter entry.now tickets ups.old.items ups.new.items }
{
    match entry {
        Entry::Down { drv } => lower(ups, leases, *drv),
        Entry::Drain { machine } => put(ups, *machine as usize, false),
        Entry::Enable { machine } => put(ups, *machine as usize, true),
        _ => {}
    }
}

/// Takes down the flag of the machine that the lease of derivation `drv` is on.
fn lower(ups: &mut Vec<bool>, leases: &Leases, drv: u32)
    ensures { (tickets : List Ticket) → AreTabled leases.now tickets → AreLowered drv tickets ups.old.items ups.new.items }
{
    if let Some(ticket) = leases.lease(drv) {
        put(ups, ticket.machine as usize, false);
    }
}

/// Puts the flag at `place`; past the end nothing is put.
fn put(flags: &mut Vec<bool>, place: usize, flag: bool)
    ensures { flags.new.items ≡ slice_set flags.old.items place flag }
{
    if place < flags.len() {
        flags[place] = flag;
    }
}
