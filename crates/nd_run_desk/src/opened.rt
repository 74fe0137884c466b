//! What a run began with, as the fact under its lock names it.

use std::marker::Brand;
use std::sync::ledger::Ledger;

/// A run: the ledger of its entries, the dispatch that it was handed, and the book in which the entries of its
/// journal are listed, which each run picks for itself. So what lies under the lock is known to go on from it
/// whenever the lock is taken, and what a worker was told is durable is known to be listed there.
pub trait Opened: Ledger {
    ghost use Rattle.nd_ledger.specs.Worlds.{World};
    ghost use Rattle.nd_run_desk.specs.Leaves.{Keeping};

    ghost opening: { World };

    ghost keeping: { Keeping };
}

impl Opened for Brand {
    ghost use Rattle.nd_run_desk.specs.Picks.{no_world, no_keeping};

    ghost opening = { no_world };

    ghost keeping = { no_keeping };
}
