//! What the decisions about a derivation depend on.

ghost use Rattle.std.specs.Prelude.{IfOk};
ghost use Rattle.nd_kinds.specs.Kinds.{IsKindOf};

use nd_bytes::Items;
use nd_eligible::{Local, Need, eligible_places, local_ok};
use nd_machines::Machine;
use std::alloc::{AllocError, Global};

/// What the decisions about a derivation depend on, beside the loads of the machines and whether they
/// are up.
#[derive(Drop, Debug)]
pub struct Kind {
    /// The places in the builders list, from 0 and rising, of the machines that are eligible.
    pub places: Items<usize>,
    /// Whether the local machine is preferred.
    pub prefer_local: bool,
    /// Whether the local machine may build it.
    pub local: bool,
}

impl Kind {
    /// The kind of the derivations with this need.
    pub(crate) fn of(
        alloc: Global,
        machines: &[Machine],
        local: &Local,
        need: &Need,
    ) -> Result<Kind, AllocError>
        ensures { IfOk result (IsKindOf machines.now local.now need.now) }
    {
        Ok(Kind {
            places: eligible_places(alloc, machines, need)?,
            prefer_local: need.prefer_local,
            local: local_ok(local, need),
        })
    }
}
