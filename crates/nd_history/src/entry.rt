//! The entries of a history.

ghost use Rattle.std.specs.Prelude.{◌≡◌, IfOk};

use nd_closure::Refs;
use nd_path::PathSet;
use std::alloc::AllocError;

/// Why a lease ended without its outputs.
#[derive(Clone, Copy, Debug, PartialEq, Eq)]
pub enum Why {
    /// The builder ended with this status.
    Status(u8),
    /// The transport was lost.
    Lost,
    /// As whoever built it tells, it reported references that it may not have.
    BadReferences,
    /// No worker serves the lease's slot.
    NoWorker,
    /// Memory was refused.
    Memory,
}

/// One entry of a history. Derivations are numbered from 0 in the order of the bundle, machine 0 is
/// the local one and machine m the m-th of the builders list, and the slots of a machine are
/// numbered from 0.
#[derive(Drop, Debug)]
pub enum Entry {
    /// A lease: this derivation is to be built on this slot of this machine.
    Chosen { drv: u32, machine: u32, slot: u32 },
    /// No machine may ever build this derivation, so it has failed.
    NoBuilder { drv: u32 },
    /// The build of a leased derivation started, after these paths were copied to its machine.
    Started { drv: u32, paths: PathSet },
    /// A lease was given back before its start, and its machine is down from then on.
    Down { drv: u32 },
    /// A build ended with its outputs, which have these references.
    Built { drv: u32, refs: Refs },
    /// A lease ended without outputs.
    Failed { drv: u32, why: Why },
    /// No further lease is made; what is leased goes on.
    Stop,
    /// A machine gets no more leases.
    Drain { machine: u32 },
    /// A machine gets leases again.
    Enable { machine: u32 },
}

impl Entry {
    /// A copy that is equal to the original.
    pub fn try_clone(&self) -> Result<Entry, AllocError>
        ensures { IfOk result (λ e. e ≡ self.now) }
    {
        Ok(match self {
            Entry::Chosen { drv, machine, slot } => Entry::Chosen {
                drv: *drv,
                machine: *machine,
                slot: *slot,
            },
            Entry::NoBuilder { drv } => Entry::NoBuilder { drv: *drv },
            Entry::Started { drv, paths } => Entry::Started {
                drv: *drv,
                paths: paths.try_clone()?,
            },
            Entry::Down { drv } => Entry::Down { drv: *drv },
            Entry::Built { drv, refs } => Entry::Built {
                drv: *drv,
                refs: refs.try_clone()?,
            },
            Entry::Failed { drv, why } => Entry::Failed {
                drv: *drv,
                why: *why,
            },
            Entry::Stop => Entry::Stop,
            Entry::Drain { machine } => Entry::Drain { machine: *machine },
            Entry::Enable { machine } => Entry::Enable { machine: *machine },
        })
    }
}
