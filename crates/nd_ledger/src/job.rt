//! What a worker needs to know of a lease.

ghost use Rattle.std.specs.Prelude.{◌≡◌, IfOk};

use nd_bytes::Items;
use nd_leases::Ticket;
use nd_path::{PathSet, StorePath};
use std::alloc::{AllocError, Global};

/// A lease with what is to be built and what is to be copied first.
#[derive(Drop)]
pub struct Job {
    /// The lease.
    pub ticket: Ticket,
    /// The derivation's path.
    pub path: StorePath,
    /// The paths of its outputs, in the order in which the graph has them: for a bundle's, that of the
    /// outputs' names.
    pub output_paths: Items<StorePath>,
    /// The paths to copy first: those of the input closure that the machine doesn't hold.
    pub paths: PathSet,
}

/// A copy of these paths.
pub(crate) fn copy_paths(alloc: Global, paths: &[StorePath]) -> Result<Items<StorePath>, AllocError>
    ensures { IfOk result (λ copy. copy ≡ paths.now) }
{
    let mut copy = Vec::with_capacity(alloc, paths.len())?;
    for path in paths {
        copy.push(path.try_clone()?)?;
    }
    Ok(Items::new(copy))
}
