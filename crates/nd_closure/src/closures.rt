//! Closures under references.

ghost use Rattle.std.specs.Prelude.{◌≡◌, ◌<◌, ◌^◌, ℕ, List, length, IfOk, OnOk, ◌↔◌};
ghost use Rattle.std.specs.List.{Contains};
ghost use Rattle.nd_path.specs.PathSets.{HasSameMembers};
ghost use Rattle.nd_closure.specs.Closures.{IsReached, IsLeastClosed, HoldsAll, AddsOnly};

use crate::ref_table::RefTable;
use indexmap::IndexSet;
use nd_path::{PathSet, StorePath};
use std::alloc::{AllocError, Global};

/// The closure of the seeds under the table's references: the least set that holds the seeds and, with
/// a path, the references listed for it (Dolstra 2006, section 5.2). Each path is looked at once, and
/// each of its references looked up once by its hash. Refuses only where an allocation is refused.
pub fn reach(alloc: Global, seeds: &[StorePath], table: &RefTable) -> Result<PathSet, AllocError>
    ensures reached { IfOk result (λ s. (p : List ℕ) → Contains s p ↔ IsReached table.now.entries seeds.now p) }
    ensures least { IfOk result (IsLeastClosed table.now.entries seeds.now) }
{
    let mut found: IndexSet<StorePath> = IndexSet::new(alloc);
    add_all(&mut found, seeds)?;
    // A set has fewer members than the counter has values, so the search ends at the `break`.
    for next in 0..usize::MAX {
        let Some(path) = found.get_index(next) else {
            break;
        };
        let refs = table.refs(path);
        add_all(&mut found, refs)?;
    }
    sorted(alloc, found)
}

/// Adds a copy of each path that the set does not hold yet, behind those that it holds.
fn add_all(found: &mut IndexSet<StorePath>, paths: &[StorePath]) -> Result<(), AllocError>
    ensures only { OnOk result (AddsOnly found.old.keys found.new.keys paths.now) }
    ensures all { OnOk result (HoldsAll found.new.keys paths.now) }
{
    for path in paths {
        if found.contains(path) {
            continue;
        }
        found.insert(path.try_clone()?)?;
    }
    Ok(())
}

/// The paths of an index as a set, in rising order. Refuses only where an allocation is refused.
pub fn sorted(alloc: Global, found: IndexSet<StorePath>) -> Result<PathSet, AllocError>
    ensures members { IfOk result (HasSameMembers found.keys) }
    ensures small { length found.keys < 2 ^ 63 }
{
    let paths: Vec<StorePath> = found.into_iter().collect(alloc)?;
    PathSet::from_vec(paths)
}
