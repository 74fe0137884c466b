//! Copies of paths, and what is added to the listed paths and to holdings.

ghost use Rattle.std.specs.Prelude.{◌≡◌, ◌+◌, ◌<◌, ◌≤◌, ◌++◌, ◌∷◌, [], length, IfOk, OnOk};
ghost use Rattle.nd_path.specs.PathSets.{HasSameMembers};
ghost use Rattle.nd_path_numbers.specs.Held.{hold_of};
ghost use Rattle.nd_provision.specs.declared.copying.PathsError.TheVariants.{Memory};
ghost use Rattle.nd_provision.specs.Stored.{IsListing, AreListings, HasEntered, HasGained};
ghost use Rattle.nd_provision.specs.Told.{AreTold};

use crate::listed_paths::Listed;
use crate::seen::{SeenPath, SeenRefs};
use nd_bytes::Items;
use nd_path::{PathSet, StorePath};
use nd_path_numbers::{Holdings, PathNumbers};
use std::alloc::{AllocError, Global};

/// A path with what it refers to, by number. The path and the set of the others are there for contracts alone.
#[derive(Drop, Debug)]
pub struct Listing {
    /// The path.
    pub path: SeenPath,
    /// What it refers to.
    pub refs: SeenRefs,
    /// The path's number.
    pub number: usize,
    /// The numbers of what it refers to.
    pub row: Items<usize>,
}

/// What a start or a build adds to the listed paths and to the holdings of a machine and of the
/// local one, made before anything is changed.
#[derive(Drop, Debug)]
pub struct Additions {
    /// The machine.
    pub machine: usize,
    /// Paths with their references.
    pub entries: Vec<Listing>,
    /// The numbers of what the local machine gets.
    pub own: Vec<usize>,
    /// The numbers of what the machine gets, where it isn't the local one.
    pub brought: Vec<usize>,
    /// Where this is so, the machine has what the new paths of the local one refer to, or gets it.
    pub provided: bool,
}

/// Why the paths copied for a build aren't right.
#[derive(Clone, Copy, Debug, PartialEq, Eq)]
pub enum PathsError {
    /// A path of the input closure is neither held by the machine nor copied.
    Uncovered,
    /// A copied path is outside the input closure.
    Extra,
    /// An allocation was refused.
    Memory,
}

impl From<AllocError> for PathsError {
    ghost from_gives = { λ _ e. e ≡ Memory };

    fn from(_error: AllocError) -> PathsError {
        PathsError::Memory
    }
}

/// Appends copies of these paths.
pub(crate) fn add_copies(into: &mut Vec<StorePath>, paths: &[StorePath]) -> Result<(), AllocError>
    ensures { OnOk result (into.new.items ≡ into.old.items ++ paths.now) }
{
    for path in paths {
        into.push(path.try_clone()?)?;
    }
    Ok(())
}

/// The set of these paths and of copies of those.
pub(crate) fn set_with(mut paths: Vec<StorePath>, more: &[StorePath]) -> Result<PathSet, AllocError>
    ensures { IfOk result (HasSameMembers (paths.items ++ more.now)) }
{
    add_copies(&mut paths, more)?;
    PathSet::from_vec(paths)
}

/// Lists a path where there is room for it, and says by number what it refers to, where it isn't listed yet. It takes
/// no memory.
fn enter_one(listed: &mut Listed, numbers: &mut PathNumbers, listing: Listing)
    requires room { 0 < listed.old.spare }
    requires listed { IsListing numbers.old.paths listing }
    requires told { AreTold listed.old numbers.old.paths }
    ensures entered { HasEntered listed.old.entries listed.new.entries numbers.old numbers.new (listing ∷ []) }
    ensures room { listed.old.spare ≤ listed.new.spare + 1 }
    ensures told { AreTold listed.new numbers.new.paths }
{
    let Listing {
        path,
        refs,
        number,
        row,
    } = listing;
    let added = listed.add(number, &path, &refs);
    if added {
        numbers.set_row(number, row);
    }
}

/// Lists these paths where there is room for them, and says by number what they refer to: of two entries for a path
/// the first counts. It takes no memory.
pub(crate) fn enter_all(listed: &mut Listed, numbers: &mut PathNumbers, listings: Vec<Listing>)
    requires room { length listings.items ≤ listed.old.spare }
    requires listed { AreListings numbers.old.paths listings.items }
    requires told { AreTold listed.old numbers.old.paths }
    ensures entered { HasEntered listed.old.entries listed.new.entries numbers.old numbers.new listings.items }
    ensures told { AreTold listed.new numbers.new.paths }
{
    for listing in listings {
        enter_one(listed, numbers, listing);
    }
}

/// Adds these numbers to what machine `m` holds, which has room for them. It takes no memory.
pub(crate) fn put_all(holdings: &mut Holdings, m: usize, numbers: &[usize])
    requires machine { m < length holdings.old }
    requires room { length numbers.now ≤ (hold_of holdings.old m).spare }
    ensures { HasGained holdings.old holdings.new m numbers.now }
{
    for number in numbers {
        let Ok(_) = holdings.add(m, *number) else {
            unreachable!()
        };
    }
}
