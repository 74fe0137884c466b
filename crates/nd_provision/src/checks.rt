//! Tests of lists of paths against sets, and of numbers against what machines hold.

ghost use Rattle.std.specs.Prelude.{IsTrue, IfOk};
ghost use Rattle.std.specs.Bool.{MatchBool};
ghost use Rattle.std.specs.List.{Contains};
ghost use Rattle.nd_closure.specs.Closures.{HoldsAll};
ghost use Rattle.nd_path_numbers.specs.Searches.{IsCovered as IsCoveredIn};
ghost use Rattle.nd_provision.specs.Stored.{IsOutside, AreAllWithin, IsStray, IsOnMachine, IsCoveredBy, Lacks, AreRowsCovered, AreListingsCovered};

use crate::copying::Listing;
use nd_path::{PathSet, StorePath};
use nd_path_numbers::{Held, PathNumbers};
use std::alloc::{AllocError, Global};

/// Whether a path is held.
fn is_held(numbers: &PathNumbers, held: &Held, path: &StorePath) -> bool
    ensures { IsOnMachine numbers.now.paths held.now.numbers path.now result }
{
    match numbers.number(path) {
        Some(number) => held.contains(number),
        None => false,
    }
}

/// Whether each of these paths is held or among the copied ones.
pub(crate) fn is_covered(
    closure: &[StorePath],
    numbers: &PathNumbers,
    held: &Held,
    copied: &PathSet,
) -> bool
    ensures { IsCoveredBy numbers.now.paths held.now.numbers closure.now copied.now result }
{
    for path in closure {
        if is_held(numbers, held, path) {
            continue;
        }
        if !copied.contains(path) {
            return false;
        }
    }
    true
}

/// The paths of a set that aren't held.
pub(crate) fn lacked(
    alloc: Global,
    closure: &PathSet,
    numbers: &PathNumbers,
    held: &Held,
) -> Result<PathSet, AllocError>
    ensures { IfOk result (Lacks numbers.now.paths held.now.numbers closure.now) }
{
    let mut lacked = Vec::new(alloc);
    for path in closure.as_slice() {
        if is_held(numbers, held, path) {
            continue;
        }
        lacked.push(path.try_clone()?)?;
    }
    PathSet::from_vec(lacked)
}

/// Whether a number is one of these few.
fn is_among(few: &[usize], number: usize) -> bool
    ensures { IsTrue result → Contains few.now number }
{
    for one in few {
        if *one == number {
            return true;
        }
    }
    false
}

/// Whether each of these numbers is held or one of these few.
pub(crate) fn are_held(row: &[usize], held: &Held, own: &[usize]) -> bool
    ensures { IsTrue result → IsCoveredIn row.now held.now.numbers own.now }
{
    for number in row {
        if held.contains(*number) {
            continue;
        }
        if !is_among(own, *number) {
            return false;
        }
    }
    true
}

/// Whether what each of these numbers refers to is held or one of them.
pub(crate) fn are_rows_held(numbers: &PathNumbers, held: &Held, own: &[usize]) -> bool
    ensures { IsTrue result → AreRowsCovered numbers.now.rows held.now.numbers own.now own.now }
{
    for number in own {
        if !are_held(numbers.row(*number), held, own) {
            return false;
        }
    }
    true
}

/// Whether what is listed here is held or one of these few.
pub(crate) fn are_listings_held(listings: &[Listing], held: &Held, own: &[usize]) -> bool
    ensures { IsTrue result → AreListingsCovered listings.now held.now.numbers own.now }
{
    for listing in listings {
        if !are_held(listing.row.as_slice(), held, own) {
            return false;
        }
    }
    true
}

/// Whether each of these paths is in the set.
pub(crate) fn lie_in(paths: &[StorePath], set: &PathSet) -> bool
    ensures { MatchBool result (HoldsAll set.now paths.now) (IsOutside set.now paths.now) }
{
    for path in paths {
        if !set.contains(path) {
            return false;
        }
    }
    true
}

/// Whether each path of these sets is in one set.
pub(crate) fn all_lie_in(lists: &[PathSet], set: &PathSet) -> bool
    ensures { MatchBool result (AreAllWithin set.now lists.now) (IsStray set.now lists.now) }
{
    for list in lists {
        if !lie_in(list.as_slice(), set) {
            return false;
        }
    }
    true
}
