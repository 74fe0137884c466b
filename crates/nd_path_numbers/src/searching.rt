//! The search for what a machine lacks of a closure.

ghost use Rattle.std.specs.Prelude.{◌<◌, ◌^◌, length, IfOk, OnOk, IfSome, OnSome};
ghost use Rattle.nd_path_numbers.specs.Numbers.{AreNumbersOf};
ghost use Rattle.nd_path_numbers.specs.Searches.{IsCovered, AddsUnheld, AreUnheld, FindsUnheld};

use crate::holdings::Held;
use crate::path_numbers::PathNumbers;
use crate::reached::Reached;
use nd_path::{PathSet, StorePath};
use std::alloc::{AllocError, Global};

/// The paths that are reached from the seeds through paths that aren't held: at a held path the search
/// stops, and what that path refers to isn't looked at. It costs a look-up of a number for each path that
/// is found, for each of its references and for each seed, however much is held; only what is found is
/// looked up as a path. Refuses only where an allocation is refused.
pub fn reach_unheld(
    alloc: Global,
    seeds: &[usize],
    numbers: &PathNumbers,
    held: &Held,
) -> Result<PathSet, AllocError>
    ensures { IfOk result (FindsUnheld numbers.now held.now.numbers seeds.now) }
{
    let found = search(alloc, seeds, numbers, held)?;
    numbers.set_of(alloc, found.as_slice())
}

/// The numbers of these paths, one after another, where just these paths are so reached: no path is looked up
/// by its hash. Refuses only where an allocation is refused.
pub fn match_unheld(
    alloc: Global,
    seeds: &[usize],
    numbers: &PathNumbers,
    held: &Held,
    paths: &[StorePath],
) -> Result<Option<Vec<usize>>, AllocError>
    ensures order { IfOk result (λ r. IfSome r (λ v. AreNumbersOf numbers.now.paths paths.now v.items)) }
    ensures found { IfOk result (λ r. OnSome r (FindsUnheld numbers.now held.now.numbers seeds.now paths.now)) }
{
    let found = search(alloc, seeds, numbers, held)?;
    if found.len() != paths.len() {
        return Ok(None);
    }
    let Some(sorted) = numbers.in_order_of(paths, found.into_numbers()) else {
        return Ok(None);
    };
    Ok(Some(sorted))
}

/// What is so reached, as numbers.
fn search(
    alloc: Global,
    seeds: &[usize],
    numbers: &PathNumbers,
    held: &Held,
) -> Result<Reached, AllocError>
    ensures { IfOk result (AreUnheld numbers.now.rows held.now.numbers seeds.now) }
{
    let known = numbers.len();
    let mut found = Reached::new(alloc);
    add_unheld(alloc, &mut found, seeds, held, known)?;
    // A list has fewer members than the counter has values, so the search ends at the `break`.
    for next in 0..usize::MAX {
        let Some(number) = found.number(next) else {
            break;
        };
        let row = numbers.row(number);
        add_unheld(alloc, &mut found, row, held, known)?;
    }
    // For the proof: a list's length is small.
    let _len = found.len();
    Ok(found)
}

/// Adds each number that is not held, behind those that were found, where it isn't among them.
fn add_unheld(
    alloc: Global,
    found: &mut Reached,
    numbers: &[usize],
    held: &Held,
    known: usize,
) -> Result<(), AllocError>
    ensures only { OnOk result (AddsUnheld held.now.numbers found.old found.new numbers.now) }
    ensures all { OnOk result (IsCovered numbers.now held.now.numbers found.new) }
{
    for number in numbers {
        if held.contains(*number) {
            continue;
        }
        found.add(alloc, *number, known)?;
    }
    Ok(())
}
