//! What is added to references and holdings, by number.

ghost use Rattle.std.specs.Prelude.{◌≡◌, ◌==◌, [], length, map, if◌then◌else◌, IfOk, IfSome};
ghost use Rattle.std.specs.List.{zip};
ghost use Rattle.nd_path_numbers.specs.Numbers.{AreNumbersOf, HasGrown, IsNumberOf};
ghost use Rattle.nd_provision.specs.Listed.{number_in};
ghost use Rattle.nd_provision.specs.Stored.{entry_of, IsListing, AreListings, AreGivenEntries, IsNumberedGiven, IsNumberedBuild};

use crate::copying::{Additions, Listing};
use crate::seen::{SeenPath, SeenRefs};
use nd_bytes::Items;
use nd_closure::RefTable;
use nd_path::{PathSet, StorePath};
use nd_path_numbers::PathNumbers;
use std::alloc::{AllocError, Global};

/// What the local machine has before the first entry: these paths, with what the info table lists for them.
pub(crate) fn number_given(
    alloc: Global,
    numbers: &mut PathNumbers,
    given: &[StorePath],
    info: &RefTable,
) -> Result<Additions, AllocError>
    ensures given { IfOk result (IsNumberedGiven info.now.entries numbers.new.paths given.now) }
    ensures grown { HasGrown numbers.old numbers.new }
{
    let entries = list_given(alloc, numbers, given, info)?;
    let own = listed_numbers(alloc, entries.as_slice())?;
    Ok(Additions {
        machine: 0,
        entries,
        own,
        brought: Vec::new(alloc),
        provided: true,
    })
}

/// What a build on machine `m` with these outputs and references adds; whether the machine has what they
/// refer to isn't looked at. `likely` has the numbers that the outputs have, as far as is known.
pub(crate) fn number_build(
    alloc: Global,
    numbers: &mut PathNumbers,
    m: usize,
    outputs: &[StorePath],
    likely: &[usize],
    refs: &[PathSet],
) -> Result<Additions, AllocError>
    requires { length refs.now ≡ length outputs.now }
    ensures build { IfOk result (IsNumberedBuild numbers.new.paths m outputs.now refs.now) }
    ensures grown { HasGrown numbers.old numbers.new }
{
    let entries = list_beside(alloc, numbers, outputs, likely, refs)?;
    let own = listed_numbers(alloc, entries.as_slice())?;
    let brought = brought_of(alloc, m, own.as_slice())?;
    Ok(Additions {
        machine: m,
        entries,
        own,
        brought,
        provided: false,
    })
}

/// The numbers of what is brought to machine `m`: of these paths, or none where it is the local one.
fn numbers_for(
    alloc: Global,
    numbers: &mut PathNumbers,
    m: usize,
    paths: &[StorePath],
) -> Result<Vec<usize>, AllocError>
    ensures numbers { IfOk result (λ v. AreNumbersOf numbers.new.paths (if m == 0 then [] else paths.now) v.items) }
    ensures grown { HasGrown numbers.old numbers.new }
{
    if m == 0 {
        return numbers.know_all(alloc, &[]);
    }
    numbers.know_all(alloc, paths)
}

/// The same where the numbers of the paths may be at hand.
pub(crate) fn numbers_at_hand(
    alloc: Global,
    numbers: &mut PathNumbers,
    m: usize,
    paths: &[StorePath],
    found: Option<Vec<usize>>,
) -> Result<Vec<usize>, AllocError>
    requires { IfSome found (λ v. AreNumbersOf numbers.old.paths paths.now v.items) }
    ensures numbers { IfOk result (λ v. AreNumbersOf numbers.new.paths (if m == 0 then [] else paths.now) v.items) }
    ensures grown { HasGrown numbers.old numbers.new }
{
    let Some(brought) = found else {
        return numbers_for(alloc, numbers, m, paths);
    };
    if m == 0 {
        return Ok(Vec::new(alloc));
    }
    Ok(brought)
}

/// The numbers of the listed paths, in their order. They aren't looked up again.
fn listed_numbers(alloc: Global, listings: &[Listing]) -> Result<Vec<usize>, AllocError>
    ensures { IfOk result (λ v. v.items ≡ map number_in listings.now) }
{
    let mut numbers = Vec::with_capacity(alloc, listings.len())?;
    for listing in listings {
        numbers.push(listing.number)?;
    }
    Ok(numbers)
}

/// The numbers of what is brought to machine `m`: these, or none where it is the local one.
fn brought_of(alloc: Global, m: usize, own: &[usize]) -> Result<Vec<usize>, AllocError>
    ensures { IfOk result (λ v. v.items ≡ (if m == 0 then [] else own.now)) }
{
    if m == 0 {
        return Ok(Vec::new(alloc));
    }
    Vec::from_slice(alloc, own)
}

/// The number of a path. Where it is likely to be this one, the two paths are compared first, and where it is,
/// the path isn't looked up.
fn number_likely(
    alloc: Global,
    numbers: &mut PathNumbers,
    path: &StorePath,
    likely: Option<usize>,
) -> Result<usize, AllocError>
    ensures number { IfOk result (IsNumberOf numbers.new.paths path.now) }
    ensures grown { HasGrown numbers.old numbers.new }
{
    if let Some(number) = likely {
        if numbers.is_number_of(path, number) {
            return Ok(number);
        }
    }
    numbers.know(alloc, path)
}

/// A path, which is likely to have this number, and what it refers to, by number.
fn list_one(
    alloc: Global,
    numbers: &mut PathNumbers,
    path: &StorePath,
    likely: Option<usize>,
    refs: &[StorePath],
) -> Result<Listing, AllocError>
    ensures listed { IfOk result (IsListing numbers.new.paths) }
    ensures entry { IfOk result (λ l. entry_of l ≡ (path.now, refs.now)) }
    ensures grown { HasGrown numbers.old numbers.new }
{
    let number = number_likely(alloc, numbers, path, likely)?;
    let row = Items::new(numbers.know_all(alloc, refs)?);
    Ok(Listing {
        path: SeenPath::of(path),
        refs: SeenRefs::of(refs),
        number,
        row,
    })
}

/// These paths, which are likely to have these numbers, each with its set of references, by number.
fn list_beside(
    alloc: Global,
    numbers: &mut PathNumbers,
    paths: &[StorePath],
    likely: &[usize],
    refs: &[PathSet],
) -> Result<Vec<Listing>, AllocError>
    requires { length refs.now ≡ length paths.now }
    ensures entries { IfOk result (λ v. map entry_of v.items ≡ zip paths.now refs.now) }
    ensures listed { IfOk result (λ v. AreListings numbers.new.paths v.items) }
    ensures grown { HasGrown numbers.old numbers.new }
{
    let mut listings = Vec::with_capacity(alloc, paths.len())?;
    for i in 0..paths.len() {
        let number = likely.get(i).copied();
        let listing = list_one(alloc, numbers, &paths[i], number, refs[i].as_slice())?;
        listings.push(listing)?;
    }
    Ok(listings)
}

/// These paths, each with what the info table lists for it, by number.
fn list_given(
    alloc: Global,
    numbers: &mut PathNumbers,
    given: &[StorePath],
    info: &RefTable,
) -> Result<Vec<Listing>, AllocError>
    ensures entries { IfOk result (λ v. AreGivenEntries info.now.entries given.now (map entry_of v.items)) }
    ensures listed { IfOk result (λ v. AreListings numbers.new.paths v.items) }
    ensures grown { HasGrown numbers.old numbers.new }
{
    let mut listings = Vec::new(alloc);
    for path in given {
        let listing = list_one(alloc, numbers, path, None, info.refs(path))?;
        listings.push(listing)?;
    }
    Ok(listings)
}
