//! Store paths, each with a number.

ghost use Rattle.std.specs.Prelude.{◌≡◌, ◌<◌, ◌∷◌, [], length, slice_set, IfOk, OnOk, IfSome, IsTrue, ◌↔◌};
ghost use Rattle.std.specs.List.Sorted.{IsPermutation};
ghost use Rattle.nd_path_numbers.specs.Numbers.{row_in, AreNumbersOf, IsNumberOf, IsLookedUp, HasGrown, AddsOnly, IsSetOf};

use indexmap::IndexSet;
use nd_bytes::Items;
use nd_path::{PathSet, StorePath};
use std::alloc::{AllocError, Global};
use std::marker::Model;

/// Store paths by number, in the order in which they became known, and for each the numbers of the paths
/// that it refers to. A path is compared with others once, when it is given its number.
#[derive(Debug, Drop)]
pub struct PathNumbers {
    paths: IndexSet<StorePath>,
    rows: Vec<Items<usize>>,
}

impl Model for PathNumbers {
    ghost use Rattle.std.specs.Prelude.{◌≤◌, length};
    ghost use Rattle.nd_path_numbers.specs.Numbers.{Numbered};

    ghost Value = { Numbered };

    ghost view = { λ n. record { paths = n.paths.keys; rows = n.rows.items } };

    ghost invariant = { λ n. length n.paths.keys ≤ length n.rows.items };
}

impl PathNumbers {
    /// No path is known. It takes no memory.
    pub fn new(alloc: Global) -> PathNumbers
        ensures paths { result.paths ≡ [] }
        ensures rows { result.rows ≡ [] }
    {
        PathNumbers {
            paths: IndexSet::new(alloc),
            rows: Vec::new(alloc),
        }
    }

    /// No path is known, and there is room for so many. Refuses where an allocation is refused.
    pub fn with_capacity(alloc: Global, count: usize) -> Result<PathNumbers, AllocError>
        ensures paths { IfOk result (λ numbers. numbers.paths ≡ []) }
        ensures rows { IfOk result (λ numbers. numbers.rows ≡ []) }
    {
        Ok(PathNumbers {
            paths: IndexSet::with_capacity(alloc, count)?,
            rows: Vec::with_capacity(alloc, count)?,
        })
    }

    /// How many paths are known: each number is below it. It takes no memory.
    pub fn len(&self) -> usize
        ensures { result ≡ length self.now.paths }
    {
        self.paths.len()
    }

    /// The number of a path: its own, or the next one where it was not known. Its row is empty then.
    /// No other path becomes known. Refuses only where an allocation is refused.
    pub fn know(&mut self, alloc: Global, path: &StorePath) -> Result<usize, AllocError>
        ensures number { IfOk result (IsNumberOf self.new.paths path.now) }
        ensures grown { HasGrown self.old self.new }
        ensures only { AddsOnly self.old.paths self.new.paths (path.now ∷ []) }
    {
        self.make_row(alloc)?;
        let (number, _) = self.paths.insert_full(path.try_clone()?)?;
        Ok(number)
    }

    /// Makes sure that there is a row for one path more.
    fn make_row(&mut self, alloc: Global) -> Result<(), AllocError>
        ensures grown { HasGrown self.old self.new }
        ensures same { self.new.paths ≡ self.old.paths }
        ensures room { OnOk result (length self.old.paths < length self.new.rows) }
    {
        if self.rows.len() == self.paths.len() {
            self.rows.push(Items::new(Vec::new(alloc)))?;
        }
        Ok(())
    }

    /// The numbers of these paths, one after another; no other path becomes known. Refuses only where an
    /// allocation is refused.
    pub fn know_all(&mut self, alloc: Global, paths: &[StorePath]) -> Result<Vec<usize>, AllocError>
        ensures numbers { IfOk result (λ v. AreNumbersOf self.new.paths paths.now v.items) }
        ensures grown { HasGrown self.old self.new }
        ensures only { AddsOnly self.old.paths self.new.paths paths.now }
    {
        let mut numbers = Vec::with_capacity(alloc, paths.len())?;
        for path in paths {
            numbers.push(self.know(alloc, path)?)?;
        }
        Ok(numbers)
    }

    /// The number of a path that is known. It takes no memory.
    pub fn number(&self, path: &StorePath) -> Option<usize>
        ensures { IsLookedUp self.now.paths path.now result }
    {
        self.paths.get_index_of(path)
    }

    /// The numbers of what the path with this number refers to, as far as it was set. It takes no memory.
    pub fn row(&self, number: usize) -> &[usize]
        ensures { result.now ≡ row_in self.now.rows number }
    {
        match self.rows.get(number) {
            Some(row) => row.as_slice(),
            None => &[],
        }
    }

    /// Says what a path refers to. It takes no memory.
    pub fn set_row(&mut self, number: usize, row: Items<usize>)
        requires { number < length self.old.paths }
        ensures paths { self.new.paths ≡ self.old.paths }
        ensures rows { self.new.rows ≡ slice_set self.old.rows number row }
        ensures within { number < length self.old.rows }
    {
        self.rows[number] = row;
    }

    /// The set of the paths with these numbers. Refuses only where an allocation is refused.
    pub fn set_of(&self, alloc: Global, numbers: &[usize]) -> Result<PathSet, AllocError>
        ensures { IfOk result (IsSetOf self.now.paths numbers.now) }
    {
        let mut paths = Vec::with_capacity(alloc, numbers.len())?;
        for number in numbers {
            let Some(path) = self.paths.get_index(*number) else {
                continue;
            };
            paths.push(path.try_clone()?)?;
        }
        PathSet::from_vec(paths)
    }

    /// These numbers in the order of their paths, where these are the paths. It takes no memory.
    pub(crate) fn in_order_of(
        &self,
        paths: &[StorePath],
        mut numbers: Vec<usize>,
    ) -> Option<Vec<usize>>
        ensures order { IfSome result (λ v. AreNumbersOf self.now.paths paths.now v.items) }
        ensures moved { IfSome result (λ v. IsPermutation numbers.items v.items) }
    {
        self.put_in_order(&mut numbers);
        if !self.are_numbers_of(paths, numbers.as_slice()) {
            return None;
        }
        Some(numbers)
    }

    /// Puts these numbers in the order of their paths. It takes no memory.
    fn put_in_order(&self, numbers: &mut Vec<usize>)
        ensures { IsPermutation numbers.old.items numbers.new.items }
    {
        numbers.sort_unstable_by_key(|number| self.paths.get_index(*number));
    }

    /// Whether these are the numbers of these paths, one after another. It takes no memory.
    fn are_numbers_of(&self, paths: &[StorePath], numbers: &[usize]) -> bool
        ensures { IsTrue result → AreNumbersOf self.now.paths paths.now numbers.now }
    {
        if numbers.len() != paths.len() {
            return false;
        }
        for i in 0..paths.len() {
            if !self.is_number_of(&paths[i], numbers[i]) {
                return false;
            }
        }
        true
    }

    /// Whether this is the number of this path: the two paths are compared, and none is looked up. It takes no memory.
    pub fn is_number_of(&self, path: &StorePath, number: usize) -> bool
        ensures { IsTrue result ↔ IsNumberOf self.now.paths path.now number }
    {
        match self.paths.get_index(number) {
            Some(known) => *path == *known,
            None => false,
        }
    }

    /// A copy with the same numbers and the same rows.
    pub fn try_clone(&self, alloc: Global) -> Result<PathNumbers, AllocError>
        ensures { IfOk result (λ n. n ≡ self.now) }
    {
        Ok(PathNumbers {
            paths: self.paths.clone()?,
            rows: copy_rows(alloc, self.rows.as_slice())?,
        })
    }
}

/// A copy of these rows of numbers. Refuses only where an allocation is refused.
pub fn copy_rows(alloc: Global, rows: &[Items<usize>]) -> Result<Vec<Items<usize>>, AllocError>
    ensures { IfOk result (λ v. v.items ≡ rows.now) }
{
    let mut copies = Vec::with_capacity(alloc, rows.len())?;
    for row in rows {
        copies.push(Items::new(Vec::from_slice(alloc, row.as_slice())?))?;
    }
    Ok(copies)
}
