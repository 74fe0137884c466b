//! Rows of numbers in one list.
ghost use Rattle.std.specs.Prelude.{◌≡◌, ◌≤◌, ◌++◌, ◌∷◌, [], length, slice_index, slice_index_or, IfOk, OnOk, OnErr};

use std::alloc::{AllocError, Global};
use std::marker::Model;

/// Rows of numbers, seen by contracts as the list of the rows.
///
/// The numbers of all rows stand one behind another in one list, beside a list of where each row ends. So all rows together take
/// two allocations, and eight bytes for each number and each row.
#[derive(Drop, Debug)]
pub struct Rows {
    items: Vec<usize>,
    ends: Vec<usize>,
}

impl Model for Rows {
    ghost use Rattle.std.specs.Prelude.{List, ℕ};

    ghost Value = { List (List ℕ) };

    ghost use Rattle.nd_flags.specs.Ends.{rows_in, AreEnds};

    ghost view = { λ rows. rows_in rows.items.items 0 rows.ends.items };

    ghost invariant = { λ rows. AreEnds rows.items.items rows.ends.items };
}

/// Where a row begins: at the end of the one before it.
fn begin_of(ends: &[usize], number: usize) -> usize
    requires { number ≤ length ends.now }
    ensures { result ≡ slice_index (0 ∷ ends.now) number }
{
    if number == 0 {
        return 0;
    }
    ends[number - 1]
}

impl Rows {
    /// No rows, with room for so many of them and for so many numbers in all. Refuses where an allocation is refused.
    pub fn with_capacity(alloc: Global, rows: usize, numbers: usize) -> Result<Rows, AllocError>
        ensures { IfOk result (λ made. made ≡ []) }
    {
        let items = Vec::with_capacity(alloc, numbers)?;
        Ok(Rows {
            items,
            ends: Vec::with_capacity(alloc, rows)?,
        })
    }

    /// The number of rows.
    #[tactic(auto, using(crate::proofs::EndFacts::rows_counted))]
    pub fn len(&self) -> usize
        ensures { result ≡ length self.now }
    {
        self.ends.len()
    }

    /// The numbers of a row, and none where there is no such row.
    #[tactic(auto, using(crate::proofs::EndFacts::row_past, crate::proofs::EndFacts::row_begins, crate::proofs::EndFacts::row_ends, crate::proofs::EndFacts::row_is))]
    pub fn row(&self, number: usize) -> &[usize]
        ensures { result.now ≡ slice_index_or self.now number [] }
    {
        if number >= self.ends.len() {
            return &[];
        }
        let begin = begin_of(self.ends.as_slice(), number);
        let end = self.ends[number];
        &self.items[begin..end]
    }

    /// Adds one more row. Refuses where an allocation is refused, and then the rows are as they were. Takes memory only where the
    /// room that is there is not enough.
    #[tactic(auto, using(crate::proofs::EndFacts::ends_more, crate::proofs::EndFacts::row_more))]
    pub fn add(&mut self, row: &[usize]) -> Result<(), AllocError>
        ensures ok { OnOk result (self.new ≡ self.old ++ row.now ∷ []) }
        ensures err { OnErr result (self.new ≡ self.old) }
    {
        self.ends.reserve(1)?;
        self.items.extend_from_slice(row)?;
        self.ends.push_reserved(self.items.len());
        Ok(())
    }

    /// Equal rows, which take as much memory as there are numbers and rows. Refuses where an allocation is refused.
    pub fn try_clone(&self) -> Result<Rows, AllocError>
        ensures { IfOk result (λ copy. copy ≡ self.now) }
    {
        let items = self.items.clone()?;
        Ok(Rows {
            items,
            ends: self.ends.clone()?,
        })
    }
}

impl Clone for Rows {
    ghost is_clone = { λ rows copy. copy ≡ rows };

    fn clone(&self) -> Result<Rows, AllocError> {
        self.try_clone()
    }
}
