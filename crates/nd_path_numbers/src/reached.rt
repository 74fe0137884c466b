//! What a search has reached.

ghost use Rattle.std.specs.Prelude.{◌≡◌, ◌<◌, ◌≤◌, ◌∷◌, ◌++◌, [], length, not, OnOk, MatchOption, slice_index_or};
ghost use Rattle.nd_path_numbers.specs.Held.{is_among, with_new};

use crate::few::FEW;
use crate::marks::Marks;
use std::alloc::{AllocError, Global};
use std::marker::Model;

/// A search doesn't last: a number that it has found pays for so many times the flags that a held one does.
const FLAGS_OF_A_SEARCH: usize = 4;

/// The numbers that a search has found, in the order in which they came, each once.
#[derive(Debug, Drop)]
pub(crate) struct Reached {
    numbers: Vec<usize>,
    /// Whether a number is among them, once they are more than a few.
    marks: Option<Marks>,
}

impl Model for Reached {
    ghost use Rattle.std.specs.Prelude.{List, ℕ};
    ghost use Rattle.nd_path_numbers.specs.Marks.{AreTold};

    ghost Value = { List ℕ };

    ghost view = { λ f. f.numbers.items };

    ghost invariant = { λ f. AreTold f.numbers.items f.marks };
}

impl Reached {
    /// Nothing is found yet. It takes no memory.
    pub(crate) fn new(alloc: Global) -> Reached
        ensures { result ≡ [] }
    {
        Reached {
            numbers: Vec::new(alloc),
            marks: None,
        }
    }

    /// Adds a number, where it isn't among them. Where they are many, each number below the limit has a flag once
    /// they pay for that.
    pub(crate) fn add(
        &mut self,
        alloc: Global,
        number: usize,
        limit: usize,
    ) -> Result<(), AllocError>
        ensures { OnOk result (self.new ≡ with_new self.old number (not (is_among self.old number))) }
    {
        if self.contains(number) {
            return Ok(());
        }
        self.enter(alloc, number, limit)
    }

    /// Whether a number is among them.
    fn contains(&self, number: usize) -> bool
        ensures { result ≡ is_among self.now number }
    {
        match &self.marks {
            Some(marks) => marks.tell(number),
            None => self.numbers.as_slice().contains(&number),
        }
    }

    /// Enters a number that isn't among them.
    fn enter(&mut self, alloc: Global, number: usize, limit: usize) -> Result<(), AllocError>
        ensures { OnOk result (self.new ≡ self.old ++ number ∷ []) }
    {
        if self.numbers.len() >= FEW {
            self.mark(alloc, limit)?;
        }
        self.numbers.reserve(1)?;
        if let Some(marks) = &mut self.marks {
            marks.note(number)?;
        }
        self.numbers.push_reserved(number);
        Ok(())
    }

    /// Makes the marks, or gives more numbers a flag where they pay for that.
    fn mark(&mut self, alloc: Global, limit: usize) -> Result<(), AllocError>
        ensures { self.new ≡ self.old }
    {
        let numbers = self.numbers.as_slice();
        let paying = numbers.len().saturating_mul(FLAGS_OF_A_SEARCH);
        if let Some(marks) = &mut self.marks {
            return marks.flag_below(alloc, numbers, paying, limit);
        }
        self.marks = Some(Marks::of(alloc, numbers, paying, limit)?);
        Ok(())
    }

    /// How many there are.
    pub(crate) fn len(&self) -> usize
        ensures { result ≡ length self.now }
    {
        self.numbers.len()
    }

    /// The number at a place.
    pub(crate) fn number(&self, place: usize) -> Option<usize>
        ensures { MatchOption result (length self.now ≤ place) (λ n. (place < length self.now) × (n ≡ slice_index_or self.now place 0)) }
    {
        match self.numbers.get(place) {
            Some(number) => Some(*number),
            None => None,
        }
    }

    /// The numbers as a vector, in the order in which they came. It takes no memory.
    pub(crate) fn into_numbers(self) -> Vec<usize>
        ensures { result.items ≡ self }
    {
        let Reached { numbers, .. } = self;
        numbers
    }

    /// The numbers in the order in which they came.
    pub(crate) fn as_slice(&self) -> &[usize]
        ensures { result.now ≡ self.now }
    {
        self.numbers.as_slice()
    }
}
