//! Which numbers a list has, told by flags and beyond them by a set.

ghost use Rattle.std.specs.Prelude.{◌≡◌, ◌≤◌, ◌<◌, ◌+◌, ◌/◌, ℕ, List, [], length, IfOk, OnOk, OnErr, IsOk};
ghost use Rattle.nd_path_numbers.specs.Held.{is_among};
ghost use Rattle.nd_path_numbers.specs.Marks.{AreMarked, MarkTheSame, TakeNote, room_of};

use indexmap::IndexSet;
use std::alloc::{AllocError, Global};

/// How many flags a word has.
const WORD: usize = 64;

/// How many flags there may be for a number of the list: as many take no more memory than a number takes in a set.
const FLAGS_A_NUMBER: usize = 128;

/// Whether flags for all numbers below a limit are no more than so many numbers of a list pay for.
fn are_flags_paid(numbers: usize, limit: usize) -> bool {
    limit / FLAGS_A_NUMBER <= numbers
}

/// A flag for each number below a limit, 64 in a word: it is up where a list has the number. What else the list
/// has, past the limit, is in a set.
#[derive(Debug, Drop)]
pub(crate) struct Marks {
    words: Vec<u64>,
    others: IndexSet<usize>,
}

impl Marks {
    /// The marks of the empty list, which has no flags. It takes no memory.
    pub(crate) fn new(alloc: Global) -> Marks
        ensures { AreMarked [] result }
    {
        Marks {
            words: Vec::new(alloc),
            others: IndexSet::new(alloc),
        }
    }

    /// The marks of a list. Each number below the limit has a flag, where so many numbers pay for them.
    pub(crate) fn of(
        alloc: Global,
        numbers: &[usize],
        paying: usize,
        limit: usize,
    ) -> Result<Marks, AllocError>
        ensures { IfOk result (AreMarked numbers.now) }
    {
        if are_flags_paid(paying, limit) {
            return Marks::with_flags(alloc, numbers, limit);
        }
        Marks::with_set(alloc, numbers)
    }

    /// The marks of a list, with a flag for each number below the limit.
    fn with_flags(alloc: Global, numbers: &[usize], limit: usize) -> Result<Marks, AllocError>
        ensures { IfOk result (AreMarked numbers.now) }
    {
        let mut flags = Marks {
            words: vec![in alloc; 0; limit / WORD + 1]?,
            others: IndexSet::new(alloc),
        };
        flags.note_all(numbers)?;
        Ok(flags)
    }

    /// The marks of a list without flags.
    pub(crate) fn with_set(alloc: Global, numbers: &[usize]) -> Result<Marks, AllocError>
        ensures { IfOk result (AreMarked numbers.now) }
    {
        let mut marks = Marks::new(alloc);
        marks.others.reserve(numbers.len())?;
        marks.note_all(numbers)?;
        Ok(marks)
    }

    /// Takes note of all numbers of a list, where these are the marks of the empty one.
    fn note_all(&mut self, numbers: &[usize]) -> Result<(), AllocError>
        ensures { AreMarked [] self.old → OnOk result (AreMarked numbers.now self.new) }
    {
        for number in numbers {
            self.note(*number)?;
        }
        Ok(())
    }

    /// The first number that has no flag.
    #[inline(always)]
    fn limit(&self) -> usize {
        self.words.len().saturating_mul(WORD)
    }

    /// For how many more numbers without a flag there is room.
    fn room(&self) -> usize
        ensures { room_of self.now ≤ result }
    {
        self.others.capacity() - self.others.len()
    }

    /// Makes room for so many more numbers of the list, whether they have a flag or not.
    pub(crate) fn reserve(&mut self, count: usize) -> Result<(), AllocError>
        ensures marked { MarkTheSame self.old self.new }
        ensures made { OnOk result (count ≤ room_of self.new) }
        ensures room { room_of self.old ≤ room_of self.new }
    {
        self.others.reserve(count)
    }

    /// Makes sure that each number below the limit has a flag, where so many numbers pay for them.
    #[inline(always)]
    pub(crate) fn flag_below(
        &mut self,
        alloc: Global,
        numbers: &[usize],
        paying: usize,
        limit: usize,
    ) -> Result<(), AllocError>
        ensures marked { AreMarked numbers.now self.old → AreMarked numbers.now self.new }
        ensures room { room_of self.old ≤ room_of self.new }
    {
        if self.limit() < limit && are_flags_paid(paying, limit) {
            self.flag_anew(alloc, numbers, limit)?;
        }
        Ok(())
    }

    /// Gives each number below the limit a flag, with as much room for others as before. The flags at least double,
    /// so that over many calls the list is walked through a few times as often as it has members, and no more.
    #[inline(never)]
    fn flag_anew(
        &mut self,
        alloc: Global,
        numbers: &[usize],
        limit: usize,
    ) -> Result<(), AllocError>
        ensures marked { AreMarked numbers.now self.old → AreMarked numbers.now self.new }
        ensures room { room_of self.old ≤ room_of self.new }
    {
        let limit = limit.max(self.limit().saturating_mul(2));
        let mut marks = Marks::with_flags(alloc, numbers, limit)?;
        marks.reserve(self.room())?;
        *self = marks;
        Ok(())
    }

    /// Takes note of one more number of the list. Of one that has a flag, or that room was made for, it takes no
    /// memory; a refusal changes nothing.
    #[inline(always)]
    pub(crate) fn note(&mut self, number: usize) -> Result<(), AllocError>
        ensures noted { OnOk result (TakeNote number self.old self.new) }
        ensures refused { OnErr result (MarkTheSame self.old self.new) }
        ensures succeeds { 0 < room_of self.old → IsOk result }
        ensures room { room_of self.old ≤ room_of self.new + 1 }
    {
        let place = number / WORD;
        if place < self.words.len() {
            self.words[place] |= 1 << (number % WORD);
            return Ok(());
        }
        self.note_other(number)
    }

    /// Takes note of one that has no flag.
    #[inline(never)]
    fn note_other(&mut self, number: usize) -> Result<(), AllocError>
        requires { length self.old.words.items ≤ number / 64 }
        ensures noted { OnOk result (TakeNote number self.old self.new) }
        ensures refused { OnErr result (MarkTheSame self.old self.new) }
        ensures succeeds { 0 < room_of self.old → IsOk result }
        ensures room { room_of self.old ≤ room_of self.new + 1 }
    {
        self.others.insert(number)?;
        Ok(())
    }

    /// Whether the list has this number. It takes no memory.
    #[inline(always)]
    pub(crate) fn tell(&self, number: usize) -> bool
        ensures { (numbers : List ℕ) → AreMarked numbers self.now → result ≡ is_among numbers number }
    {
        match self.words.get(number / WORD) {
            Some(word) => *word >> (number % WORD) & 1 == 1,
            None => self.tell_other(number),
        }
    }

    /// The same of one that has no flag.
    #[inline(never)]
    fn tell_other(&self, number: usize) -> bool
        requires { length self.now.words.items ≤ number / 64 }
        ensures { (numbers : List ℕ) → AreMarked numbers self.now → result ≡ is_among numbers number }
    {
        self.others.contains(&number)
    }

    /// A copy of the flags.
    fn words_again(&self) -> Result<Vec<u64>, AllocError>
        ensures { IfOk result (λ words. words.items ≡ self.now.words.items) }
    {
        self.words.clone()
    }

    /// A copy of the set.
    fn others_again(&self) -> Result<IndexSet<usize>, AllocError>
        ensures { IfOk result (λ others. others.keys ≡ self.now.others.keys) }
    {
        self.others.clone()
    }

    /// Equal marks.
    #[tactic(auto, using(crate::proofs::Marking::alike))]
    pub(crate) fn try_clone(&self) -> Result<Marks, AllocError>
        ensures { IfOk result (MarkTheSame self.now) }
    {
        Ok(Marks {
            words: self.words_again()?,
            others: self.others_again()?,
        })
    }
}
