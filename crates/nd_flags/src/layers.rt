//! Rows of flags in layers, so that the next flag that is up is found without a walk over all.
ghost use Rattle.std.specs.Prelude.{◌≡◌, ◌≤◌, ◌<◌, ℕ, Bool, true, false, List, Option, None, Some, length, slice_set, slice_index_or, replicate, IfOk, MatchOption, MatchBool, min, ◌*◌, ◌+◌, ◌/◌};
ghost use Rattle.nd_flags.specs.Members.{IsFirstFrom};
ghost use Rattle.nd_flags.specs.Layers.{IsAnyUp, IsFirstWithin};
ghost use Rattle.nd_flags.specs.Words.{IsWithBit};

use std::alloc::{AllocError, Global};
use std::marker::Model;

/// How many flags of a layer one flag of the layer above stands for: those of one word.
const BLOCK: usize = 64;

/// A row of flags of a fixed length.
pub trait Flags: Drop {
    ghost flags: { Self → List Bool };

    /// `len` flags, none of them up.
    fn new(alloc: Global, len: usize) -> Result<Self, AllocError>
        ensures { IfOk result (λ made. flags made ≡ replicate len false) };

    /// Puts the flag at `i` up or down.
    fn put(&mut self, i: usize, up: bool)
        requires { i < length (flags self.old) }
        ensures { flags self.new ≡ slice_set (flags self.old) i up };

    /// Whether the flag at `i` is up.
    fn is_up(&self, i: usize) -> bool
        requires { i < length (flags self.now) }
        ensures { result ≡ slice_index_or (flags self.now) i false };

    /// The first place not before `from` whose flag is up.
    fn first_from(&self, from: usize) -> Option<usize>
        ensures { IsFirstFrom (flags self.now) from result };

    /// An equal row.
    fn try_clone(&self, alloc: Global) -> Result<Self, AllocError>
        ensures { IfOk result (λ copy. flags copy ≡ flags self.now) };
}

/// A word with one of its bits put to 1 or 0.
#[tactic(auto, using(crate::proofs::WordFacts::up_here, crate::proofs::WordFacts::up_others, crate::proofs::WordFacts::down_here, crate::proofs::WordFacts::down_others))]
fn with_bit(word: u64, bit: usize, up: bool) -> u64
    requires { bit < 64 }
    ensures { IsWithBit word result bit up }
{
    let mask = 1u64 << bit;
    if up { word | mask } else { word & !mask }
}

/// A single row, which is searched from one end to the other, 64 flags at a time: the flag at i is the bit i % 64 of the word
/// i / 64.
#[derive(Drop, Debug)]
pub struct Flat {
    words: Vec<u64>,
    len: usize,
}

impl Model for Flat {
    ghost use Rattle.std.specs.Prelude.{List, Bool};

    ghost Value = { List Bool };

    ghost use Rattle.nd_flags.specs.Words.{flags_of, AreWords};

    ghost view = { λ row. flags_of row.words.items row.len };

    ghost invariant = { λ row. AreWords row.words.items row.len };
}

impl Flat {
    /// The number of flags.
    #[tactic(auto, using(crate::proofs::WordFacts::length_is))]
    pub(crate) fn len(&self) -> usize
        ensures { result ≡ length self.now }
    {
        self.len
    }

    /// Whether a flag of `i`'s block is up.
    fn is_any_up(&self, i: usize) -> bool
        requires { i / 64 ≤ length self.now / 64 }
        ensures { IsAnyUp self.now (i / 64) result }
    {
        self.first_in_block(i / BLOCK * BLOCK).is_some()
    }

    /// The first place of `from`'s block not before `from` whose flag is up.
    #[tactic(auto, using(crate::proofs::WordFacts::none_within, crate::proofs::WordFacts::lowest_fits, crate::proofs::WordFacts::word_within))]
    fn first_in_block(&self, from: usize) -> Option<usize>
        requires { from / 64 ≤ length self.now / 64 }
        ensures { IsFirstWithin self.now from result }
    {
        let rest = self.words[from / BLOCK] >> (from % BLOCK);
        if rest == 0 {
            return None;
        }
        Some(from + rest.trailing_zeros() as usize)
    }
}

impl Flags for Flat {
    ghost flags = { λ row. row };

    fn new(alloc: Global, len: usize) -> Result<Self, AllocError> {
        Ok(Flat {
            words: vec![in alloc; 0; len / BLOCK + 1]?,
            len,
        })
    }

    #[tactic(auto, using(crate::proofs::WordFacts::flag_within, crate::proofs::WordFacts::put_is))]
    fn put(&mut self, i: usize, up: bool) {
        let word = self.words[i / BLOCK];
        self.words[i / BLOCK] = with_bit(word, i % BLOCK, up);
    }

    #[tactic(auto, using(crate::proofs::WordFacts::flag_within, crate::proofs::WordFacts::bit_is))]
    fn is_up(&self, i: usize) -> bool {
        self.words[i / BLOCK] >> (i % BLOCK) & 1 == 1
    }

    fn first_from(&self, from: usize) -> Option<usize> {
        let len = self.len();
        if from >= len {
            return None;
        }
        if let Some(i) = self.first_in_block(from) {
            return Some(i);
        }
        for block in from / BLOCK + 1..len / BLOCK + 1 {
            if let Some(i) = self.first_in_block(block * BLOCK) {
                return Some(i);
            }
        }
        None
    }

    fn try_clone(&self, alloc: Global) -> Result<Self, AllocError> {
        Ok(Flat {
            words: Vec::from_slice(alloc, self.words.as_slice())?,
            len: self.len,
        })
    }
}

/// A row with a layer above it, whose flag j is up where one of the flags 64 j to 64 j + 63 is.
#[derive(Drop, Debug)]
pub struct Layered<U: Flags> {
    items: Flat,
    above: U,
}

impl<U: Flags> Model for Layered<U> {
    ghost use Rattle.std.specs.Prelude.{List, Bool};

    ghost Value = { List Bool };

    ghost use Rattle.nd_flags.specs.Layers.{AreSummed};

    ghost view = { λ row. row.items };

    ghost invariant = { λ row. AreSummed row.items (U.flags row.above) };
}

impl<U: Flags> Layered<U> {
    /// The number of flags.
    pub(crate) fn len(&self) -> usize
        ensures { result ≡ length self.now }
    {
        self.items.len()
    }
}

impl<U: Flags> Flags for Layered<U> {
    ghost flags = { λ row. row };

    fn new(alloc: Global, len: usize) -> Result<Self, AllocError> {
        let above = U::new(alloc, len / BLOCK + 1)?;
        Ok(Layered {
            items: Flags::new(alloc, len)?,
            above,
        })
    }

    fn put(&mut self, i: usize, up: bool) {
        self.items.put(i, up);
        let block = i / BLOCK;
        let any = self.items.is_any_up(i);
        self.above.put(block, any);
    }

    fn is_up(&self, i: usize) -> bool {
        self.items.is_up(i)
    }

    fn first_from(&self, from: usize) -> Option<usize> {
        if from >= self.items.len() {
            return None;
        }
        if let Some(i) = self.items.first_in_block(from) {
            return Some(i);
        }
        let block = from / BLOCK;
        let next = self.above.first_from(block + 1)?;
        self.items.first_in_block(next * BLOCK)
    }

    fn try_clone(&self, alloc: Global) -> Result<Self, AllocError> {
        let above = self.above.try_clone(alloc)?;
        Ok(Layered {
            items: self.items.try_clone(alloc)?,
            above,
        })
    }
}
