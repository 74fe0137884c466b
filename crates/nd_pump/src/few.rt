//! A few places.

ghost use Rattle.std.specs.Prelude.{◌≡◌, ◌++◌, ◌∷◌, [], IsTrue};

use std::marker::Model;

/// How many places there may be.
const MOST: usize = 16;

/// At most sixteen places, in the order in which they came. It takes no memory. Contracts see their list.
#[derive(Drop)]
pub(crate) struct Few {
    places: [usize; MOST],
    len: usize,
}

impl Model for Few {
    ghost use Rattle.std.specs.Prelude.{ℕ, ◌≤◌, List, take};

    ghost Value = { List ℕ };

    ghost view = { λ few. take few.len few.places };

    ghost invariant = { λ few. few.len ≤ 16 };
}

impl Few {
    /// No place.
    pub(crate) fn new() -> Few
        ensures { result ≡ [] }
    {
        Few {
            places: [0; MOST],
            len: 0,
        }
    }

    /// Puts one more place behind the others, and says whether there was room for it.
    pub(crate) fn push(&mut self, place: usize) -> bool
        ensures { IsTrue result → self.new ≡ self.old ++ place ∷ [] }
    {
        if self.len == MOST {
            return false;
        }
        self.places[self.len] = place;
        self.len += 1;
        true
    }

    /// The places.
    pub(crate) fn as_slice(&self) -> &[usize]
        ensures { result.now ≡ self.now }
    {
        &self.places[..self.len]
    }
}
