//! The places of the outputs that an input names.

ghost use Rattle.std.specs.Prelude.{◌≡◌, ◌∷◌, [], IfOk};

use std::alloc::{AllocError, Global};
use std::marker::Model;
use std::slice;

/// Places in a list of outputs, in the order in which they are named, maybe none. One place, which is
/// what most inputs name, takes no memory of its own. Contracts see the list of the places.
#[derive(Drop, Debug)]
pub struct Places {
    held: Held,
}

/// How places are held.
#[derive(Drop, Debug)]
pub(crate) enum Held {
    /// One place.
    One(usize),
    /// So many places, in a box, with which an input takes 24 bytes and not 40.
    Many(Box<Vec<usize>>),
}

impl Model for Places {
    ghost use Rattle.std.specs.Prelude.{ℕ, List};

    ghost Value = { List ℕ };

    ghost use Rattle.nd_graph.specs.Placing.{places_in};

    ghost view = { λ p. places_in p.held };
}

impl Places {
    /// The one place.
    pub fn one(place: usize) -> Places
        ensures { result ≡ place ∷ [] }
    {
        Places {
            held: Held::One(place),
        }
    }

    /// These places. Refuses where an allocation is refused.
    pub fn new(alloc: Global, places: Vec<usize>) -> Result<Places, AllocError>
        ensures { IfOk result (λ made. made ≡ places.items) }
    {
        Ok(Places {
            held: Held::Many(Box::new(alloc, places)?),
        })
    }

    /// The places.
    pub fn as_slice(&self) -> &[usize]
        ensures { result.now ≡ self.now }
    {
        match &self.held {
            Held::One(place) => slice::from_ref(place),
            Held::Many(places) => places.as_slice(),
        }
    }

    /// A copy that is equal to the original. Refuses where an allocation is refused.
    pub fn try_clone(&self, alloc: Global) -> Result<Places, AllocError>
        ensures { IfOk result (λ copy. copy ≡ self.now) }
    {
        match &self.held {
            Held::One(place) => Ok(Places::one(*place)),
            Held::Many(places) => Places::new(alloc, Vec::from_slice(alloc, places.as_slice())?),
        }
    }
}
