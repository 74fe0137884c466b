//! The references of a derivation's outputs.

ghost use Rattle.std.specs.Prelude.{◌≡◌, IfOk};

use nd_path::PathSet;
use std::alloc::AllocError;
use std::marker::Model;

/// The references of a derivation's outputs: one set of store paths for each output, in the order of
/// the outputs' names. Contracts see the list of the sets.
#[derive(Debug, Drop)]
pub struct Refs {
    sets: Vec<PathSet>,
}

impl Model for Refs {
    ghost use Rattle.std.specs.Prelude.{ℕ, List};

    ghost Value = { List (List (List ℕ)) };

    ghost view = { λ r. r.sets.items };
}

impl Refs {
    /// These sets, one for each output. It takes no memory.
    pub fn new(sets: Vec<PathSet>) -> Refs
        ensures { result ≡ sets.items }
    {
        Refs { sets }
    }

    /// The sets, one for each output.
    pub fn lists(&self) -> &[PathSet]
        ensures { result.now ≡ self.now }
    {
        self.sets.as_slice()
    }

    /// A copy that is equal to the original.
    pub fn try_clone(&self) -> Result<Refs, AllocError>
        ensures { IfOk result (λ r. r ≡ self.now) }
    {
        Ok(Refs {
            sets: self.sets.clone()?,
        })
    }
}
