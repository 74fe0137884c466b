//! Lists of names of outputs.

ghost use Rattle.std.specs.Prelude.{◌≡◌, ◌∷◌, [], IfOk};

use crate::name::Name;
use std::alloc::{AllocError, Global};
use std::marker::Model;
use std::slice;

/// Names of outputs. Mostly it is one, for which no list is made. Contracts see the list of the names.
#[derive(Drop)]
pub struct Names {
    kept: Kept,
}

/// How names are kept.
#[derive(Drop)]
enum Kept {
    /// One name.
    One(Name),
    /// So many names, in a box, with which they take 16 bytes and not 32.
    Many(Box<Vec<Name>>),
}

impl Model for Names {
    ghost use Rattle.std.specs.Prelude.{ℕ, List};

    ghost Value = { List (List ℕ) };

    ghost use Rattle.nd_links.specs.Naming.{names_in};

    ghost view = { λ n. names_in n.kept };
}

impl Names {
    /// This name alone.
    pub(crate) fn one(name: Name) -> Names
        ensures { result ≡ name ∷ [] }
    {
        Names {
            kept: Kept::One(name),
        }
    }

    /// These names. Refuses where an allocation is refused.
    pub(crate) fn many(alloc: Global, names: Vec<Name>) -> Result<Names, AllocError>
        ensures { IfOk result (λ made. made ≡ names.items) }
    {
        Ok(Names {
            kept: Kept::Many(Box::new(alloc, names)?),
        })
    }

    /// The names.
    pub(crate) fn as_slice(&self) -> &[Name]
        ensures { result.now ≡ self.now }
    {
        match &self.kept {
            Kept::One(name) => slice::from_ref(name),
            Kept::Many(names) => names.as_slice(),
        }
    }
}
