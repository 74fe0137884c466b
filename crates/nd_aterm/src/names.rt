//! The output names of an input derivation, borrowed from a derivation text.

ghost use Rattle.std.specs.Prelude.{◌≡◌};
ghost use Rattle.nd_aterm.specs.Spelling.{string, list};
ghost use Rattle.nd_aterm.specs.SpellingOnce.{string_once, string_opens, list_once, list_opens};

use crate::fault::AtermError;
use crate::leaf::Leaf;
use crate::lists::listed_at;
use crate::part::{Part, expect, strip};
use nd_bytes::Items;
use std::alloc::Global;
use std::marker::Model;
use std::slice;

/// The names of the outputs that are needed of an input derivation. Mostly it is one, for which no list is
/// made. Contracts see the list of the names.
#[derive(Debug, Drop)]
pub struct Names<'t> {
    kept: KeptNames<'t>,
}

/// How the names are kept.
#[derive(Debug, Drop)]
enum KeptNames<'t> {
    /// One name.
    One(Leaf<'t>),
    /// So many names.
    Many(Items<Leaf<'t>>),
}

impl<'t> Model for Names<'t> {
    ghost use Rattle.std.specs.Prelude.{ℕ, List};
    ghost use Rattle.nd_aterm.specs.NameLists.{names_in};

    ghost Value = { List (List ℕ) };

    ghost view = { λ n. names_in n.kept };
}

impl<'t> Names<'t> {
    ghost use Rattle.std.specs.Prelude.{[], ◌∷◌};

    /// This name alone.
    fn one(name: Leaf<'t>) -> Names<'t>
        ensures { result ≡ name.entry ∷ [] }
    {
        Names {
            kept: KeptNames::One(name),
        }
    }

    /// So many names.
    fn many(names: Items<Leaf<'t>>) -> Names<'t>
        ensures { result ≡ names.entry }
    {
        Names {
            kept: KeptNames::Many(names),
        }
    }

    /// The names.
    pub fn as_slice(&self) -> &[Leaf<'t>]
        ensures { result.now ≡ self.now }
    {
        match &self.kept {
            KeptNames::One(name) => slice::from_ref(name),
            KeptNames::Many(names) => names.as_slice(),
        }
    }
}

impl<'t> Part<'t> for Names<'t> {
    ghost text = { list string };

    const ROOM: usize = 1;

    #[tactic(auto, unfolding(crate::specs::Spelling::list))]
    fn read(alloc: Global, bytes: &'t [u8]) -> Result<(Self, &'t [u8]), AtermError> {
        let bytes = expect(bytes, b'[')?;
        if let Some(rest) = strip(bytes, b']') {
            return Ok((Names::many(Items::new(Vec::new(alloc))), rest));
        }
        let (first, rest) = Leaf::read(alloc, bytes)?;
        if let Some(rest) = strip(rest, b']') {
            return Ok((Names::one(first), rest));
        }
        let (names, rest) = listed_at(alloc, first, rest)?;
        Ok((Names::many(Items::new(names)), rest))
    }

    ghost once = { list_once string string_once string_opens };

    ghost opens = { list_opens string };
}
