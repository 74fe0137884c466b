//! What is durable.

ghost use Rattle.std.specs.Prelude.{◌≡◌, length, MatchBool};
ghost use Rattle.nd_history.specs.Sameness.{BeginsWith};
ghost use Rattle.nd_keeping.specs.Listing.{GoesBeyond};

use crate::book::Front;
use std::marker::Model;

/// A beginning of what a journal was handed, all of which is durable. Only a [`Scribe`](crate::Scribe) makes one
/// from nothing, of what its journal has made durable, so whoever has one knows that its entries are. Any thread
/// may have copies of it; they take no memory. Contracts see the entries, and which book they are of.
#[derive(Drop)]
pub struct Kept {
    front: Front,
}

impl Model for Kept {
    ghost use Rattle.nd_keeping.specs.Listing.{Listed};

    ghost Value = { Listed };

    ghost view = { λ k. k.front };
}

impl Kept {
    /// What is durable, now that these entries are.
    pub(crate) fn new(front: Front) -> Kept
        ensures { result ≡ front }
    {
        Kept { front }
    }

    /// How many entries it has.
    pub fn len(&self) -> usize
        ensures { result ≡ length self.now.entries }
    {
        self.front.len()
    }

    /// A copy.
    pub fn again(&self) -> Kept
        ensures { result ≡ self.now }
    {
        Kept {
            front: self.front.again(),
        }
    }

    /// These entries as a front: what is durable was handed to the journal.
    pub fn front(&self) -> Front
        ensures { result ≡ self.now }
    {
        self.front.again()
    }

    /// Whether all of this begins what was handed by then. If not, that is the shorter one, and begins this one.
    pub fn begins(&self, handed: &Front) -> bool
        requires book { handed.now.book ≡ self.now.book }
        ensures { MatchBool result (BeginsWith handed.now.entries self.now.entries) (GoesBeyond self.now.entries handed.now.entries) }
    {
        self.front.begins(handed)
    }
}
