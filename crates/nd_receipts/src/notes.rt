//! What a worker notes of the entries that it made.

ghost use Rattle.std.specs.Prelude.{◌≡◌, ◌+◌, ◌<◌, ◌≤◌, ◌++◌, [], ◌∷◌, length, OnOk, OnErr};

use crate::receipt::Receipt;
use nd_history::Entry;
use std::alloc::{AllocError, Global};
use std::marker::Model;

/// The receipts of a worker, and beside each a copy of its entry. Contracts see both lists, and for
/// how many more entries there is room.
#[derive(Drop, Debug)]
pub struct Notes {
    receipts: Vec<Receipt>,
    copies: Vec<Entry>,
}

impl Model for Notes {
    ghost use Rattle.nd_receipts.specs.Noted.{Noted};

    ghost Value = { Noted };

    ghost use Rattle.nd_receipts.specs.NotesKept.{noted, AreAsMany};

    ghost view = { noted };

    ghost invariant = { AreAsMany };
}

impl Notes {
    /// No receipts. It takes no memory.
    pub fn new(alloc: Global) -> Notes
        ensures receipts { result.receipts ≡ [] }
        ensures copies { result.copies ≡ [] }
    {
        Notes {
            receipts: Vec::new(alloc),
            copies: Vec::new(alloc),
        }
    }

    /// Makes room for `more` receipts with their entries.
    pub fn make_room(&mut self, more: usize) -> Result<(), AllocError>
        ensures receipts { self.new.receipts ≡ self.old.receipts }
        ensures copies { self.new.copies ≡ self.old.copies }
        ensures made { OnOk result (more ≤ self.new.room) }
    {
        self.receipts.reserve(more)?;
        self.copies.reserve(more)
    }

    /// Notes an entry. It takes no memory.
    pub fn note(&mut self, receipt: Receipt, copy: Entry)
        requires { 0 < self.old.room }
        ensures receipts { self.new.receipts ≡ self.old.receipts ++ receipt ∷ [] }
        ensures copies { self.new.copies ≡ self.old.copies ++ copy ∷ [] }
        ensures room { self.old.room ≤ self.new.room + 1 }
    {
        self.receipts.push_reserved(receipt);
        self.copies.push_reserved(copy);
    }

    /// The receipts, oldest first.
    pub fn receipts(&self) -> &[Receipt]
        ensures { result.now ≡ self.now.receipts }
    {
        self.receipts.as_slice()
    }

    /// The copies of the entries, in the order of the receipts.
    pub fn copies(&self) -> &[Entry]
        ensures { result.now ≡ self.now.copies }
    {
        self.copies.as_slice()
    }

    /// The receipts and the copies. It takes no memory.
    pub fn into_parts(self) -> (Vec<Receipt>, Vec<Entry>)
        ensures receipts { result.0.items ≡ self.receipts }
        ensures copies { result.1.items ≡ self.copies }
    {
        let Notes { receipts, copies } = self;
        (receipts, copies)
    }
}
