//! The text that was read so far, which proofs speak of and no memory holds.

ghost use Rattle.std.specs.Prelude.{◌≡◌, ◌++◌, ℕ, List, []};
ghost use Rattle.std.specs.Borrow.{ftrue};

use std::marker::Model;

/// The text that was read so far. It is there for contracts alone: it takes no memory, and its methods do
/// nothing when they run.
#[derive(Drop)]
pub(crate) struct SoFar {
    pub ghost bytes: { List ℕ },
}

impl Model for SoFar {
    ghost also_owns = { λ _. ftrue };
}

impl SoFar {
    /// No text.
    pub(crate) fn new() -> SoFar
        ensures { result.bytes ≡ [] }
    {
        SoFar {}
    }

    /// This text, and another one behind it.
    pub(crate) fn with(&self, _text: &[u8]) -> SoFar
        ensures { result.bytes ≡ self.now.bytes ++ _text.now }
    {
        SoFar {}
    }
}
