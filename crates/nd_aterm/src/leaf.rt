//! The strings of a derivation text, borrowed from it where they can be.

ghost use Rattle.std.specs.Prelude.{◌≡◌, ◌==◌, length, IfOk};

use nd_bytes::ByteString;
use std::alloc::{AllocError, Global};
use std::marker::Model;

/// A string that was read of a text: a piece of the text where it has no escape, and bytes of its own
/// else. Contracts see the list of its bytes, escapes read, and not which of the two it is.
#[derive(Debug, Drop)]
pub struct Leaf<'t> {
    kept: Kept<'t>,
}

/// Where the bytes of a string are.
#[derive(Debug, Drop)]
enum Kept<'t> {
    /// In the text.
    Piece(&'t [u8]),
    /// Beside it.
    Owned(Vec<u8>),
}

impl<'t> Model for Leaf<'t> {
    ghost use Rattle.std.specs.Prelude.{ℕ, List};
    ghost use Rattle.nd_aterm.specs.Leaves.{bytes_of};

    ghost Value = { List ℕ };

    ghost view = { λ s. bytes_of s.kept };
}

impl<'t> Leaf<'t> {
    /// The string with the bytes of a piece of a text. It takes no memory.
    pub(crate) fn new(piece: &'t [u8]) -> Leaf<'t>
        ensures { result ≡ piece.now }
    {
        Leaf {
            kept: Kept::Piece(piece),
        }
    }

    /// The string with these bytes. It takes no memory.
    pub(crate) fn from_vec(bytes: Vec<u8>) -> Leaf<'t>
        ensures { result ≡ bytes.items }
    {
        Leaf {
            kept: Kept::Owned(bytes),
        }
    }

    /// The bytes.
    pub fn as_slice(&self) -> &[u8]
        ensures { result.now ≡ self.now }
    {
        match &self.kept {
            Kept::Piece(piece) => piece,
            Kept::Owned(bytes) => bytes.as_slice(),
        }
    }

    /// Whether there is no byte.
    pub fn is_empty(&self) -> bool
        ensures { result ≡ (length self.now == 0) }
    {
        self.as_slice().is_empty()
    }

    /// The same string: its bytes are copied where they are not a piece of a text.
    pub(crate) fn try_clone(&self, alloc: Global) -> Result<Leaf<'t>, AllocError>
        ensures { IfOk result (λ copy. copy ≡ self.now) }
    {
        match &self.kept {
            Kept::Piece(piece) => Ok(Leaf::new(piece)),
            Kept::Owned(bytes) => Ok(Leaf::from_vec(Vec::from_slice(alloc, bytes.as_slice())?)),
        }
    }

    /// The string on its own: its bytes are copied where they are a piece of a text.
    pub fn into_byte_string(self, alloc: Global) -> Result<ByteString, AllocError>
        ensures { IfOk result (λ s. s ≡ self.entry) }
    {
        match self.kept {
            Kept::Piece(piece) => ByteString::from_slice(alloc, piece),
            Kept::Owned(bytes) => Ok(ByteString::new(bytes)),
        }
    }
}
