//! Byte strings.

ghost use Rattle.std.specs.Prelude.{◌≡◌, ◌==◌, ℕ, List, length, IfOk};
ghost use Rattle.std.proofs.Common.{rules};
ghost use Rattle.std.specs.Ordering.{as_partial_cmp};
ghost use Rattle.nd_bytes.specs.Compared.{bytes_eq, bytes_cmp, bytes_input, bytes_equal, bytes_partly_equal, bytes_ordered, bytes_partly_ordered, bytes_ties, bytes_alike};

use std::alloc::{AllocError, Global};
use std::cmp::Ordering;
use std::hash::{Hash, Hasher};
use std::marker::Model;

/// A string of bytes, which need not be UTF-8. Contracts see the list of its bytes.
#[derive(Debug, Drop, Clone)]
pub struct ByteString {
    bytes: Vec<u8>,
}

impl Model for ByteString {
    ghost Value = { List ℕ };

    ghost view = { λ s. s.bytes.items };
}

impl ByteString {
    /// The byte string with the bytes of `bytes`. It takes no memory.
    pub fn new(bytes: Vec<u8>) -> Self
        ensures { result ≡ bytes.items }
    {
        ByteString { bytes }
    }

    /// A copy of `bytes`.
    pub fn from_slice(alloc: Global, bytes: &[u8]) -> Result<Self, AllocError>
        ensures { IfOk result (λ s. s ≡ bytes.now) }
    {
        Ok(ByteString {
            bytes: Vec::from_slice(alloc, bytes)?,
        })
    }

    /// The bytes.
    pub fn as_slice(&self) -> &[u8]
        ensures { result.now ≡ self.now }
    {
        &self.bytes[..]
    }

    /// The number of bytes.
    pub fn len(&self) -> usize
        ensures { result ≡ length self.now }
    {
        self.bytes.len()
    }

    /// Whether there is no byte.
    pub fn is_empty(&self) -> bool
        ensures { result ≡ (length self.now == 0) }
    {
        self.bytes.is_empty()
    }

    /// The bytes as a vector. It takes no memory.
    pub fn into_vec(self) -> Vec<u8>
        ensures { result.items ≡ self }
    {
        let ByteString { bytes } = self;
        bytes
    }

    /// A copy that is equal to the original.
    pub fn try_clone(&self) -> Result<Self, AllocError>
        ensures { IfOk result (λ s. s ≡ self.now) }
    {
        self.clone()
    }
}

impl PartialEq for ByteString {
    ghost eq = { bytes_eq };

    ghost laws = { bytes_partly_equal };

    fn eq(&self, other: &ByteString) -> bool {
        self.bytes.as_slice() == other.bytes.as_slice()
    }
}

impl Eq for ByteString {
    ghost laws = { bytes_equal };
}

impl PartialOrd for ByteString {
    ghost partial_cmp = { as_partial_cmp bytes_cmp };

    ghost laws = { bytes_partly_ordered };

    fn partial_cmp(&self, other: &ByteString) -> Option<Ordering> {
        Some(self.cmp(other))
    }
}

impl Ord for ByteString {
    ghost cmp = { bytes_cmp };

    ghost total = { bytes_ordered };

    ghost matches_partial_cmp = { Prim.search rules };

    ghost matches_eq = { bytes_ties };

    fn cmp(&self, other: &ByteString) -> Ordering {
        self.bytes.as_slice().cmp(other.bytes.as_slice())
    }
}

impl Hash for ByteString {
    ghost hash_input = { bytes_input };

    ghost respects_eq = { bytes_alike };

    fn hash<H: Hasher>(&self, state: &mut H) {
        self.bytes.as_slice().hash(state);
    }
}
