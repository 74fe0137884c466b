//! The bytes of a store path.

ghost use Rattle.std.specs.Prelude.{◌≡◌, ◌≤◌, length, IfOk};

use std::alloc::{AllocError, Global};
use std::marker::Model;

/// How many bytes lie beside their number. Most paths have no more: 44 bytes stand before a name, and names of Nixpkgs
/// have some thirty.
const SHORT: usize = 78;

/// The bytes of a path, which lie here where they are few, so that a path and all its copies take one allocation.
/// Contracts see the list of them.
#[derive(Debug, Drop)]
pub(crate) struct PathText {
    kept: Kept,
}

/// How bytes are kept.
#[derive(Debug, Drop)]
pub(crate) enum Kept {
    /// Few bytes, which lie here.
    Short(Short),
    /// More, in a list of their own.
    Long(Vec<u8>),
}

/// The first bytes of an array.
#[derive(Debug, Drop)]
pub(crate) struct Short {
    length: u8,
    bytes: [u8; SHORT],
}

impl Model for Short {
    ghost use Rattle.std.specs.Prelude.{◌≤◌, ℕ, List, take};

    ghost Value = { List ℕ };

    ghost view = { λ s. take s.length s.bytes };

    ghost invariant = { λ s. s.length ≤ 78 };
}

impl Model for PathText {
    ghost use Rattle.std.specs.Prelude.{ℕ, List};
    ghost use Rattle.nd_path.specs.PathTexts.{bytes_in};

    ghost Value = { List ℕ };

    ghost view = { λ t. bytes_in t.kept };
}

impl Short {
    /// These bytes.
    fn new(bytes: &[u8]) -> Short
        requires { length bytes.now ≤ 78 }
        ensures { result ≡ bytes.now }
    {
        let mut room = [0; SHORT];
        room[..bytes.len()].copy_from_slice(bytes);
        Short {
            length: bytes.len() as u8,
            bytes: room,
        }
    }

    /// The bytes.
    fn as_slice(&self) -> &[u8]
        ensures { result.now ≡ self.now }
    {
        &self.bytes[..usize::from(self.length)]
    }
}

impl PathText {
    /// A copy of these bytes. Few of them take no memory.
    pub(crate) fn from_slice(alloc: Global, bytes: &[u8]) -> Result<PathText, AllocError>
        ensures { IfOk result (λ text. text ≡ bytes.now) }
    {
        let kept = if bytes.len() <= SHORT {
            Kept::Short(Short::new(bytes))
        } else {
            Kept::Long(Vec::from_slice(alloc, bytes)?)
        };
        Ok(PathText { kept })
    }

    /// The bytes.
    pub(crate) fn as_slice(&self) -> &[u8]
        ensures { result.now ≡ self.now }
    {
        match &self.kept {
            Kept::Short(bytes) => bytes.as_slice(),
            Kept::Long(bytes) => bytes.as_slice(),
        }
    }
}
