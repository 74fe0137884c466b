//! Inputs by path.

ghost use Rattle.std.specs.Prelude.{◌≡◌};

use crate::name::Name;
use crate::names::Names;
use nd_path::StorePath;
use std::marker::Model;

/// An input derivation by its path, and the names of the outputs that are wanted of it. Contracts see the
/// `NamedInput`.
#[derive(Drop)]
pub struct Want {
    path: StorePath,
    names: Names,
}

impl Model for Want {
    ghost use Rattle.nd_line.specs.declared.line.NamedInput.{NamedInput};

    ghost Value = { NamedInput };

    ghost view = { λ w. record { path = w.path; names = w.names } };
}

impl Want {
    /// These outputs of the derivation with this path.
    pub(crate) fn new(path: StorePath, names: Names) -> Want
        ensures path { result.path ≡ path }
        ensures names { result.names ≡ names }
    {
        Want { path, names }
    }

    /// The bytes of the derivation's path.
    pub(crate) fn path(&self) -> &[u8]
        ensures { result.now ≡ self.now.path }
    {
        self.path.bytes()
    }

    /// The names of the outputs.
    pub(crate) fn names(&self) -> &[Name]
        ensures { result.now ≡ self.now.names }
    {
        self.names.as_slice()
    }
}
