//! Keys that are looked up by the bytes of a text.

ghost use Rattle.std.specs.Prelude.{◌≡◌, IfOk, IfErr};
ghost use Rattle.std.specs.Cmp as Cmp;
ghost use Rattle.std.specs.Cmp.Lexicographic.{nat_list_eq_equiv};
ghost use Rattle.nd_path.specs.declared.path_error.PathError.{PathError};
ghost use Rattle.nd_path.specs.StorePath.{path_eq, path_input};
ghost use Rattle.nd_path.specs.Refusals.{IsPath, IsSpelled, IsRefused};
ghost use Rattle.nd_path.specs.SamePaths.{paths_alike};

use nd_path::{PathError, StorePath};
use std::alloc::Global;
use std::hash::{Hash, Hasher};
use std::marker::Model;

/// What a store path is looked up by in a set or a map: a piece of a text, or a store path. Contracts see
/// the list of its bytes, and not which of the two it is. Two are equal where their bytes are.
#[derive(Debug, Drop)]
pub struct PathKey<'t> {
    kept: Kept<'t>,
}

/// Where the bytes of a key are.
#[derive(Debug, Drop)]
enum Kept<'t> {
    /// In the text.
    Piece(&'t [u8]),
    /// Beside it.
    Owned(StorePath),
}

impl<'t> Model for PathKey<'t> {
    ghost use Rattle.std.specs.Prelude.{ℕ, List};
    ghost use Rattle.nd_path_pool.specs.Keys.{bytes_of};

    ghost Value = { List ℕ };

    ghost view = { λ key. bytes_of key.kept };
}

impl<'t> PathKey<'t> {
    /// The key with the bytes of a piece of a text, which needn't be a store path.
    pub fn of_piece(piece: &'t [u8]) -> PathKey<'t>
        ensures { result ≡ piece.now }
    {
        PathKey {
            kept: Kept::Piece(piece),
        }
    }

    /// The key of a store path.
    pub fn of_path(path: StorePath) -> PathKey<'t>
        ensures { result ≡ path }
    {
        PathKey {
            kept: Kept::Owned(path),
        }
    }

    /// The bytes.
    pub fn bytes(&self) -> &[u8]
        ensures { result.now ≡ self.now }
    {
        match &self.kept {
            Kept::Piece(piece) => piece,
            Kept::Owned(path) => path.bytes(),
        }
    }

    /// The store path with these bytes: a copy where the key has one, which takes no memory. The refusals
    /// are those of `StorePath::parse`.
    pub fn path(&self, alloc: Global) -> Result<StorePath, PathError>
        ensures found { IfOk result (λ p. p ≡ self.now) }
        ensures path { IfOk result IsPath }
        ensures spelled { IfOk result IsSpelled }
        ensures refused { IfErr result (IsRefused self.now) }
        ensures taken { IsSpelled self.now → IfErr result (λ e. e ≡ PathError.Memory) }
    {
        match &self.kept {
            Kept::Piece(piece) => StorePath::parse(alloc, piece),
            Kept::Owned(path) => copy_of(path),
        }
    }
}

/// A copy of a store path.
fn copy_of(path: &StorePath) -> Result<StorePath, PathError>
    ensures found { IfOk result (λ p. p ≡ path.now) }
    ensures path { IfOk result IsPath }
    ensures spelled { IfOk result IsSpelled }
    ensures refused { IfErr result (IsRefused path.now) }
    ensures taken { IfErr result (λ e. e ≡ PathError.Memory) }
{
    // For the proof: the bytes of a store path are one.
    let _bytes = path.bytes();
    match path.try_clone() {
        Ok(copy) => Ok(copy),
        Err(_) => Err(PathError::Memory),
    }
}

impl<'t> PartialEq for PathKey<'t> {
    ghost eq = { path_eq };

    ghost laws = { Cmp.partial_equiv_from_equiv nat_list_eq_equiv };

    fn eq(&self, other: &PathKey<'t>) -> bool {
        self.bytes() == other.bytes()
    }
}

impl<'t> Eq for PathKey<'t> {
    ghost laws = { nat_list_eq_equiv };
}

impl<'t> Hash for PathKey<'t> {
    ghost hash_input = { path_input };

    ghost respects_eq = { paths_alike };

    fn hash<H: Hasher>(&self, state: &mut H) {
        state.write(self.bytes());
    }
}
