//! The store paths of a text, each made once.

ghost use Rattle.std.specs.Prelude.{◌≡◌, [], IfOk, IfErr, IfSome};
ghost use Rattle.nd_path.specs.declared.path_error.PathError.{PathError};
ghost use Rattle.nd_path.specs.Refusals.{IsPath, IsSpelled, IsRefused};

use crate::path_key::PathKey;
use nd_path::{PathError, StorePath};
use std::alloc::{AllocError, Global};
use std::collections::HashMap;
use std::marker::Model;

/// The store paths that were read of a text so far, looked up by their bytes, so that one that stands in
/// the text many times takes memory once. Contracts see the list of them.
#[derive(Debug, Drop)]
pub struct PathPool<'t> {
    known: HashMap<PathKey<'t>, ()>,
}

impl<'t> Model for PathPool<'t> {
    ghost use Rattle.std.specs.Prelude.{ℕ, List};
    ghost use Rattle.std.specs.HashMap.{keys};

    ghost Value = { List (List ℕ) };

    ghost view = { λ pool. keys pool.known };
}

impl<'t> PathPool<'t> {
    /// The pool of no paths. It takes no memory.
    pub fn new(alloc: Global) -> PathPool<'t>
        ensures { result ≡ [] }
    {
        PathPool {
            known: HashMap::new(alloc),
        }
    }

    /// The store path with these bytes, as `StorePath::parse`: a copy of the one that was made before,
    /// where there is one.
    ///
    /// Refuses with the first of `Prefix` (1), `Digest` (2) and `Name` (3) that the bytes give cause
    /// for, and bytes that give none with `Memory` (4) where an allocation is refused.
    pub fn path(&mut self, alloc: Global, bytes: &'t [u8]) -> Result<StorePath, PathError>
        ensures found { IfOk result (λ p. p ≡ bytes.now) }
        ensures path { IfOk result IsPath }
        ensures spelled { IfOk result IsSpelled }
        ensures refused { IfErr result (IsRefused bytes.now) }
        ensures taken { IsSpelled bytes.now → IfErr result (λ e. e ≡ PathError.Memory) }
    {
        if let Some(key) = self.key(bytes) {
            return key.path(alloc);
        }
        let path = StorePath::parse(alloc, bytes)?;
        self.keep(&path)?;
        Ok(path)
    }

    /// The key with these bytes, where there is one.
    fn key(&self, bytes: &'t [u8]) -> Option<&PathKey<'t>>
        ensures { IfSome result (λ key. key.now ≡ bytes.now) }
    {
        match self.known.get_key_value(&PathKey::of_piece(bytes)) {
            Some((key, _)) => Some(key),
            None => None,
        }
    }

    /// Keeps a copy of a path.
    fn keep(&mut self, path: &StorePath) -> Result<(), AllocError> {
        self.known.insert(PathKey::of_path(path.try_clone()?), ())?;
        Ok(())
    }
}
