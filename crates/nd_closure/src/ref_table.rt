//! A table of references.

ghost use Rattle.std.specs.Prelude.{◌≡◌, ◌+◌, ◌<◌, ◌≤◌, ◌∷◌, ◌++◌, [], not, if◌then◌else◌, ◌↔◌, IsTrue, IfOk, OnOk, OnErr, IsOk};
ghost use Rattle.nd_path.specs.PathSets.{IsRising};
ghost use Rattle.nd_closure.specs.Tables.{is_listed, refs_of};

use indexmap::IndexMap;
use nd_path::{PathSet, StorePath};
use std::alloc::{AllocError, Global};
use std::marker::Model;

/// A table of references: for each listed path the set of paths that it refers to. The first entry of
/// a path decides. Contracts see the list of entries in the order in which they were added, and beside
/// it the reserved room, of which "equal" and "as before" do not speak.
#[derive(Debug, Drop)]
pub struct RefTable {
    lines: IndexMap<StorePath, PathSet>,
}

impl Model for RefTable {
    ghost use Rattle.indexmap.specs.IndexMap.{spare};
    ghost use Rattle.nd_closure.specs.Tables.{Table};

    ghost Value = { Table };

    ghost view = { λ t. record { entries = t.lines.entries; spare = spare t.lines } };
}

impl RefTable {
    /// The empty table. It takes no memory.
    pub fn new(alloc: Global) -> RefTable
        ensures { result.entries ≡ [] }
    {
        RefTable {
            lines: IndexMap::new(alloc),
        }
    }

    /// Makes room for at least `n` more entries, and changes none.
    pub fn reserve(&mut self, n: usize) -> Result<(), AllocError>
        ensures room { OnOk result (n ≤ self.new.spare) }
        ensures kept { self.new.entries ≡ self.old.entries }
    {
        self.lines.reserve(n)
    }

    /// Adds an entry where the path has none, and says whether it did: where it has one, that entry
    /// stays as it is. Within reserved room it takes no memory and succeeds; a refusal changes nothing.
    pub fn add(&mut self, path: StorePath, refs: PathSet) -> Result<bool, AllocError>
        ensures added { IfOk result (λ added. added ≡ not (is_listed self.old.entries path)) }
        ensures entries { IfOk result (λ added. self.new.entries ≡ (if added then self.old.entries ++ (path, refs) ∷ [] else self.old.entries)) }
        ensures refused { OnErr result (self.new.entries ≡ self.old.entries) }
        ensures succeeds { 0 < self.old.spare → IsOk result }
        ensures room { self.old.spare ≤ self.new.spare + 1 }
    {
        if self.lines.contains_key(&path) {
            return Ok(false);
        }
        self.lines.insert(path, refs)?;
        Ok(true)
    }

    /// The references of a path in rising order; none where the path is not listed. It takes no memory.
    pub fn refs(&self, path: &StorePath) -> &[StorePath]
        ensures { result.now ≡ refs_of self.now.entries path.now }
    {
        match self.lines.get(path) {
            Some(refs) => refs.as_slice(),
            None => &[],
        }
    }

    /// Whether both tables have the same entries in the same order. It takes no memory.
    pub fn is_same(&self, other: &RefTable) -> bool
        ensures { IsTrue result ↔ (self.now.entries ≡ other.now.entries) }
    {
        self.lines.as_slice() == other.lines.as_slice()
    }

    /// A copy with the same entries.
    pub fn try_clone(&self) -> Result<RefTable, AllocError>
        ensures { IfOk result (λ t. t.entries ≡ self.now.entries) }
    {
        Ok(RefTable {
            lines: self.lines.clone()?,
        })
    }
}
