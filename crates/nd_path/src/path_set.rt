//! Sets of store paths.

ghost use Rattle.std.specs.Prelude.{◌≡◌, ◌==◌, ℕ, List, [], length, IfOk, IsTrue, ◌↔◌};
ghost use Rattle.std.specs.List.{Contains};
ghost use Rattle.std.specs.Cmp as Cmp;
ghost use Rattle.std.specs.Cmp.Lexicographic.{pointwise, nat_list_eq_equiv, lists_equiv};
ghost use Rattle.nd_path.specs.StorePath.{path_eq};
ghost use Rattle.nd_path.specs.PathSets.{IsRising, HasSameMembers};

use crate::store_path::StorePath;
use std::alloc::{AllocError, Global};
use std::marker::Model;

/// A set of store paths. Contracts see the list of its paths in strictly rising byte order, so two
/// sets with the same members are equal.
#[derive(Debug, Drop)]
pub struct PathSet {
    items: Vec<StorePath>,
}

impl Model for PathSet {
    ghost use Rattle.std.specs.Prelude.{ℕ, List};
    ghost use Rattle.nd_path.specs.PathSets.{IsRising};

    ghost Value = { List (List ℕ) };

    ghost view = { λ s. s.items.items };

    ghost invariant = { λ s. IsRising s.items.items };
}

impl PathSet {
    /// The empty set. It takes no memory.
    pub fn new(alloc: Global) -> PathSet
        ensures { result ≡ [] }
    {
        PathSet {
            items: Vec::new(alloc),
        }
    }

    /// The set of these paths: they are sorted, and of equal ones one is kept.
    pub fn from_vec(mut items: Vec<StorePath>) -> Result<PathSet, AllocError>
        ensures members { IfOk result (HasSameMembers items.items) }
        ensures rising { IfOk result IsRising }
    {
        items.sort()?;
        items.dedup();
        Ok(PathSet { items })
    }

    /// The paths in rising order.
    pub fn as_slice(&self) -> &[StorePath]
        ensures value { result.now ≡ self.now }
        ensures rising { IsRising result.now }
    {
        self.items.as_slice()
    }

    /// Whether `path` is a member. It takes about as many comparisons as the length has binary digits.
    pub fn contains(&self, path: &StorePath) -> bool
        ensures { IsTrue result ↔ Contains self.now path.now }
    {
        match self.items.binary_search(path) {
            Ok(_) => true,
            Err(_) => false,
        }
    }

    /// The number of members.
    pub fn len(&self) -> usize
        ensures { result ≡ length self.now }
    {
        self.items.len()
    }

    /// Whether there is no member.
    pub fn is_empty(&self) -> bool
        ensures { result ≡ (length self.now == 0) }
    {
        self.items.is_empty()
    }

    /// The paths as a vector, in rising order. It takes no memory.
    pub fn into_vec(self) -> Vec<StorePath>
        ensures { result.items ≡ self }
    {
        let PathSet { items } = self;
        items
    }

    /// A copy that is equal to the original.
    pub fn try_clone(&self) -> Result<PathSet, AllocError>
        ensures { IfOk result (λ s. s ≡ self.now) }
    {
        Ok(PathSet {
            items: self.items.clone()?,
        })
    }
}

impl Clone for PathSet {
    ghost is_clone = { λ s t. t ≡ s };

    fn clone(&self) -> Result<PathSet, AllocError> {
        self.try_clone()
    }
}

impl PartialEq for PathSet {
    ghost eq = { pointwise path_eq };

    ghost laws = { Cmp.partial_equiv_from_equiv (lists_equiv nat_list_eq_equiv) };

    fn eq(&self, other: &PathSet) -> bool {
        self.as_slice() == other.as_slice()
    }
}

impl Eq for PathSet {
    ghost laws = { lists_equiv nat_list_eq_equiv };
}
