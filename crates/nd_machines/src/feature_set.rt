//! Sets of byte strings.

ghost use Rattle.std.specs.Prelude.{◌≡◌, ◌==◌, length, IfOk, IsTrue, ◌↔◌, Contains};
ghost use Rattle.std.proofs.Common.{rules};
ghost use Rattle.std.specs.Ordering.{as_partial_cmp};
ghost use Rattle.nd_machines.specs.FeatureSets.{IsRising, IsSetOf, set_of, listed, sets_eq, sets_cmp, sets_equal, sets_partly_equal, sets_ordered, sets_partly_ordered, sets_ties};

use nd_bytes::{ByteString, cut};
use std::alloc::{AllocError, Global};
use std::cmp::Ordering;
use std::marker::Model;

/// A set of byte strings, such as the systems or the features of a machine. Contracts see the
/// strictly rising list of its items, in byte order.
#[derive(Debug, Drop)]
pub struct FeatureSet {
    items: Vec<ByteString>,
}

impl Model for FeatureSet {
    ghost use Rattle.std.specs.Prelude.{ℕ, List};
    ghost use Rattle.nd_machines.specs.FeatureSets.{IsRising};

    ghost Value = { List (List ℕ) };

    ghost view = { λ s. s.items.items };

    ghost invariant = { λ s. IsRising s.items.items };
}

impl FeatureSet {
    /// The set of the given items. Repeats are dropped. It takes no memory.
    pub fn new(items: Vec<ByteString>) -> Self
        ensures set { IsSetOf items.items result }
        ensures value { result ≡ set_of items.items }
    {
        let mut items = items;
        items.sort_unstable();
        items.dedup();
        FeatureSet { items }
    }

    /// The set of a list as it stands in a text, cut at commas, without its empty items.
    pub fn from_list(alloc: Global, list: &[u8]) -> Result<Self, AllocError>
        ensures { IfOk result (λ s. s ≡ listed list.now) }
    {
        let mut items = Vec::new(alloc);
        let mut left = Some(list);
        while let Some(parts) = left {
            let (part, rest) = cut(parts, b',');
            if !part.is_empty() {
                items.push(ByteString::from_slice(alloc, part)?)?;
            }
            left = rest;
        }
        Ok(FeatureSet::new(items))
    }

    /// The items, strictly rising.
    pub fn as_slice(&self) -> &[ByteString]
        ensures items { result.now ≡ self.now }
        ensures rising { IsRising result.now }
    {
        self.items.as_slice()
    }

    /// The number of items.
    pub fn len(&self) -> usize
        ensures { result ≡ length self.now }
    {
        self.items.len()
    }

    /// Whether there is no item.
    pub fn is_empty(&self) -> bool
        ensures { result ≡ (length self.now == 0) }
    {
        self.items.is_empty()
    }

    /// Whether the set has this item. It is found by a binary search.
    pub fn contains(&self, item: &[u8]) -> bool
        ensures { IsTrue result ↔ Contains self.now item.now }
    {
        self.items
            .binary_search_by(|known| known.as_slice().cmp(item))
            .is_ok()
    }

    /// A copy that is equal to the original.
    pub fn try_clone(&self, alloc: Global) -> Result<Self, AllocError>
        ensures { IfOk result (λ s. s ≡ self.now) }
    {
        let mut items = Vec::new(alloc);
        for item in &self.items {
            items.push(item.try_clone()?)?;
        }
        Ok(FeatureSet { items })
    }
}

impl PartialEq for FeatureSet {
    ghost eq = { sets_eq };

    ghost laws = { sets_partly_equal };

    fn eq(&self, other: &FeatureSet) -> bool {
        self.as_slice() == other.as_slice()
    }
}

impl Eq for FeatureSet {
    ghost laws = { sets_equal };
}

impl PartialOrd for FeatureSet {
    ghost partial_cmp = { as_partial_cmp sets_cmp };

    ghost laws = { sets_partly_ordered };

    fn partial_cmp(&self, other: &FeatureSet) -> Option<Ordering> {
        Some(self.cmp(other))
    }
}

impl Ord for FeatureSet {
    ghost cmp = { sets_cmp };

    ghost total = { sets_ordered };

    ghost matches_partial_cmp = { Prim.search rules };

    ghost matches_eq = { sets_ties };

    fn cmp(&self, other: &FeatureSet) -> Ordering {
        self.as_slice().cmp(other.as_slice())
    }
}
