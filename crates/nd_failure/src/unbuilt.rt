//! How many inputs of each node aren't built.
ghost use Rattle.std.specs.Prelude.{◌≡◌, ◌<◌, ◌≤◌, ◌+◌, ◌-◌, ◌==◌, ℕ, length, slice_set, nat_eq, map, All, IfOk};
ghost use Rattle.std.specs.List.{slice_index_or, count_by};
ghost use Rattle.nd_failure.specs.Kept.{AreWoken, AreZero};

use crate::edges::Edges;
use nd_flags::NodeSet;
use std::alloc::{AllocError, Global};
use std::marker::Model;

/// The number of inputs of each node that aren't built.
#[derive(Drop, Debug, Clone)]
pub struct UnbuiltInputs {
    counts: Vec<usize>,
}

impl Model for UnbuiltInputs {
    ghost use Rattle.std.specs.Prelude.{List, ℕ};

    ghost Value = { List ℕ };

    ghost view = { λ unbuilt. unbuilt.counts.items };
}

impl UnbuiltInputs {
    /// The counters where nothing is built.
    pub(crate) fn new(alloc: Global, edges: &Edges) -> Result<UnbuiltInputs, AllocError>
        ensures { IfOk result (λ made. made ≡ map length edges.now) }
    {
        let mut counts = Vec::with_capacity(alloc, edges.len())?;
        for node in 0..edges.len() {
            counts.push(edges.inputs(node).len())?;
        }
        Ok(UnbuiltInputs { counts })
    }

    /// The nodes whose inputs are all built.
    pub(crate) fn nodes_with_none(&self, alloc: Global) -> Result<NodeSet, AllocError>
        ensures { IfOk result (λ nodes. AreZero self.now nodes) }
    {
        let mut nodes = NodeSet::new(alloc, self.counts.len())?;
        for node in 0..self.counts.len() {
            if self.is_none(node) {
                nodes.insert(node);
            }
        }
        Ok(nodes)
    }

    /// Equal counters.
    pub(crate) fn try_clone(&self) -> Result<UnbuiltInputs, AllocError>
        ensures { IfOk result (λ copy. copy ≡ self.now) }
    {
        self.clone()
    }

    /// Whether every input of a node is built.
    pub(crate) fn is_none(&self, node: usize) -> bool
        requires { node < length self.now }
        ensures { result ≡ (slice_index_or self.now node 0 == 0) }
    {
        self.counts[node] == 0
    }

    /// One input of a node is built.
    fn lower(&mut self, node: usize)
        requires { 0 < slice_index_or self.old node 0 }
        ensures { self.new ≡ slice_set self.old node (slice_index_or self.old node 0 - 1) }
    {
        self.counts[node] -= 1;
    }

    /// One input of each of `nodes` is built.
    pub(crate) fn lower_all(&mut self, nodes: &[usize])
        requires { (d : ℕ) → count_by (nat_eq d) nodes.now ≤ slice_index_or self.old d 0 }
        ensures sized { length self.new ≡ length self.old }
        ensures lowered { (d : ℕ) → slice_index_or self.new d 0 + count_by (nat_eq d) nodes.now ≡ slice_index_or self.old d 0 }
    {
        for node in nodes {
            self.lower(*node);
        }
    }
}

/// Puts those of `nodes` into the set whose inputs are all built.
pub(crate) fn wake(ready: &mut NodeSet, unbuilt: &UnbuiltInputs, nodes: &[usize])
    requires in_range { All (λ d. d < length ready.old) nodes.now }
    requires sized { length unbuilt.now ≡ length ready.old }
    ensures { AreWoken nodes.now unbuilt.now ready.old ready.new }
{
    for node in nodes {
        if unbuilt.is_none(*node) {
            ready.insert(*node);
        }
    }
}
