//! A set of nodes whose least member from a node on is found without a walk over all nodes.
ghost use Rattle.std.specs.Prelude.{◌≡◌, ◌<◌, true, false, length, slice_set, slice_index_or, replicate, IfOk};
ghost use Rattle.nd_flags.specs.Members.{IsFirstFrom};

use crate::layers::{Flags, Flat, Layered};
use std::alloc::{AllocError, Global};
use std::marker::Model;

/// For up to how many numbers a set has one row of flags: its eight words are looked through about as fast as a
/// word in each of three layers.
const FEW: usize = 512;

/// A set of the numbers below a length that is fixed when it is made, seen by contracts as that many flags.
///
/// For few numbers it is a row of flags, which are bits of words. For more than 512 it is made of three layers of
/// such rows, each of which has one flag for a word of the layer below. So for n numbers a member is put in and
/// taken out with three words, and found with four and the n / 262144 words of the last layer, or with eight.
/// Only `new` and `try_clone` take memory.
///
/// For sets by groups of nodes, number the nodes so that each group stands together, by group and then by node, and keep one
/// set of these numbers: the first member from a group's first number on, where it lies in the group, is the group's least node.
#[derive(Drop, Debug)]
pub struct NodeSet {
    kept: Kept,
}

/// How the flags of a set are kept.
#[derive(Drop, Debug)]
pub(crate) enum Kept {
    /// A row of few flags.
    Few(Flat),
    /// Three layers, in a box, with which a set takes 40 bytes and not 104.
    Many(Box<Layered<Layered<Flat>>>),
}

impl Model for NodeSet {
    ghost use Rattle.std.specs.Prelude.{List, Bool};

    ghost Value = { List Bool };

    ghost use Rattle.nd_flags.specs.Keeping.{flags_in};

    ghost view = { λ set. flags_in set.kept };
}

impl NodeSet {
    /// The empty set of the numbers below `len`.
    pub fn new(alloc: Global, len: usize) -> Result<NodeSet, AllocError>
        ensures { IfOk result (λ made. made ≡ replicate len false) }
    {
        let kept = if len <= FEW {
            Kept::Few(Flags::new(alloc, len)?)
        } else {
            Kept::Many(Box::new(alloc, Flags::new(alloc, len)?)?)
        };
        Ok(NodeSet { kept })
    }

    /// How many numbers may be members: those below this one.
    pub fn len(&self) -> usize
        ensures { result ≡ length self.now }
    {
        match &self.kept {
            Kept::Few(row) => row.len(),
            Kept::Many(rows) => rows.len(),
        }
    }

    /// Puts `i` into the set.
    pub fn insert(&mut self, i: usize)
        requires { i < length self.old }
        ensures { self.new ≡ slice_set self.old i true }
    {
        match &mut self.kept {
            Kept::Few(row) => row.put(i, true),
            Kept::Many(rows) => rows.put(i, true),
        }
    }

    /// Takes `i` out of the set.
    pub fn remove(&mut self, i: usize)
        requires { i < length self.old }
        ensures { self.new ≡ slice_set self.old i false }
    {
        match &mut self.kept {
            Kept::Few(row) => row.put(i, false),
            Kept::Many(rows) => rows.put(i, false),
        }
    }

    /// Whether `i` is in the set.
    pub fn contains(&self, i: usize) -> bool
        requires { i < length self.now }
        ensures { result ≡ slice_index_or self.now i false }
    {
        match &self.kept {
            Kept::Few(row) => row.is_up(i),
            Kept::Many(rows) => rows.is_up(i),
        }
    }

    /// The least member that is not before `from`, which may be any number.
    pub fn first_from(&self, from: usize) -> Option<usize>
        ensures { IsFirstFrom self.now from result }
    {
        match &self.kept {
            Kept::Few(row) => row.first_from(from),
            Kept::Many(rows) => rows.first_from(from),
        }
    }

    /// An equal set.
    pub fn try_clone(&self, alloc: Global) -> Result<NodeSet, AllocError>
        ensures { IfOk result (λ copy. copy ≡ self.now) }
    {
        let kept = match &self.kept {
            Kept::Few(row) => Kept::Few(row.try_clone(alloc)?),
            Kept::Many(rows) => Kept::Many(Box::new(alloc, rows.try_clone(alloc)?)?),
        };
        Ok(NodeSet { kept })
    }
}
