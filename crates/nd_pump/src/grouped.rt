//! Which derivations are ready, so that the least one of a group is found without a walk over all.
ghost use Rattle.std.specs.Prelude.{◌≡◌, ◌<◌, All, Bool, List, false, length, slice_set, slice_index_or, replicate, IfOk};
ghost use Rattle.nd_pump.specs.Grouped.{AreSeated, AreFlagged, IsFirstReadyIn, group_in};

use nd_flags::{Lists, NodeSet};
use std::alloc::{AllocError, Global};
use std::marker::Model;

/// Which derivations are ready, by group. Contracts see the group of each derivation and whether it is
/// ready, and the number of groups.
#[derive(Drop, Debug)]
pub(crate) struct Grouped {
    groups: Vec<usize>,
    /// Where each derivation stands in its group's list.
    places: Vec<usize>,
    ready: Vec<bool>,
    /// The derivations of each group, rising.
    lists: Lists,
    /// For each group which of its derivations are ready.
    flags: Vec<NodeSet>,
}

impl Model for Grouped {
    ghost use Rattle.nd_pump.specs.Grouped.{Readied};

    ghost Value = { Readied };

    ghost use Rattle.nd_pump.specs.GroupedKept.{readied, IsKept};

    ghost view = { readied };

    ghost invariant = { IsKept };
}

/// Where each derivation stands in the list of its group, and the lists.
#[tactic(auto, using(crate::proofs::GroupedFacts::seated_more))]
fn seated(alloc: Global, groups: &[usize], count: usize) -> Result<(Vec<usize>, Lists), AllocError>
    requires { All (λ g. g < count) groups.now }
    ensures sized { IfOk result (λ made. length made.1 ≡ count) }
    ensures places { IfOk result (λ made. length made.0.items ≡ length groups.now) }
    ensures seats { IfOk result (λ made. AreSeated (length groups.now) groups.now made.0.items made.1) }
{
    let mut places = Vec::with_capacity(alloc, groups.len())?;
    let mut lists = Lists::empty(alloc, count)?;
    for drv in 0..groups.len() {
        let group = groups[drv];
        places.push(lists.list(group).len())?;
        lists.push(group, drv)?;
    }
    Ok((places, lists))
}

/// For each list a set of none of its places.
fn lowered(alloc: Global, lists: &Lists, count: usize) -> Result<Vec<NodeSet>, AllocError>
    requires { length lists.now ≡ count }
    ensures { IfOk result (λ flags. (ready : List Bool) → All (λ up. up ≡ false) ready → AreFlagged lists.now flags.items ready) }
{
    let mut flags = Vec::with_capacity(alloc, count)?;
    for group in 0..count {
        flags.push(NodeSet::new(alloc, lists.list(group).len())?)?;
    }
    Ok(flags)
}

impl Grouped {
    /// None is ready of these derivations, which have these groups; each is less than `count`.
    pub(crate) fn new(alloc: Global, groups: &[usize], count: usize) -> Result<Grouped, AllocError>
        requires { All (λ g. g < count) groups.now }
        ensures { IfOk result (λ made. made ≡ record { groups = groups.now; ready = replicate (length groups.now) false; count = count }) }
    {
        let (places, lists) = seated(alloc, groups, count)?;
        let flags = lowered(alloc, &lists, count)?;
        Ok(Grouped {
            groups: Vec::from_slice(alloc, groups)?,
            places,
            ready: vec![in alloc; false; groups.len()]?,
            lists,
            flags,
        })
    }

    /// The group of a derivation.
    pub(crate) fn group(&self, drv: usize) -> usize
        requires { drv < length self.now.groups }
        ensures value { result ≡ group_in self.now.groups drv }
        ensures within { result < self.now.count }
    {
        self.groups[drv]
    }

    /// The number of derivations.
    pub(crate) fn len(&self) -> usize
        ensures { result ≡ length self.now.groups }
    {
        self.groups.len()
    }

    /// Says of a derivation whether it is ready.
    pub(crate) fn put(&mut self, drv: usize, ready: bool)
        requires { drv < length self.old.groups }
        ensures { self.new ≡ record self.old { ready = slice_set self.old.ready drv ready } }
    {
        let group = self.groups[drv];
        let place = self.places[drv];
        self.ready[drv] = ready;
        if ready {
            self.flags[group].insert(place);
        } else {
            self.flags[group].remove(place);
        }
    }

    /// Whether a derivation is ready.
    pub(crate) fn is_ready(&self, drv: usize) -> bool
        requires { drv < length self.now.groups }
        ensures { result ≡ slice_index_or self.now.ready drv false }
    {
        self.ready[drv]
    }

    /// The least ready derivation of a group.
    #[tactic(auto, using(crate::proofs::GroupedFacts::least_of))]
    pub(crate) fn first_of(&self, group: usize) -> Option<usize>
        requires { group < self.now.count }
        ensures { IsFirstReadyIn self.now group result }
    {
        let place = self.flags[group].first_from(0)?;
        Some(self.lists.list(group)[place])
    }
}
