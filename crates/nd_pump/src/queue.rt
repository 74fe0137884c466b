//! Whose turn it is among the derivations that are ready.
ghost use Rattle.std.specs.Prelude.{◌≡◌, ◌<◌, ◌↔◌, IsTrue, All, true, false, length, slice_set, replicate, IfOk};
ghost use Rattle.nd_pump.specs.Grouped.{group_in};
ghost use Rattle.nd_pump.specs.Queues.{IsDue, IsFirstDue};

use crate::grouped::Grouped;
use nd_flags::NodeSet;
use std::alloc::{AllocError, Global};
use std::marker::Model;

/// The derivations that are ready, by group, and which groups are parked. The first derivation that is
/// ready and of no parked group is found without a walk over the others: a parked group is passed over
/// as a whole. Only `new` takes memory.
///
/// A flag stands at the least ready derivation of each group that isn't parked, and it may stand at
/// others, from which it is taken once they come up.
#[derive(Drop, Debug)]
pub struct Queue {
    grouped: Grouped,
    parked: Vec<bool>,
    heads: NodeSet,
}

impl Model for Queue {
    ghost use Rattle.nd_pump.specs.Queues.{Queued};

    ghost Value = { Queued };

    ghost use Rattle.nd_pump.specs.QueueKept.{queued, IsKept};

    ghost view = { queued };

    ghost invariant = { IsKept };
}

impl Queue {
    /// None of these derivations, which have these groups, is ready, and none of the `count` groups is
    /// parked.
    pub fn new(alloc: Global, groups: &[usize], count: usize) -> Result<Queue, AllocError>
        requires { All (λ g. g < count) groups.now }
        ensures groups { IfOk result (λ made. made.groups ≡ groups.now) }
        ensures ready { IfOk result (λ made. made.ready ≡ replicate (length groups.now) false) }
        ensures parked { IfOk result (λ made. made.parked ≡ replicate count false) }
    {
        Ok(Queue {
            grouped: Grouped::new(alloc, groups, count)?,
            parked: vec![in alloc; false; count]?,
            heads: NodeSet::new(alloc, groups.len())?,
        })
    }

    /// The group of a derivation.
    pub fn group(&self, drv: usize) -> usize
        requires { drv < length self.now.groups }
        ensures value { result ≡ group_in self.now.groups drv }
        ensures within { result < length self.now.parked }
    {
        self.grouped.group(drv)
    }

    /// A derivation is ready from now on.
    #[tactic(auto, using(crate::proofs::Keeping::kept_added))]
    pub fn add(&mut self, drv: usize)
        requires { drv < length self.old.groups }
        ensures { self.new ≡ record self.old { ready = slice_set self.old.ready drv true } }
    {
        self.grouped.put(drv, true);
        self.heads.insert(drv);
    }

    /// A derivation is no longer ready.
    #[tactic(auto, using(crate::proofs::Keeping::kept_removed, crate::proofs::Keeping::kept_emptied))]
    pub fn remove(&mut self, drv: usize)
        requires { drv < length self.old.groups }
        ensures { self.new ≡ record self.old { ready = slice_set self.old.ready drv false } }
    {
        self.grouped.put(drv, false);
        self.heads.remove(drv);
        let group = self.grouped.group(drv);
        if let Some(first) = self.grouped.first_of(group) {
            self.heads.insert(first);
        }
    }

    /// A group is passed over until it is woken.
    pub fn park(&mut self, group: usize)
        requires { group < length self.old.parked }
        ensures { self.new ≡ record self.old { parked = slice_set self.old.parked group true } }
    {
        self.parked[group] = true;
    }

    /// A group isn't passed over any more.
    #[tactic(auto, using(crate::proofs::Keeping::kept_woken, crate::proofs::QueueFacts::woken_others, crate::proofs::QueueFacts::none_of))]
    pub fn wake(&mut self, group: usize)
        requires { group < length self.old.parked }
        ensures { self.new ≡ record self.old { parked = slice_set self.old.parked group false } }
    {
        self.parked[group] = false;
        if let Some(first) = self.grouped.first_of(group) {
            self.heads.insert(first);
        }
    }

    /// The first derivation that is ready and of no parked group. Flags of others that come before it
    /// are taken down.
    #[tactic(auto, using(crate::proofs::Keeping::kept_searched, crate::proofs::QueueFacts::first_due, crate::proofs::QueueFacts::none_due))]
    pub fn next(&mut self) -> Option<usize>
        ensures same { self.new ≡ self.old }
        ensures first { IsFirstDue self.old result }
    {
        // For the proof: a derivation's number is less than this one, so the next one is a number too.
        let _len = self.grouped.len();
        let mut from = 0;
        while let Some(drv) = self.heads.first_from(from) {
            if is_due(&self.grouped, self.parked.as_slice(), drv) {
                return Some(drv);
            }
            self.heads.remove(drv);
            from = drv + 1;
        }
        None
    }
}

/// Whether a derivation is ready and of a group that isn't parked.
fn is_due(grouped: &Grouped, parked: &[bool], drv: usize) -> bool
    requires node { drv < length grouped.now.groups }
    requires groups { length parked.now ≡ grouped.now.count }
    ensures { IsTrue result ↔ IsDue (record { groups = grouped.now.groups; ready = grouped.now.ready; parked = parked.now }) drv }
{
    if parked[grouped.group(drv)] {
        return false;
    }
    grouped.is_ready(drv)
}
