//! What a dispatch is made of: the five inputs, which never change.

ghost use Rattle.std.specs.Prelude.{◌≡◌, ◌<◌, ◌↔◌, IsTrue, IfOk};
ghost use Rattle.nd_history.specs.Choices.{machines_in, jobs_of};
ghost use Rattle.nd_history.specs.Premises.{premises_of};

use crate::sameness::{Same, are_same, is_same_graph};
use nd_bytes::Items;
use nd_closure::RefTable;
use nd_eligible::Local;
use nd_graph::Graph;
use nd_machines::Machine;
use std::alloc::{AllocError, Global};

/// The five inputs as `Dispatch::new` of `nd_ledger` hands them back where memory was refused.
#[derive(Drop, Debug)]
pub struct Parts {
    /// The derivations and what each needs.
    pub graph: Graph,
    /// The builders.
    pub machines: Vec<Machine>,
    /// The settings of the local machine.
    pub local: Local,
    /// The paths that are listed with their references.
    pub info: RefTable,
    /// Whether the rest goes on after a failure.
    pub keep_going: bool,
}

/// The inputs of a dispatch. They are fixed from its making on.
#[derive(Drop, Debug)]
pub struct Inputs {
    /// The derivations and what each needs.
    pub graph: Graph,
    /// The builders, in the order of the builders list: the one at place p is machine p + 1.
    pub machines: Items<Machine>,
    /// The settings of the local machine, which is machine 0.
    pub local: Local,
    /// The paths that are listed with their references.
    pub info: RefTable,
    /// Whether the rest goes on after a failure.
    pub keep_going: bool,
}

impl Inputs {
    /// How many machines there are, the local one among them.
    pub fn machine_count(&self) -> usize
        ensures { result ≡ machines_in (premises_of self.now) }
    {
        self.machines.as_slice().len() + 1
    }

    /// Whether there is a machine with this number.
    pub fn has_machine(&self, machine: u32) -> bool
        ensures { IsTrue result ↔ (machine < machines_in (premises_of self.now)) }
    {
        (machine as usize) < self.machine_count()
    }

    /// How many builds may run at once on this machine: none where there is no such machine.
    pub fn jobs_on(&self, machine: u32) -> u32
        ensures { result ≡ jobs_of (premises_of self.now) machine }
    {
        if machine == 0 {
            return self.local.jobs();
        }
        match self.machines.as_slice().get(machine as usize - 1) {
            Some(builder) => builder.jobs(),
            None => 0,
        }
    }

    /// A copy that is equal to the original. Room of a table of references is no part of this.
    pub fn try_clone(&self, alloc: Global) -> Result<Inputs, AllocError>
        ensures { IfOk result (λ copy. premises_of copy ≡ premises_of self.now) }
    {
        Ok(Inputs {
            graph: self.graph.try_clone(alloc)?,
            machines: copy_machines(alloc, self.machines.as_slice())?,
            local: self.local.try_clone(alloc)?,
            info: self.info.try_clone()?,
            keep_going: self.keep_going,
        })
    }

    /// Whether these are the same inputs. It takes no memory.
    pub fn is_same(&self, other: &Inputs) -> bool
        ensures { IsTrue result ↔ (premises_of self.now ≡ premises_of other.now) }
    {
        if self.keep_going != other.keep_going {
            return false;
        }
        if !self.local.is_same(&other.local) {
            return false;
        }
        if !are_same(self.machines.as_slice(), other.machines.as_slice()) {
            return false;
        }
        if !self.info.is_same(&other.info) {
            return false;
        }
        is_same_graph(&self.graph, &other.graph)
    }
}

/// Copies of these builders.
fn copy_machines(alloc: Global, machines: &[Machine]) -> Result<Items<Machine>, AllocError>
    ensures { IfOk result (λ copy. copy ≡ machines.now) }
{
    let mut copy = Vec::with_capacity(alloc, machines.len())?;
    for machine in machines {
        copy.push(machine.try_clone(alloc)?)?;
    }
    Ok(Items::new(copy))
}
