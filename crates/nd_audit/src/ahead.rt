//! Entries that are gone through before they are judged: what is kept of references and holdings follows them.

ghost use Rattle.std.specs.Prelude.{◌≡◌, ◌≤◌, [], length, IfOk, OnOk, OnErr, IfErr};
ghost use Rattle.std.specs.Vec.Iter.{into_iter_items};
ghost use Rattle.nd_history.specs.Premises.{premises_of};
ghost use Rattle.nd_audit.specs.Ahead.{IsSizedFor, IsKeptAfter, HasCleared, HasHeldUp, HasStayed, IsNext};

use nd_closure::Refs;
use nd_history::{Entry, Inputs, Rule};
use nd_ledger::{AdmitError, admit_error, refusal_of};
use nd_path::PathSet;
use nd_provision::Stores;
use std::alloc::{AllocError, Global};
use std::vec::IntoIter;

/// How many entries a batch has at most: each costs the start of a thread.
const BATCH: usize = 4_096;

/// What is kept of references and holdings after the entries that were gone through, and for each derivation the machine
/// of its last choice, which is that of its lease. Nothing else is known of leases here.
#[derive(Drop)]
pub(crate) struct Ahead {
    pub(crate) stores: Stores,
    pub(crate) machines: Vec<u32>,
}

/// How a batch ends.
#[derive(Drop)]
pub(crate) enum End {
    /// Other entries may follow.
    More,
    /// No entry follows.
    Last,
    /// This entry follows, and is refused with this, if no rule that takes no memory refuses it.
    Stopped(Entry, AdmitError),
}

/// Entries that were gone through, and what comes behind them.
#[derive(Drop)]
pub(crate) struct Batch {
    pub(crate) entries: Vec<Entry>,
    pub(crate) end: End,
}

impl Ahead {
    /// What is kept before the first entry. There are at most 1,024 builders.
    pub(crate) fn new(alloc: Global, inputs: &Inputs) -> Result<Ahead, AllocError>
        requires { length inputs.now.machines ≤ 1024 }
        ensures sized { IfOk result (λ a. IsSizedFor (premises_of inputs.now) a) }
        ensures kept { IfOk result (λ a. IsKeptAfter (premises_of inputs.now) [] a) }
    {
        let graph = &inputs.graph;
        let stores = Stores::new(alloc, graph, inputs.machines.len(), &inputs.info)?;
        let machines = vec![in alloc; 0; graph.len()]?;
        Ok(Ahead { stores, machines })
    }

    /// The next entries, each of which was gone through, until one is held up. Refuses where an allocation is refused.
    #[tactic(auto, using(crate::proofs::Clearing::nexts))]
    pub(crate) fn next(
        &mut self,
        alloc: Global,
        inputs: &Inputs,
        left: &mut IntoIter<Entry>,
    ) -> Result<Batch, AllocError>
        requires { IsSizedFor (premises_of inputs.now) self.old }
        ensures sized { IsSizedFor (premises_of inputs.now) self.new }
        ensures next { IfOk result (IsNext (premises_of inputs.now) self.old self.new (into_iter_items left.old) (into_iter_items left.new)) }
    {
        let mut entries = Vec::with_capacity(alloc, BATCH)?;
        'going: for _ in 0..BATCH {
            let Some(entry) = left.next() else {
                return Ok(Batch {
                    entries,
                    end: End::Last,
                });
            };
            if let Err(error) = self.clear(alloc, inputs, &entry) {
                return Ok(Batch {
                    entries,
                    end: End::Stopped(entry, error),
                });
            }
            entries.push(entry)?;
        }
        Ok(Batch {
            entries,
            end: End::More,
        })
    }

    /// Goes through one entry. One that a rule refuses which takes no memory may pass here, and may be refused otherwise.
    #[tactic(auto, using(crate::proofs::Clearing::cleared_quiet))]
    fn clear(&mut self, alloc: Global, inputs: &Inputs, entry: &Entry) -> Result<(), AdmitError>
        requires { IsSizedFor (premises_of inputs.now) self.old }
        ensures sized { IsSizedFor (premises_of inputs.now) self.new }
        ensures cleared { OnOk result (HasCleared (premises_of inputs.now) self.old self.new entry.now) }
        ensures held_up { IfErr result (HasHeldUp (premises_of inputs.now) self.old entry.now) }
        ensures stays { OnErr result (HasStayed (premises_of inputs.now) self.old self.new) }
    {
        match entry {
            Entry::Chosen { drv, machine, slot } => {
                self.clear_choice(inputs, *drv, *machine, *slot);
                Ok(())
            }
            Entry::Started { drv, paths } => self.clear_start(alloc, inputs, *drv, paths),
            Entry::Built { drv, refs } => self.clear_end(alloc, inputs, *drv, refs),
            Entry::NoBuilder { .. } | Entry::Down { .. } | Entry::Failed { .. } => Ok(()),
            Entry::Stop | Entry::Drain { .. } | Entry::Enable { .. } => Ok(()),
        }
    }

    /// Goes through the choice of a slot.
    fn clear_choice(&mut self, inputs: &Inputs, drv: u32, machine: u32, slot: u32)
        requires { IsSizedFor (premises_of inputs.now) self.old }
        ensures sized { IsSizedFor (premises_of inputs.now) self.new }
        ensures cleared { HasCleared (premises_of inputs.now) self.old self.new (Entry.Chosen drv machine slot) }
    {
        // For the proof: only the contract speaks of the slot.
        let _slot = slot;
        let drv = drv as usize;
        if drv < self.machines.len() && inputs.has_machine(machine) {
            self.machines[drv] = machine;
        }
    }

    /// Goes through a start with these copied paths, on the machine of the last choice.
    fn clear_start(
        &mut self,
        alloc: Global,
        inputs: &Inputs,
        drv: u32,
        paths: &PathSet,
    ) -> Result<(), AdmitError>
        requires { IsSizedFor (premises_of inputs.now) self.old }
        ensures sized { IsSizedFor (premises_of inputs.now) self.new }
        ensures cleared { OnOk result (HasCleared (premises_of inputs.now) self.old self.new (Entry.Started drv paths.now)) }
        ensures held_up { IfErr result (HasHeldUp (premises_of inputs.now) self.old (Entry.Started drv paths.now)) }
        ensures stays { OnErr result (HasStayed (premises_of inputs.now) self.old self.new) }
    {
        let drv = drv as usize;
        let Some(machine) = self.machines.get(drv) else {
            return Ok(());
        };
        let machine = *machine as usize;
        let numbers = match self.stores.check_paths(alloc, inputs, drv, machine, paths) {
            Ok(numbers) => numbers,
            Err(fault) => return Err(admit_error(refusal_of(fault))),
        };
        let additions = self.stores.prepare_start(alloc, machine, paths, numbers)?;
        self.stores.take_in(additions);
        Ok(())
    }

    /// Goes through the end of a build with these references, on the machine of the last choice.
    #[tactic(auto, using(crate::proofs::Clearing::held_count))]
    fn clear_end(
        &mut self,
        alloc: Global,
        inputs: &Inputs,
        drv: u32,
        refs: &Refs,
    ) -> Result<(), AdmitError>
        requires { IsSizedFor (premises_of inputs.now) self.old }
        ensures sized { IsSizedFor (premises_of inputs.now) self.new }
        ensures cleared { OnOk result (HasCleared (premises_of inputs.now) self.old self.new (Entry.Built drv refs.now)) }
        ensures held_up { IfErr result (HasHeldUp (premises_of inputs.now) self.old (Entry.Built drv refs.now)) }
        ensures stays { OnErr result (HasStayed (premises_of inputs.now) self.old self.new) }
    {
        let drv = drv as usize;
        let Some(machine) = self.machines.get(drv) else {
            return Ok(());
        };
        let machine = *machine as usize;
        // For the proof: `prepare_built` wants one list for each output, also where nothing is known of the history.
        if refs.lists().len() != inputs.graph.outputs(drv).len() {
            return Err(AdmitError::Illegal(Rule::References));
        }
        if !self.stores.check_references(alloc, inputs, drv, refs)? {
            return Err(AdmitError::Illegal(Rule::References));
        }
        let additions = self
            .stores
            .prepare_built(alloc, inputs, drv, machine, refs)?;
        self.stores.take_in(additions);
        Ok(())
    }
}
