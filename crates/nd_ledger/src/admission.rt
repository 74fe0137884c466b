//! Entries of a history that is read back: each is appended if it is legal where it stands.

ghost use Rattle.std.specs.Prelude.{◌≡◌, ◌<◌, ◌++◌, [], ◌∷◌, reverse, OnOk, IfErr, OnErr, IsOkUnless};
ghost use Rattle.nd_history.specs.Legal.{IsInRange, IsAllowed};
ghost use Rattle.nd_history.specs.Standing.{drvs_in};
ghost use Rattle.nd_ledger.specs.Admitting.{IsAdmitRefused};
ghost use Rattle.nd_ledger.specs.Refusals.{IsTicketOf};

use crate::dispatch::Dispatch;
use crate::refusal::{AdmitError, admit_error};
use nd_closure::Refs;
use nd_history::auditing::{check_ready, is_in_range, judge_ready_choice, judge_ready_no_builder};
use nd_history::{Entry, Rule, Why};
use nd_leases::Ticket;
use nd_path::PathSet;
use std::alloc::Global;

impl Dispatch {
    /// Appends an entry if it is legal there.
    ///
    /// Refuses with `Illegal` (1) where it isn't, naming the first rule that refuses it, and with
    /// `Memory` (2) where an allocation is refused; that comes only where every rule passes but perhaps
    /// those over paths and references, and where the end of a build has one list of references per output.
    pub fn admit(&mut self, alloc: Global, entry: Entry) -> Result<(), AdmitError>
        ensures ok { OnOk result (self.new ≡ record self.old { history = self.old.history ++ entry ∷ [] }) }
        ensures allowed { OnOk result (IsAllowed self.old.inputs entry (reverse self.old.history)) }
        ensures refused { IfErr result (IsAdmitRefused self.old.inputs (reverse self.old.history) entry) }
        ensures err { OnErr result (self.new ≡ self.old) }
        ensures legal { IsAllowed self.old.inputs entry (reverse self.old.history) → IsOkUnless result AdmitError.Memory }
    {
        if !is_in_range(&self.inputs, &entry) {
            return Err(AdmitError::Illegal(Rule::Range));
        }
        match self.admit_in_range(alloc, entry) {
            Ok(()) => {
                // What was appended is legal, since all of the history is.
                let _entries = self.history();
                Ok(())
            }
            Err(error) => Err(error),
        }
    }

    /// Appends an entry if it is legal there, all that it names being there.
    fn admit_in_range(&mut self, alloc: Global, entry: Entry) -> Result<(), AdmitError>
        requires { IsInRange self.old.inputs entry }
        ensures ok { OnOk result (self.new ≡ record self.old { history = self.old.history ++ entry ∷ [] }) }
        ensures refused { IfErr result (IsAdmitRefused self.old.inputs (reverse self.old.history) entry) }
        ensures err { OnErr result (self.new ≡ self.old) }
    {
        match entry {
            Entry::Chosen { drv, machine, slot } => self.admit_choice(drv, machine, slot),
            Entry::NoBuilder { drv } => self.admit_no_builder(drv),
            Entry::Started { drv, paths } => self.admit_start(alloc, drv, paths),
            Entry::Down { drv } => self.admit_down(drv),
            Entry::Built { drv, refs } => self.admit_end(alloc, drv, refs),
            Entry::Failed { drv, why } => self.admit_failure(drv, why),
            Entry::Stop => self.admit_stop(),
            Entry::Drain { machine } => Ok(self.drain(machine)?),
            Entry::Enable { machine } => Ok(self.enable(machine)?),
        }
    }

    /// Records the choice of a slot if it is legal.
    #[tactic(auto, using(crate::proofs::Admitting::free_allowed))]
    fn admit_choice(&mut self, drv: u32, machine: u32, slot: u32) -> Result<(), AdmitError>
        requires { IsInRange self.old.inputs (Entry.Chosen drv machine slot) }
        ensures ok { OnOk result (self.new ≡ record self.old { history = self.old.history ++ Entry.Chosen drv machine slot ∷ [] }) }
        ensures refused { IfErr result (IsAdmitRefused self.old.inputs (reverse self.old.history) (Entry.Chosen drv machine slot)) }
        ensures err { OnErr result (self.new ≡ self.old) }
    {
        let inputs = &self.inputs;
        if let Err(rule) = check_ready(inputs, &self.state.book, &self.state.board, drv) {
            return Err(AdmitError::Illegal(rule));
        }
        let decision = self
            .state
            .turns
            .decide_by_kind(inputs, &self.state.book, drv as usize);
        if let Err(rule) = judge_ready_choice(
            inputs,
            &self.state.book,
            decision,
            drv,
            machine,
            slot,
        ) {
            return Err(AdmitError::Illegal(rule));
        }
        self.append(Entry::Chosen { drv, machine, slot })?;
        Ok(())
    }

    /// Records the word that nothing can build a derivation if it is legal.
    #[tactic(auto, using(crate::proofs::Admitting::free_allowed))]
    fn admit_no_builder(&mut self, drv: u32) -> Result<(), AdmitError>
        requires { drv < drvs_in self.old.inputs }
        ensures ok { OnOk result (self.new ≡ record self.old { history = self.old.history ++ Entry.NoBuilder drv ∷ [] }) }
        ensures refused { IfErr result (IsAdmitRefused self.old.inputs (reverse self.old.history) (Entry.NoBuilder drv)) }
        ensures err { OnErr result (self.new ≡ self.old) }
    {
        let inputs = &self.inputs;
        if let Err(rule) = check_ready(inputs, &self.state.book, &self.state.board, drv) {
            return Err(AdmitError::Illegal(rule));
        }
        let decision = self
            .state
            .turns
            .decide_by_kind(inputs, &self.state.book, drv as usize);
        if let Err(rule) = judge_ready_no_builder(inputs, &self.state.book, decision, drv) {
            return Err(AdmitError::Illegal(rule));
        }
        self.append(Entry::NoBuilder { drv })?;
        Ok(())
    }

    /// The ticket of a live lease of derivation `drv`.
    fn live_ticket(&self, drv: u32) -> Option<Ticket>
        ensures { IsTicketOf (reverse self.now.history) drv result }
    {
        self.lease(drv)
    }

    /// Records a start if it is legal.
    fn admit_start(&mut self, alloc: Global, drv: u32, paths: PathSet) -> Result<(), AdmitError>
        requires { drv < drvs_in self.old.inputs }
        ensures ok { OnOk result (self.new ≡ record self.old { history = self.old.history ++ Entry.Started drv paths ∷ [] }) }
        ensures refused { IfErr result (IsAdmitRefused self.old.inputs (reverse self.old.history) (Entry.Started drv paths)) }
        ensures err { OnErr result (self.new ≡ self.old) }
    {
        let Some(ticket) = self.live_ticket(drv) else {
            return Err(AdmitError::Illegal(Rule::Live));
        };
        match self.started(alloc, ticket, paths) {
            Ok(()) => Ok(()),
            Err(refused) => Err(admit_error(refused.why)),
        }
    }

    /// Records that a lease is given back if it is legal.
    fn admit_down(&mut self, drv: u32) -> Result<(), AdmitError>
        requires { drv < drvs_in self.old.inputs }
        ensures ok { OnOk result (self.new ≡ record self.old { history = self.old.history ++ Entry.Down drv ∷ [] }) }
        ensures refused { IfErr result (IsAdmitRefused self.old.inputs (reverse self.old.history) (Entry.Down drv)) }
        ensures err { OnErr result (self.new ≡ self.old) }
    {
        let Some(ticket) = self.live_ticket(drv) else {
            return Err(AdmitError::Illegal(Rule::Live));
        };
        match self.down(ticket) {
            Ok(()) => Ok(()),
            Err(why) => Err(admit_error(why)),
        }
    }

    /// Records the end of a build if it is legal.
    fn admit_end(&mut self, alloc: Global, drv: u32, refs: Refs) -> Result<(), AdmitError>
        requires { drv < drvs_in self.old.inputs }
        ensures ok { OnOk result (self.new ≡ record self.old { history = self.old.history ++ Entry.Built drv refs ∷ [] }) }
        ensures refused { IfErr result (IsAdmitRefused self.old.inputs (reverse self.old.history) (Entry.Built drv refs)) }
        ensures err { OnErr result (self.new ≡ self.old) }
    {
        let Some(ticket) = self.live_ticket(drv) else {
            return Err(AdmitError::Illegal(Rule::Live));
        };
        match self.built(alloc, ticket, refs) {
            Ok(()) => Ok(()),
            Err(refused) => Err(admit_error(refused.why)),
        }
    }

    /// Records a failure if it is legal.
    fn admit_failure(&mut self, drv: u32, why: Why) -> Result<(), AdmitError>
        requires { drv < drvs_in self.old.inputs }
        ensures ok { OnOk result (self.new ≡ record self.old { history = self.old.history ++ Entry.Failed drv why ∷ [] }) }
        ensures refused { IfErr result (IsAdmitRefused self.old.inputs (reverse self.old.history) (Entry.Failed drv why)) }
        ensures err { OnErr result (self.new ≡ self.old) }
    {
        let Some(ticket) = self.live_ticket(drv) else {
            return Err(AdmitError::Illegal(Rule::Live));
        };
        let Ok(()) = self.failed(ticket, why) else {
            unreachable!()
        };
        Ok(())
    }

    /// Records a stop if it is legal.
    fn admit_stop(&mut self) -> Result<(), AdmitError>
        ensures ok { OnOk result (self.new ≡ record self.old { history = self.old.history ++ Entry.Stop ∷ [] }) }
        ensures refused { IfErr result (IsAdmitRefused self.old.inputs (reverse self.old.history) Entry.Stop) }
        ensures err { OnErr result (self.new ≡ self.old) }
    {
        match self.stop() {
            Ok(()) => Ok(()),
            Err(why) => Err(admit_error(why)),
        }
    }
}
