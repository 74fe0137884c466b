//! A transport that follows rules.

ghost use Rattle.std.specs.Prelude.{◌≡◌, ℕ, List, Option, Some, IfOk, OnOk, OnErr};
ghost use Rattle.nd_transports.specs.Calls.{prepared, connected, copied, built, Reports, IsIdleAgain};
ghost use Rattle.nd_transports.specs.StandIns.{fresh, readied, burnt, connects, copies, StandInBuilds};

use crate::conduct::Conduct;
use crate::kinds::{Ended, Phase};
use crate::last_call::LastCall;
use crate::rule_book::RuleBook;
use crate::transport::Transport;
use nd_closure::Refs;
use nd_keeping::Kept;
use nd_ledger::Job;
use std::alloc::{AllocError, Global};
use std::marker::Model;

/// A transport without a machine behind it, which follows rules. Of several rules about a build the
/// first decides. Where none fits, a connect and a copy answer yes, and a build reports an empty list
/// for each output. A build that is to end with its outputs, and for whose references no memory is found,
/// is lost; one that is to end otherwise takes no memory. Of its calls it keeps the last one alone: contracts
/// see the list of all of them, and no memory holds it, however many leases it served. To prepare a job wants
/// memory for a copy of its paths alone.
#[derive(Drop, Debug)]
pub struct StandIn {
    alloc: Global,
    conduct: Conduct,
    log: LastCall,
}

impl Model for StandIn {
    ghost use Rattle.nd_transports.specs.StandIns.{Stood};

    ghost Value = { Stood };

    ghost use Rattle.nd_transports.specs.Conducts.{stood};

    ghost view = { λ s. stood s.conduct s.log };
}

impl StandIn {
    /// A stand-in for this machine, without a fuse. It takes no memory. The rules about machines are looked
    /// through here, and not again in each call.
    pub fn new(alloc: Global, machine: u32, rules: RuleBook) -> StandIn
        ensures { result ≡ fresh machine rules }
    {
        StandIn {
            alloc,
            conduct: Conduct::new(alloc, machine, rules),
            log: LastCall::new(alloc),
        }
    }

    /// Sets a fuse: after `passes` more calls of `connect`, `copy` and `build` each of them answers no,
    /// or that the transport was lost. It takes no memory.
    pub fn fuse(&mut self, passes: u32)
        ensures { self.new ≡ record self.old { fuse = Some passes } }
    {
        self.conduct.fuse(passes);
    }
}

impl Transport for StandIn {
    ghost state = { λ s. s.state };

    fn prepare(&mut self, job: &Job) -> Result<(), AllocError>
        ensures ok { OnOk result (self.new ≡ readied self.old job.now) }
        ensures err { OnErr result (IsIdleAgain self.old.state self.new.state) }
        ensures kept { OnErr result (self.new ≡ record self.old { state = self.new.state }) }
    {
        self.log.prepare(job)?;
        self.conduct.expect(job.output_paths.len());
        Ok(())
    }

    fn connect(&mut self, by: &Kept) -> bool
        requires { self.old.state.phase ≡ Phase.Prepared }
        ensures answer { result ≡ connects self.old }
        ensures after { self.new ≡ record self.old { fuse = burnt self.old.fuse; state = connected self.old.state by.now result } }
    {
        let answered = self.conduct.connects();
        self.log.connected(answered, by);
        answered
    }

    fn copy(&mut self, by: &Kept) -> bool
        requires { self.old.state.phase ≡ Phase.Connected }
        ensures answer { result ≡ copies self.old }
        ensures after { self.new ≡ record self.old { fuse = burnt self.old.fuse; state = copied self.old.state by.now result } }
    {
        let done = self.conduct.copies();
        self.log.copied(self.alloc, done, by);
        done
    }

    fn build(&mut self, by: &Kept) -> Ended
        requires { self.old.state.phase ≡ Phase.Copied }
        ensures { StandInBuilds self.old by.now result self.new }
    {
        let drv = self.log.drv();
        let answer = self.conduct.builds(drv);
        let ended = answer.ended();
        self.log.built(answer, by);
        ended
    }

    fn reported(&self) -> Result<Refs, AllocError> {
        self.log.reported()
    }

    fn phase(&self) -> Phase {
        self.log.phase()
    }
}
