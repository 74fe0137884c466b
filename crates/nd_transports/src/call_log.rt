//! The calls of a transport, and how far it is.

ghost use Rattle.std.specs.Prelude.{◌≡◌, ℕ, List, [], IfOk, OnOk, OnErr};
ghost use Rattle.nd_transports.specs.Calls.{unused, prepared, IsIdleAgain, connected, copied, built, calls_of, Reports};

use crate::calls_so_far::CallsSoFar;
use crate::kinds::{Answer, Call, Phase};
use nd_closure::Refs;
use nd_keeping::Kept;
use nd_ledger::Job;
use nd_path::PathSet;
use std::alloc::{AllocError, Global};
use std::marker::Model;
use std::mem;

/// What a transport stores: its calls with their answers, its phase, and the prepared job's
/// derivation and paths. Room for the records of a prepared job's calls is made beforehand.
/// Contracts see what they see of a transport.
#[derive(Drop, Debug)]
pub struct CallLog {
    phase: Phase,
    drv: u32,
    paths: PathSet,
    calls: Vec<Call>,
    so_far: CallsSoFar,
}

impl Model for CallLog {
    ghost use Rattle.nd_transports.specs.Calls.{State};

    ghost Value = { State };

    ghost use Rattle.nd_transports.specs.Logs.{state_of, HasCalls};

    ghost view = { state_of };

    ghost invariant = { HasCalls };
}

impl CallLog {
    /// No calls, and no job. It takes no memory.
    pub fn new(alloc: Global) -> CallLog
        ensures { result ≡ unused }
    {
        CallLog {
            phase: Phase::Idle,
            drv: 0,
            paths: PathSet::new(alloc),
            calls: Vec::new(alloc),
            so_far: CallsSoFar::new(),
        }
    }

    /// A job is prepared. Where memory is refused the phase is `Idle`.
    pub fn prepare(&mut self, job: &Job) -> Result<(), AllocError>
        ensures ok { OnOk result (self.new ≡ prepared self.old job.now) }
        ensures err { OnErr result (IsIdleAgain self.old self.new) }
    {
        self.phase = Phase::Idle;
        let paths = job.paths.try_clone()?;
        self.calls.reserve(3)?;
        self.paths = paths;
        self.drv = job.ticket.drv;
        self.so_far = self.so_far.for_job(job);
        self.phase = Phase::Prepared;
        Ok(())
    }

    /// The machine was called, and answered or not. It takes no memory.
    #[tactic(auto, using(crate::proofs::Calling::noted))]
    pub fn connected(&mut self, answered: bool, by: &Kept)
        requires { self.old.phase ≡ Phase.Prepared }
        ensures { self.new ≡ connected self.old by.now answered }
    {
        self.phase = if answered {
            Phase::Connected
        } else {
            Phase::Idle
        };
        let call = Call::Connect(answered);
        self.so_far = self.so_far.with(&call, by);
        self.calls.push_reserved(call);
    }

    /// The paths were to be copied, which worked or not. It takes no memory.
    #[tactic(auto, using(crate::proofs::Calling::noted))]
    pub fn copied(&mut self, alloc: Global, done: bool, by: &Kept)
        requires { self.old.phase ≡ Phase.Connected }
        ensures { self.new ≡ copied self.old by.now done }
    {
        self.phase = if done { Phase::Copied } else { Phase::Idle };
        let paths = mem::replace(&mut self.paths, PathSet::new(alloc));
        let call = Call::Copy { paths, done };
        self.so_far = self.so_far.with(&call, by);
        self.calls.push_reserved(call);
    }

    /// The derivation was to be built, and the build ended so. It takes no memory.
    #[tactic(auto, using(crate::proofs::Calling::noted))]
    pub fn built(&mut self, answer: Answer, by: &Kept)
        requires { self.old.phase ≡ Phase.Copied }
        ensures { self.new ≡ built self.old by.now answer }
    {
        self.phase = Phase::Idle;
        let call = Call::Build {
            drv: self.drv,
            answer,
        };
        self.so_far = self.so_far.with(&call, by);
        self.calls.push_reserved(call);
    }

    /// The references that the last call, a build that ended with its outputs, reported.
    pub fn reported(&self) -> Result<Refs, AllocError>
        requires { (refs : List (List (List ℕ))) × Reports self.now refs }
        ensures { IfOk result (Reports self.now) }
    {
        match self.calls.last() {
            Some(
                Call::Build {
                    answer: Answer::Built(refs),
                    ..
                },
            ) => refs.try_clone(),
            _ => unreachable!(),
        }
    }

    /// The derivation of the job that was prepared last.
    pub fn drv(&self) -> u32
        ensures { result ≡ self.now.job.ticket.drv }
    {
        self.drv
    }

    /// How far the transport is.
    pub fn phase(&self) -> Phase
        ensures { result ≡ self.now.phase }
    {
        self.phase
    }

    /// The calls so far, oldest first, with their answers.
    pub fn calls(&self) -> &[Call]
        ensures { result.now ≡ calls_of self.now.deeds }
    {
        self.calls.as_slice()
    }
}
