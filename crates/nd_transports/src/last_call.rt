//! The last call of a transport, and how far it is.

ghost use Rattle.std.specs.Prelude.{◌≡◌, ◌++◌, ◌∷◌, ℕ, List, [], IfOk, OnOk, OnErr};
ghost use Rattle.nd_transports.specs.Calls.{unused, prepared, IsIdleAgain, connected, copied, built, deed_of, Reports};

use crate::calls_so_far::CallsSoFar;
use crate::kinds::{Answer, Call, Phase};
use nd_closure::Refs;
use nd_keeping::Kept;
use nd_ledger::Job;
use nd_path::PathSet;
use std::alloc::{AllocError, Global};
use std::marker::Model;
use std::mem;

/// What a transport stores of its calls where nobody reads them: the last one with its answer, its phase, and
/// the prepared job's derivation and paths. So it takes no more memory, however many leases it served.
/// Contracts see what they see of a transport, all of its calls too.
#[derive(Drop, Debug)]
pub struct LastCall {
    phase: Phase,
    drv: u32,
    paths: PathSet,
    last: Option<Call>,
    so_far: CallsSoFar,
}

impl Model for LastCall {
    ghost use Rattle.nd_transports.specs.Calls.{State};

    ghost Value = { State };

    ghost use Rattle.nd_transports.specs.LastCalls.{state_of, HasLast};

    ghost view = { state_of };

    ghost invariant = { HasLast };
}

impl LastCall {
    /// No calls, and no job. It takes no memory.
    pub fn new(alloc: Global) -> LastCall
        ensures { result ≡ unused }
    {
        LastCall {
            phase: Phase::Idle,
            drv: 0,
            paths: PathSet::new(alloc),
            last: None,
            so_far: CallsSoFar::new(),
        }
    }

    /// A job is prepared. Memory is wanted for a copy of its paths alone. Where it is refused the phase is `Idle`.
    pub fn prepare(&mut self, job: &Job) -> Result<(), AllocError>
        ensures ok { OnOk result (self.new ≡ prepared self.old job.now) }
        ensures err { OnErr result (IsIdleAgain self.old self.new) }
    {
        self.phase = Phase::Idle;
        self.paths = job.paths.try_clone()?;
        self.drv = job.ticket.drv;
        self.so_far = self.so_far.for_job(job);
        self.phase = Phase::Prepared;
        Ok(())
    }

    /// The machine was called, and answered or not. It takes no memory.
    pub fn connected(&mut self, answered: bool, by: &Kept)
        requires { self.old.phase ≡ Phase.Prepared }
        ensures { self.new ≡ connected self.old by.now answered }
    {
        self.phase = if answered {
            Phase::Connected
        } else {
            Phase::Idle
        };
        self.note(Call::Connect(answered), by);
    }

    /// The paths were to be copied, which worked or not. It takes no memory.
    pub fn copied(&mut self, alloc: Global, done: bool, by: &Kept)
        requires { self.old.phase ≡ Phase.Connected }
        ensures { self.new ≡ copied self.old by.now done }
    {
        self.phase = if done { Phase::Copied } else { Phase::Idle };
        let paths = mem::replace(&mut self.paths, PathSet::new(alloc));
        self.note(Call::Copy { paths, done }, by);
    }

    /// The derivation was to be built, and the build ended so. It takes no memory.
    pub fn built(&mut self, answer: Answer, by: &Kept)
        requires { self.old.phase ≡ Phase.Copied }
        ensures { self.new ≡ built self.old by.now answer }
    {
        self.phase = Phase::Idle;
        let drv = self.drv;
        self.note(Call::Build { drv, answer }, by);
    }

    /// Puts a call behind the others, of which the last one is let go.
    fn note(&mut self, call: Call, by: &Kept)
        ensures { self.new ≡ record self.old { deeds = self.old.deeds ++ deed_of self.old by.now call ∷ [] } }
    {
        self.so_far = self.so_far.with(&call, by);
        self.last = Some(call);
    }

    /// The references that the last call, a build that ended with its outputs, reported.
    pub fn reported(&self) -> Result<Refs, AllocError>
        requires { (refs : List (List (List ℕ))) × Reports self.now refs }
        ensures { IfOk result (Reports self.now) }
    {
        match &self.last {
            Some(
                Call::Build {
                    answer: Answer::Built(refs),
                    ..
                },
            ) => refs.try_clone(),
            _ => unreachable!(),
        }
    }

    /// The derivation of the job that was prepared last.
    pub fn drv(&self) -> u32
        ensures { result ≡ self.now.job.ticket.drv }
    {
        self.drv
    }

    /// How far the transport is.
    pub fn phase(&self) -> Phase
        ensures { result ≡ self.now.phase }
    {
        self.phase
    }
}
