//! The calls so far and the job that was prepared last, which proofs speak of and no memory holds.

ghost use Rattle.std.specs.Prelude.{◌≡◌, ◌++◌, ◌∷◌, List, []};
ghost use Rattle.std.specs.Borrow.{ftrue};
ghost use Rattle.nd_ledger.specs.declared.job.Job.{Job};
ghost use Rattle.nd_transports.specs.Calls.{Deed, no_job, deed_for};

use crate::kinds::Call;
use nd_keeping::Kept;
use nd_ledger::Job;
use std::marker::Model;

/// The calls of a transport so far, oldest first, each with the job that it was made for and what was durable
/// then, and the job that was prepared last. They are there for contracts alone: they take no memory, and the
/// methods do nothing when they run.
#[derive(Drop, Debug)]
pub(crate) struct CallsSoFar {
    pub ghost job: { Job },
    pub ghost deeds: { List Deed },
}

impl Model for CallsSoFar {
    ghost also_owns = { λ _. ftrue };
}

// They own nothing. That they may go to another thread is proved, in `TheSendSync`.
unsafe impl Send for CallsSoFar {}

impl CallsSoFar {
    /// No calls, and no job.
    pub(crate) fn new() -> CallsSoFar
        ensures { result ≡ record { job = no_job; deeds = [] } }
    {
        CallsSoFar {}
    }

    /// These calls, for which this job is prepared now.
    pub(crate) fn for_job(&self, _job: &Job) -> CallsSoFar
        ensures { result ≡ record { job = _job.now; deeds = self.now.deeds } }
    {
        CallsSoFar {}
    }

    /// These calls, and another one behind them, made for the prepared job by what was durable.
    pub(crate) fn with(&self, _call: &Call, _by: &Kept) -> CallsSoFar
        ensures { result ≡ record { job = self.now.job; deeds = self.now.deeds ++ deed_for self.now.job _by.now _call.now ∷ [] } }
    {
        CallsSoFar {}
    }
}
