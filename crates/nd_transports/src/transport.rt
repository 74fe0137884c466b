//! The way to a machine.

ghost use Rattle.std.specs.Prelude.{◌≡◌, ℕ, List, IfOk, OnOk, OnErr};
ghost use Rattle.nd_transports.specs.Calls.{State, prepared, IsIdleAgain, connected, copied, Builds, Reports};

use crate::kinds::{Ended, Phase};
use nd_closure::Refs;
use nd_keeping::Kept;
use nd_ledger::Job;
use std::alloc::AllocError;

/// A way to a machine: it serves one lease after another by preparing its job, calling the machine,
/// copying the paths and building. Contracts see its phase, with the prepared job, and the list of its calls
/// with their answers, each with the job that it was made for. Each call is handed what is durable of the run's
/// history when it is made: contracts see that beside the call, and a transport may pass it over.
pub trait Transport: Send + Drop {
    ghost state: { Self → State };

    /// Prepares a job: it makes room for the records of three calls, and a copy of the job's paths.
    /// No call is recorded by it. Where memory is refused the phase is `Idle`.
    fn prepare(&mut self, job: &Job) -> Result<(), AllocError>
        ensures ok { OnOk result (state self.new ≡ prepared (state self.old) job.now) }
        ensures err { OnErr result (IsIdleAgain (state self.old) (state self.new)) };

    /// Calls the machine of the prepared job. It answers whether the machine answered, and takes no
    /// memory.
    fn connect(&mut self, by: &Kept) -> bool
        requires { (state self.old).phase ≡ Phase.Prepared }
        ensures { state self.new ≡ connected (state self.old) by.now result };

    /// Copies the paths of the prepared job to the machine. It answers whether that worked, and takes
    /// no memory.
    fn copy(&mut self, by: &Kept) -> bool
        requires { (state self.old).phase ≡ Phase.Connected }
        ensures { state self.new ≡ copied (state self.old) by.now result };

    /// Builds the derivation of the prepared job. `Lost` says that the transport is lost, and `Memory` that
    /// there was no memory for what it was answered: the one is never told for the other.
    fn build(&mut self, by: &Kept) -> Ended
        requires { (state self.old).phase ≡ Phase.Copied }
        ensures { Builds (state self.old) by.now result (state self.new) };

    /// The references that the last call, a build that ended with its outputs, reported.
    fn reported(&self) -> Result<Refs, AllocError>
        requires { (refs : List (List (List ℕ))) × Reports (state self.now) refs }
        ensures { IfOk result (Reports (state self.now)) };

    /// How far it is with the lease that it serves.
    fn phase(&self) -> Phase
        ensures { result ≡ (state self.now).phase };
}
