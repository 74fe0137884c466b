//! How a lease is served through a transport.

ghost use Rattle.std.specs.Prelude.{◌≡◌, ◌++◌, ◌∷◌, [], true, false};
ghost use Rattle.nd_transports.specs.Services.{Fetches, Serves};

use crate::kinds::{Ended, Phase};
use crate::transport::Transport;
use nd_closure::Refs;
use nd_keeping::Kept;
use nd_ledger::Job;

/// How the copy before a build went.
#[derive(Clone, Copy, Debug, PartialEq, Eq)]
pub enum Fetch {
    /// The job's paths were copied.
    Copied,
    /// The last of this many calls, 1 or 2, was answered no.
    Refused(u8),
    /// Memory was refused before the first call.
    Memory,
}

/// How a build went.
#[derive(Drop, Debug)]
pub enum Outcome {
    /// It ended with its outputs, which have these references.
    Built(Refs),
    /// The builder ended with this status.
    Status(u8),
    /// The transport was lost.
    Lost,
    /// Memory was refused: for what the transport was answered, or for the references of a build that
    /// ended with its outputs.
    Memory,
}

/// Prepares a job, calls its machine and copies its paths, by what is durable. Where memory is refused nothing is
/// called.
pub fn serve_copy<T: Transport>(transport: &mut T, job: &Job, by: &Kept) -> Fetch
    ensures { Fetches (T.state transport.old) job.now by.now result (T.state transport.new) }
{
    if transport.prepare(job).is_err() {
        return Fetch::Memory;
    }
    if !transport.connect(by) {
        return Fetch::Refused(1);
    }
    if !transport.copy(by) {
        return Fetch::Refused(2);
    }
    Fetch::Copied
}

/// Builds what was prepared and copied, by what is durable, and takes the references that the build reported.
pub fn serve_build<T: Transport>(transport: &mut T, by: &Kept) -> Outcome
    requires { (T.state transport.old).phase ≡ Phase.Copied }
    ensures { Serves (T.state transport.old) by.now result (T.state transport.new) }
{
    match transport.build(by) {
        Ended::Built => match transport.reported() {
            Ok(refs) => Outcome::Built(refs),
            Err(_) => Outcome::Memory,
        },
        Ended::Status(code) => Outcome::Status(code),
        Ended::Lost => Outcome::Lost,
        Ended::Memory => Outcome::Memory,
    }
}
