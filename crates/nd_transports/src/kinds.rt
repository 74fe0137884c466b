//! The phases of a transport, and its calls with their answers.

ghost use Rattle.std.specs.Prelude.{◌≡◌};
ghost use Rattle.nd_transports.specs.Answers.{ended_of};

use nd_closure::Refs;
use nd_path::PathSet;

/// How far a transport is with the lease that it serves.
#[derive(Clone, Copy, Debug, PartialEq, Eq)]
pub enum Phase {
    /// It serves none.
    Idle,
    /// A job is prepared.
    Prepared,
    /// The machine answered.
    Connected,
    /// The job's paths were copied to the machine.
    Copied,
}

/// How a build ended.
#[derive(Clone, Copy, Debug, PartialEq, Eq)]
pub enum Ended {
    /// With its outputs.
    Built,
    /// The builder ended with this status.
    Status(u8),
    /// The transport was lost.
    Lost,
    /// There was no memory for what the transport was answered.
    Memory,
}

/// How a build ended, with the references that it reported.
#[derive(Drop, Debug)]
pub enum Answer {
    /// With its outputs, which have these references.
    Built(Refs),
    /// The builder ended with this status.
    Status(u8),
    /// The transport was lost.
    Lost,
    /// There was no memory for what the transport was answered.
    Memory,
}

impl Answer {
    /// The answer without the references.
    pub fn ended(&self) -> Ended
        ensures { result ≡ ended_of self.now }
    {
        match self {
            Answer::Built(_) => Ended::Built,
            Answer::Status(code) => Ended::Status(*code),
            Answer::Lost => Ended::Lost,
            Answer::Memory => Ended::Memory,
        }
    }
}

/// A call of a transport with its answer.
#[derive(Drop, Debug)]
pub enum Call {
    /// The machine was called, and answered or not.
    Connect(bool),
    /// These paths were to be copied to the machine, which worked or not.
    Copy { paths: PathSet, done: bool },
    /// This derivation was to be built, and the build ended so.
    Build { drv: u32, answer: Answer },
}
