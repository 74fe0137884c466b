//! The places of a park.

use std::marker::Model;

/// A place of a park, which is a machine with a slot of it. A worker serves one, and a lease is on one. Contracts
/// see both numbers as a pair.
#[derive(Clone, Copy, Debug, PartialEq, Eq)]
pub struct ParkPlace {
    /// The machine: 0 is the local one, and m the m-th of the builders list.
    pub machine: u32,
    /// The slot of the machine, from 0, and less than the machine's number of jobs.
    pub slot: u32,
}

impl Model for ParkPlace {
    ghost use Rattle.std.specs.Prelude.{ℕ};

    ghost Value = { ℕ × ℕ };

    ghost view = { λ p. (p.machine, p.slot) };

    ghost inverse = { λ v. record { machine = v.0; slot = v.1 } };
}
