//! The tickets of leases.

/// A lease: what is to be built where. A ticket may be outdated, and each call that takes one tests
/// that its lease is live.
#[derive(Clone, Copy, Debug, PartialEq, Eq)]
pub struct Ticket {
    /// The machine: 0 is the local one, and m the m-th of the builders list.
    pub machine: u32,
    /// The slot of the machine, from 0.
    pub slot: u32,
    /// The derivation's place in the bundle, from 0.
    pub drv: u32,
    /// The place in the history of the choice that made the lease.
    pub serial: usize,
}
