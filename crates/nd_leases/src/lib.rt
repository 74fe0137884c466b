//! Live leases in tables, so that a lease, a load and a free slot are found without a walk over all of them.
#![tactic(auto)]

mod leases;
mod row;
mod ticket;

pub use leases::Leases;
pub use ticket::Ticket;
