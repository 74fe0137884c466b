//! Histories of leases: their entries, what follows from them, and which entry may come next.
#![tactic(auto)]

pub mod auditing;
mod book;
pub mod deciding;
mod entry;
mod inputs;
pub mod laws;
mod rule;
mod sameness;
pub mod stepping;
mod tables;

pub use book::Book;
pub use entry::{Entry, Why};
pub use inputs::{Inputs, Parts};
pub use rule::Rule;
pub use sameness::is_same_entry;
