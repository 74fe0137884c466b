//! The statuses of a graph's nodes, and how a failure spreads over those that depend on it.
#![tactic(auto)]

mod board;
mod edges;
pub mod plain;
mod spread;
mod status;
mod unbuilt;

pub use board::Board;
pub use edges::Edges;
pub use status::{Counts, Mark, Status};
