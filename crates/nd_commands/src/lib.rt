//! The engines of the commands that have a dispatch: `sim` and `audit`, as functions over a reader and a
//! writer.
#![tactic(auto)]

mod audit;
mod history;
mod opening;
mod reading;
mod script;
mod sim;
mod simulation;
mod verdict;

pub use audit::{audit_engine, say_illegal, say_legal};
pub use opening::{close_dispatch, take_dispatch};
pub use sim::sim_engine;
