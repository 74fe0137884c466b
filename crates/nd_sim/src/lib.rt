//! Simulations: the commands of a script as calls on a dispatch, and the text that is written of them.
#![tactic(auto)]

mod answer;
mod calls;
mod commands;
mod fault;
pub mod laws;
mod leases;
mod lines;
mod turns;

pub use answer::Answer;
pub use commands::obey;
pub use fault::SimFault;
pub use leases::live_ticket;
pub use lines::{write_added, write_refused};
pub use turns::{pump, take_turns, turn};
