//! The choice of the machine that a derivation is built on.
#![tactic(auto)]

mod choice;
mod contender;
pub mod laws;
mod order;

pub use choice::{choose, choose_in};
pub use order::beats;
