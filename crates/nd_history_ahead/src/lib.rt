//! Reading a history text beside something else, which may make it needless.
#![tactic(auto)]

mod pieces;
mod reading;

pub use reading::read_ahead;
