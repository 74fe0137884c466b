//! The command `run`: what it is given, the places of its park with a stand-in on each, and what it
//! writes of a run with them on threads.
#![tactic(auto)]

mod ending;
mod engine;
mod given;
mod seating;

pub use ending::{refusal, write_end};
pub use engine::run_engine;
pub use given::{RunInputs, run_inputs};
pub use seating::{places, stand_ins};
