//! Agents: what serves a machine's leases at the other end of two files, and the transport that speaks with
//! one. A call is a line that is written, and its answer a line that is read.
#![tactic(auto)]

mod agent;
mod answer_text;
mod call_text;
mod ending;
mod hearing;
pub mod laws;
mod wire;

pub use agent::Agent;
pub use answer_text::read_answer;
pub use ending::Ending;
