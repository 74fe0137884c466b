//! Leases and the history of a run of builds.
#![tactic(auto)]

mod admission;
mod dispatch;
mod fresh;
mod job;
pub mod laws;
mod moving;
mod refusal;
mod state;

pub use dispatch::Dispatch;
pub use fresh::learn_jobs;
pub use job::Job;
pub use moving::refusal_of;
pub use refusal::{AdmitError, Refusal, Refused, admit_error};
pub use state::State;
