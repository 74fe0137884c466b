//! The audit of a whole history by two threads.
#![tactic(auto)]

mod ahead;
mod judging;
mod side_by_side;

pub use judging::Unadmitted;
pub use side_by_side::{Audited, audit_side_by_side};
