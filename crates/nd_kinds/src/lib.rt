//! The derivations by kind: those of one kind get the same decisions.
#![tactic(auto)]

mod kind;
mod kinds;
mod need_marks;
mod sharing;

pub use kind::Kind;
pub use kinds::Kinds;
