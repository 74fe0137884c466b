//! The pump's next step: what is decided about the derivations of a kind, once for all of them, whose turn it is
//! among those that are ready, where whole kinds can be passed over, and that a kind that is to wait goes on waiting
//! until one of its machines changes.
#![tactic(auto)]

mod deciding;
mod few;
mod grouped;
pub mod laws;
mod queue;
mod stepping;
mod turns;
mod vacancies;

pub use stepping::next_step;
pub use turns::Turns;
