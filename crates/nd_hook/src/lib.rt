//! The replies of a build hook and the decisions about a derivation, and how a reply is written.
#![tactic(auto)]

mod decisions;
mod kinds;
pub mod laws;
mod replies;
mod writing;

pub use decisions::{decide, decide_among, decide_in};
pub use kinds::{Decision, Reply};
pub use replies::{reply, reply_among, reply_in};
pub use writing::write_reply;
