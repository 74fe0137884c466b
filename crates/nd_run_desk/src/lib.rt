//! The desk of a run: what lies under the lock that its workers and its scribe share.
#![tactic(auto)]

mod abandoning;
mod closing;
mod desk;
mod handing;
mod keeping;
mod opened;

pub use abandoning::abandon;
pub use closing::Closed;
pub use desk::{Desk, Next, entries_since};
pub use handing::Found;
pub use keeping::{Leave, Step, Writing};
pub use opened::Opened;
