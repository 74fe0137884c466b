//! Store paths by number: what they refer to, which machines hold them, and what is reached from them.
#![tactic(auto)]

mod few;
mod holdings;
mod marks;
mod path_numbers;
mod reached;
mod searching;

pub use holdings::{Held, Holdings};
pub use path_numbers::{PathNumbers, copy_rows};
pub use searching::{match_unheld, reach_unheld};
