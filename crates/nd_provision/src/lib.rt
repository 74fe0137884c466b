//! References, closures and holdings over a history, kept as it grows.
#![tactic(auto)]

mod checks;
mod copying;
mod listed_paths;
mod near;
mod needs;
mod numbering;
mod seen;
mod stores;

pub use copying::{Additions, PathsError};
pub use stores::Stores;
