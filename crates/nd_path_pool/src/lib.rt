//! The store paths of a text, each made once.
#![tactic(auto)]

mod path_key;
mod path_pool;

pub use path_key::PathKey;
pub use path_pool::PathPool;
