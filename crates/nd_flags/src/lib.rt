//! Sets of numbers as rows of flags, whose next member is found without a walk over all numbers; lists of numbers by group; rows
//! of numbers in one list.
#![tactic(auto)]

mod layers;
mod lists;
mod node_set;
mod rows;

pub use lists::Lists;
pub use node_set::NodeSet;
pub use rows::Rows;
