//! What the lines of a bundle say, as lists with one item per node, and their inputs by number.
#![tactic(auto)]

mod columns;
mod details;
mod fault;
mod link_error;
mod linking;
mod missing;
mod name;
mod names;
mod number;
mod path_bytes;
mod pool;
mod register;
mod resolve;
mod shared_needs;
mod want;

pub use columns::Columns;
pub use details::Details;
pub use fault::GraphError;
pub use linking::{link, link_side_by_side};
pub use names::Names;
pub use number::{Numbers, number_all};
pub use pool::Pool;
pub use shared_needs::SharedNeeds;
pub use want::Want;
