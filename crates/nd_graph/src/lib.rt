//! The graph of derivations: nodes numbered from 0, each with the nodes that it needs, and an order
//! in which every node stands after its inputs.
#![tactic(auto)]

mod fault;
mod graph;
mod number;
mod order;
mod places;

pub use fault::OrderError;
pub use graph::{Graph, Input, NODE_LIMIT};
pub use number::find_path;
pub use order::find_order;
pub use places::Places;
