//! Reading a bundle: its lines, and the graph of what they say.
#![tactic(auto)]

mod bundle;
mod collect;
mod cutting;
mod drv_paths;
mod found;
mod gathered;
pub mod laws;
mod lines_reader;
mod manner;
mod needs;
mod needs_reader;
mod piece;
pub mod plain;
mod reached;
mod reader;
mod so_far;
mod whole;

pub use bundle::read_bundle;
pub use drv_paths::drv_path;
pub use nd_links::GraphError;
pub use needs::Needs;
pub use needs_reader::NeedsReader;
pub use reader::BundleReader;
