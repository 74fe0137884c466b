//! References between store paths, and the closures that they make.
#![tactic(auto)]

mod closures;
mod info_error;
mod info_text;
mod output_refs;
mod ref_table;

pub use closures::{reach, sorted};
pub use info_error::InfoError;
pub use info_text::parse_info;
pub use output_refs::Refs;
pub use ref_table::RefTable;
