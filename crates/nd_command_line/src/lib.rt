//! The command line: its commands and options, where a bundle is read from, and what is known of a
//! fault over what was given.
#![tactic(auto)]

mod bundles;
mod failing;
mod inputs;
mod words;

pub use bundles::{Bundle, bundle_of, bundle_source};
pub use failing::{Given, failure, heard, history_option, path_failure, placed, write_failure};
pub use inputs::{Inputs, answered, read_inputs};
pub use words::command_line;
