//! What the options of a command over a bundle stand for, and the files that they name.
#![tactic(auto)]

mod files;
mod options;

pub use files::{file_or_nothing, read_file, text_or_file};
pub use options::park_options;
