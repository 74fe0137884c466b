//! The texts of histories, how they are written and read, and lines of words over a page.
#![tactic(auto)]

mod history_error;
mod history_reading;
mod history_writing;
pub mod kinds;
pub mod laws;
mod lines;
pub mod rows;
mod words;

pub use history_error::HistoryError;
pub use history_reading::read_history;
pub use history_writing::{write_history, write_lines};
