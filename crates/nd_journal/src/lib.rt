//! The journal of a session or of a run as a file: its whole lines, what may stand behind them, the history that they tell,
//! and which entries read back from their lines.
#![tactic(auto)]

mod begun;
mod cutting;
mod journal;
pub mod laws;
mod looking;

pub use cutting::whole_lines;
pub use journal::{Journal, JournalError, first_line, read_journal};
pub use looking::look_at;
