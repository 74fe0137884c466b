//! Scripts of calls on a dispatch, as texts: one line for each call; and stand texts, which say how the
//! stand-ins of a run answer: one line for each rule.
#![tactic(auto)]

mod command;
mod line_error;
mod lines;
mod reading;
mod rule;
mod script_error;
mod stand_lines;
mod topic;
mod verb;
mod whole_texts;
mod words;

pub use command::Command;
pub use line_error::LineError;
pub use lines::read_line;
pub use rule::Rule;
pub use script_error::ScriptError;
pub use whole_texts::{parse_script, parse_stand};
pub use words::only_operand;
