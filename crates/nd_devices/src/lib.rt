//! Readers and writers that remember whether they refused a call, what a text is refused for, and the
//! page that gathers a text before it goes to a writer.
#![tactic(auto)]

mod page;
mod refusals;
mod told;

pub use page::Page;
pub use refusals::{Fault, TakeError, WriteError};
pub use told::Told;
