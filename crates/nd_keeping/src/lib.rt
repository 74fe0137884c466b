//! How the entries of a run come to be durable: the journal that holds their lines, the book that says which of
//! them were handed to it and which of those are durable, and the scribe who hands them over.
#![tactic(auto)]

mod book;
mod journals;
mod kept;
mod lines;
mod scribe;

pub use book::Front;
pub use journals::{Journal, NoJournal};
pub use kept::Kept;
pub use scribe::{KeepError, Scribe};
