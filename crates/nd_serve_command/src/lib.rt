//! The engine of the command `serve`: what a session is given, the devices that it speaks to, and the session
//! itself, as functions over readers, a writer and a journal. Journals, what is gone on from, what they fail by
//! and what a crash leaves of them are those of runs too.
#![tactic(auto)]

mod devices;
mod failures;
mod fault;
pub mod laws;
mod lines;
mod opened;
mod opening;
mod reading;
mod resume_error;
mod resuming;
mod session;

pub use devices::Devices;
pub use failures::{JournalFailure, journal_advice};
pub use fault::ServeFault;
pub use opened::Opened;
pub use opening::{open_session, take_journal};
pub use reading::{JOURNAL_LIMIT, journal_bytes};
pub use resume_error::ResumeError;
pub use resuming::resume;
pub use session::serve_engine;
