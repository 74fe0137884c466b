//! The dispatcher as a conversation: one command of a script is read, done, written to a journal and answered
//! before the next is read.
#![tactic(auto)]

mod asking;
mod jobs;
pub mod laws;
mod preparing;
mod request;
mod session;

pub use asking::read_request;
pub use request::Request;
pub use session::serve;
