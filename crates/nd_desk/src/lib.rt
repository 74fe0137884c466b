//! The desk of a session: its input, its output and its journal as one device, which notes what was done to
//! each in one list, so that a contract can say what came before what.
#![tactic(auto)]

mod desk;
mod event;
mod fault;
mod handing;

pub use desk::Desk;
pub use event::Event;
pub use fault::{DeskFault, SessionFault};
pub use handing::hand_over;
