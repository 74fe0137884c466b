//! A run: the workers of a park, which serve the leases of a dispatch through their transports, each in a thread of
//! its own, and what comes back of them.
#![tactic(auto)]

mod faults;
mod manning;
mod preparing;
mod run_end;
mod running;
mod seat;
mod settling;
mod threads;
mod writing;

pub use run_end::{Evidence, NotRun, NotWritten, Ran, RunError, RunFault, Written};
pub use running::{MOST_SLOTS, run};
pub use seat::Seat;
pub use writing::run_kept;
