//! The work of a run's workers and of its scribe, each in a thread of its own: under the lock of the run's desk they make
//! entries, and with the lock free they call a transport, or make lines durable.
#![tactic(auto)]

mod bells;
mod calling;
mod floor;
mod hand;
mod leasing;
mod scribing;
mod working;

pub use bells::Bells;
pub use calling::Guarded;
pub use floor::{Floor, Shared};
pub use hand::Hand;
pub use working::End;
