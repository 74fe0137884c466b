//! What `--explain` says of a fault: where it is, what stands there, what the system said, and what
//! the rule wants.
#![tactic(auto)]

mod advice;
mod excerpts;
mod failures;
mod hearing;
mod parts;
mod pieces;
mod sources;

pub use advice::{Advice, advice_on};
pub use excerpts::excerpt;
pub use failures::Failure;
pub use hearing::Heard;
pub use parts::{Part, part_of, place_of};
pub use pieces::{entry_of, line_of, piece_of};
pub use sources::Source;
