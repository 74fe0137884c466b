//! The commands `path`, `ask` and `park` as functions over a reader and a writer; and what all commands share: the
//! options, the reading of an input, the park that is described, and faults.
#![tactic(auto)]

mod ask;
mod asks;
mod blocks;
mod class_marks;
mod classes;
mod fault;
mod input;
mod listing;
mod options;
mod park;
mod parts_reader;
mod path;
mod shares;
mod slot_lines;

pub use ask::ask_engine;
pub use fault::{CliFault, DerivationError, HistoryTextError, Place};
pub use input::{LIMIT, read_input};
pub use listing::park_engine;
pub use options::ParkOptions;
pub use park::{Park, take_park};
pub use path::path_engine;
