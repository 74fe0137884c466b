//! The tests, by what they are about, and what they share.

mod ahead;
mod calls;
mod copies;
mod devices;
mod refusing;
mod replaying;
mod reports;
mod texts;
