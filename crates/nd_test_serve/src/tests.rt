//! The tests, by what they are about, and what they share.

mod conversations;
mod crashes;
mod driver;
mod driving;
mod holding;
mod keeping;
mod lines;
mod outputs;
mod texts;
