//! The tests, by what they are about, and what they share.

mod audits;
mod devices;
mod drawing;
mod long_audits;
mod refusals;
mod running;
mod simulations;
mod truncations;
mod worlds;
