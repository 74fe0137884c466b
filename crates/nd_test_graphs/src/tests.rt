//! The tests, by what they are about, and what they share.

mod boards;
mod bundles;
mod closures;
mod explaining;
mod holdings;
mod lines;
mod long_bundles;
mod needs;
mod parts;
mod reading;
mod shapes;
