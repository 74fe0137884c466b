//! The tests, by what they are about, and what they share.

mod agents;
mod draws;
mod meeting;
mod parks;
mod punishing;
mod rows;
mod runs;
mod several;
mod stand_ins;
mod worlds;
