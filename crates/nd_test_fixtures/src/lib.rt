//! What the crates of tests share: bundles, what commands are given, worked examples, parks and their
//! dispatches, devices and journals in memory that refuse, and the texts of histories, entries, reports
//! and printed values.
#![tactic(auto)]

pub mod bundles;
pub mod devices;
pub mod entries;
pub mod examples;
pub mod histories;
pub mod journals;
pub mod parks;
pub mod paths;
pub mod places;
pub mod printing;
pub mod reports;
