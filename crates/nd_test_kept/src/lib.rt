//! Tests of runs with a journal, and of what is read of their journals: reports and audits.
#![tactic(auto)]

#[cfg(test)]
mod refusals;
#[cfg(test)]
mod reports;
#[cfg(test)]
mod running;
