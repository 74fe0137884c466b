//! Tests of agents, whose calls and answers are bytes in memory.
#![tactic(auto)]

#[cfg(test)]
mod serving;
