//! Tests of the command `serve`: conversations, a driver's among them, lines that are no commands, and what a
//! crash leaves of a journal; and of the scribe of a run.
#![tactic(auto)]

#[cfg(test)]
mod tests;
