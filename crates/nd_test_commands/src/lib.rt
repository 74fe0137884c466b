//! Tests of the commands `path` and `ask`, of what `run` is given, and of the texts of scripts and of
//! stand-ins: the worked examples by their names, refusals and their order, failing devices, the limits,
//! and the places of a park.
#![tactic(auto)]

#[cfg(test)]
mod tests;
