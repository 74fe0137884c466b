//! Tests of the commands `sim` and `audit`: the worked examples by their names, refusals and failing
//! devices.
#![tactic(auto)]

#[cfg(test)]
mod tests;
