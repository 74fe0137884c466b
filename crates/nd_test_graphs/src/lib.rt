//! Tests of graphs, boards and closures, by their public calls: the worked examples, and sizes that no
//! contract speaks of; and of what is said of a refused text.
#![tactic(auto)]

#[cfg(test)]
mod tests;
