//! Tests of the dispatch by its calls: what a start wants, copies, and what a call that was refused for
//! want of memory leaves; and of the texts of histories and reports.
#![tactic(auto)]

#[cfg(test)]
mod tests;
