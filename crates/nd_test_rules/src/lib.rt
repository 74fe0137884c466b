//! The worked examples of the rules: derivation texts, store paths, builders lists, eligibility, the
//! choice and replies, by the crates' public calls.
#![tactic(auto)]

#[cfg(test)]
mod tests;
