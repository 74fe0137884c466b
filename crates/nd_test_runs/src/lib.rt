//! The worked examples of runs: leases that workers serve through stand-ins and agents, each in a thread of
//! its own; what is the same of runs whose histories hang on their threads; random worlds; what one stand-in
//! answers; and receipts that are compared by one thread and by many.
#![tactic(auto)]

#[cfg(test)]
mod tests;
