//! The texts of reports.

use crate::bundles::DRVS;
use std::fmt;

/// The words of derivations, in the order in which a report counts them.
const STATUSES: [&str; 5] = ["waiting", "leased", "built", "failed", "cancelled"];

/// What a report says of each machine and of each derivation. It is printed as its whole text.
#[derive(Clone, Copy, Debug)]
pub struct Report<'a> {
    /// Of each machine the words behind its number, as `up 0/1 ssh://m`.
    pub machines: &'a [&'a str],
    /// Of each of the derivations `n0`, `n1` .., of five at most, its word, as `leased`.
    pub drvs: &'a [&'a str],
}

impl Report<'_> {
    /// How many derivations have this word.
    fn count(&self, status: &str) -> usize {
        self.drvs.iter().filter(|word| **word == status).count()
    }
}

impl fmt::Display for Report<'_> {
    fn fmt<W: fmt::Write>(&self, f: &mut fmt::Formatter<W>) -> fmt::Result {
        let total = self.drvs.len();
        writeln!(f, "total {total}")?;
        for status in STATUSES {
            let count = self.count(status);
            writeln!(f, "{status} {count}")?;
        }
        for (number, words) in self.machines.iter().enumerate() {
            writeln!(f, "machine {number} {words}")?;
        }
        for (number, (status, path)) in self.drvs.iter().zip(DRVS).enumerate() {
            writeln!(f, "drv {number} {status} {path}")?;
        }
        Ok(())
    }
}
