//! The references that builds reported and may not have, and whether workers noted the same.

ghost use Rattle.std.specs.Prelude.{◌≡◌, ◌↔◌, ◌⊎◌, ℕ, IsTrue, OnOk, OnErr, option_copied, true, false};
ghost use Rattle.std.specs.List.{AllZip};
ghost use Rattle.nd_receipts.specs.Judged.{refused_at, HasNone, HasKept, KeepsSame, IsJudgedIn};

use crate::receipt::Receipt;
use nd_closure::Refs;
use nd_history::{Entry, Why};
use nd_path::PathSet;
use std::alloc::{AllocError, Global};
use std::collections::BTreeMap;

/// The references that builds reported and that they may not have, by the place in the history of the failure
/// that says so. Whoever judges a report keeps it here, beside the entry.
#[derive(Drop, Debug)]
pub struct Misreports {
    pub(crate) known: BTreeMap<usize, Refs>,
}

impl Misreports {
    /// None. It takes no memory.
    pub fn new(alloc: Global) -> Misreports
        ensures { HasNone result }
    {
        Misreports {
            known: BTreeMap::new(alloc),
        }
    }

    /// Keeps the references that the build of the entry at this place reported. Where memory is refused nothing
    /// changes.
    #[tactic(auto, using(crate::proofs::Misreporting::kept, crate::proofs::Misreporting::unkept))]
    pub fn keep(&mut self, index: usize, refs: Refs) -> Result<(), AllocError>
        ensures kept { OnOk result (HasKept self.old self.new index refs) }
        ensures refused { OnErr result (KeepsSame self.old self.new) }
    {
        let _replaced = self.known.insert(index, refs)?;
        Ok(())
    }

    /// The references that were reported for the entry at this place, if it is a failure for them.
    pub fn at(&self, index: usize) -> Option<&Refs>
        ensures { option_copied result ≡ refused_at self.now index }
    {
        self.known.get(&index)
    }
}

/// Whether the two sets are the same.
fn is_same_set(set: &PathSet, other: &PathSet) -> bool
    ensures { IsTrue result ↔ (set.now ≡ other.now) }
{
    set == other
}

/// Whether these sets are the same, one by one.
#[tactic(auto, using(nd_history::proofs::Alike::same_on, nd_history::proofs::Alike::apart_at, nd_history::proofs::Alike::same_whole))]
fn are_same_sets(sets: &[PathSet], others: &[PathSet]) -> bool
    ensures { IsTrue result ↔ (sets.now ≡ others.now) }
{
    if sets.len() != others.len() {
        return false;
    }
    for i in 0..sets.len() {
        if !is_same_set(&sets[i], &others[i]) {
            return false;
        }
    }
    true
}

/// Whether the receipt of a failure for wrong references has those that were judged, for the entry at its place.
fn is_judged(misreports: &Misreports, receipt: &Receipt, copy: &Entry) -> bool
    ensures judged { result ≡ true → IsJudgedIn misreports.now receipt.now copy.now }
    ensures unlike { result ≡ false → IsJudgedIn misreports.now receipt.now copy.now → ⊥ }
{
    match copy {
        Entry::Failed { why, .. } => {
            if *why != Why::BadReferences {
                return true;
            }
            has_refused(misreports, receipt)
        }
        _ => true,
    }
}

/// Whether the references of the receipt are those that were judged for the entry at its place.
fn has_refused(misreports: &Misreports, receipt: &Receipt) -> bool
    ensures { IsTrue result ↔ (refused_at misreports.now receipt.now.index ≡ Some receipt.now.refs) }
{
    match misreports.at(receipt.index) {
        Some(refs) => are_same_sets(refs.lists(), receipt.refs.lists()),
        None => false,
    }
}

/// Whether each receipt of a failure for wrong references has those that were judged for the entry at its place.
/// Beside each receipt stands a copy of its entry.
pub fn are_as_judged(misreports: &Misreports, receipts: &[Receipt], copies: &[Entry]) -> bool
    ensures judged { result ≡ true → AllZip (IsJudgedIn misreports.now) receipts.now copies.now }
    ensures unlike { result ≡ false → AllZip (IsJudgedIn misreports.now) receipts.now copies.now → ⊥ }
{
    let mut rest = receipts;
    let mut left = copies;
    'comparing: while let Some((receipt, more)) = rest.split_first() {
        let Some((copy, behind)) = left.split_first() else {
            return false;
        };
        if !is_judged(misreports, receipt, copy) {
            return false;
        }
        rest = more;
        left = behind;
    }
    left.is_empty()
}
