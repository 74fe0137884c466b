//! Whether what several workers noted is what a history, and the references that were refused, say.

ghost use Rattle.std.specs.Prelude.{◌≡◌, ◌≤◌, length, take, true, false};
ghost use Rattle.nd_receipts.specs.Judged.{AreRowsJudged};
ghost use Rattle.nd_receipts.specs.Noted.{AreRowsNoted, AreRowsNotedBy};
ghost use Rattle.nd_receipts.specs.Standing.{IsIdle, is_flagged};
ghost use Rattle.nd_receipts.specs.Walks.{AreWithin};

use crate::comparing::are_as_noted;
use crate::judging::{Misreports, are_as_judged};
use crate::receipt::Receipt;
use crate::standing::{Standing, stand_behind};
use nd_history::Entry;

/// Whether the receipts of each worker name the entries that stand beside them in its copies, as
/// [`are_as_noted`](crate::are_as_noted) says of one, of a run that began behind the first `opened` entries.
/// The flags have a place for each derivation that was leased before.
#[tactic(auto, using(crate::proofs::Calls::tellings))]
pub fn are_rows_noted(
    history: &[Entry],
    opened: usize,
    standing: Standing,
    rows: &[Vec<Receipt>],
    copies: &[Vec<Entry>],
) -> bool
    requires long { opened ≤ length history.now }
    requires idle { IsIdle standing }
    requires within { AreWithin (length standing.leased.items) (take opened history.now) }
    ensures noted { result ≡ true → AreRowsNoted opened history.now rows.now copies.now }
    ensures unlike { result ≡ false → AreRowsNoted opened history.now rows.now copies.now → ⊥ }
{
    let (old, _) = history.split_at(opened);
    let standing = stand_behind(standing, old);
    are_rows_noted_by(history, &standing, rows, copies)
}

/// Whether the receipts of each worker name the entries that stand beside them in its copies, where these
/// derivations were being built before the run.
fn are_rows_noted_by(
    history: &[Entry],
    standing: &Standing,
    rows: &[Vec<Receipt>],
    copies: &[Vec<Entry>],
) -> bool
    ensures noted { result ≡ true → AreRowsNotedBy (λ d. is_flagged standing.now d) history.now rows.now copies.now }
    ensures unlike { result ≡ false → AreRowsNotedBy (λ d. is_flagged standing.now d) history.now rows.now copies.now → ⊥ }
{
    let mut rest = rows;
    let mut left = copies;
    'comparing: while let Some((row, more)) = rest.split_first() {
        let Some((beside, behind)) = left.split_first() else {
            return false;
        };
        if !are_as_noted(history, standing, row.as_slice(), beside.as_slice()) {
            return false;
        }
        rest = more;
        left = behind;
    }
    left.is_empty()
}

/// Whether the receipts of each worker have the references that were refused, as
/// [`are_as_judged`](crate::are_as_judged) says of one.
pub fn are_rows_judged(
    misreports: &Misreports,
    rows: &[Vec<Receipt>],
    copies: &[Vec<Entry>],
) -> bool
    ensures judged { result ≡ true → AreRowsJudged misreports.now rows.now copies.now }
    ensures unlike { result ≡ false → AreRowsJudged misreports.now rows.now copies.now → ⊥ }
{
    let mut rest = rows;
    let mut left = copies;
    'comparing: while let Some((row, more)) = rest.split_first() {
        let Some((beside, behind)) = left.split_first() else {
            return false;
        };
        if !are_as_judged(misreports, row.as_slice(), beside.as_slice()) {
            return false;
        }
        rest = more;
        left = behind;
    }
    left.is_empty()
}
