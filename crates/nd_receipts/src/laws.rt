//! What rows of receipts mean that are the entries of a run. Each function does nothing, and its
//! contract is the law.

ghost use Rattle.nd_receipts.specs.Meaning.{RowsRise, ReceiptsName, NumbersAreOnce, EntriesHaveReceipts};

/// The numbers rise in each row.
#[tactic(auto, using(crate::proofs::Meanings::rows_rise))]
pub fn rows_rise()
    ensures { RowsRise }
{}

/// Each receipt names an entry of its kind whose lease is on the place of the receipt's row.
#[tactic(auto, using(crate::proofs::Meanings::receipts_name))]
pub fn receipts_name()
    ensures { ReceiptsName }
{}

/// A number stands once in all rows, where no two workers are on one place.
#[tactic(auto, using(crate::proofs::Meanings::numbers_are_once))]
pub fn numbers_are_once()
    ensures { NumbersAreOnce }
{}

/// Each entry that a worker made has a receipt, with the entry's number and kind.
#[tactic(auto, using(crate::proofs::Meanings::entries_have_receipts))]
pub fn entries_have_receipts()
    ensures { EntriesHaveReceipts }
{}
