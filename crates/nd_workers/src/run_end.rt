//! How a run ends, or why it was refused.

use crate::seat::Seat;
use nd_history::Entry;
use nd_keeping::{Front, Journal, Scribe};
use nd_ledger::Dispatch;
use nd_receipts::{Misreports, Receipt};

/// Why a run was refused: the first cause that stands, but `Memory` may come at any point.
#[derive(Clone, Copy, Debug, PartialEq, Eq)]
pub enum RunError {
    /// 1: there isn't exactly one worker for each slot of the park.
    Slots,
    /// 2: there are more than 1,024 slots.
    TooManySlots,
    /// 3: an allocation was refused.
    Memory,
}

/// What a run may end with: the first of `Receipts`, `Journal`, `Thread` and `Memory` whose cause stands, and none where
/// none does.
#[derive(Clone, Copy, Debug, PartialEq, Eq)]
pub enum RunFault {
    /// 1: a worker had no thread. A stop is in the history; leases may have failed for want of a worker. The calls
    /// and the receipts are as without a fault.
    Thread,
    /// 2: each worker had a thread, and the run was stopped all the same, as it is where memory is refused for
    /// choices or for receipts. A stop is in the history; leases may have failed for want of a worker. The calls
    /// and the receipts are as without a fault.
    Memory,
    /// 3: what came back of the run isn't what its history says. Something waits or is leased still; or an entry
    /// of a worker's own was refused; or a receipt names another entry than its worker noted, or has other
    /// references than those that were refused; or the receipts aren't the entries that workers made, each of the
    /// worker on its lease's place; or a worker had no thread, or the journal doesn't hold the whole history, and no
    /// stop is in the history.
    Receipts,
    /// 4: the run has a journal, and it doesn't hold the whole history: it refused an append or a sync, or its
    /// scribe had no memory or no thread. A stop is in the history. Nothing was begun behind an entry that isn't
    /// durable: a lease whose next step waited for one failed for want of a worker. The calls and the receipts are
    /// as without a fault.
    Journal,
}

/// A run that was refused, with what was handed in.
#[derive(Drop)]
pub struct NotRun<T> {
    /// Why it was refused.
    pub why: RunError,
    /// The dispatch.
    pub dispatch: Dispatch,
    /// The workers.
    pub workers: Vec<Seat<T>>,
}

/// What a run's end is compared with its history by, beside the receipts.
#[derive(Drop)]
pub struct Evidence {
    /// Beside each worker's receipts its own copies of their entries, in the order of the workers.
    pub copies: Vec<Vec<Entry>>,
    /// The references that builds reported and that they may not have, by their entries' places in the history.
    pub misreports: Misreports,
    /// Whether an entry of a worker's own was refused, after which it left.
    pub refused: bool,
    /// How many of the workers had a thread.
    pub threads: usize,
    /// Whether the run's journal took the whole history, where it has one; else it is set.
    pub kept: bool,
    /// The entries that the run handed to its scribe: the first ones of the history.
    pub handed: Front,
}

/// The end of a run.
#[derive(Drop)]
pub struct Ran<T> {
    /// The dispatch.
    pub dispatch: Dispatch,
    /// Workers on the places of those that were handed in, in their order.
    pub workers: Vec<Seat<T>>,
    /// Each worker's receipts, in the order of the workers.
    pub receipts: Vec<Vec<Receipt>>,
    /// What the fault, or that there is none, goes by.
    pub evidence: Evidence,
    /// What the run ended with, if it isn't as it should be.
    pub fault: Option<RunFault>,
}

/// The end of a run that keeps its history in a journal.
#[derive(Drop)]
pub struct Written<T, J: Journal> {
    /// The run.
    pub run: Ran<T>,
    /// The scribe with the journal.
    pub scribe: Scribe<J>,
}

/// A run with a journal that was refused, with what was handed in.
#[derive(Drop)]
pub struct NotWritten<T, J: Journal> {
    /// Why, and the dispatch and the workers.
    pub run: NotRun<T>,
    /// The scribe with the journal, of which nothing was changed.
    pub scribe: Scribe<J>,
}
