//! Whether the entries of a history are those that workers noted.

ghost use Rattle.std.specs.Prelude.{◌≡◌, reverse, true, false};
ghost use Rattle.std.specs.List.{AllZip, list_any, list_all};
ghost use Rattle.nd_history.specs.History.{is_started, is_stop};
ghost use Rattle.nd_receipts.specs.Made.{made, is_made, is_quiet};
ghost use Rattle.nd_receipts.specs.Noted.{TellsStart, IsNotedBy};
ghost use Rattle.nd_receipts.specs.Standing.{ends_one, is_flagged};

use crate::receipt::Receipt;
use crate::standing::{Standing, start_said};
use nd_history::{Entry, Why, is_same_entry};

/// Whether the derivation was started since its last choice among these entries.
#[tactic(auto, using(crate::proofs::Starts::starts))]
pub fn is_started(past: &[Entry], drv: u32) -> bool
    ensures { result ≡ is_started drv (reverse past.now) }
{
    let mut rest = past;
    'searching: while let Some((entry, earlier)) = rest.split_last() {
        if let Some((about, started)) = start_said(entry) {
            if drv == about {
                return started;
            }
        }
        rest = earlier;
    }
    false
}

/// Whether the receipt of a failure for want of memory tells of its lease's start what these entries before
/// it do: one call, the build, stands behind it exactly where the lease was started. Of a lease that was
/// started before the run nothing is asked.
fn tells_start(past: &[Entry], receipt: &Receipt, copy: &Entry) -> bool
    ensures told { result ≡ true → TellsStart past.now receipt.now copy.now }
    ensures untold { result ≡ false → TellsStart past.now receipt.now copy.now → ⊥ }
{
    if receipt.again {
        return true;
    }
    match copy {
        Entry::Failed { drv, why } => {
            if *why != Why::Memory {
                return true;
            }
            (receipt.calls == 1) == is_started(past, *drv)
        }
        _ => true,
    }
}

/// Whether the entry is the end of a lease of a derivation that was being built.
fn ends_one(standing: &Standing, entry: &Entry) -> bool
    ensures { result ≡ ends_one (λ d. is_flagged standing.now d) entry.now }
{
    match entry {
        Entry::Down { drv } => standing.is_building(*drv),
        Entry::Built { drv, .. } => standing.is_building(*drv),
        Entry::Failed { drv, .. } => standing.is_building(*drv),
        Entry::Chosen { .. }
        | Entry::NoBuilder { .. }
        | Entry::Started { .. }
        | Entry::Stop
        | Entry::Drain { .. }
        | Entry::Enable { .. } => false,
    }
}

/// Whether the entry that was noted stands where its receipt says, and the receipt tells of its lease's
/// start what stands before it, and what stood before the run.
fn is_at(history: &[Entry], standing: &Standing, receipt: &Receipt, copy: &Entry) -> bool
    ensures noted { result ≡ true → IsNotedBy (λ d. is_flagged standing.now d) history.now receipt.now copy.now }
    ensures unlike { result ≡ false → IsNotedBy (λ d. is_flagged standing.now d) history.now receipt.now copy.now → ⊥ }
{
    let Some(entry) = history.get(receipt.index) else {
        return false;
    };
    if !is_same_entry(entry, copy) {
        return false;
    }
    if receipt.again != ends_one(standing, copy) {
        return false;
    }
    let (past, _) = history.split_at(receipt.index);
    tells_start(past, receipt, copy)
}

/// Whether each receipt names the place of the entry that was noted beside it, those of failures for want of
/// memory tell whether the lease was started, and those say that the lease was started before the run whose
/// entries end a lease of a derivation that was being built then.
pub fn are_as_noted(
    history: &[Entry],
    standing: &Standing,
    receipts: &[Receipt],
    copies: &[Entry],
) -> bool
    ensures noted { result ≡ true → AllZip (IsNotedBy (λ d. is_flagged standing.now d) history.now) receipts.now copies.now }
    ensures unlike { result ≡ false → AllZip (IsNotedBy (λ d. is_flagged standing.now d) history.now) receipts.now copies.now → ⊥ }
{
    let mut rest = receipts;
    let mut left = copies;
    'comparing: while let Some((receipt, more)) = rest.split_first() {
        let Some((copy, behind)) = left.split_first() else {
            return false;
        };
        if !is_at(history, standing, receipt, copy) {
            return false;
        }
        rest = more;
        left = behind;
    }
    left.is_empty()
}

/// Whether a worker makes the entry.
fn is_made(entry: &Entry) -> bool
    ensures { result ≡ is_made entry.now }
{
    match entry {
        Entry::Started { .. } | Entry::Down { .. } | Entry::Built { .. } => true,
        Entry::Failed { why, .. } => *why != Why::NoWorker,
        _ => false,
    }
}

/// How many of these entries workers made.
pub fn count_made(history: &[Entry]) -> usize
    ensures { result ≡ made history.now }
{
    history.iter().filter(|entry| is_made(entry)).count()
}

/// Whether the entry says that no further lease is made.
fn is_stop(entry: &Entry) -> bool
    ensures { result ≡ is_stop entry.now }
{
    match entry {
        Entry::Stop => true,
        _ => false,
    }
}

/// Whether a stop is among these entries.
pub fn has_stop(history: &[Entry]) -> bool
    ensures { result ≡ list_any is_stop history.now }
{
    history.iter().any(|entry| is_stop(entry))
}

/// Whether the entry says neither that no further lease is made nor that no worker serves a lease, and
/// neither drains nor enables a machine.
fn is_quiet_entry(entry: &Entry) -> bool
    ensures { result ≡ is_quiet entry.now }
{
    match entry {
        Entry::Stop => false,
        Entry::Drain { .. } | Entry::Enable { .. } => false,
        Entry::Failed { why, .. } => *why != Why::NoWorker,
        _ => true,
    }
}

/// Whether none of these entries is a stop, the failure of a lease that no worker served, a drain or an
/// enable.
pub fn is_quiet(history: &[Entry]) -> bool
    ensures { result ≡ list_all is_quiet history.now }
{
    history.iter().all(|entry| is_quiet_entry(entry))
}
