//! Writers that refuse a write.

use crate::tests::replaying::replayed;
use crate::tests::reports::STORED_REPORT;
use crate::tests::texts::STORED;
use nd_devices::{Told, WriteError};
use nd_history::Entry;
use nd_history_text::{read_history, write_history};
use nd_ledger::Dispatch;
use nd_report::write_report;
use nd_test_fixtures::bundles::CHAIN;
use nd_test_fixtures::devices::CountedWriter;
use nd_test_fixtures::parks::{builders_alone, close};
use std::alloc::Global;

/// A writer that takes at most 100 bytes at a time, and refuses after `left` writes.
fn failing_after(alloc: Global, left: usize) -> Told<CountedWriter> {
    Told::new(CountedWriter::new(alloc, 100, left, false))
}

/// Whether a writer took this part of a text and no more, and was marked.
fn took(out: Told<CountedWriter>, text: &[u8], part: usize) -> bool {
    let marked = out.marked();
    let writer = out.into_inner();
    marked && writer.bytes().len() == part && text.starts_with(writer.bytes())
}

/// Whether the history is refused after so many writes of 100 bytes, which are out.
fn breaks_history(alloc: Global, entries: &[Entry], left: usize) -> bool {
    let mut out = failing_after(alloc, left);
    match write_history(entries, &mut out) {
        Err(WriteError::Write) => took(out, STORED, left.saturating_mul(100)),
        Ok(()) => false,
    }
}

/// Whether the stored history is refused after so many writes.
fn breaks_stored(alloc: Global, left: usize) -> bool {
    match read_history(alloc, STORED) {
        Ok(entries) => {
            let breaks = breaks_history(alloc, entries.as_slice(), left);
            drop(entries);
            breaks
        }
        Err(_) => false,
    }
}

/// Whether the report is refused after so many writes of 100 bytes, which are out.
fn breaks_report(alloc: Global, dispatch: &Dispatch, left: usize) -> bool {
    let mut out = failing_after(alloc, left);
    match write_report(dispatch, &mut out) {
        Err(WriteError::Write) => took(out, STORED_REPORT, left.saturating_mul(100)),
        Ok(()) => false,
    }
}

/// Whether the stored run's report is refused after so many writes.
fn breaks_stored_report(alloc: Global, left: usize) -> bool {
    match replayed(alloc, &builders_alone(CHAIN, "m"), STORED) {
        Some(dispatch) => {
            let breaks = breaks_report(alloc, &dispatch, left);
            close(dispatch);
            breaks
        }
        None => false,
    }
}

#[test]
fn history_refused(rt: HostRuntime) {
    // The text has 169 bytes.
    for left in 0..2 {
        assert!(rt; breaks_stored(rt.alloc(), left));
    }
    assert!(rt; !breaks_stored(rt.alloc(), 2));
}

#[test]
fn report_refused(rt: HostRuntime) {
    // The text has 293 bytes.
    for left in 0..3 {
        assert!(rt; breaks_stored_report(rt.alloc(), left));
    }
    assert!(rt; !breaks_stored_report(rt.alloc(), 3));
}
