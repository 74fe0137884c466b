//! Dispatches with the history of a text, and their reports.

use nd_devices::Told;
use nd_history::Entry;
use nd_history_text::read_history;
use nd_ledger::Dispatch;
use nd_report::write_report;
use nd_test_fixtures::parks::{Park, close, dispatch_of};
use std::alloc::Global;

/// Whether a dispatch admits all of these entries.
fn admits_all(alloc: Global, dispatch: &mut Dispatch, entries: Vec<Entry>) -> bool {
    for entry in entries {
        if dispatch.admit(alloc, entry).is_err() {
            return false;
        }
    }
    true
}

/// Whether a dispatch admits the history of this text.
fn admits_text(alloc: Global, dispatch: &mut Dispatch, text: &[u8]) -> bool {
    match read_history(alloc, text) {
        Ok(entries) => admits_all(alloc, dispatch, entries),
        Err(_) => false,
    }
}

/// A dispatch over a park with the history of this text.
pub(crate) fn replayed(alloc: Global, park: &Park, text: &[u8]) -> Option<Dispatch> {
    match dispatch_of(alloc, park) {
        Ok(mut dispatch) => {
            if admits_text(alloc, &mut dispatch, text) {
                Some(dispatch)
            } else {
                close(dispatch);
                None
            }
        }
        Err(_) => None,
    }
}

/// Whether this is the report of a dispatch.
fn is_report_of(alloc: Global, dispatch: &Dispatch, report: &[u8]) -> bool {
    let mut out = Told::new(Vec::new(alloc));
    match write_report(dispatch, &mut out) {
        Ok(()) => out.into_inner().as_slice() == report,
        Err(_) => false,
    }
}

/// Whether this is the report of a dispatch over a park with the history of this text.
pub(crate) fn reports(alloc: Global, park: &Park, text: &[u8], report: &[u8]) -> bool {
    match replayed(alloc, park, text) {
        Some(dispatch) => {
            let is = is_report_of(alloc, &dispatch, report);
            close(dispatch);
            is
        }
        None => false,
    }
}
