//! Inputs that are cut off.

use crate::tests::running::{Call, Grants, Want, answers_on};
use nd_test_fixtures::bundles::CHAIN;
use nd_test_fixtures::histories::{STORED, VERSION_1};
use nd_test_fixtures::places::park;
use std::alloc::Global;
use std::thread::Threads;

/// Whether a command over this bundle answers so.
fn gives<R: Threads + Sync>(
    rt: &R,
    alloc: Global,
    bundle: &[u8],
    call: Call<'_>,
    want: Want<'_>,
) -> bool {
    let place = park("", "m", 0);
    answers_on(rt, alloc, &place, bundle, Grants::ALL, call, want)
}

/// `audit` of a history without entries.
fn of_no_entries() -> Call<'static> {
    Call::Audit(VERSION_1.as_bytes())
}

/// The place of the line behind these, from 0.
fn lines_before(text: &[u8]) -> usize {
    text.iter().filter(|byte| **byte == b'\n').count()
}

/// Whether `sim` and `audit` refuse this bundle for its line at a place, as one that is no line of a
/// bundle or whose text is no derivation's. Want of memory is a no.
fn is_bad_bundle<R: Threads + Sync>(rt: &R, alloc: Global, bundle: &[u8], place: usize) -> bool {
    let number = place.saturating_add(1);
    let Ok(as_line) = format!(in alloc; "nix-dispatch: drvs: BadLine {number}") else {
        return false;
    };
    let Ok(as_text) = format!(in alloc; "nix-dispatch: drvs: BadDerivation {number}") else {
        return false;
    };
    is_refused(rt, alloc, bundle, as_line.as_str())
        || is_refused(rt, alloc, bundle, as_text.as_str())
}

/// Whether `sim` and `audit` refuse this bundle with this line.
fn is_refused<R: Threads + Sync>(rt: &R, alloc: Global, bundle: &[u8], line: &str) -> bool {
    gives(rt, alloc, bundle, Call::Sim(b""), Want::Refused(line))
        && gives(rt, alloc, bundle, of_no_entries(), Want::Refused(line))
}

/// Whether the front of the bundle is accepted where it ends with a line, or lacks only its newline,
/// and else refused for the line that is cut.
fn is_cut_bundle<R: Threads + Sync>(rt: &R, alloc: Global, front: &[u8], next: u8) -> bool {
    if front.is_empty() || front.ends_with(b"\n") || next == b'\n' {
        let legal = Want::Written("legal 0\n", 0);
        return gives(rt, alloc, front, of_no_entries(), legal);
    }
    is_bad_bundle(rt, alloc, front, lines_before(front))
}

/// Whether it is so of each front of the stored run's bundle.
fn are_cut_bundles<R: Threads + Sync>(rt: &R, alloc: Global) -> bool {
    let bundle = CHAIN.as_bytes();
    for length in 0..bundle.len() {
        if !is_cut_bundle(rt, alloc, &bundle[..length], bundle[length]) {
            return false;
        }
    }
    true
}

#[test]
fn bundles_cut_off(rt: HostRuntime) {
    assert!(rt; are_cut_bundles(&rt, rt.alloc()));
}

/// Whether the front of a history is refused for its version within its first line, and legal where it
/// ends with a line, and else refused for the line that is cut.
fn is_cut_history<R: Threads + Sync>(rt: &R, alloc: Global, front: &[u8]) -> bool {
    let Some(entries) = lines_before(front).checked_sub(1) else {
        return is_audited(
            rt,
            alloc,
            front,
            Want::Refused("nix-dispatch: history: Version"),
        );
    };
    if front.ends_with(b"\n") {
        return match format!(in alloc; "legal {entries}\n") {
            Ok(line) => is_audited(rt, alloc, front, Want::Written(line.as_str(), 0)),
            Err(_) => false,
        };
    }
    let number = entries.saturating_add(2);
    match format!(in alloc; "nix-dispatch: history: BadLine {number}") {
        Ok(line) => is_audited(rt, alloc, front, Want::Refused(line.as_str())),
        Err(_) => false,
    }
}

/// Whether `audit` answers so for the stored run's bundle and a history.
fn is_audited<R: Threads + Sync>(rt: &R, alloc: Global, history: &[u8], want: Want) -> bool {
    gives(rt, alloc, CHAIN.as_bytes(), Call::Audit(history), want)
}

/// Whether it is so of each front of the stored run's history.
fn are_cut_histories<R: Threads + Sync>(rt: &R, alloc: Global) -> bool {
    let history = STORED.as_bytes();
    for length in 0..history.len() {
        if !is_cut_history(rt, alloc, &history[..length]) {
            return false;
        }
    }
    true
}

#[test]
fn histories_cut_off(rt: HostRuntime) {
    assert!(rt; are_cut_histories(&rt, rt.alloc()));
}
