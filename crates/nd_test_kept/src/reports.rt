//! Reports of journals, and audits of them.

use nd_devices::Told;
use nd_kept_run::{audit_journal_engine, report_engine};
use nd_serve_command::{ServeFault, journal_bytes};
use nd_test_fixtures::bundles::PLAIN_2;
use nd_test_fixtures::devices::CountedReader;
use nd_test_fixtures::places::{NOWHERE, Place, options};
use nd_test_fixtures::printing::is_printed;
use nd_test_fixtures::reports::Report;
use std::alloc::Global;
use std::thread::Threads;

/// Two derivations, and a builder with two slots.
const PLACE: Place<'static> = Place {
    bundle: PLAIN_2,
    builders: "m - - 2",
    ..NOWHERE
};

/// The report behind one start.
const ONE_STARTED: Report<'static> = Report {
    machines: &["up 0/0 local", "up 1/2 ssh://m"],
    drvs: &["leased", "waiting"],
};

/// The report of no entries.
const NONE_YET: Report<'static> = Report {
    machines: &["up 0/0 local", "up 0/2 ssh://m"],
    drvs: &["waiting", "waiting"],
};

/// What `report` writes of a journal with these bytes.
fn report<R: Threads + Sync>(rt: &R, alloc: Global, journal: &[u8]) -> Result<Vec<u8>, ServeFault> {
    let options = options(alloc, &PLACE);
    let mut input = Told::new(PLACE.bundle.as_bytes());
    let mut output = Told::new(Vec::new(alloc));
    let answer = report_engine(rt, alloc, &options, journal, &mut input, &mut output);
    drop(options);
    match answer {
        Ok(_) => Ok(output.into_inner()),
        Err(fault) => Err(fault),
    }
}

/// Whether this is the report. Want of memory is a no.
fn is_report(alloc: Global, answer: Result<Vec<u8>, ServeFault>, wanted: &Report<'_>) -> bool {
    match (answer, format!(in alloc; "{wanted}")) {
        (Ok(text), Ok(wanted)) => text.as_slice() == wanted.as_bytes(),
        _ => false,
    }
}

/// Whether this answer is a refusal with status 3 and this line.
fn is_refused(alloc: Global, answer: Result<Vec<u8>, ServeFault>, line: &str) -> bool {
    match answer {
        Ok(_) => false,
        Err(fault) => fault.status() == 3 && is_printed(alloc, &fault, line),
    }
}

/// What `audit` writes of a journal with these bytes.
fn audit<R: Threads + Sync>(rt: &R, alloc: Global, journal: &[u8]) -> Result<Vec<u8>, ServeFault> {
    let options = options(alloc, &PLACE);
    let mut input = Told::new(PLACE.bundle.as_bytes());
    let mut output = Told::new(Vec::new(alloc));
    let answer = audit_journal_engine(rt, alloc, &options, journal, &mut input, &mut output);
    drop(options);
    match answer {
        Ok(_) => Ok(output.into_inner()),
        Err(fault) => Err(fault),
    }
}

/// Whether `audit` writes this line of the history that a journal with these bytes tells.
fn audits<R: Threads + Sync>(rt: &R, alloc: Global, journal: &[u8], verdict: &str) -> bool {
    match audit(rt, alloc, journal) {
        Ok(text) => text.as_slice() == verdict.as_bytes(),
        Err(_) => false,
    }
}

/// A journal whose last line isn't finished is reported up to that line, and one without a line has no entries.
#[test]
fn reports_of_whole_lines(rt: HostRuntime) {
    for (journal, wanted) in [
        (
            "nix-dispatch-history 2\nchosen 0 1 0\nstarted 0\nbuilt 0",
            ONE_STARTED,
        ),
        ("nix-disp", NONE_YET),
        ("", NONE_YET),
    ] {
        let answer = report(&rt, rt.alloc(), journal.as_bytes());
        assert!(rt; is_report(rt.alloc(), answer, &wanted));
    }
}

/// An entry that isn't allowed.
#[test]
fn illegal_journal(rt: HostRuntime) {
    let answer = report(&rt, rt.alloc(), b"nix-dispatch-history 2\nstarted 0\n");
    let line = "nix-dispatch: journal: Illegal 0 Live";
    assert!(rt; is_refused(rt.alloc(), answer, line));
}

/// A line that is none, whether it is a whole one or not. A report and an audit are refused alike.
#[test]
fn refused_journals(rt: HostRuntime) {
    let alloc = rt.alloc();
    for (journal, line) in [
        (
            "nix-dispatch-history 1\n",
            "nix-dispatch: journal: BadLine 1",
        ),
        (
            "nix-dispatch-history 1\nchosen 0 1 0\nst",
            "nix-dispatch: journal: BadLine 1",
        ),
        (
            "line without newline, my notes",
            "nix-dispatch: journal: BadLine 1",
        ),
        ("nix-dispatch-history 1", "nix-dispatch: journal: BadLine 1"),
        ("chosen", "nix-dispatch: journal: BadLine 1"),
        ("\n", "nix-dispatch: journal: BadLine 1"),
        (
            "nix-dispatch-history 2\nmy notes",
            "nix-dispatch: journal: BadLine 2",
        ),
        (
            "nix-dispatch-history 2\nchosen 0 1 0\nstop ",
            "nix-dispatch: journal: BadLine 3",
        ),
        (
            "nix-dispatch-history 2\nchosen 0 1 0\nchosen, my notes",
            "nix-dispatch: journal: BadLine 3",
        ),
        (
            "nix-dispatch-history 2\nchosen 0 1 0\ndown 0000000000000",
            "nix-dispatch: journal: BadLine 3",
        ),
        (
            "nix-dispatch-history 2\nbuilt\nmy notes",
            "nix-dispatch: journal: BadLine 2",
        ),
    ] {
        let journal = journal.as_bytes();
        assert!(rt; is_refused(alloc, report(&rt, alloc, journal), line));
        assert!(rt; is_refused(alloc, audit(&rt, alloc, journal), line));
    }
}

/// A refused read is told as the journal's failure, with status 5, and marks the reader.
#[test]
fn unread_journal(rt: HostRuntime) {
    let alloc = rt.alloc();
    let mut input = Told::new(CountedReader::new(b"nix", 1, 2));
    match journal_bytes(alloc, &mut input) {
        Ok(_) => assert!(rt; false),
        Err(fault) => {
            assert!(rt; fault.status() == 5);
            assert!(rt; is_printed(alloc, &fault, "nix-dispatch: journal failed"));
        }
    }
    assert!(rt; input.marked());
}

/// An audit of a journal passes over a last line that isn't finished.
#[test]
fn audits_of_whole_lines(rt: HostRuntime) {
    for (journal, verdict) in [
        ("nix-dispatch-history 2\nchosen 0 1 0\nstart", "legal 1\n"),
        ("nix", "legal 0\n"),
        ("nix-dispatch-history 2\nstarted 0\nst", "illegal 0 Live\n"),
    ] {
        assert!(rt; audits(&rt, rt.alloc(), journal.as_bytes(), verdict));
    }
}
