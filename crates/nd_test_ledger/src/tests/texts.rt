//! Texts of histories, by the worked examples.

use nd_devices::Told;
use nd_history::Entry;
use nd_history_text::{HistoryError, read_history, write_history, write_lines};
use std::alloc::Global;

/// The text of the stored run's history.
pub const STORED: &[u8] =
    b"nix-dispatch-history 1\nchosen 0 1 0\nstarted 0 /nix/store/pppppppppppppppppppppppppppppppp-s1\nbuilt 0 o\nchosen 1 1 0\nstarted 1\nbuilt 1 o\nchosen 2 1 0\nstarted 2\nbuilt 2 o\n";

/// A history in which a machine is drained and enabled.
const DRAINED: &[u8] =
    b"nix-dispatch-history 2\nchosen 0 1 0\nchosen 1 2 0\ndrain 1\nstarted 0\nbuilt 0 o\nenable 1\nchosen 2 1 0\ndown 2\nenable 1\nchosen 2 1 0\nstarted 2\nbuilt 2 o\n";

/// Entries of every other kind, under the first version and under the second.
const ENDINGS_AS_FIRST: &[u8] =
    b"nix-dispatch-history 1\nnobuilder 4294967295\nbuilt 7\nbuilt 3 o /nix/store/pppppppppppppppppppppppppppppppp-s1 /nix/store/qqqqqqqqqqqqqqqqqqqqqqqqqqqqqqqq-s2 o\nfailed 0 status 255\nfailed 1 lost\nfailed 2 references\nfailed 3 noworker\nfailed 10 memory\nstop\n";

const ENDINGS_AS_SECOND: &[u8] =
    b"nix-dispatch-history 2\nnobuilder 4294967295\nbuilt 7\nbuilt 3 o /nix/store/pppppppppppppppppppppppppppppppp-s1 /nix/store/qqqqqqqqqqqqqqqqqqqqqqqqqqqqqqqq-s2 o\nfailed 0 status 255\nfailed 1 lost\nfailed 2 references\nfailed 3 noworker\nfailed 10 memory\nstop\n";

/// Whether this is what is written of a history.
pub fn is_text_of(alloc: Global, entries: &[Entry], text: &[u8]) -> bool {
    let mut out = Told::new(Vec::new(alloc));
    match write_history(entries, &mut out) {
        Ok(()) => out.into_inner().as_slice() == text,
        Err(_) => false,
    }
}

/// Whether this is what is written of the history that a text has.
fn is_rewritten(alloc: Global, text: &[u8], again: &[u8]) -> bool {
    match read_history(alloc, text) {
        Ok(entries) => {
            let is = is_text_of(alloc, entries.as_slice(), again);
            drop(entries);
            is
        }
        Err(_) => false,
    }
}

/// Whether these are the lines of a history's entries.
fn are_lines_of(alloc: Global, entries: &[Entry], lines: &[u8]) -> bool {
    let mut out = Told::new(Vec::new(alloc));
    match write_lines(entries, &mut out) {
        Ok(()) => out.into_inner().as_slice() == lines,
        Err(_) => false,
    }
}

/// Whether the lines of the history that a text has are those behind the text's first.
fn has_its_lines(alloc: Global, text: &[u8]) -> bool {
    match read_history(alloc, text) {
        Ok(entries) => {
            let (_, lines) = text.split_at(text.len().min(23));
            let are = are_lines_of(alloc, entries.as_slice(), lines);
            drop(entries);
            are
        }
        Err(_) => false,
    }
}

#[test]
fn written_back(rt: HostRuntime) {
    let alloc = rt.alloc();
    assert!(rt; is_rewritten(alloc, STORED, STORED));
    assert!(rt; is_rewritten(alloc, DRAINED, DRAINED));
    assert!(rt; is_rewritten(alloc, ENDINGS_AS_FIRST, ENDINGS_AS_FIRST));
    // The second version is read without a line of its own too.
    assert!(rt; is_rewritten(alloc, ENDINGS_AS_SECOND, ENDINGS_AS_FIRST));
}

#[test]
fn lines_alone(rt: HostRuntime) {
    assert!(rt; has_its_lines(rt.alloc(), STORED));
    assert!(rt; has_its_lines(rt.alloc(), ENDINGS_AS_FIRST));
}

/// Whether a text of the second version with this line alone is refused for it; want of memory is a no.
fn is_bad(alloc: Global, line: &[u8]) -> bool {
    let mut text = Vec::new(alloc);
    if text.extend_from_slice(b"nix-dispatch-history 2\n").is_err()
        || text.extend_from_slice(line).is_err()
    {
        return false;
    }
    match read_history(alloc, text.as_slice()) {
        Err(HistoryError::BadLine(line)) => line == 2,
        _ => false,
    }
}

#[test]
fn bad_lines(rt: HostRuntime) {
    for line in [
        b"\n".as_slice(),
        b"chosen 0 1\n".as_slice(),
        b"chosen 0 1 0 0\n".as_slice(),
        b"chosen 00 1 0\n".as_slice(),
        b"chosen 0 1 4294967296\n".as_slice(),
        b"chosen  0 1 0\n".as_slice(),
        b"chosen 0 1 0 \n".as_slice(),
        b" stop\n".as_slice(),
        b"stop 0\n".as_slice(),
        b"Stop\n".as_slice(),
        b"stop".as_slice(),
        b"failed 0 status 256\n".as_slice(),
        b"failed 0 lost lost\n".as_slice(),
        b"started 0 o\n".as_slice(),
        b"built 0 /nix/store/pppppppppppppppppppppppppppppppp-s1\n".as_slice(),
        b"started 0 /nix/store/qqqqqqqqqqqqqqqqqqqqqqqqqqqqqqqq-s2 /nix/store/pppppppppppppppppppppppppppppppp-s1\n".as_slice(),
    ] {
        assert!(rt; is_bad(rt.alloc(), line));
    }
}
