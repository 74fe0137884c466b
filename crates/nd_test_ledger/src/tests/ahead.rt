//! Texts of histories of several pieces, read beside something else and alone.

use crate::tests::texts::{STORED, is_text_of};
use nd_history_ahead::read_ahead;
use nd_history_text::{HistoryError, read_history};
use std::alloc::{AllocError, Global};
use std::sync::atomic::AtomicBool;

/// Some entries, without the line that a text begins with.
const LINES: &[u8] =
    b"chosen 0 1 0\nstarted 0 /nix/store/pppppppppppppppppppppppppppppppp-s1\nbuilt 0 o\nnobuilder 4294967295\nbuilt 3 o /nix/store/pppppppppppppppppppppppppppppppp-s1 /nix/store/qqqqqqqqqqqqqqqqqqqqqqqqqqqqqqqq-s2 o\nfailed 0 status 255\nstop\n";

/// A text of so many times these entries, which have 232 bytes.
fn repeated(alloc: Global, times: usize) -> Result<Vec<u8>, AllocError> {
    let mut text = Vec::new(alloc);
    text.extend_from_slice(b"nix-dispatch-history 1\n")?;
    for _ in 0..times {
        text.extend_from_slice(LINES)?;
    }
    Ok(text)
}

/// Whether all of the text is read, to the entries that are written as it stands.
fn is_read_whole(alloc: Global, text: &[u8]) -> bool {
    match read_ahead(alloc, text, &AtomicBool::new(false)) {
        Some(Ok(entries)) => {
            let is = is_text_of(alloc, entries.as_slice(), text);
            drop(entries);
            is
        }
        _ => false,
    }
}

/// The refusal of a text that is read alone; want of memory, and a text that is read, have none.
fn refusal(alloc: Global, text: &[u8]) -> Option<HistoryError> {
    match read_history(alloc, text) {
        Ok(_) | Err(HistoryError::Memory) => None,
        Err(fault) => Some(fault),
    }
}

/// Whether the text is refused as it is when it is read alone.
fn is_refused_alike(alloc: Global, text: &[u8]) -> bool {
    match read_ahead(alloc, text, &AtomicBool::new(false)) {
        Some(Err(fault)) => refusal(alloc, text) == Some(fault),
        _ => false,
    }
}

/// Whether such a text is refused alike with this byte at this place.
fn is_refused_with(alloc: Global, times: usize, place: usize, byte: u8) -> bool {
    let Ok(mut text) = repeated(alloc, times) else {
        return false;
    };
    match text.get_mut(place) {
        Some(there) => *there = byte,
        None => return false,
    }
    is_refused_alike(alloc, text.as_slice())
}

/// Whether such a text is read whole.
fn is_whole(alloc: Global, times: usize) -> bool {
    match repeated(alloc, times) {
        Ok(text) => is_read_whole(alloc, text.as_slice()),
        Err(_) => false,
    }
}

/// Whether such a text is read no further once it is told to stop.
fn is_stopped(alloc: Global, times: usize) -> bool {
    match repeated(alloc, times) {
        Ok(text) => read_ahead(alloc, text.as_slice(), &AtomicBool::new(true)).is_none(),
        Err(_) => false,
    }
}

#[test]
fn read_whole(rt: HostRuntime) {
    // In one piece, in two, and in four.
    for times in [0, 1, 282, 283, 284, 1_000, 12_000] {
        assert!(rt; is_whole(rt.alloc(), times));
    }
}

#[test]
fn refused_alike(rt: HostRuntime) {
    // In the first line, in the first piece, around its end, in the second piece and in the last line.
    for place in [
        0, 22, 23, 1_000, 65_535, 65_536, 65_760, 300_000, 1_200_000, 1_391_999, 1_392_022,
    ] {
        assert!(rt; is_refused_with(rt.alloc(), 6_000, place, b'!'));
        assert!(rt; is_refused_with(rt.alloc(), 6_000, place, b'/'));
    }
}

/// So many bytes of a text, or all of them.
fn front(text: &[u8], most: usize) -> &[u8] {
    &text[..most.min(text.len())]
}

/// Whether such a text is refused alike where it lacks so many bytes at its end.
fn is_refused_without(alloc: Global, times: usize, less: usize) -> bool {
    match repeated(alloc, times) {
        Ok(text) => is_refused_alike(
            alloc,
            front(text.as_slice(), text.len().saturating_sub(less)),
        ),
        Err(_) => false,
    }
}

#[test]
fn cut_anywhere(rt: HostRuntime) {
    // Without its last newline, or with a part of an entry at its end, in the first piece and in the second.
    for less in [1, 2, 4, 7] {
        assert!(rt; is_refused_without(rt.alloc(), 1, less));
        assert!(rt; is_refused_without(rt.alloc(), 283, less));
        assert!(rt; is_refused_without(rt.alloc(), 600, less));
    }
    assert!(rt; is_refused_alike(rt.alloc(), front(STORED, 22)));
    assert!(rt; is_refused_alike(rt.alloc(), front(STORED, 0)));
    assert!(rt; is_read_whole(rt.alloc(), front(STORED, 23)));
}

#[test]
fn stopped(rt: HostRuntime) {
    assert!(rt; is_stopped(rt.alloc(), 300));
    assert!(rt; is_stopped(rt.alloc(), 6_000));
    // The first 64 KiB are read without a look.
    assert!(rt; !is_stopped(rt.alloc(), 200));
}
