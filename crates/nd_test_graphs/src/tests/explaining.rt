//! What is printed of a fault, and what is remembered of a device.

use nd_cli::{CliFault, HistoryTextError};
use nd_explain::{Failure, Heard, Source, entry_of, excerpt, line_of};
use nd_machines::MachineError;
use std::alloc::Global;
use std::fmt;
use std::io::{self, Read, Write};

/// Whether a value is printed so. Want of memory is a no.
fn is_printed<T: fmt::Display>(alloc: Global, value: &T, text: &str) -> bool {
    match format!(in alloc; "{value}") {
        Ok(printed) => printed.as_str() == text,
        Err(_) => false,
    }
}

/// Whether a text is shown so. Want of memory is a no.
fn is_shown(alloc: Global, text: &[u8], shown: &str) -> bool {
    match excerpt(alloc, text) {
        Ok(excerpt) => excerpt.as_str() == shown,
        Err(_) => false,
    }
}

/// Whether this is the piece of a text.
fn is_piece(found: Option<&[u8]>, piece: &[u8]) -> bool {
    match found {
        Some(found) => found == piece,
        None => false,
    }
}

#[test]
fn parts_of_texts(rt: HostRuntime) {
    assert!(rt; is_piece(line_of(b"a\n\nb", 2), b""));
    assert!(rt; is_piece(line_of(b"a\n\nb", 3), b"b"));
    assert!(rt; line_of(b"a\nb\n", 3).is_none());
    assert!(rt; is_piece(entry_of(b"a # c;\n ;;b d\n;e", 2), b"b d"));
    assert!(rt; is_piece(entry_of(b"a # c;\n ;;b d\n;e", 3), b"e"));
    assert!(rt; entry_of(b"a # c;\n ;;b d\n;e", 4).is_none());
}

#[test]
fn shown_texts(rt: HostRuntime) {
    let alloc = rt.alloc();
    assert!(rt; is_shown(alloc, b"a \\ \"\t\x7f\xe4~", "a \\ \"\\x09\\x7f\\xe4~"));
    assert!(rt; is_shown(alloc, &[b'0'; 200], ZEROS));
}

/// Two hundred zeros.
const ZEROS: &str = "00000000000000000000000000000000000000000000000000\
00000000000000000000000000000000000000000000000000\
00000000000000000000000000000000000000000000000000\
00000000000000000000000000000000000000000000000000";

#[test]
fn lines_of_failures(rt: HostRuntime) {
    let alloc = rt.alloc();
    assert!(rt; is_entry_told(alloc));
    assert!(rt; is_version_told(alloc));
    assert!(rt; is_device_told(alloc));
}

/// The refused entry of a builders list on the command line.
fn is_entry_told(alloc: Global) -> bool {
    let fault = CliFault::Builders(MachineError::Uri(2));
    let failure = Failure::of_text(alloc, fault, Source::Value("builders"), b"a;- x");
    let text = "where: --builders, entry 2\ntext: - x\n\
cause: the first field of the entry, its URI, is -\ncure: begin the entry with the URI of the builder";
    is_printed(alloc, &failure, text)
}

/// The refused first line of a history text whose text isn't at hand.
fn is_version_told(alloc: Global) -> bool {
    let fault = CliFault::History(HistoryTextError::Version);
    let source = Source::File {
        option: "history",
        name: "h",
    };
    let text = "where: --history, file h, line 1\n\
cause: the text doesn't begin with the line of a version\n\
cure: begin with the line nix-dispatch-history 1 or nix-dispatch-history 2";
    is_printed(alloc, &Failure::at(fault, source, None), text)
}

/// A refused write.
fn is_device_told(alloc: Global) -> bool {
    let refusal = io::Error::new(io::ErrorKind::Other, "no room");
    let text = "where: standard output\nsystem: no room\n\
cause: a write to standard output was refused\ncure: look at what the system says of it";
    let failure = Failure::at(CliFault::Write, Source::Output, Some(refusal));
    is_printed(alloc, &failure, text)
}

/// A reader and writer that gives one byte, takes all, and refuses every other call.
#[derive(Drop)]
struct Faulty {
    good: bool,
}

impl Read for Faulty {
    fn read(&mut self, room: &mut [u8]) -> io::Result<usize> {
        match room.first_mut() {
            Some(place) if self.good => {
                *place = b'x';
                self.good = false;
                Ok(1)
            }
            _ => Err(io::Error::from(io::ErrorKind::TimedOut)),
        }
    }
}

impl Write for Faulty {
    fn write(&mut self, text: &[u8]) -> io::Result<usize> {
        Ok(text.len())
    }

    fn flush(&mut self) -> io::Result<()> {
        Err(io::Error::from(io::ErrorKind::TimedOut))
    }
}

/// Whether a device is remembered to have refused a call for this cause.
fn is_refused<T>(device: &Heard<T>) -> bool {
    match device.refusal() {
        Some(refusal) => refusal.kind() == io::ErrorKind::TimedOut,
        None => false,
    }
}

#[test]
fn heard_devices(rt: HostRuntime) {
    let mut room = [0; 4];
    let mut input = Heard::with_copy(rt.alloc(), Faulty { good: true });
    assert!(rt; input.read(&mut room).is_ok() && !is_refused(&input));
    assert!(rt; input.read(&mut room).is_err() && is_refused(&input));
    assert!(rt; is_piece(input.copy(), b"x"));
    let mut output = Heard::new(Faulty { good: true });
    assert!(rt; output.write(b"x").is_ok() && !is_refused(&output));
    assert!(rt; output.flush().is_err() && is_refused(&output));
    assert!(rt; output.copy().is_none());
}
