//! Devices that fail, and inputs that are too large.

use crate::tests::asking::{builders, options};
use nd_cli::{CliFault, ParkOptions, ask_engine, path_engine};
use nd_devices::Told;
use nd_test_fixtures::bundles::{N0_LINE, N0_TEXT};
use nd_test_fixtures::devices::{CountedReader, CountedWriter};
use nd_test_fixtures::printing::is_printed;
use std::alloc::Global;
use std::io::{self, Read};
use std::thread::Threads;

/// A reader that gives a byte at a time and grants this number of reads.
fn failing_reader(bytes: &[u8], good: usize) -> CountedReader<'_> {
    CountedReader::new(bytes, 1, good)
}

/// A writer that takes at most 7 bytes at a time, grants this number of writes, and refuses to be
/// flushed or not.
fn failing_writer(alloc: Global, good: usize, refuses_flush: bool) -> CountedWriter {
    CountedWriter::new(alloc, 7, good, refuses_flush)
}

/// A reader that never ends.
#[derive(Drop)]
struct Endless;

impl Read for Endless {
    fn read(&mut self, room: &mut [u8]) -> io::Result<usize> {
        room.fill(b'x');
        Ok(room.len())
    }
}

/// Whether `ask` answers that its reader failed, and writes nothing, where this many reads are good.
fn ask_is_stopped<R: Threads + Sync>(
    rt: &R,
    alloc: Global,
    options: &ParkOptions,
    good: usize,
) -> bool {
    let mut input = Told::new(failing_reader(N0_LINE, good));
    let mut output = Told::new(Vec::new(alloc));
    let answer = ask_engine(rt, alloc, options, &mut input, &mut output);
    matches!(answer, Err(CliFault::Read)) && output.into_inner().is_empty()
}

/// Whether it does so wherever the reader fails. Want of memory is a no.
fn ask_is_always_stopped<R: Threads + Sync>(rt: &R, alloc: Global) -> bool {
    let Ok(options) = options(alloc, builders(b"m")) else {
        return false;
    };
    for good in 0..=N0_LINE.len() {
        if !ask_is_stopped(rt, alloc, &options, good) {
            return false;
        }
    }
    true
}

/// Whether `path` answers that its reader failed, and writes nothing, where this many reads are good.
fn path_is_stopped(alloc: Global, good: usize) -> bool {
    let mut input = Told::new(failing_reader(N0_TEXT, good));
    let mut output = Told::new(Vec::new(alloc));
    let answer = path_engine(alloc, b"n0.drv", &mut input, &mut output);
    matches!(answer, Err(CliFault::Read)) && output.into_inner().is_empty()
}

#[test]
fn failing_readers(rt: HostRuntime) {
    assert!(rt; ask_is_always_stopped(&rt, rt.alloc()));
    for good in 0..=N0_TEXT.len() {
        assert!(rt; path_is_stopped(rt.alloc(), good));
    }
}

/// The replies that are to be written.
const REPLIES: &[u8] = b"# accept\nssh://m\n";

/// Whether this much of the replies is right for this answer, where this many writes are good, and
/// was passed on where all is well.
fn is_part(answer: Result<u8, CliFault>, writer: &CountedWriter, good: usize) -> bool {
    if !REPLIES.starts_with(writer.bytes()) {
        return false;
    }
    match answer {
        Ok(status) => status == 0 && writer.bytes() == REPLIES && writer.is_flushed() && good >= 3,
        Err(fault) => matches!(fault, CliFault::Write) && good < 6,
    }
}

/// Whether `ask` writes the replies, or a part of them where its writer fails. Want of memory is a no.
fn ask_writes<R: Threads + Sync>(rt: &R, alloc: Global, good: usize) -> bool {
    let Ok(options) = options(alloc, builders(b"m")) else {
        return false;
    };
    let mut output = Told::new(failing_writer(alloc, good, false));
    let answer = ask_engine(rt, alloc, &options, &mut Told::new(N0_LINE), &mut output);
    is_part(answer, &output.into_inner(), good)
}

#[test]
fn failing_writers(rt: HostRuntime) {
    for good in 0..6usize {
        assert!(rt; ask_writes(&rt, rt.alloc(), good));
    }
}

/// Whether a command wrote something and passed all of it on, and its status is 0, or where the writer
/// refuses to be flushed answers that it failed.
fn is_flushed(answer: Result<u8, CliFault>, writer: &CountedWriter, refuses_flush: bool) -> bool {
    if writer.bytes().is_empty() {
        return false;
    }
    match answer {
        Ok(status) => status == 0 && !refuses_flush && writer.is_flushed(),
        Err(fault) => matches!(fault, CliFault::Write) && refuses_flush,
    }
}

/// Whether `ask` is flushed, with a writer that refuses that or doesn't. Want of memory is a no.
fn ask_is_flushed<R: Threads + Sync>(rt: &R, alloc: Global, refuses_flush: bool) -> bool {
    let Ok(options) = options(alloc, builders(b"m")) else {
        return false;
    };
    let mut output = Told::new(failing_writer(alloc, 99, refuses_flush));
    let answer = ask_engine(rt, alloc, &options, &mut Told::new(N0_LINE), &mut output);
    is_flushed(answer, &output.into_inner(), refuses_flush)
}

/// Whether `path` is.
fn path_is_flushed(alloc: Global, refuses_flush: bool) -> bool {
    let mut output = Told::new(failing_writer(alloc, 99, refuses_flush));
    let answer = path_engine(alloc, b"n0.drv", &mut Told::new(N0_TEXT), &mut output);
    is_flushed(answer, &output.into_inner(), refuses_flush)
}

#[test]
fn flushed_writers(rt: HostRuntime) {
    for refuses_flush in [false, true] {
        assert!(rt; ask_is_flushed(&rt, rt.alloc(), refuses_flush));
        assert!(rt; path_is_flushed(rt.alloc(), refuses_flush));
    }
}

/// Whether `ask` refuses an input without an end for its size, and writes nothing. Want of memory is a no.
fn ask_ends<R: Threads + Sync>(rt: &R, alloc: Global, options: &ParkOptions) -> bool {
    let mut output = Told::new(Vec::new(alloc));
    match ask_engine(rt, alloc, options, &mut Told::new(Endless), &mut output) {
        Ok(_) => false,
        Err(fault) => {
            output.into_inner().is_empty()
                && is_printed(alloc, &fault, "nix-dispatch: drvs: TooLarge")
        }
    }
}

/// The same with the one builder `m`. Want of memory is a no.
fn ask_ends_on_one<R: Threads + Sync>(rt: &R, alloc: Global) -> bool {
    match options(alloc, builders(b"m")) {
        Ok(options) => ask_ends(rt, alloc, &options),
        Err(_) => false,
    }
}

#[test]
fn endless_input(rt: HostRuntime) {
    assert!(rt; ask_ends_on_one(&rt, rt.alloc()));
}
