//! Readers and writers in memory that fail, or have no end.

use std::alloc::Global;
use std::io::{self, Read, Write};

/// A reader over memory that gives at most `most` bytes at a time, and fails once it has granted a
/// number of reads.
#[derive(Drop)]
pub struct CountedReader<'a> {
    bytes: &'a [u8],
    most: usize,
    good: usize,
}

impl<'a> CountedReader<'a> {
    /// A reader over these bytes that gives so many at a time and grants this number of reads.
    pub fn new(bytes: &'a [u8], most: usize, good: usize) -> Self {
        CountedReader { bytes, most, good }
    }
}

impl Read for CountedReader<'_> {
    fn read(&mut self, room: &mut [u8]) -> io::Result<usize> {
        if self.good == 0 {
            return Err(io::Error::from(io::ErrorKind::Other));
        }
        self.good -= 1;
        let given = self.bytes.len().min(room.len()).min(self.most);
        let (front, rest) = self.bytes.split_at(given);
        room[..given].copy_from_slice(front);
        self.bytes = rest;
        Ok(given)
    }
}

/// A reader that gives the bytes of a text, and behind them one byte for ever.
#[derive(Drop)]
pub struct EndlessReader<'a> {
    bytes: &'a [u8],
    byte: u8,
}

impl<'a> EndlessReader<'a> {
    /// A reader of these bytes, and then of this one without an end.
    pub fn new(bytes: &'a [u8], byte: u8) -> Self {
        EndlessReader { bytes, byte }
    }
}

impl Read for EndlessReader<'_> {
    fn read(&mut self, room: &mut [u8]) -> io::Result<usize> {
        let given = self.bytes.len().min(room.len());
        if given == 0 {
            room.fill(self.byte);
            return Ok(room.len());
        }
        let (front, rest) = self.bytes.split_at(given);
        room[..given].copy_from_slice(front);
        self.bytes = rest;
        Ok(given)
    }
}

/// A writer to memory that takes at most `most` bytes at a time, and fails once it has granted a number
/// of writes. It holds back what it took until it is flushed, and may refuse that.
#[derive(Drop)]
pub struct CountedWriter {
    written: Vec<u8>,
    most: usize,
    good: usize,
    passed: usize,
    refuses_flush: bool,
}

impl CountedWriter {
    /// A writer that takes so many bytes at a time, grants this number of writes, and refuses to be
    /// flushed or not.
    pub fn new(alloc: Global, most: usize, good: usize, refuses_flush: bool) -> Self {
        CountedWriter {
            written: Vec::new(alloc),
            most,
            good,
            passed: 0,
            refuses_flush,
        }
    }

    /// Whether all that was written was passed on.
    pub fn is_flushed(&self) -> bool {
        self.passed == self.written.len()
    }

    /// What was written.
    pub fn bytes(&self) -> &[u8] {
        self.written.as_slice()
    }
}

impl Write for CountedWriter {
    fn write(&mut self, text: &[u8]) -> io::Result<usize> {
        if self.good == 0 {
            return Err(io::Error::from(io::ErrorKind::Other));
        }
        self.good -= 1;
        let taken = text.len().min(self.most);
        self.written.extend_from_slice(&text[..taken])?;
        Ok(taken)
    }

    fn flush(&mut self) -> io::Result<()> {
        if self.refuses_flush {
            return Err(io::Error::from(io::ErrorKind::Other));
        }
        self.passed = self.written.len();
        Ok(())
    }
}
