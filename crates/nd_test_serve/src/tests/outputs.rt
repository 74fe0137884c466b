//! An output in memory that stops.

use std::alloc::Global;
use std::io::{self, Write};

/// What a session has to do with: how many calls its journal grants, how many bytes its output takes, and how
/// many flushes it grants.
#[derive(Clone, Copy)]
pub struct Grants {
    /// Of the journal: appends and syncs.
    pub calls: usize,
    /// Of the output.
    pub bytes: usize,
    /// Of the output, too.
    pub flushes: usize,
}

impl Grants {
    /// As many as are asked for.
    pub const ALL: Grants = Grants {
        calls: usize::MAX,
        bytes: usize::MAX,
        flushes: usize::MAX,
    };
}

/// An output in memory. It takes so many bytes, of the write that goes beyond them a part, and refuses the next
/// one. What it took it holds back until it is flushed, or until it refuses a write. It grants so many flushes;
/// what it holds back at a refused one doesn't come out.
#[derive(Drop)]
pub struct MemoryOutput {
    /// What is out.
    pub out: Vec<u8>,
    held: Vec<u8>,
    room: usize,
    flushes: usize,
}

impl MemoryOutput {
    /// An output that takes and grants so much.
    pub fn granting(alloc: Global, grants: Grants) -> Self {
        MemoryOutput {
            out: Vec::new(alloc),
            held: Vec::new(alloc),
            room: grants.bytes,
            flushes: grants.flushes,
        }
    }

    /// What is out of it in the end.
    pub fn into_out(self) -> Vec<u8> {
        self.out
    }

    /// Lets out what is held back.
    fn let_out(&mut self) -> io::Result<()> {
        self.out.extend_from_slice(self.held.as_slice())?;
        self.held.clear();
        Ok(())
    }
}

impl Write for MemoryOutput {
    fn write(&mut self, bytes: &[u8]) -> io::Result<usize> {
        let taken = bytes.len().min(self.room);
        if taken == 0 && !bytes.is_empty() {
            self.let_out()?;
            return Err(io::Error::from(io::ErrorKind::Other));
        }
        self.held.extend_from_slice(&bytes[..taken])?;
        self.room -= taken;
        Ok(taken)
    }

    fn flush(&mut self) -> io::Result<()> {
        if self.flushes == 0 {
            return Err(io::Error::from(io::ErrorKind::Other));
        }
        self.flushes -= 1;
        self.let_out()
    }
}
