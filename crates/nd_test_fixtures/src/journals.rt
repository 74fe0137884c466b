//! A journal in memory that stops.

ghost use Rattle.std.specs.Prelude.{◌≡◌, length};

use nd_keeping::{Journal, Kept, NoJournal, Scribe};
use std::alloc::Global;
use std::io;

/// A journal in memory that refuses its calls once it has granted a number of them, and then keeps a part of
/// what wasn't synced.
#[derive(Drop)]
pub struct MemoryJournal {
    /// What it holds.
    pub bytes: Vec<u8>,
    /// How many bytes of that are durable.
    pub durable: usize,
    grants: usize,
}

impl MemoryJournal {
    /// A journal that holds these bytes, durable, and grants this number of calls.
    pub fn holding(bytes: Vec<u8>, grants: usize) -> Self
        ensures bytes { result.bytes ≡ bytes }
        ensures durable { result.durable ≡ length bytes.items }
    {
        let durable = bytes.len();
        MemoryJournal {
            bytes,
            durable,
            grants,
        }
    }

    /// What a crash leaves: all that was synced, and of the rest so many quarters.
    pub fn left(&self, quarters: usize) -> &[u8] {
        let rest = self.bytes.len().saturating_sub(self.durable);
        let kept = if quarters < 4 {
            (rest / 4).saturating_mul(quarters)
        } else {
            rest
        };
        let end = self.durable.saturating_add(kept).min(self.bytes.len());
        let (left, _) = self.bytes.as_slice().split_at(end);
        left
    }
}

impl Journal for MemoryJournal {
    ghost use Rattle.std.specs.Prelude.{Some};

    ghost stored = { λ j. Some (record { bytes = j.bytes.items; durable = j.durable }) };

    #[tactic(auto, using(nd_keeping::proofs::Parts::part_none, nd_keeping::proofs::Parts::part_all))]
    fn append(&mut self, bytes: &[u8]) -> io::Result<()> {
        // What a refused call is given may be there all the same.
        self.bytes.extend_from_slice(bytes)?;
        if self.grants == 0 {
            return Err(io::Error::from(io::ErrorKind::Other));
        }
        self.grants -= 1;
        Ok(())
    }

    #[tactic(auto, using(nd_keeping::proofs::Parts::same_bytes))]
    fn sync(&mut self) -> io::Result<()> {
        if self.grants == 0 {
            // The system's own want of memory is a refusal as any other.
            return Err(io::Error::from(io::ErrorKind::OutOfMemory));
        }
        self.grants -= 1;
        self.durable = self.bytes.len();
        Ok(())
    }
}

/// What is durable of a run without a journal: nothing.
pub fn nothing_kept(alloc: Global) -> Kept {
    let scribe = Scribe::fresh(alloc, NoJournal);
    let kept = scribe.kept();
    drop(scribe);
    kept
}
