//! What is known under the lock of a run's journal, and the leave by which a worker calls its transport.

ghost use Rattle.std.specs.Prelude.{◌≡◌};

use crate::opened::Opened;
use nd_keeping::{Front, Journal, Kept, Scribe};
use std::marker::PhantomData;

/// What a worker does next for a lease.
#[derive(Clone, Copy, Debug, PartialEq, Eq)]
pub enum Step {
    /// It calls the machine and copies, behind the lease's choice.
    Call,
    /// It builds, behind the lease's start.
    Build,
}

/// How far a run's journal is: what was handed to the scribe, and what of that is durable.
#[derive(Drop)]
pub(crate) struct Progress<L: Opened> {
    pub(crate) handed: Front,
    pub(crate) kept: Kept,
    /// Whether the journal refused, or the scribe found no memory. Nothing more is kept then.
    pub(crate) refused: bool,
    /// Whether all workers have ended.
    pub(crate) over: bool,
    of: PhantomData<L>,
    ghost handed_there: { handed.book ≡ L.keeping.book },
    ghost kept_there: { kept.book ≡ L.keeping.book },
}

/// The scribe of a run, which lists the entries in the run's book.
#[derive(Drop)]
pub struct Writing<L: Opened, J: Journal> {
    /// The scribe with its journal.
    pub scribe: Scribe<J>,
    of: PhantomData<L>,
    ghost there: { scribe.handed.book ≡ L.keeping.book },
}

/// That an entry is durable, as who was told so knows it with the lock free: the entries that are durable, and the
/// place of this one among them.
#[derive(Drop)]
pub struct Leave<L: Opened> {
    /// The entries that are durable.
    pub kept: Kept,
    /// The entry's place among them.
    pub place: usize,
    of: PhantomData<L>,
    ghost there: { kept.book ≡ L.keeping.book },
}

impl<L: Opened> Progress<L> {
    /// Where a run begins whose scribe this is.
    pub(crate) fn new<J: Journal>(scribe: &Scribe<J>) -> Progress<L>
        requires { scribe.now.handed.book ≡ L.keeping.book }
        ensures handed { result.handed ≡ scribe.now.handed }
        ensures kept { result.kept ≡ scribe.now.kept }
    {
        Progress {
            handed: scribe.handed(),
            kept: scribe.kept(),
            refused: false,
            over: false,
            of: PhantomData,
        }
    }

    /// Leave by the entry at this place.
    pub(crate) fn leave(&self, place: usize) -> Leave<L>
        ensures kept { result.kept ≡ self.now.kept }
        ensures place { result.place ≡ place }
    {
        Leave {
            kept: self.kept.again(),
            place,
            of: PhantomData,
        }
    }
}

impl<L: Opened, J: Journal> Writing<L, J> {
    /// The scribe of the run whose book it lists the entries in.
    pub fn new(scribe: Scribe<J>) -> Writing<L, J>
        requires { scribe.handed.book ≡ L.keeping.book }
        ensures { result.scribe ≡ scribe }
    {
        Writing {
            scribe,
            of: PhantomData,
        }
    }

    /// Makes durable what was handed to the scribe. The answer is whether the journal did.
    pub fn keep(&mut self) -> bool {
        let Writing { scribe, .. } = self;
        match scribe.keep() {
            Ok(()) => true,
            Err(_) => false,
        }
    }
}

impl<L: Opened> Leave<L> {
    /// Leave by no entry.
    pub fn free(kept: &Kept) -> Leave<L>
        requires { kept.now.book ≡ L.keeping.book }
    {
        Leave {
            kept: kept.again(),
            place: 0,
            of: PhantomData,
        }
    }
}
