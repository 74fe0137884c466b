//! The book of the entries that a run's journal was handed. It stands in the proofs alone: what there is of it
//! when a program runs is a number, how many entries it has.

ghost use Rattle.std.specs.Prelude.{◌≡◌, ◌⊎◌, ◌++◌, ◌∷◌, [], length, MatchBool};
ghost use Rattle.std.specs.Bool.{OnTrue};
ghost use Rattle.nd_history.specs.Sameness.{BeginsWith};
ghost use Rattle.nd_keeping.specs.Counting.{counter_of};
ghost use Rattle.nd_keeping.specs.Listing.{GoesBeyond, with_more, listed};

use logbook::{Gain, Offer, Plain, Play, Rule, Seen, Start, Word};
use nd_history::Entry;
use std::marker::Model;

/// How many entries a book has room for.
const MOST: u64 = 1 << 62;

/// The rule of a book of entries: its word counts them.
pub(crate) struct Counting;

impl Rule<Entry, u64> for Counting {
    ghost use Rattle.std.specs.Prelude.{[]};
    ghost use base.Fml.{ftrue};
    ghost use Rattle.nd_keeping.specs.Counting.{IsCounted};

    ghost holds = { λ cells log. IsCounted cells log };

    ghost first = { [] };

    ghost hinted = { λ n log. Unit {0} };

    ghost shows = { λ log. [] };

    ghost keeps = { λ names log. ftrue };

    ghost moves = { λ ask before after answer. Unit {0} };
}

/// What an entry is traded for.
struct Nothing;

impl Gain<Entry, u64> for Nothing {
    ghost use base.Fml.{ftrue};

    ghost after = { λ names about answer. ftrue };
}

/// The step that enters an entry.
struct Enter;

impl Play<Entry, u64> for Enter {
    ghost use Rattle.nd_keeping.specs.Counting.{Enters};

    ghost then = { Enters };
}

impl Plain<Entry, Entry, u64> for Enter {
    ghost use Rattle.std.specs.Prelude.{None};

    ghost ask = { λ entry. entry };

    ghost state = { λ entry. None };
}

/// A beginning of what a journal was handed, as it was when this was made. Any thread may have copies of it; they
/// take no memory. Of two fronts of one book the shorter begins the longer, whoever made them and when. Contracts
/// see the entries, and which book they are of.
#[derive(Drop)]
pub struct Front {
    len: u64,
    seen: Seen<Entry, u64, Counting>,
}

impl Model for Front {
    ghost use Rattle.std.specs.Prelude.{◌≡◌, length};
    ghost use Rattle.nd_keeping.specs.Listing.{Listed};

    ghost Value = { Listed };

    ghost view = { λ f. record { book = f.seen.book; entries = f.seen.log } };

    ghost invariant = { λ f. f.len ≡ length f.seen.log };
}

impl Front {
    /// The front of a book of its own, which has no entry and gets none: what a run has that keeps no journal. It
    /// takes no memory.
    pub fn new() -> Front
        ensures { result.entries ≡ [] }
    {
        let (seen, _counter, _other) = Seen::open(Start::alone(), 0, 0);
        Front { len: 0, seen }
    }

    /// How many entries it has.
    pub fn len(&self) -> usize
        ensures { result ≡ length self.now.entries }
    {
        self.len as usize
    }

    /// A copy.
    pub fn again(&self) -> Front
        ensures { result ≡ self.now }
    {
        Front {
            len: self.len,
            seen: self.seen.again(),
        }
    }

    /// Whether this one begins the other. If not, the other is the shorter one, and begins this one.
    pub fn begins(&self, other: &Front) -> bool
        requires book { other.now.book ≡ self.now.book }
        ensures { MatchBool result (BeginsWith other.now.entries self.now.entries) (GoesBeyond self.now.entries other.now.entries) }
    {
        let mut both = self.seen.again();
        both.learn(&other.seen);
        self.len <= other.len
    }

    /// The longer of two fronts, which the other begins.
    pub fn longer(&self, other: &Front) -> Front
        requires book { other.now.book ≡ self.now.book }
        ensures one { (result ≡ self.now) ⊎ (result ≡ other.now) }
        ensures this { BeginsWith result.entries self.now.entries }
        ensures that { BeginsWith result.entries other.now.entries }
    {
        if self.begins(other) {
            other.again()
        } else {
            self.again()
        }
    }

    /// Enters an entry behind all that were seen, and says whether it did. It did not where the book has no room,
    /// and where others were entered meanwhile, which are seen then.
    fn enter(&mut self, counter: &Word<Entry, u64, Counting>, entry: &Entry) -> bool
        requires counter { counter.now ≡ counter_of self.old.book }
        ensures book { self.new.book ≡ self.old.book }
        ensures entered { OnTrue result (self.new.entries ≡ self.old.entries ++ entry.now ∷ []) }
    {
        if self.len >= MOST {
            return false;
        }
        let mut offer: Offer<Entry, u64, Counting, Nothing> = self
            .seen
            .plain::<Nothing, Entry, Enter>(entry);
        let mut pen = self.seen.no_pen();
        let len = self.len;
        let found = counter.compare_exchange::<Enter, Nothing>(
            len,
            len + 1,
            &mut self.seen,
            &mut offer,
            &mut pen,
        );
        self.len = if found == len { len + 1 } else { found };
        found == len
    }
}

/// The right to enter entries, and all that were entered. Contracts see these, and which book they are of.
#[derive(Drop)]
pub(crate) struct Roll {
    counter: Word<Entry, u64, Counting>,
    front: Front,
}

impl Model for Roll {
    ghost use Rattle.std.specs.Prelude.{◌≡◌};
    ghost use Rattle.nd_keeping.specs.Counting.{counter_of};
    ghost use Rattle.nd_keeping.specs.Listing.{Listed};

    ghost Value = { Listed };

    ghost view = { λ r. r.front };

    ghost invariant = { λ r. r.counter ≡ counter_of r.front.book };
}

impl Roll {
    /// Opens a book. It has no entry.
    pub(crate) fn new() -> Roll
        ensures { result.entries ≡ [] }
    {
        let (seen, mut first, _second) = Seen::open(Start::alone(), 0, 0);
        Roll {
            counter: Word::tracked(0, &mut first),
            front: Front { len: 0, seen },
        }
    }

    /// How many entries it has.
    pub(crate) fn len(&self) -> usize
        ensures { result ≡ length self.now.entries }
    {
        self.front.len()
    }

    /// The front of all that were entered.
    pub(crate) fn front(&self) -> Front
        ensures { result ≡ self.now }
    {
        self.front.again()
    }

    /// Enters these entries behind the others, and says whether it did. It did not, and entered none that counts,
    /// where the book has no room.
    pub(crate) fn enter_all(&mut self, entries: &[Entry]) -> bool
        ensures { MatchBool result (self.new ≡ with_more self.old entries.now) (self.new ≡ self.old) }
    {
        let mut front = self.front.again();
        for entry in entries {
            if !front.enter(&self.counter, entry) {
                return false;
            }
        }
        self.front = front;
        true
    }
}
