//! Who hands the entries of a run to its journal.

ghost use Rattle.std.specs.Prelude.{◌≡◌, ◌==◌, ◌&&◌, not, [], true, false, OnOk, OnErr, IfOk, IfErr};
ghost use Rattle.nd_history.specs.Sameness.{BeginsWith};
ghost use Rattle.nd_keeping.specs.Scribing.{BeginsScribing, HasTaken, HasKept, HasRefused, IsIdle, IsScribing, HoldsDurably, HoldsMore, LeavesPart, journal_text};
ghost use Rattle.nd_keeping.specs.Stored.{HoldsPart};

use crate::book::{Front, Roll};
use crate::journals::Journal;
use crate::kept::Kept;
use crate::lines::put_lines;
use nd_history::Entry;
use nd_journal::look_at;
use std::alloc::{AllocError, Global};
use std::error::Error;
use std::fmt;
use std::marker::Model;

/// A journal refused an append or a sync, now or before. It says no more: what the system said is the journal's
/// own to tell.
#[derive(Clone, Copy, Debug, PartialEq, Eq)]
pub struct KeepError;

impl fmt::Display for KeepError {
    ghost use Rattle.std.specs.Prelude.{Some, codes};

    ghost output = { λ _. Some (codes "KeepError") };

    fn fmt<W: fmt::Write>(&self, f: &mut fmt::Formatter<W>) -> fmt::Result {
        f.write_str("KeepError")
    }
}

impl Error for KeepError {}

/// Who hands the entries of a run to its journal: takes those that came since, and keeps them, which is one append
/// of all their lines and one sync behind it. What was taken waits as a text of its lines until it is kept.
///
/// Contracts see what the journal holds, which entries were handed to it and which of those are durable, the text
/// that waits, whether the journal has its first line, and whether it refused a call.
#[derive(Drop)]
pub struct Scribe<J: Journal> {
    alloc: Global,
    journal: J,
    roll: Roll,
    kept: Kept,
    text: Vec<u8>,
    begun: bool,
    refused: bool,
}

impl<J: Journal> Model for Scribe<J> {
    ghost use Rattle.nd_keeping.specs.Scribing.{Scribing, IsScribing, scribing};

    ghost Value = { Scribing };

    ghost view = { λ s. scribing (J.stored s.journal) s.roll s.kept s.text.items s.begun s.refused };

    ghost invariant = { λ s. IsScribing (scribing (J.stored s.journal) s.roll s.kept s.text.items s.begun s.refused) };
}

impl<J: Journal> Scribe<J> {
    /// The scribe of a journal that holds these entries, durable: all that a run is gone on from. `begun` says
    /// whether it holds its first line, without which there are no entries. It takes no memory.
    ///
    /// Hands the journal back where there are 2^62 entries or more.
    pub fn new(alloc: Global, journal: J, begun: bool, entries: &[Entry]) -> Result<Scribe<J>, J>
        requires unbegun { begun ≡ false → entries.now ≡ [] }
        requires durable { HoldsDurably (J.stored journal) (journal_text begun entries.now) }
        ensures opened { IfOk result (λ scribe. BeginsScribing scribe (J.stored journal) begun entries.now) }
        ensures back { IfErr result (λ back. back ≡ journal) }
    {
        look_at(entries);
        let mut roll = Roll::new();
        if !roll.enter_all(entries) {
            return Err(journal);
        }
        let kept = Kept::new(roll.front());
        Ok(Scribe {
            alloc,
            journal,
            roll,
            kept,
            text: Vec::new(alloc),
            begun,
            refused: false,
        })
    }

    /// The scribe of a journal that holds nothing yet, and not its first line either. It takes no memory.
    pub fn fresh(alloc: Global, journal: J) -> Scribe<J>
        requires { HoldsDurably (J.stored journal) [] }
        ensures { BeginsScribing result (J.stored journal) false [] }
    {
        let roll = Roll::new();
        let kept = Kept::new(roll.front());
        Scribe {
            alloc,
            journal,
            roll,
            kept,
            text: Vec::new(alloc),
            begun: false,
            refused: false,
        }
    }

    /// Takes the entries behind those that were handed to the journal: they are handed too, and their lines wait.
    /// To be called with the whole history of the run, oldest first.
    ///
    /// Refuses where memory for their lines is refused, and where there are 2^62 entries or more. Nothing is
    /// changed then.
    pub fn take(&mut self, entries: &[Entry]) -> Result<(), AllocError>
        requires begins { BeginsWith entries.now self.old.handed.entries }
        ensures taken { OnOk result (HasTaken self.old self.new entries.now) }
        ensures refused { OnErr result (self.new ≡ self.old) }
    {
        let (_, added) = entries.split_at(self.roll.len());
        if added.is_empty() {
            return Ok(());
        }
        look_at(added);
        let waits = self.text.len();
        let are_first = are_first(self.begun, self.roll.len());
        put_lines(self.alloc, &mut self.text, are_first, added)?;
        if self.roll.enter_all(added) {
            return Ok(());
        }
        self.text.truncate(waits);
        Err(AllocError)
    }

    /// Makes durable all that was handed to the journal: appends the lines that wait, all at once, and syncs once.
    /// Where nothing waits, it does nothing.
    ///
    /// Refuses where the journal refuses the append or the sync, and from then on at once. The journal holds what it
    /// held then, and a beginning of the lines behind it, and is asked for nothing more; no more is kept than was
    /// before.
    pub fn keep(&mut self) -> Result<(), KeepError>
        ensures kept { OnOk result (HasKept self.old self.new) }
        ensures refused { OnErr result (HasRefused self.old self.new) }
        ensures idle { IsIdle self.old → self.new ≡ self.old }
    {
        if self.refused {
            return Err(KeepError);
        }
        if self.kept.len() == self.roll.len() {
            return Ok(());
        }
        match append_and_sync(&mut self.journal, self.text.as_slice()) {
            Ok(()) => {
                self.text.clear();
                self.begun = true;
                self.kept = Kept::new(self.roll.front());
                Ok(())
            }
            Err(KeepError) => {
                self.refused = true;
                Err(KeepError)
            }
        }
    }

    /// What is durable.
    pub fn kept(&self) -> Kept
        ensures kept { result ≡ self.now.kept }
        ensures book { result.book ≡ self.now.handed.book }
    {
        self.kept.again()
    }

    /// What was handed to the journal. What is durable begins it. Where the journal has refused, it holds what a crash
    /// may leave of that.
    #[tactic(auto, using(crate::proofs::Taken::left_part))]
    pub fn handed(&self) -> Front
        ensures handed { result ≡ self.now.handed }
        ensures scribing { IsScribing self.now }
        ensures left { self.now.refused ≡ true → LeavesPart self.now self.now.stored }
    {
        self.roll.front()
    }

    /// Whether the journal has refused an append or a sync.
    pub fn is_refused(&self) -> bool
        ensures { result ≡ self.now.refused }
    {
        self.refused
    }

    /// The journal again. What waits is let go.
    pub fn into_journal(self) -> J
        ensures { J.stored result ≡ self.stored }
    {
        let Scribe { journal, .. } = self;
        journal
    }
}

/// Whether the next lines are the first that a journal gets, to which so many entries were handed.
fn are_first(begun: bool, handed: usize) -> bool
    ensures { result ≡ (not begun && (handed == 0)) }
{
    !begun && handed == 0
}

/// Appends a text to a journal, and then makes durable all that the journal holds. Where one is refused, a beginning
/// of the text may stand there.
#[tactic(auto, using(crate::proofs::Parts::part_unsynced))]
fn append_and_sync<J: Journal>(journal: &mut J, text: &[u8]) -> Result<(), KeepError>
    ensures done { OnOk result (HoldsMore (J.stored journal.old) (J.stored journal.new) text.now) }
    ensures refused { OnErr result (HoldsPart (J.stored journal.old) (J.stored journal.new) text.now) }
{
    match journal.append(text) {
        Ok(()) => {}
        Err(_) => return Err(KeepError),
    }
    match journal.sync() {
        Ok(()) => Ok(()),
        Err(_) => Err(KeepError),
    }
}
