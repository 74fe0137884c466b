//! A fault of a journal with what is known about it, and the lines that say so.

ghost use Rattle.std.specs.Prelude.{◌≡◌, IfSome, None, string_bytes};
ghost use Rattle.nd_explain.specs.Shown.{IsShown};
ghost use Rattle.nd_serve_command.specs.Advised.{advice_words, advice_words_of_journal, line_named, part_named};

use crate::fault::ServeFault;
use crate::resume_error::ResumeError;
use nd_explain::{Advice, Part, advice_on, excerpt, piece_of};
use std::alloc::Global;
use std::{fmt, io};

/// A fault of the journal in a file, with what is known about it. `Display` writes a line for each thing that
/// is known, and none for the fault itself: where it is, what the system said, what stands there, the cause
/// and the cure. The last newline is left out.
#[derive(Drop)]
pub struct JournalFailure<'a> {
    /// The fault.
    pub fault: ServeFault,
    /// The file's name.
    pub name: &'a str,
    /// What the system said of it.
    pub system: Option<io::Error>,
    /// The line that is refused, as it is shown.
    pub text: Option<String>,
}

impl<'a> JournalFailure<'a> {
    /// A fault of the file.
    pub fn of_file(fault: ServeFault, name: &'a str, system: Option<io::Error>) -> Self
        ensures fault { result.fault ≡ fault }
        ensures name { result.name.now ≡ name.now }
        ensures system { result.system ≡ system }
        ensures text { result.text ≡ None }
    {
        JournalFailure {
            fault,
            name,
            system,
            text: None,
        }
    }

    /// A refusal of these bytes. Where there is no memory for the line that is refused, it isn't shown.
    pub fn of_bytes(alloc: Global, fault: ServeFault, name: &'a str, bytes: &[u8]) -> Self
        ensures fault { result.fault ≡ fault }
        ensures name { result.name.now ≡ name.now }
        ensures system { result.system ≡ None }
        ensures text { IfSome result.text (λ s. IsShown bytes.now (part_named fault) (string_bytes s)) }
    {
        let text = match piece_of(bytes, part_at(&fault)) {
            Some(line) => excerpt(alloc, line).ok(),
            None => None,
        };
        JournalFailure {
            fault,
            name,
            system: None,
            text,
        }
    }
}

impl fmt::Display for JournalFailure<'_> {
    fn fmt<W: fmt::Write>(&self, f: &mut fmt::Formatter<W>) -> fmt::Result {
        let name = self.name;
        match line_at(&self.fault) {
            Some(number) => writeln!(f, "where: --journal, file {name}, line {number}")?,
            None => writeln!(f, "where: --journal, file {name}")?,
        }
        if let Some(system) = &self.system {
            writeln!(f, "system: {system}")?;
        }
        if let Some(text) = &self.text {
            writeln!(f, "text: {text}")?;
        }
        let Advice { cause, cure } = journal_advice(&self.fault);
        write!(f, "cause: {cause}\ncure: {cure}")
    }
}

/// The part of the journal that a fault is about: a line, or none.
fn part_at(fault: &ServeFault) -> Part
    ensures { result ≡ part_named fault.now }
{
    match line_at(fault) {
        Some(number) => Part::Line(number),
        None => Part::Nowhere,
    }
}

/// The line of the journal that a fault is about. Its first line is no entry's.
fn line_at(fault: &ServeFault) -> Option<usize>
    ensures { result ≡ line_named fault.now }
{
    match fault {
        ServeFault::Journal(ResumeError::BadLine(line)) => Some(*line),
        ServeFault::Journal(ResumeError::Illegal { index, .. }) => index.checked_add(2),
        _ => None,
    }
}

/// What is said of a fault, in the words of the table of docs/REFUSALS.md.
pub fn journal_advice(fault: &ServeFault) -> Advice
    ensures cause { result.cause.now ≡ (advice_words fault.now).0 }
    ensures cure { result.cure.now ≡ (advice_words fault.now).1 }
{
    match fault {
        ServeFault::Cli(fault) => advice_on(fault),
        ServeFault::NotEmpty => Advice {
            cause: "the journal holds something already, and --resume isn't given",
            cure: "give --resume to go on from it, or name another file",
        },
        ServeFault::InUse => Advice {
            cause: "another program has a lock on the journal, or has made it meanwhile",
            cure: "wait until that program has ended, or name another file",
        },
        ServeFault::Journal(refusal) => of_journal(refusal),
        ServeFault::JournalFailed => Advice {
            cause: "the journal can't be opened, or the system refused to read, cut or write it or to make it durable, or the thread of a run that writes it found no memory or wasn't started",
            cure: "look at what the system says of it; where it says nothing, give the program more memory or allow it more threads",
        },
    }
}

/// What is said of a journal that is none.
fn of_journal(refusal: &ResumeError) -> Advice
    ensures cause { result.cause.now ≡ (advice_words_of_journal refusal.now).0 }
    ensures cure { result.cure.now ≡ (advice_words_of_journal refusal.now).1 }
{
    match refusal {
        ResumeError::BadLine(_) => Advice {
            cause: "the line isn't one of a journal: nix-dispatch-history 2, then a line for each entry, and perhaps the beginning of one more",
            cure: "take the journal as it was written",
        },
        ResumeError::Illegal { .. } => Advice {
            cause: "the entry isn't allowed after those before it, by the rule that is named",
            cure: "give the bundle and the options that the journal was begun with",
        },
        ResumeError::Memory => Advice {
            cause: "there was no memory",
            cure: "give the program more memory, or less to do",
        },
    }
}
