//! A fault with what is known about it, and the lines that say so.

ghost use Rattle.std.specs.Prelude.{◌≡◌, IfSome, Some, None, string_bytes};
ghost use Rattle.nd_explain.specs.Parts.{part_named};
ghost use Rattle.nd_explain.specs.Shown.{IsShown};

use crate::advice::{Advice, advice_on};
use crate::excerpts::excerpt;
use crate::parts::{Part, part_of};
use crate::pieces::piece_of;
use crate::sources::Source;
use nd_cli::CliFault;
use std::alloc::Global;
use std::{fmt, io};

/// Why a command gave no answer, with what is known about it. `Display` writes a line for each thing
/// that is known, and none for the fault itself: where it is, what the system said, what stands there,
/// the cause and the cure. The last newline is left out.
#[derive(Drop)]
pub struct Failure<'a> {
    /// The fault.
    pub fault: CliFault,
    /// What it is about.
    pub source: Option<Source<'a>>,
    /// What the system said of it.
    pub system: Option<io::Error>,
    /// The part that is refused, as it is shown.
    pub text: Option<String>,
}

impl<'a> Failure<'a> {
    /// A fault of which no more is known.
    pub fn of(fault: CliFault) -> Self
        ensures fault { result.fault ≡ fault }
        ensures source { result.source ≡ None }
        ensures system { result.system ≡ None }
        ensures text { result.text ≡ None }
    {
        Failure {
            fault,
            source: None,
            system: None,
            text: None,
        }
    }

    /// A fault of a file or a device, or of an input whose text isn't at hand.
    pub fn at(fault: CliFault, source: Source<'a>, system: Option<io::Error>) -> Self
        ensures fault { result.fault ≡ fault }
        ensures source { result.source ≡ Some source.entry }
        ensures system { result.system ≡ system }
        ensures text { result.text ≡ None }
    {
        Failure {
            fault,
            source: Some(source),
            system,
            text: None,
        }
    }

    /// A refusal of this text. Where there is no memory for the part that is refused, it isn't shown.
    pub fn of_text(alloc: Global, fault: CliFault, source: Source<'a>, text: &[u8]) -> Self
        ensures fault { result.fault ≡ fault }
        ensures source { result.source ≡ Some source.entry }
        ensures system { result.system ≡ None }
        ensures text { IfSome result.text (λ s. IsShown text.now (part_named fault) (string_bytes s)) }
    {
        let shown = match piece_of(text, part_of(&fault)) {
            Some(piece) => excerpt(alloc, piece).ok(),
            None => None,
        };
        Failure {
            fault,
            source: Some(source),
            system: None,
            text: shown,
        }
    }
}

impl fmt::Display for Failure<'_> {
    fn fmt<W: fmt::Write>(&self, f: &mut fmt::Formatter<W>) -> fmt::Result {
        if let Some(source) = &self.source {
            match part_of(&self.fault) {
                Part::Nowhere | Part::Whole => writeln!(f, "where: {source}")?,
                Part::Line(number) => writeln!(f, "where: {source}, line {number}")?,
                Part::Entry(number) => writeln!(f, "where: {source}, entry {number}")?,
            }
        }
        if let Some(system) = &self.system {
            writeln!(f, "system: {system}")?;
        }
        if let Some(text) = &self.text {
            writeln!(f, "text: {text}")?;
        }
        let Advice { cause, cure } = advice_on(&self.fault);
        write!(f, "cause: {cause}\ncure: {cure}")
    }
}
