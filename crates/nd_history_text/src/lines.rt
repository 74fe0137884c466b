//! What kind of line an entry has.

ghost use Rattle.std.specs.Prelude.{◌≡◌};
ghost use Rattle.nd_history_text.specs.HistoryTexts.{first_line, is_told_in};
ghost use Rattle.nd_history_text.specs.Lines.{kind_of, word_of};

use crate::kinds::{Kind, Version};
use nd_history::Entry;

/// The kind of an entry's line.
pub(crate) fn kind(entry: &Entry) -> Kind
    ensures { result ≡ kind_of entry.now }
{
    match entry {
        Entry::Chosen { .. } => Kind::Choice,
        Entry::NoBuilder { .. } => Kind::NoChoice,
        Entry::Started { .. } => Kind::Start,
        Entry::Down { .. } => Kind::Return,
        Entry::Built { .. } => Kind::Finish,
        Entry::Failed { .. } => Kind::Failure,
        Entry::Stop => Kind::Halt,
        Entry::Drain { .. } => Kind::Drained,
        Entry::Enable { .. } => Kind::Enabled,
    }
}

/// The first word of a line of this kind.
#[tactic(auto, unfolding(crate::specs::Lines::word_of))]
pub(crate) fn word(kind: Kind) -> &'static [u8]
    ensures { result.now ≡ word_of kind }
{
    match kind {
        Kind::Choice => b"chosen",
        Kind::NoChoice => b"nobuilder",
        Kind::Start => b"started",
        Kind::Return => b"down",
        Kind::Finish => b"built",
        Kind::Failure => b"failed",
        Kind::Halt => b"stop",
        Kind::Drained => b"drain",
        Kind::Enabled => b"enable",
    }
}

/// The first line of a text of this version, with its newline.
#[tactic(auto, unfolding(crate::specs::HistoryTexts::first_line))]
pub(crate) fn opening(version: Version) -> &'static [u8]
    ensures { result.now ≡ first_line version }
{
    match version {
        Version::First => b"nix-dispatch-history 1\n",
        Version::Second => b"nix-dispatch-history 2\n",
    }
}

/// Whether a text of this version may tell of the entry.
pub(crate) fn is_told(version: Version, entry: &Entry) -> bool
    ensures { result ≡ is_told_in version entry.now }
{
    match (version, entry) {
        (Version::First, Entry::Drain { .. } | Entry::Enable { .. }) => false,
        _ => true,
    }
}
