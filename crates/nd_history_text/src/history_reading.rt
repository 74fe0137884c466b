//! Reading a history text.

ghost use Rattle.std.specs.Prelude.{◌≡◌, ◌==◌, ℕ, ◌+◌, ◌<◌, ◌≤◌, true, List, [], ◌∷◌, ◌++◌, length, IfOk, IfErr, MatchOption, MatchResult};
ghost use Rattle.std.specs.List.{slice_split};
ghost use Rattle.nd_history.specs.declared.entry.Entry.{Entry};
ghost use Rattle.nd_history_text.specs.declared.history_error.HistoryError.{HistoryError};
ghost use Rattle.nd_history_text.specs.declared.kinds.Kind.{Kind};
ghost use Rattle.nd_history_text.specs.declared.kinds.Version.{Version};
ghost use Rattle.nd_history_text.specs.HistoryTexts.{first_line};
ghost use Rattle.nd_history_text.specs.Lines.{word_of};
ghost use Rattle.nd_history_text.specs.Sound.{IsHistoryText, IsRefused, HasNoVersion};
ghost use Rattle.nd_history_text.specs.Reading.{Refuses, words_left, kind_at, IsEntryOf, IsEntryWords, IsLineFirst};

use crate::history_error::{HistoryError, LineError};
use crate::kinds::{Kind, Version};
use crate::lines::{is_told, opening};
use crate::words::{Reading, cause, is_word, number_alone, number_first, outputs, paths_first};
use nd_bytes::cut;
use nd_history::Entry;
use std::alloc::Global;

/// The history whose text the bytes are, in either version. A text of the second version needs no
/// line that the first doesn't know.
///
/// Refuses with `Version` (1) where the text begins with no version's first line and its newline,
/// then with `BadLine` (2) and the number of the first line that is no entry's, the first line being
/// 1: each line ends with a newline, its words stand with single spaces between them, a number has no
/// needless zeros and at most 32 bits, paths rise, and `drain` and `enable` stand in the second
/// version alone. It refuses with `Memory` (3) where an allocation is refused.
#[tactic(auto, using(crate::proofs::Texts::whole_texts))]
pub fn read_history(alloc: Global, text: &[u8]) -> Result<Vec<Entry>, HistoryError>
    ensures found { IfOk result (λ h. IsHistoryText text.now h.items) }
    ensures exactly { (entries : List Entry) → IsHistoryText text.now entries → MatchResult result (λ h. h.items ≡ entries) (λ e. e ≡ HistoryError.Memory) }
    ensures refused { IfErr result (IsRefused text.now) }
{
    let Some((version, mut rest)) = version_first(text) else {
        return Err(HistoryError::Version);
    };
    let mut reading = Reading::new(alloc);
    let mut entries = Vec::with_capacity(alloc, count_lines(rest))?;
    let mut line = 2;
    while !rest.is_empty() {
        match line_first(alloc, version, rest, &mut reading) {
            Ok((entry, behind)) => {
                entries.push(entry)?;
                rest = behind;
                line += 1;
            }
            Err(LineError::Bad) => return Err(HistoryError::BadLine(line)),
            Err(LineError::Memory) => return Err(HistoryError::Memory),
        }
    }
    Ok(entries)
}

/// How many lines the text has, and one more where it ends with a newline.
fn count_lines(text: &[u8]) -> usize {
    let mut count = 0usize;
    let mut left = Some(text);
    while let Some(lines) = left {
        let (_, behind) = cut(lines, b'\n');
        count = count.saturating_add(1);
        left = behind;
    }
    count
}

/// The version that the first line says, and what stands behind that line.
#[tactic(auto, using(crate::proofs::Parts::versions))]
fn version_first(text: &[u8]) -> Option<(Version, &[u8])>
    ensures { MatchOption result (HasNoVersion text.now) (λ x. text.now ≡ first_line x.0 ++ x.1.now) }
{
    if let Some(rest) = behind(text, opening(Version::First)) {
        return Some((Version::First, rest));
    }
    if let Some(rest) = behind(text, opening(Version::Second)) {
        return Some((Version::Second, rest));
    }
    None
}

/// What stands behind the first line, where the text begins with it.
#[tactic(auto, using(crate::proofs::Parts::fronts))]
fn behind<'a>(text: &'a [u8], first: &[u8]) -> Option<&'a [u8]>
    ensures { MatchOption result
        ((rest : List ℕ) → text.now ≡ first.now ++ rest → ⊥)
        (λ rest. text.now ≡ first.now ++ rest.now) }
{
    match text.strip_prefix(first) {
        Some(rest) => Some(rest),
        None => None,
    }
}

/// The entry whose line the bytes begin with, and what stands behind that line.
#[tactic(auto, using(crate::proofs::Texts::lines))]
fn line_first<'t>(
    alloc: Global,
    version: Version,
    bytes: &'t [u8],
    reading: &mut Reading<'t>,
) -> Result<(Entry, &'t [u8]), LineError>
    ensures found { IfOk result (λ x. IsLineFirst version bytes.now x.0 x.1.now) }
    ensures shorter { IfOk result (λ x. length x.1.now < length bytes.now) }
    ensures refused { IfErr result (λ e. Refuses e
        ((entry : Entry) (rest : List ℕ) → IsLineFirst version bytes.now entry rest → ⊥)) }
{
    let (line, rest) = cut(bytes, b'\n');
    let Some(rest) = rest else {
        return Err(LineError::Bad);
    };
    let entry = line_alone(alloc, version, line, reading)?;
    Ok((entry, rest))
}

/// The entry whose words the line has.
#[tactic(auto, using(crate::proofs::Texts::words))]
fn line_alone<'t>(
    alloc: Global,
    version: Version,
    line: &'t [u8],
    reading: &mut Reading<'t>,
) -> Result<Entry, LineError>
    ensures found { IfOk result (IsEntryWords version (slice_split (λ b. b == 32) line.now)) }
    ensures refused { IfErr result (λ e. Refuses e
        ((entry : Entry) → IsEntryWords version (slice_split (λ b. b == 32) line.now) entry → ⊥)) }
{
    let (word, left) = cut(line, b' ');
    let Some(kind) = kind_first(word) else {
        return Err(LineError::Bad);
    };
    let entry = entry_alone(alloc, kind, left, reading)?;
    if !is_told(version, &entry) {
        return Err(LineError::Bad);
    }
    Ok(entry)
}

/// The kind of line that this word begins.
#[tactic(auto, using(crate::proofs::Parts::kind_told))]
fn kind_first(word: &[u8]) -> Option<Kind>
    ensures { MatchOption result ((kind : Kind) → word.now ≡ word_of kind → ⊥) (λ kind. word.now ≡ word_of kind) }
{
    named_kind(word)
}

/// The kind of line that this word begins, by the table of these words.
#[tactic(auto, unfolding(crate::specs::Reading::kind_at))]
fn named_kind(word: &[u8]) -> Option<Kind>
    ensures { result ≡ kind_at word.now }
{
    if is_word(word, b"chosen") {
        return Some(Kind::Choice);
    }
    if is_word(word, b"nobuilder") {
        return Some(Kind::NoChoice);
    }
    if is_word(word, b"started") {
        return Some(Kind::Start);
    }
    if is_word(word, b"down") {
        return Some(Kind::Return);
    }
    if is_word(word, b"built") {
        return Some(Kind::Finish);
    }
    if is_word(word, b"failed") {
        return Some(Kind::Failure);
    }
    if is_word(word, b"stop") {
        return Some(Kind::Halt);
    }
    if is_word(word, b"drain") {
        return Some(Kind::Drained);
    }
    if is_word(word, b"enable") {
        return Some(Kind::Enabled);
    }
    None
}

/// The entry of this kind that the words that are left tell.
fn entry_alone<'t>(
    alloc: Global,
    kind: Kind,
    left: Option<&'t [u8]>,
    reading: &mut Reading<'t>,
) -> Result<Entry, LineError>
    ensures found { IfOk result (IsEntryOf kind (words_left left.entry)) }
    ensures refused { IfErr result (λ e. Refuses e
        ((entry : Entry) → IsEntryOf kind (words_left left.entry) entry → ⊥)) }
{
    match kind {
        Kind::Choice => chosen(left),
        Kind::Start => started(alloc, left, reading),
        Kind::Finish => built(alloc, left, reading),
        Kind::Failure => failed(left),
        Kind::Halt => stopped(left),
        Kind::NoChoice => unbuildable(left),
        Kind::Return => returned(left),
        Kind::Drained => drained(left),
        Kind::Enabled => enabled(left),
    }
}

/// A choice: its derivation, machine and slot.
#[tactic(auto, using(crate::proofs::LineKinds::choices))]
fn chosen(left: Option<&[u8]>) -> Result<Entry, LineError>
    ensures found { IfOk result (IsEntryOf Kind.Choice (words_left left.entry)) }
    ensures refused { IfErr result (λ e. Refuses e
        ((entry : Entry) → IsEntryOf Kind.Choice (words_left left.entry) entry → ⊥)) }
{
    let Some((drv, left)) = number_first(left) else {
        return Err(LineError::Bad);
    };
    let Some((machine, left)) = number_first(left) else {
        return Err(LineError::Bad);
    };
    let Some(slot) = number_alone(left) else {
        return Err(LineError::Bad);
    };
    Ok(Entry::Chosen { drv, machine, slot })
}

/// A start: its derivation and the paths that were copied.
#[tactic(auto, using(crate::proofs::LineKinds::starts))]
fn started<'t>(
    alloc: Global,
    left: Option<&'t [u8]>,
    reading: &mut Reading<'t>,
) -> Result<Entry, LineError>
    ensures found { IfOk result (IsEntryOf Kind.Start (words_left left.entry)) }
    ensures refused { IfErr result (λ e. Refuses e
        ((entry : Entry) → IsEntryOf Kind.Start (words_left left.entry) entry → ⊥)) }
{
    let Some((drv, left)) = number_first(left) else {
        return Err(LineError::Bad);
    };
    let (paths, rest) = paths_first(alloc, left, &mut reading.pool, &mut reading.paths)?;
    match rest {
        None => Ok(Entry::Started { drv, paths }),
        Some(_) => Err(LineError::Bad),
    }
}

/// An end with outputs: its derivation and each output's references.
#[tactic(auto, using(crate::proofs::LineKinds::finishes))]
fn built<'t>(
    alloc: Global,
    left: Option<&'t [u8]>,
    reading: &mut Reading<'t>,
) -> Result<Entry, LineError>
    ensures found { IfOk result (IsEntryOf Kind.Finish (words_left left.entry)) }
    ensures refused { IfErr result (λ e. Refuses e
        ((entry : Entry) → IsEntryOf Kind.Finish (words_left left.entry) entry → ⊥)) }
{
    let Some((drv, left)) = number_first(left) else {
        return Err(LineError::Bad);
    };
    let refs = outputs(alloc, left, reading)?;
    Ok(Entry::Built { drv, refs })
}

/// An end without outputs: its derivation and the cause.
#[tactic(auto, using(crate::proofs::LineKinds::failures))]
fn failed(left: Option<&[u8]>) -> Result<Entry, LineError>
    ensures found { IfOk result (IsEntryOf Kind.Failure (words_left left.entry)) }
    ensures refused { IfErr result (λ e. Refuses e
        ((entry : Entry) → IsEntryOf Kind.Failure (words_left left.entry) entry → ⊥)) }
{
    let Some((drv, left)) = number_first(left) else {
        return Err(LineError::Bad);
    };
    let Some(why) = cause(left) else {
        return Err(LineError::Bad);
    };
    Ok(Entry::Failed { drv, why })
}

/// A stop, which has no further word.
#[tactic(auto, using(crate::proofs::LineKinds::halts))]
fn stopped(left: Option<&[u8]>) -> Result<Entry, LineError>
    ensures found { IfOk result (IsEntryOf Kind.Halt (words_left left.entry)) }
    ensures refused { IfErr result (λ e. Refuses e
        ((entry : Entry) → IsEntryOf Kind.Halt (words_left left.entry) entry → ⊥)) }
{
    match left {
        None => Ok(Entry::Stop),
        Some(_) => Err(LineError::Bad),
    }
}

/// A derivation that nothing may build.
#[tactic(auto, using(crate::proofs::LineKinds::no_choices))]
fn unbuildable(left: Option<&[u8]>) -> Result<Entry, LineError>
    ensures found { IfOk result (IsEntryOf Kind.NoChoice (words_left left.entry)) }
    ensures refused { IfErr result (λ e. Refuses e
        ((entry : Entry) → IsEntryOf Kind.NoChoice (words_left left.entry) entry → ⊥)) }
{
    let Some(drv) = number_alone(left) else {
        return Err(LineError::Bad);
    };
    Ok(Entry::NoBuilder { drv })
}

/// A lease that was given back: its derivation.
#[tactic(auto, using(crate::proofs::LineKinds::returned))]
fn returned(left: Option<&[u8]>) -> Result<Entry, LineError>
    ensures found { IfOk result (IsEntryOf Kind.Return (words_left left.entry)) }
    ensures refused { IfErr result (λ e. Refuses e
        ((entry : Entry) → IsEntryOf Kind.Return (words_left left.entry) entry → ⊥)) }
{
    let Some(drv) = number_alone(left) else {
        return Err(LineError::Bad);
    };
    Ok(Entry::Down { drv })
}

/// A drained machine.
#[tactic(auto, using(crate::proofs::LineKinds::drains))]
fn drained(left: Option<&[u8]>) -> Result<Entry, LineError>
    ensures found { IfOk result (IsEntryOf Kind.Drained (words_left left.entry)) }
    ensures refused { IfErr result (λ e. Refuses e
        ((entry : Entry) → IsEntryOf Kind.Drained (words_left left.entry) entry → ⊥)) }
{
    let Some(machine) = number_alone(left) else {
        return Err(LineError::Bad);
    };
    Ok(Entry::Drain { machine })
}

/// An enabled machine.
#[tactic(auto, using(crate::proofs::LineKinds::enables))]
fn enabled(left: Option<&[u8]>) -> Result<Entry, LineError>
    ensures found { IfOk result (IsEntryOf Kind.Enabled (words_left left.entry)) }
    ensures refused { IfErr result (λ e. Refuses e
        ((entry : Entry) → IsEntryOf Kind.Enabled (words_left left.entry) entry → ⊥)) }
{
    let Some(machine) = number_alone(left) else {
        return Err(LineError::Bad);
    };
    Ok(Entry::Enable { machine })
}
