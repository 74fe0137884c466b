//! The words behind the first one of a line, in a script or a stand text: numbers, sets of paths, and lists
//! of such sets.

ghost use Rattle.std.specs.Prelude.{◌≡◌, [], IfOk, IfErr, MatchOption};
ghost use Rattle.nd_path.specs.Refusals.{IsPath};
ghost use Rattle.nd_script.specs.Words.{Begins, IsSetOf, IsStatus, AreLists, is_mark, number_of, words_left};
ghost use Rattle.nd_script.specs.Faults.{NeverBegins, IsNoNumber, IsNoStatus, IsNoPath, RulesOut};

use crate::line_error::LineError;
use nd_bytes::{cut, decimal};
use nd_closure::Refs;
use nd_path::{PathError, PathSet, StorePath};
use std::alloc::Global;

/// The value of a number without needless zeros that is at most `limit`.
pub(crate) fn number(word: &[u8], limit: u32) -> Option<u32>
    ensures { result ≡ number_of limit word.now }
{
    if let [b'0', _, ..] = word {
        return None;
    }
    decimal(word, limit)
}

/// The number below `bound` with which these words begin, and the words behind it.
#[tactic(auto, using(crate::proofs::Operands::no_words))]
pub(crate) fn operand(words: Option<&[u8]>, bound: usize) -> Option<(u32, Option<&[u8]>)>
    ensures { MatchOption result (NeverBegins bound (words_left words.entry)) (λ x. Begins bound (words_left words.entry) x.0 (words_left x.1)) }
{
    let Some(bytes) = words else {
        return None;
    };
    let (word, rest) = cut(bytes, b' ');
    let Some(number) = number(word, u32::MAX) else {
        return None;
    };
    if number as usize >= bound {
        return None;
    }
    Some((number, rest))
}

/// The number below `bound` that is the only word. `None` where the words aren't one such number, written
/// without needless zeros.
#[tactic(auto, using(crate::proofs::Operands::never_alone))]
pub fn only_operand(words: Option<&[u8]>, bound: usize) -> Option<u32>
    ensures { MatchOption result (IsNoNumber bound (words_left words.entry)) (λ n. Begins bound (words_left words.entry) n []) }
{
    match operand(words, bound) {
        Some((number, None)) => Some(number),
        Some((_, Some(_))) => None,
        None => None,
    }
}

/// The status that is the only word.
pub(crate) fn status(words: Option<&[u8]>) -> Option<u8>
    ensures { MatchOption result (IsNoStatus (words_left words.entry)) (IsStatus (words_left words.entry)) }
{
    let Some(bytes) = words else {
        return None;
    };
    let (word, rest) = cut(bytes, b' ');
    let Some(number) = number(word, 255) else {
        return None;
    };
    match rest {
        Some(_) => None,
        None => Some(number as u8),
    }
}

/// The store path that a word is.
fn path_of(alloc: Global, word: &[u8]) -> Result<StorePath, LineError>
    ensures found { IfOk result (λ p. p ≡ word.now) }
    ensures path { IfOk result IsPath }
    ensures refused { IfErr result (IsNoPath word.now) }
{
    match StorePath::parse(alloc, word) {
        Ok(path) => Ok(path),
        Err(PathError::Memory) => Err(LineError::Memory),
        Err(_) => Err(LineError::Bad),
    }
}

/// The set of the store paths that these words are.
pub(crate) fn path_set(alloc: Global, words: Option<&[u8]>) -> Result<PathSet, LineError>
    ensures found { IfOk result (IsSetOf (words_left words.entry)) }
    ensures refused { IfErr result (RulesOut (IsSetOf (words_left words.entry))) }
{
    let mut paths = Vec::new(alloc);
    let mut left = words;
    while let Some(bytes) = left {
        let (word, rest) = cut(bytes, b' ');
        paths.push(path_of(alloc, word)?)?;
        left = rest;
    }
    Ok(PathSet::from_vec(paths)?)
}

/// Whether the word begins a list.
fn is_mark(word: &[u8]) -> bool
    ensures { result ≡ is_mark word.now }
{
    word == b"o".as_slice()
}

/// The lists of references that these words are: a word `o` begins each.
#[tactic(auto, using(crate::proofs::Lists::nothing_listed, crate::proofs::Lists::no_mark))]
pub(crate) fn reference_lists(alloc: Global, words: Option<&[u8]>) -> Result<Refs, LineError>
    ensures found { IfOk result (AreLists (words_left words.entry)) }
    ensures refused { IfErr result (RulesOut (AreLists (words_left words.entry))) }
{
    let Some(bytes) = words else {
        return Err(LineError::Bad);
    };
    let (mark, mut left) = cut(bytes, b' ');
    if !is_mark(mark) {
        return Err(LineError::Bad);
    }
    let mut sets = Vec::new(alloc);
    let mut paths = Vec::new(alloc);
    while let Some(bytes) = left {
        let (word, rest) = cut(bytes, b' ');
        if is_mark(word) {
            sets.push(PathSet::from_vec(paths)?)?;
            paths = Vec::new(alloc);
        } else {
            paths.push(path_of(alloc, word)?)?;
        }
        left = rest;
    }
    sets.push(PathSet::from_vec(paths)?)?;
    Ok(Refs::new(sets))
}
