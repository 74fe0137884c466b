//! Reading the words of a line.

ghost use Rattle.std.specs.Prelude.{◌≡◌, ℕ, suc, ◌≤◌, true, false, Some, List, [], ◌∷◌, ◌++◌, IfOk, OnOk, IfErr, IfSome, MatchOption, nat_eq};
ghost use Rattle.std.specs.Cmp.Lexicographic.{pointwise};
ghost use Rattle.std.specs.Option.{option_copied};
ghost use Rattle.std.specs.Fmt.{decimal};
ghost use Rattle.nd_bytes.specs.Cut.{pieces, left_over};
ghost use Rattle.nd_bytes.specs.Decimal.{has_needless_zero};
ghost use Rattle.nd_path.specs.Refusals.{IsPath};
ghost use Rattle.nd_history.specs.declared.entry.Why.{Why};
ghost use Rattle.nd_history_text.specs.Sound.{greatest};
ghost use Rattle.nd_history_text.specs.Reading.{Refuses, words_left, IsNumberFirst, HasNoNumberFirst, rises, is_end, cause_at, ArePathsFirst, ArePathWords, AreOutputs, IsCause};

use crate::history_error::LineError;
use nd_bytes::{cut, decimal};
use nd_closure::Refs;
use nd_history::Why;
use nd_path::{PathSet, StorePath};
use nd_path_pool::PathPool;
use std::alloc::{AllocError, Global};

/// What the paths of a text are read with, one line after another.
#[derive(Drop)]
pub(crate) struct Reading<'t> {
    /// The paths so far, by their bytes.
    pub(crate) pool: PathPool<'t>,
    /// The paths of the list that is read. The list itself is made once their number is known.
    pub(crate) paths: Vec<StorePath>,
    /// The sets of the outputs that are read, likewise.
    pub(crate) sets: Vec<PathSet>,
}

impl<'t> Reading<'t> {
    /// The beginning, before the first line. It takes no memory.
    pub(crate) fn new(alloc: Global) -> Reading<'t> {
        Reading {
            pool: PathPool::new(alloc),
            paths: Vec::new(alloc),
            sets: Vec::new(alloc),
        }
    }
}

/// Whether the two words are the same.
pub(crate) fn is_word(word: &[u8], other: &[u8]) -> bool
    ensures { result ≡ pointwise nat_eq word.now other.now }
{
    word == other
}

/// Whether the word is a zero and something behind it.
fn begins_with_zero(word: &[u8]) -> bool
    ensures { result ≡ has_needless_zero word.now }
{
    match word {
        [first, _, ..] => *first == b'0',
        _ => false,
    }
}

/// The number that is spelled so, in decimal and without needless zeros. It has 32 bits.
#[tactic(auto, using(crate::proofs::Parts::numbers))]
fn number(word: &[u8]) -> Option<u32>
    ensures small { IfSome result (λ n. n ≤ greatest) }
    ensures value { MatchOption result ((n : ℕ) → n ≤ greatest → word.now ≡ decimal n → ⊥) (λ n. word.now ≡ decimal n) }
{
    if begins_with_zero(word) {
        return None;
    }
    decimal(word, u32::MAX)
}

/// The first of the words that are left, as a number, and those behind it.
#[tactic(auto, using(crate::proofs::Parts::first_numbers))]
pub(crate) fn number_first(left: Option<&[u8]>) -> Option<(u32, Option<&[u8]>)>
    ensures { MatchOption result
        (HasNoNumberFirst (words_left left.entry))
        (λ x. IsNumberFirst (words_left left.entry) x.0 (words_left x.1)) }
{
    let (word, rest) = cut(left?, b' ');
    Some((number(word)?, rest))
}

/// The one word that is left, as a number.
#[tactic(auto, using(crate::proofs::Parts::lone_numbers))]
pub(crate) fn number_alone(left: Option<&[u8]>) -> Option<u32>
    ensures { MatchOption result
        ((n : ℕ) → IsNumberFirst (words_left left.entry) n [] → ⊥)
        (λ n. IsNumberFirst (words_left left.entry) n []) }
{
    let (number, rest) = number_first(left)?;
    match rest {
        None => Some(number),
        Some(_) => None,
    }
}

/// Why a lease ended without its outputs, as the words that are left say.
#[tactic(auto, using(crate::proofs::Parts::causes))]
pub(crate) fn cause(left: Option<&[u8]>) -> Option<Why>
    ensures { MatchOption result
        ((why : Why) → IsCause (words_left left.entry) why → ⊥)
        (IsCause (words_left left.entry)) }
{
    let (word, rest) = cut(left?, b' ');
    match rest {
        None => plain_cause(word),
        Some(bytes) => status_cause(word, bytes),
    }
}

/// A cause of one word.
#[tactic(auto, unfolding(crate::specs::Reading::cause_at))]
fn plain_cause(word: &[u8]) -> Option<Why>
    ensures { result ≡ cause_at word.now }
{
    if is_word(word, b"lost") {
        return Some(Why::Lost);
    }
    if is_word(word, b"references") {
        return Some(Why::BadReferences);
    }
    if is_word(word, b"noworker") {
        return Some(Why::NoWorker);
    }
    if is_word(word, b"memory") {
        return Some(Why::Memory);
    }
    None
}

/// A status: its word, and behind that its number.
#[tactic(auto, using(crate::proofs::Parts::statuses))]
fn status_cause(word: &[u8], bytes: &[u8]) -> Option<Why>
    ensures { MatchOption result
        ((why : Why) → IsCause (word.now ∷ pieces 32 (Some bytes.now)) why → ⊥)
        (IsCause (word.now ∷ pieces 32 (Some bytes.now))) }
{
    if !is_word(word, b"status") {
        return None;
    }
    let status = number_alone(Some(bytes))?;
    if status > 255 {
        return None;
    }
    Some(Why::Status(status as u8))
}

/// The first of the words that are left and those behind it. `None` where none is left, or it is the
/// `o` that stands before the references of an output.
#[tactic(auto, using(crate::proofs::Parts::ends))]
fn word_before_end(left: Option<&[u8]>) -> Option<(&[u8], Option<&[u8]>)>
    ensures found { MatchOption result
        (is_end (words_left left.entry) ≡ true)
        (λ x. words_left left.entry ≡ x.0.now ∷ words_left x.1) }
    ensures end { IfSome result (λ x. is_end (words_left left.entry) ≡ false) }
    ensures shorter { IfSome result (λ x. suc (left_over (option_copied x.1)) ≤ left_over (option_copied left.entry)) }
{
    let (word, rest) = cut(left?, b' ');
    if is_word(word, b"o") {
        return None;
    }
    Some((word, rest))
}

/// Whether each path is less than the next.
fn is_rising(paths: &[StorePath]) -> bool
    ensures { result ≡ rises paths.now }
{
    let [first, others @ ..] = paths else {
        return true;
    };
    let mut last = first;
    for path in others {
        let order = last.cmp(path);
        if !order.is_lt() {
            return false;
        }
        last = path;
    }
    true
}

/// The set of paths that the first of the words that are left are, up to an end, and the words from
/// there on. They are read into `paths`, whatever stood there.
pub(crate) fn paths_first<'t>(
    alloc: Global,
    left: Option<&'t [u8]>,
    pool: &mut PathPool<'t>,
    paths: &mut Vec<StorePath>,
) -> Result<(PathSet, Option<&'t [u8]>), LineError>
    ensures found { IfOk result (λ x. ArePathsFirst (words_left left.entry) x.0 (words_left x.1)) }
    ensures shorter { IfOk result (λ x. left_over (option_copied x.1) ≤ left_over (option_copied left.entry)) }
    ensures refused { IfErr result (λ e. Refuses e
        ((paths rest : List (List ℕ)) → ArePathsFirst (words_left left.entry) paths rest → ⊥)) }
{
    let rest = path_words(alloc, left, pool, paths)?;
    if !is_rising(paths.as_slice()) {
        return Err(LineError::Bad);
    }
    let set = PathSet::from_vec(taken(alloc, paths)?)?;
    Ok((set, rest))
}

/// Reads the paths that the first of the words that are left are, up to an end, in place of what
/// stands in `paths`, and answers the words from there on. What is refused is no set of paths either.
#[tactic(auto, using(crate::proofs::PathLists::path_sets))]
fn path_words<'t>(
    alloc: Global,
    left: Option<&'t [u8]>,
    pool: &mut PathPool<'t>,
    paths: &mut Vec<StorePath>,
) -> Result<Option<&'t [u8]>, LineError>
    ensures found { IfOk result (λ rest. ArePathWords (words_left left.entry) paths.new.items (words_left rest)) }
    ensures shorter { IfOk result (λ rest. left_over (option_copied rest) ≤ left_over (option_copied left.entry)) }
    ensures refused { IfErr result (λ e. Refuses e
        ((paths rest : List (List ℕ)) → ArePathsFirst (words_left left.entry) paths rest → ⊥)) }
{
    paths.clear();
    let mut rest = left;
    while let Some((word, behind)) = word_before_end(rest) {
        push_path(alloc, word, pool, paths)?;
        rest = behind;
    }
    Ok(rest)
}

/// The items of a list that is filled again and again, in a list of their own with room for them alone.
fn taken<T: Drop>(alloc: Global, filled: &mut Vec<T>) -> Result<Vec<T>, AllocError>
    ensures { IfOk result (λ items. items.items ≡ filled.old.items) }
{
    let mut items = Vec::with_capacity(alloc, filled.len())?;
    items.append(filled)?;
    Ok(items)
}

/// Puts the path that this word is behind those that were read.
#[tactic(auto, using(crate::proofs::PathLists::faulty_word))]
fn push_path<'t>(
    alloc: Global,
    word: &'t [u8],
    pool: &mut PathPool<'t>,
    paths: &mut Vec<StorePath>,
) -> Result<(), LineError>
    ensures found { OnOk result (paths.new.items ≡ paths.old.items ++ word.now ∷ []) }
    ensures path { OnOk result (IsPath word.now) }
    ensures refused { IfErr result (λ e. Refuses e (IsPath word.now → ⊥)) }
{
    paths.push(pool.path(alloc, word)?)?;
    Ok(())
}

/// The references of outputs that the words that are left are.
#[tactic(auto, using(crate::proofs::PathLists::output_lists))]
pub(crate) fn outputs<'t>(
    alloc: Global,
    left: Option<&'t [u8]>,
    reading: &mut Reading<'t>,
) -> Result<Refs, LineError>
    ensures found { IfOk result (AreOutputs (words_left left.entry)) }
    ensures refused { IfErr result (λ e. Refuses e
        ((refs : List (List (List ℕ))) → AreOutputs (words_left left.entry) refs → ⊥)) }
{
    reading.sets.clear();
    let mut rest = left;
    while let Some(bytes) = rest {
        let (word, behind) = cut(bytes, b' ');
        if !is_word(word, b"o") {
            return Err(LineError::Bad);
        }
        let (set, behind) = paths_first(alloc, behind, &mut reading.pool, &mut reading.paths)?;
        reading.sets.push(set)?;
        rest = behind;
    }
    Ok(Refs::new(taken(alloc, &mut reading.sets)?))
}
