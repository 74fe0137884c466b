//! Which derivations have the same need as an earlier one, and which kinds are equal.

ghost use Rattle.std.specs.Prelude.{◌≡◌, ◌<◌, Some, length, slice_get, IfOk, IfSome, IsTrue};
ghost use Rattle.nd_kinds.specs.Sharing.{SharesNeed};

use crate::kind::Kind;
use crate::need_marks::NeedMarks;
use nd_bytes::ByteString;
use nd_eligible::Need;
use nd_machines::FeatureSet;
use std::alloc::{AllocError, Global};
use std::collections::BTreeMap;

/// A need, to be looked up.
type Key<'a> = (&'a ByteString, &'a FeatureSet, bool, bool);

/// A need's key.
fn key_of(need: &Need) -> Key<'_> {
    (
        &need.system,
        &need.features,
        need.prefer_local,
        need.builtin,
    )
}

/// Whether two texts are the same.
fn is_same_text(one: &ByteString, other: &ByteString) -> bool
    ensures { IsTrue result → one.now ≡ other.now }
{
    one == other
}

/// Whether two sets are the same.
fn is_same_set(one: &FeatureSet, other: &FeatureSet) -> bool
    ensures { IsTrue result → one.now ≡ other.now }
{
    one == other
}

/// Whether two needs are the same.
#[tactic(auto, using(crate::proofs::Needs::same_need))]
fn is_same(one: &Need, other: &Need) -> bool
    ensures { IsTrue result → one.now ≡ other.now }
{
    if one.prefer_local != other.prefer_local {
        return false;
    }
    if one.builtin != other.builtin {
        return false;
    }
    if !is_same_text(&one.system, &other.system) {
        return false;
    }
    is_same_set(&one.features, &other.features)
}

/// Derivations by their needs: for each need that was met the first derivation with it.
#[derive(Drop)]
pub(crate) struct Known<'a> {
    marks: NeedMarks,
    /// By marks of needs, the first derivation with each mark.
    marked: BTreeMap<u64, usize>,
    /// By needs, those whose mark is one of another need's.
    others: BTreeMap<Key<'a>, usize>,
}

impl<'a> Known<'a> {
    /// No derivation.
    pub(crate) fn new(alloc: Global) -> Known<'a> {
        Known {
            marks: NeedMarks::new(),
            marked: BTreeMap::new(alloc),
            others: BTreeMap::new(alloc),
        }
    }

    /// An earlier derivation with the need of derivation `drv`, if one is known; else this one is known
    /// from now on.
    ///
    /// For the proof: what the maps answer is compared once more, so that nothing has to be said of them.
    pub(crate) fn meet(
        &mut self,
        needs: &'a [Need],
        drv: usize,
    ) -> Result<Option<usize>, AllocError>
        requires { drv < length needs.now }
        ensures { IfOk result (λ found. IfSome found (SharesNeed needs.now drv)) }
    {
        let mark = self.marks.mark(needs, drv);
        let Some(first) = self.marked.get(&mark) else {
            self.marked.insert(mark, drv)?;
            return Ok(None);
        };
        let marked = *first;
        if shares_need(needs, drv, marked) {
            return Ok(Some(marked));
        }
        self.meet_other(needs, drv)
    }

    /// As `meet`, where another need has the mark of this one.
    fn meet_other(&mut self, needs: &'a [Need], drv: usize) -> Result<Option<usize>, AllocError>
        requires { drv < length needs.now }
        ensures { IfOk result (λ found. IfSome found (SharesNeed needs.now drv)) }
    {
        let key = key_of(&needs[drv]);
        if let Some(first) = self.others.get(&key) {
            let first = *first;
            if shares_need(needs, drv, first) {
                return Ok(Some(first));
            }
        }
        self.others.insert(key, drv)?;
        Ok(None)
    }
}

/// Whether derivation `first` is an earlier one with the need of derivation `drv`.
fn shares_need(needs: &[Need], drv: usize, first: usize) -> bool
    requires { drv < length needs.now }
    ensures { IsTrue result → SharesNeed needs.now drv first }
{
    if first >= drv {
        return false;
    }
    is_same(&needs[first], &needs[drv])
}

/// A number that equal kinds have in common, and others seldom.
fn mark_of(kind: &Kind) -> u64 {
    let mut mark: u64 = 0;
    for place in kind.places.as_slice() {
        mark = mark.wrapping_mul(SPREAD).wrapping_add(*place as u64);
    }
    let mark = mark.wrapping_mul(SPREAD).wrapping_add(kind.local as u64);
    mark.wrapping_mul(SPREAD)
        .wrapping_add(kind.prefer_local as u64)
}

/// An odd number without a pattern in its bits.
const SPREAD: u64 = 0x9e37_79b9_7f4a_7c15;

/// Whether two lists of places are the same.
fn are_same_places(ones: &[usize], others: &[usize]) -> bool
    ensures { IsTrue result → ones.now ≡ others.now }
{
    ones == others
}

/// Whether two kinds are the same.
fn is_same_kind(one: &Kind, other: &Kind) -> bool
    ensures { IsTrue result → one.now ≡ other.now }
{
    if one.prefer_local != other.prefer_local {
        return false;
    }
    if one.local != other.local {
        return false;
    }
    are_same_places(one.places.as_slice(), other.places.as_slice())
}

/// Kinds by their marks: for each mark that was met a kind that has it.
#[derive(Drop)]
pub(crate) struct Marks {
    firsts: BTreeMap<u64, usize>,
}

impl Marks {
    /// No kind.
    pub(crate) fn new(alloc: Global) -> Marks {
        Marks {
            firsts: BTreeMap::new(alloc),
        }
    }

    /// The number of a kind among these that is equal to this one, if one is known; else the number that
    /// it gets as the next of them is known from now on.
    ///
    /// For the proof: what the map answers is compared once more, so that nothing has to be said of it.
    pub(crate) fn meet(&mut self, kinds: &[Kind], kind: &Kind) -> Result<Option<usize>, AllocError>
        ensures { IfOk result (λ found. IfSome found (λ n. slice_get kinds.now n ≡ Some kind.now)) }
    {
        let mark = mark_of(kind);
        if let Some(number) = self.firsts.get(&mark) {
            let number = *number;
            if number < kinds.len() && is_same_kind(&kinds[number], kind) {
                return Ok(Some(number));
            }
        }
        self.firsts.insert(mark, kinds.len())?;
        Ok(None)
    }
}
