//! The eligible machines of many needs at once.

ghost use Rattle.std.specs.Prelude.{◌≡◌, ◌<◌, ◌++◌, ◌==◌, ℕ, List, [], length, map, All, OnOk, IfOk, Some, slice_get};
ghost use Rattle.std.specs.List.{AllZip, slice_index_or};
ghost use Rattle.nd_eligible.specs.Eligibility.{AreEligible};
ghost use Rattle.nd_eligible.specs.Classing.{AreKnown, IsClass};

use crate::eligibility::eligible;
use crate::need::Need;
use nd_bytes::{ByteString, Items};
use nd_machines::{FeatureSet, Machine};
use std::alloc::{AllocError, Global};
use std::collections::BTreeMap;
use std::marker::Model;

/// The eligible machines of each of many needs. Needs with the same platform and the same required
/// features share one list. Contracts see one list of places for each need.
#[derive(Debug, Drop)]
pub struct Classes {
    lists: Vec<Items<usize>>,
    numbers: Vec<usize>,
}

impl Model for Classes {
    ghost use Rattle.std.specs.Prelude.{◌<◌, ℕ, List, [], length, map, All};
    ghost use Rattle.std.specs.List.{slice_index_or};

    ghost Value = { List (List ℕ) };

    ghost view = { λ c. map (λ number. slice_index_or c.lists.items number []) c.numbers.items };

    ghost invariant = { λ c. All (λ number. number < length c.lists.items) c.numbers.items };
}

impl Classes {
    /// The eligible machines of each need. A list is made once for all needs with the same
    /// platform and the same required features.
    pub fn new(alloc: Global, machines: &[Machine], needs: &[Need]) -> Result<Self, AllocError>
        ensures { IfOk result (λ classes. AllZip (AreEligible machines.now) needs.now classes) }
    {
        let mut known = BTreeMap::new(alloc);
        let mut lists = Vec::new(alloc);
        let mut numbers = Vec::new(alloc);
        for need in needs {
            let number = number_of(alloc, machines, need, &mut known, &mut lists)?;
            numbers.push(number)?;
        }
        Ok(Classes { lists, numbers })
    }

    /// The places, from 0 and rising, of the machines that are eligible for the need with this
    /// number.
    pub fn machines_of(&self, need: usize) -> &[usize]
        requires { need < length self.now }
        ensures { slice_get self.now need ≡ Some result.now }
    {
        self.lists[self.numbers[need]].as_slice()
    }

    /// The number of needs.
    pub fn len(&self) -> usize
        ensures { result ≡ length self.now }
    {
        self.numbers.len()
    }

    /// Whether there is no need.
    pub fn is_empty(&self) -> bool
        ensures { result ≡ (length self.now == 0) }
    {
        self.numbers.is_empty()
    }

    /// A copy that is equal to the original.
    pub fn try_clone(&self, alloc: Global) -> Result<Self, AllocError>
        ensures { IfOk result (λ classes. classes ≡ self.now) }
    {
        Ok(Classes {
            lists: copies(alloc, &self.lists)?,
            numbers: Vec::from_slice(alloc, &self.numbers)?,
        })
    }
}

/// What the eligible machines depend on: the platform and the required features of a need.
type Kind<'a> = (&'a ByteString, &'a FeatureSet);

/// The number of the list of machines for a need, which is made where its kind isn't known yet.
fn number_of<'a>(
    alloc: Global,
    machines: &[Machine],
    need: &'a Need,
    known: &mut BTreeMap<Kind<'a>, usize>,
    lists: &mut Vec<Items<usize>>,
) -> Result<usize, AllocError>
    requires { AreKnown machines.now known.old lists.old.items }
    ensures known { OnOk result (AreKnown machines.now known.new lists.new.items) }
    ensures kept { (more : List (List ℕ)) × (lists.new.items ≡ lists.old.items ++ more) }
    ensures number { IfOk result (IsClass machines.now lists.new.items need.now) }
{
    let kind = (&need.system, &need.features);
    if let Some(number) = known.get(&kind) {
        return Ok(*number);
    }
    let number = lists.len();
    lists.push(eligible_places(alloc, machines, need)?)?;
    known.insert(kind, number)?;
    Ok(number)
}

/// The places, from 0, of the machines that may build a derivation with this need, in rising
/// order.
pub fn eligible_places(
    alloc: Global,
    machines: &[Machine],
    need: &Need,
) -> Result<Items<usize>, AllocError>
    ensures { IfOk result (AreEligible machines.now need.now) }
{
    let mut places = Vec::new(alloc);
    for place in 0..machines.len() {
        if eligible(&machines[place], need) {
            places.push(place)?;
        }
    }
    Ok(Items::new(places))
}

/// Copies that are equal to the originals.
fn copies(alloc: Global, lists: &[Items<usize>]) -> Result<Vec<Items<usize>>, AllocError>
    ensures { IfOk result (λ copies. copies.items ≡ lists.now) }
{
    let mut copies = Vec::new(alloc);
    for list in lists {
        copies.push(Items::new(Vec::from_slice(alloc, list.as_slice())?))?;
    }
    Ok(copies)
}
