//! Needs of which equal ones share a value.

ghost use Rattle.std.specs.Prelude.{◌≡◌, ◌++◌, [], map, IfOk, IfSome, IsTrue, OnOk};
ghost use Rattle.nd_links.specs.Placing.{place_at, AddsNeed, IsPlaced, JoinsNeeds, MeetsNeed, MeetsNeeds};

use nd_bytes::ByteString;
use nd_eligible::Need;
use nd_machines::FeatureSet;
use std::alloc::{AllocError, Global};

/// With how many needs of the table a new one is compared. Derivations have few kinds of need, and the search goes
/// through all of these.
const LIMIT: usize = 16;

/// How many needs the table has at most where a new one is compared with more than the one that was met last: where
/// derivations have more kinds of need, a search mostly finds nothing.
const MANY: usize = 64;

/// What nodes need, in their order: needs in a table, where equal ones mostly stand once, and for each node the place of
/// its need there.
#[derive(Drop)]
pub struct SharedNeeds {
    /// The needs.
    pub table: Vec<Need>,
    /// For each node the place of its need in the table.
    pub places: Vec<usize>,
    /// The place that was met last. Most nodes need what the one before does.
    latest: usize,
    alloc: Global,
}

impl SharedNeeds {
    /// Of no node. It takes no memory.
    pub(crate) fn new(alloc: Global) -> SharedNeeds
        ensures table { result.table.items ≡ [] }
        ensures places { result.places.items ≡ [] }
    {
        SharedNeeds {
            table: Vec::new(alloc),
            places: Vec::new(alloc),
            latest: 0,
            alloc,
        }
    }

    /// Of no node, and room for so many.
    pub(crate) fn with_capacity(alloc: Global, count: usize) -> Result<SharedNeeds, AllocError>
        ensures table { IfOk result (λ made. made.table.items ≡ []) }
        ensures places { IfOk result (λ made. made.places.items ≡ []) }
    {
        let places = Vec::with_capacity(alloc, count)?;
        Ok(SharedNeeds {
            table: Vec::new(alloc),
            places,
            latest: 0,
            alloc,
        })
    }

    /// Adds what one node more needs.
    #[tactic(auto, using(crate::proofs::Placing::adds_need))]
    pub(crate) fn push(&mut self, need: Need) -> Result<(), AllocError>
        ensures { OnOk result (AddsNeed need self.old self.new) }
    {
        let place = self.meet(need)?;
        self.places.push(place)?;
        Ok(())
    }

    /// Adds what other nodes need behind these.
    #[tactic(auto, using(crate::proofs::Placing::joins_needs))]
    pub(crate) fn append(&mut self, others: SharedNeeds) -> Result<(), AllocError>
        ensures { OnOk result (JoinsNeeds self.old others self.new) }
    {
        let SharedNeeds { table, places, .. } = others;
        let met = self.meet_each(table)?;
        self.places.reserve(places.len())?;
        add_places(&mut self.places, met.as_slice(), places.as_slice())?;
        Ok(())
    }

    /// The place of a need in the table, where it stands from now on.
    #[tactic(auto, using(crate::proofs::Placing::was_met))]
    fn meet(&mut self, need: Need) -> Result<usize, AllocError>
        ensures { IfOk result (MeetsNeed need self.old self.new) }
    {
        match find_need(self.table.as_slice(), self.latest, &need) {
            Some(place) => {
                self.latest = place;
                Ok(place)
            }
            None => self.begin(need),
        }
    }

    /// The place of a need that stands in the table from now on.
    #[tactic(auto, using(crate::proofs::Placing::begins))]
    fn begin(&mut self, need: Need) -> Result<usize, AllocError>
        ensures { IfOk result (MeetsNeed need self.old self.new) }
    {
        let place = self.table.len();
        self.table.push(need)?;
        self.latest = place;
        Ok(place)
    }

    /// The places of these needs in the table, where they stand from now on.
    #[tactic(auto, using(crate::proofs::Placing::meets_none))]
    fn meet_each(&mut self, needs: Vec<Need>) -> Result<Vec<usize>, AllocError>
        ensures { IfOk result (λ met. MeetsNeeds needs.items self.old self.new met.items) }
    {
        let mut met = Vec::with_capacity(self.alloc, needs.len())?;
        for need in needs {
            let place = self.meet(need)?;
            met.push(place)?;
        }
        Ok(met)
    }
}

/// Adds places behind others: for each of these, which are those of another table, where its need stands in this one.
fn add_places(list: &mut Vec<usize>, met: &[usize], places: &[usize]) -> Result<(), AllocError>
    ensures { OnOk result (list.new.items ≡ list.old.items ++ map (place_at met.now) places.now) }
{
    for place in places {
        list.push(met_at(met, *place))?;
    }
    Ok(())
}

/// Where the need at this place of another table stands in this one.
#[tactic(auto, using(crate::proofs::Placing::no_place))]
fn met_at(met: &[usize], place: usize) -> usize
    ensures { result ≡ place_at met.now place }
{
    if place < met.len() {
        return met[place];
    }
    // For the proof: each place of a table is met, so this is never reached, and nothing has to be said for it.
    0
}

/// A place of the need in the table: this one, or one of the first, where these are looked at. `None` where it stands at
/// none of them.
fn find_need(table: &[Need], latest: usize, need: &Need) -> Option<usize>
    ensures { IfSome result (IsPlaced table.now need.now) }
{
    if is_need_at(table, latest, need) {
        return Some(latest);
    }
    if table.len() > MANY {
        return None;
    }
    for place in 0..LIMIT {
        if is_need_at(table, place, need) {
            return Some(place);
        }
    }
    None
}

/// Whether the need stands at this place of the table, which may be none of its places.
#[tactic(auto, using(crate::proofs::Placing::is_at))]
fn is_need_at(table: &[Need], place: usize, need: &Need) -> bool
    ensures { IsTrue result → IsPlaced table.now need.now place }
{
    if place >= table.len() {
        return false;
    }
    is_same_need(&table[place], need)
}

/// Whether two needs are the same.
#[tactic(auto, using(crate::proofs::Placing::same_need))]
fn is_same_need(one: &Need, other: &Need) -> bool
    ensures { IsTrue result → one.now ≡ other.now }
{
    if one.prefer_local != other.prefer_local || one.builtin != other.builtin {
        return false;
    }
    if !is_same_text(&one.system, &other.system) {
        return false;
    }
    is_same_set(&one.features, &other.features)
}

/// Whether two texts are the same.
fn is_same_text(one: &ByteString, other: &ByteString) -> bool
    ensures { IsTrue result → one.now ≡ other.now }
{
    one == other
}

/// Whether two sets are the same.
fn is_same_set(one: &FeatureSet, other: &FeatureSet) -> bool
    ensures { IsTrue result → one.now ≡ other.now }
{
    one == other
}
