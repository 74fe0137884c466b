//! Whether the entries that workers made in a run are their receipts, each of one worker and in order.

ghost use Rattle.std.specs.Prelude.{◌≡◌, ◌+◌, ◌^◌, ◌<◌, ℕ, List, [], ◌∷◌, map, true, false, length, replicate, reverse, slice_get, slice_set, Some, None, IfSome, IfNone};
ghost use Rattle.nd_receipts.specs.Dealt.{made_as, AreApart, IsOnPlace, AreReceipted};
ghost use Rattle.nd_receipts.specs.Walks.{Follows, AreUnknown, IsMet, AreAllMet, IsDealtBetween, IsNoPlace, IsNobodys, AreWithin, Knows, Tracks, TracksOn, IsUnmet, IsDealtOnBetween, IsUndealt, AreUnmet, AreUndealt};

use crate::place::ParkPlace;
use crate::receipt::{Kind, Receipt};
use crate::tables::Tables;
use nd_history::{Entry, Why};

/// The derivation and the kind of an entry that a worker makes.
fn made_as(entry: &Entry) -> Option<(u32, Kind)>
    ensures { result ≡ made_as entry.now }
{
    match entry {
        Entry::Started { drv, .. } => Some((*drv, Kind::Started)),
        Entry::Down { drv } => Some((*drv, Kind::Down)),
        Entry::Built { drv, .. } => Some((*drv, Kind::Built)),
        Entry::Failed { drv, why } => {
            if *why == Why::NoWorker {
                return None;
            }
            Some((*drv, Kind::Failed))
        }
        Entry::Chosen { .. }
        | Entry::NoBuilder { .. }
        | Entry::Stop
        | Entry::Drain { .. }
        | Entry::Enable { .. } => None,
    }
}

/// The worker on this place.
#[tactic(auto, using(crate::proofs::Refusals::no_place_first, crate::proofs::Refusals::no_place_more, crate::proofs::Refusals::no_place_last))]
fn worker_on(places: &[ParkPlace], wanted: ParkPlace) -> Option<usize>
    ensures found { IfSome result (λ worker. slice_get places.now worker ≡ Some wanted) }
    ensures none { IfNone result (IsNoPlace places.now wanted.0 wanted.1) }
{
    for worker in 0..places.len() {
        if places[worker] == wanted {
            return Some(worker);
        }
    }
    None
}

/// Puts a number at `place`; past the end nothing is put.
fn put(numbers: &mut Vec<usize>, place: usize, number: usize)
    ensures { numbers.new.items ≡ slice_set numbers.old.items place number }
{
    if place < numbers.len() {
        numbers[place] = number;
    }
}

/// Follows over one more entry on which worker's place each derivation was leased last. The number behind
/// the last worker is put for a lease on the place of none, and the answer is no.
#[tactic(auto, using(crate::proofs::Crossings::walks, crate::proofs::Refusals::stops))]
fn follow(choices: &mut Vec<usize>, places: &[ParkPlace], entry: &Entry) -> bool
    ensures follows { Follows places.now choices.old.items choices.new.items entry.now }
    ensures tracks { TracksOn places.now choices.old.items choices.new.items entry.now }
    ensures placed { result ≡ true → IsOnPlace places.now entry.now }
    ensures nobody { result ≡ false → IsNobodys places.now entry.now }
{
    match entry {
        Entry::Chosen { drv, machine, slot } => {
            let place = ParkPlace {
                machine: *machine,
                slot: *slot,
            };
            let Some(worker) = worker_on(places, place) else {
                put(choices, *drv as usize, places.len());
                return false;
            };
            put(choices, *drv as usize, worker);
            true
        }
        Entry::NoBuilder { .. }
        | Entry::Started { .. }
        | Entry::Down { .. }
        | Entry::Built { .. }
        | Entry::Failed { .. }
        | Entry::Stop
        | Entry::Drain { .. }
        | Entry::Enable { .. } => true,
    }
}

/// Follows over the entries before the run, in which a lease may be on the place of none.
#[tactic(auto, using(crate::proofs::Crossings::walks))]
fn follow_all(choices: &mut Vec<usize>, places: &[ParkPlace], old: &[Entry])
    requires apart { AreApart places.now }
    requires choices { AreUnknown (length places.now) choices.old.items }
    ensures knows { Knows places.now choices.new.items (reverse old.now) }
    ensures sized { length choices.new.items ≡ length choices.old.items }
    ensures tracks { AreWithin (length choices.old.items) old.now → Tracks places.now choices.new.items (reverse old.now) }
{
    'following: for entry in old {
        let _placed = follow(choices, places, entry);
    }
}

/// Whether the next receipt of this worker names the entry with this number and kind, which is then met.
#[tactic(auto, using(crate::proofs::Crossings::walks))]
fn meet(
    met: &mut Vec<usize>,
    rows: &[Vec<Receipt>],
    worker: usize,
    index: usize,
    kind: Kind,
) -> bool
    ensures met { result ≡ true → IsMet (map (λ v. v.items) rows.now) worker index kind met.old.items met.new.items }
    ensures unmet { result ≡ false → IsUnmet (map (λ v. v.items) rows.now) worker index kind met.old.items }
{
    let Some(row) = rows.get(worker) else {
        return false;
    };
    let Some(count) = met.get(worker) else {
        return false;
    };
    let count = *count;
    let Some(receipt) = row.get(count) else {
        return false;
    };
    if receipt.index != index {
        return false;
    }
    if receipt.kind != kind {
        return false;
    }
    put(met, worker, count + 1);
    true
}

/// Goes on over one entry: where a worker makes it, it is the next of that worker's receipts.
#[tactic(auto, using(crate::proofs::Crossings::walks, crate::proofs::Refusals::dealings))]
fn deal(
    tables: &mut Tables,
    places: &[ParkPlace],
    rows: &[Vec<Receipt>],
    index: usize,
    entry: &Entry,
) -> bool
    requires { AreApart places.now }
    ensures dealt { result ≡ true → IsDealtBetween tables.old tables.new places.now (map (λ v. v.items) rows.now) index entry.now }
    ensures on { result ≡ true → IsDealtOnBetween tables.old tables.new places.now (map (λ v. v.items) rows.now) index entry.now }
    ensures undealt { result ≡ false → IsUndealt places.now (map (λ v. v.items) rows.now) index entry.now tables.old.choices.items tables.old.met.items }
{
    let Tables { choices, met } = tables;
    if let Some((drv, kind)) = made_as(entry) {
        let Some(worker) = choices.get(drv as usize) else {
            return false;
        };
        let worker = *worker;
        let Some(_place) = places.get(worker) else {
            return false;
        };
        if !meet(met, rows, worker, index, kind) {
            return false;
        }
        return follow(choices, places, entry);
    }
    follow(choices, places, entry)
}

/// Whether all receipts were met.
#[tactic(auto, using(crate::proofs::Crossings::walks))]
fn are_all_met(met: &[usize], rows: &[Vec<Receipt>]) -> bool
    ensures met { result ≡ true → AreAllMet (map (λ v. v.items) rows.now) met.now }
    ensures unmet { result ≡ false → AreUnmet (map (λ v. v.items) rows.now) met.now }
{
    for worker in 0..rows.len() {
        let (Some(count), Some(row)) = (met.get(worker), rows.get(worker)) else {
            return false;
        };
        if *count < row.len() {
            return false;
        }
    }
    true
}

/// Whether the receipts of each worker are the entries behind `old`, the first of which has the number
/// `opening`, that the worker of its place made, in their order, and every lease among them, and every entry
/// that a worker made, is on the place of a worker: a lease may have been made among the `old` ones. The
/// tables have a place for each derivation that is leased.
#[tactic(auto, using(crate::proofs::Crossings::walks, crate::proofs::Refusals::walks_on))]
pub fn are_dealt(
    old: &[Entry],
    new: &[Entry],
    opening: usize,
    places: &[ParkPlace],
    rows: &[Vec<Receipt>],
    tables: Tables,
) -> bool
    requires room { opening + length new.now < 2 ^ 64 }
    requires apart { AreApart places.now }
    requires choices { AreUnknown (length places.now) tables.choices.items }
    requires met { tables.met.items ≡ replicate (length places.now) 0 }
    ensures dealt { result ≡ true → AreReceipted places.now opening (reverse old.now) new.now (map (λ v. v.items) rows.now) }
    ensures undealt { result ≡ false → AreUndealt (length tables.choices.items) places.now opening old.now new.now (map (λ v. v.items) rows.now) }
{
    if rows.len() != places.len() {
        return false;
    }
    let Tables { mut choices, met } = tables;
    follow_all(&mut choices, places, old);
    let mut tables = Tables { choices, met };
    let mut index = opening;
    'dealing: for entry in new {
        if !deal(&mut tables, places, rows, index, entry) {
            return false;
        }
        index += 1;
    }
    are_all_met(tables.met.as_slice(), rows)
}
