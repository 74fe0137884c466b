//! The builders that may have a free slot.

ghost use Rattle.std.specs.Prelude.{◌≡◌, ◌≤◌, ◌<◌, ◌↔◌, length, Contains, IfOk, IfSome, IsTrue};
ghost use Rattle.std.specs.List.Sorted.{IsStrictlyIncreasing};
ghost use Rattle.nd_choose.specs.Best.{IsFree};
ghost use Rattle.nd_hook.specs.Few.{HoldFree};
ghost use Rattle.nd_pump.specs.Few.{AreFrom, AreUpTo, IsFirstUpTo, HasLooked};
ghost use Rattle.nd_pump.specs.Vacancies.{AreAllVacant, HasOpened, HoldVacant};

use crate::few::Few;
use nd_flags::NodeSet;
use nd_machines::Machine;
use std::alloc::{AllocError, Global};
use std::marker::Model;

/// One builder is looked at for so many machines of a kind, before all of these are.
const MACHINES_A_LOOK: usize = 16;

/// No more builders than this are looked at, which is how many looks 1,024 machines have. A look takes a
/// binary search among the machines of a kind, so that looks without a bound would come to take longer than
/// the walk over these machines that they stand before.
const MOST_LOOKS: usize = 64;

/// Of so many looks one may meet a builder that the kind can't use: where many of these are free, the looks end
/// soon.
const LOOKS_AN_OTHER: usize = 4;

/// The builders that may have a free slot: all others have none. Contracts see a flag for each builder, in
/// the order of their list. Only `new` takes memory.
#[derive(Drop, Debug)]
pub(crate) struct Vacancies {
    builders: NodeSet,
}

impl Model for Vacancies {
    ghost use Rattle.std.specs.Prelude.{List, Bool};

    ghost Value = { List Bool };

    ghost view = { λ v. v.builders };
}

/// Puts each of so many numbers into the set.
#[tactic(auto, using(crate::proofs::Vacant::vacant_none, crate::proofs::Vacant::vacant_next))]
fn insert_all(set: &mut NodeSet, builders: usize)
    requires { length set.old ≡ builders }
    ensures { AreAllVacant builders set.new }
{
    for builder in 0..builders {
        set.insert(builder);
    }
}

/// Whether the builder at this place is up and has a free slot.
fn is_free(machines: &[Machine], loads: &[u32], ups: &[bool], place: usize) -> bool
    requires loads { length loads.now ≡ length machines.now }
    requires ups { length ups.now ≡ length machines.now }
    requires place { place < length machines.now }
    ensures { IsTrue result ↔ IsFree machines.now loads.now ups.now place }
{
    ups[place] && loads[place] < machines[place].jobs()
}

/// Whether the place is one of these, which rise.
fn is_among(places: &[usize], place: usize) -> bool
    requires { IsStrictlyIncreasing places.now }
    ensures { IsTrue result ↔ Contains places.now place }
{
    match places.binary_search(&place) {
        Ok(_) => true,
        Err(_) => false,
    }
}

/// No place of these, which rise, stands before this one.
#[tactic(auto, using(crate::proofs::Looking::first_is_least))]
fn first_of(places: &[usize]) -> usize
    requires { IsStrictlyIncreasing places.now }
    ensures { AreFrom places.now result }
{
    if places.is_empty() {
        return 0;
    }
    places[0]
}

/// No place of these, which rise, stands behind this one.
#[tactic(auto, using(crate::proofs::Looking::last_is_greatest))]
fn last_of(places: &[usize]) -> usize
    requires { IsStrictlyIncreasing places.now }
    ensures { AreUpTo places.now result }
{
    if places.is_empty() {
        return 0;
    }
    places[places.len() - 1]
}

/// The next place from this one on whose builder may be free, if it stands no further than the last.
#[tactic(auto, using(crate::proofs::Looking::none_up_to, crate::proofs::Looking::past_the_last))]
fn next_vacancy(builders: &NodeSet, from: usize, last: usize) -> Option<usize>
    ensures { IsFirstUpTo builders.now from last result }
{
    let Some(place) = builders.first_from(from) else {
        return None;
    };
    if place > last {
        return None;
    }
    Some(place)
}

/// Looks at the builder at a place: without a free slot it is no vacancy any more, and else its place joins the
/// few where it is among the places that are meant. `others` is how many free ones may be met that aren't. Answers
/// whether the looks may go on: the few had room, and such others were fewer.
#[tactic(auto, using(crate::proofs::Looking::vacant_without))]
fn look(
    builders: &mut NodeSet,
    machines: &[Machine],
    among: &[usize],
    loads: &[u32],
    ups: &[bool],
    place: usize,
    few: &mut Few,
    others: &mut usize,
) -> bool
    requires loads { length loads.now ≡ length machines.now }
    requires ups { length ups.now ≡ length machines.now }
    requires rising { IsStrictlyIncreasing among.now }
    requires place { place < length machines.now }
    requires vacant { HoldVacant machines.now loads.now ups.now builders.old }
    ensures vacant { HoldVacant machines.now loads.now ups.now builders.new }
    ensures looked { IsTrue result → HasLooked machines.now loads.now ups.now among.now place few.old few.new }
{
    if !is_free(machines, loads, ups, place) {
        builders.remove(place);
        return true;
    }
    if is_among(among, place) {
        return few.push(place);
    }
    if *others == 0 {
        return false;
    }
    *others -= 1;
    true
}

impl Vacancies {
    /// All of so many builders.
    pub(crate) fn new(alloc: Global, builders: usize) -> Result<Vacancies, AllocError>
        ensures { IfOk result (AreAllVacant builders) }
    {
        let mut all = NodeSet::new(alloc, builders)?;
        insert_all(&mut all, builders);
        Ok(Vacancies { builders: all })
    }

    /// Follows an entry that touches this machine, where one is named: machine 0 is the local one, and the
    /// builder at place p of the list is machine p + 1. It takes no memory.
    pub(crate) fn follow(&mut self, machine: Option<u32>)
        requires { IfSome machine (λ m. m ≤ length self.old) }
        ensures { HasOpened machine self.old self.new }
    {
        match machine {
            None | Some(0) => {}
            Some(machine) => self.builders.insert(machine as usize - 1),
        }
    }

    /// The places of `among` whose builders are up and have a free slot, where these are few; `None` where there
    /// may be more, or more builders are to be looked at than that is worth.
    pub(crate) fn few_of(
        &mut self,
        machines: &[Machine],
        among: &[usize],
        loads: &[u32],
        ups: &[bool],
    ) -> Option<Few>
        requires loads { length loads.now ≡ length machines.now }
        requires ups { length ups.now ≡ length machines.now }
        requires rising { IsStrictlyIncreasing among.now }
        requires vacant { HoldVacant machines.now loads.now ups.now self.old }
        ensures vacant { HoldVacant machines.now loads.now ups.now self.new }
        ensures few { IfSome result (HoldFree machines.now loads.now ups.now among.now) }
        ensures rising { IfSome result IsStrictlyIncreasing }
    {
        let looks = (among.len() / MACHINES_A_LOOK).min(MOST_LOOKS);
        let mut others = looks / LOOKS_AN_OTHER;
        let last = last_of(among);
        let mut few = Few::new();
        let mut from = first_of(among);
        for _ in 0..looks {
            let Some(place) = next_vacancy(&self.builders, from, last) else {
                return Some(few);
            };
            if !look(
                &mut self.builders,
                machines,
                among,
                loads,
                ups,
                place,
                &mut few,
                &mut others,
            ) {
                return None;
            }
            from = place + 1;
        }
        None // of those behind the last look more may be free
    }
}
