//! The choice among the machines of a list.

ghost use Rattle.std.specs.Prelude.{◌≡◌, ◌<◌, length, All, Contains, IsTrue};
ghost use Rattle.std.specs.List.Sorted.{IsStrictlyIncreasing};
ghost use Rattle.std.specs.Option.{option_map};
ghost use Rattle.nd_eligible.specs.Eligibility.{IsEligibleAt};
ghost use Rattle.nd_choose.specs.Best.{IsChoice};
ghost use Rattle.nd_choose.specs.Contenders.{IsBetterAt, IsNoBetter};

use crate::contender::Contender;
use nd_eligible::{Need, eligible};
use nd_machines::Machine;

/// The place, from 0, of the best machine for a derivation with this need: among the eligible
/// machines that are up and have a free slot, the one with the least load per speed, of equal
/// ones the one with the greatest speed, and of those the earliest in the list. `loads` are the
/// numbers of taken slots and `up` says which machines are up, place by place. `None` exactly
/// where no eligible machine is up and free. It takes no memory.
pub fn choose(machines: &[Machine], loads: &[u32], up: &[bool], need: &Need) -> Option<usize>
    requires loads { length loads.now ≡ length machines.now }
    requires ups { length up.now ≡ length machines.now }
    ensures { IsChoice machines.now loads.now up.now (IsEligibleAt machines.now need.now) result }
{
    let mut best = None;
    for place in 0..machines.len() {
        if eligible(&machines[place], need) {
            best = better_at(machines, loads, up, place, best);
        }
    }
    place_of(best)
}

/// The best machine as [`choose`] has it, but among the places of `among` in place of the eligible
/// machines. It takes no memory.
pub fn choose_in(machines: &[Machine], among: &[usize], loads: &[u32], up: &[bool]) -> Option<usize>
    requires loads { length loads.now ≡ length machines.now }
    requires ups { length up.now ≡ length machines.now }
    requires rising { IsStrictlyIncreasing among.now }
    requires in_range { All (λ place. place < length machines.now) among.now }
    ensures { IsChoice machines.now loads.now up.now (Contains among.now) result }
{
    let mut best = None;
    for place in among {
        best = better_at(machines, loads, up, *place, best);
    }
    place_of(best)
}

/// Whether a machine has no less load and no more speed than the best so far.
fn is_no_better(machines: &[Machine], loads: &[u32], place: usize, best: Contender) -> bool
    requires loads { length loads.now ≡ length machines.now }
    requires place { place < length machines.now }
    ensures { IsTrue result → IsNoBetter machines.now loads.now place best }
{
    let machine = &machines[place];
    if loads[place] < best.load {
        return false;
    }
    machine.speed() <= best.speed
}

/// The best so far, or the machine at a later place where that is free and better. One with no less load and no
/// more speed than the best isn't looked at any further.
fn better_at(
    machines: &[Machine],
    loads: &[u32],
    up: &[bool],
    place: usize,
    best: Option<Contender>,
) -> Option<Contender>
    requires loads { length loads.now ≡ length machines.now }
    requires ups { length up.now ≡ length machines.now }
    requires place { place < length machines.now }
    ensures { IsBetterAt machines.now loads.now up.now place best result }
{
    if let Some(known) = best {
        if is_no_better(machines, loads, place, known) {
            return best;
        }
    }
    match Contender::at(machines, loads, up, place) {
        Some(next) => Some(next.or_better(best)),
        None => best,
    }
}

/// The place of the best machine.
fn place_of(best: Option<Contender>) -> Option<usize>
    ensures { result ≡ option_map (λ contender. contender.place) best }
{
    best.map(|contender| contender.place)
}
