//! A free machine with what the choice's order asks of it.

ghost use Rattle.std.specs.Prelude.{◌≡◌, ◌<◌, length, MatchOption};
ghost use Rattle.nd_choose.specs.Best.{IsFree};

use crate::order::beats;
use nd_machines::Machine;

/// A free machine that may be chosen.
#[derive(Clone, Copy)]
pub struct Contender {
    pub place: usize,
    pub load: u32,
    pub speed: u64,
}

impl Contender {
    ghost use Rattle.nd_choose.specs.Contenders.{IsContender, IsBetter};

    /// The machine at the place, where it is up and has a free slot.
    pub fn at(machines: &[Machine], loads: &[u32], up: &[bool], place: usize) -> Option<Self>
        requires loads { length loads.now ≡ length machines.now }
        requires ups { length up.now ≡ length machines.now }
        requires place { place < length machines.now }
        ensures { MatchOption result (IsFree machines.now loads.now up.now place → ⊥) (IsContender machines.now loads.now up.now place) }
    {
        let machine = &machines[place];
        let load = loads[place];
        if !up[place] || load >= machine.jobs() {
            return None;
        }
        Some(Contender {
            place,
            load,
            speed: machine.speed(),
        })
    }

    /// The contender itself, or the best so far where that isn't beaten by it.
    pub fn or_better(self, best: Option<Self>) -> Self
        ensures { IsBetter best self result }
    {
        match best {
            Some(best) => {
                if beats(self.load, self.speed, best.load, best.speed) {
                    return self;
                }
                best
            }
            None => self,
        }
    }
}
