//! The bells of a run: one for each place of the park, by which a worker is woken where its slot has a
//! lease, or where the run is over.

use nd_history::Entry;
use nd_ledger::Dispatch;
use nd_receipts::ParkPlace;
use std::alloc::{AllocError, Global};
use std::sync::Condvar;

/// The bells of the slots of each machine, and one for what is no place of the park.
#[derive(Drop)]
pub struct Bells {
    machines: Vec<Vec<Condvar>>,
    other: Condvar,
}

impl Bells {
    /// A bell for each slot of the park of this dispatch.
    pub fn new(alloc: Global, dispatch: &Dispatch) -> Result<Bells, AllocError> {
        let mut machines = Vec::new(alloc);
        for machine in 0..dispatch.machine_count() {
            machines.push(bells_for(alloc, dispatch.jobs_on(machine))?)?;
        }
        Ok(Bells {
            machines,
            other: Condvar::new(),
        })
    }

    /// The bell of this place.
    pub(crate) fn of(&self, place: ParkPlace) -> &Condvar {
        let Some(slots) = self.machines.get(place.machine as usize) else {
            return &self.other;
        };
        slots.get(place.slot as usize).unwrap_or(&self.other)
    }

    /// Rings for each place for which one of these entries makes a choice.
    pub(crate) fn ring_for(&self, entries: &[Entry]) {
        for entry in entries {
            if let Entry::Chosen {
                drv: _,
                machine,
                slot,
            } = entry
            {
                let place = ParkPlace {
                    machine: *machine,
                    slot: *slot,
                };
                self.of(place).notify_one();
            }
        }
    }

    /// Rings for every place.
    pub(crate) fn ring_all(&self) {
        for slots in &self.machines {
            for bell in slots {
                bell.notify_one();
            }
        }
    }
}

/// So many bells.
fn bells_for(alloc: Global, count: u32) -> Result<Vec<Condvar>, AllocError> {
    let mut bells = Vec::new(alloc);
    for _ in 0..count {
        bells.push(Condvar::new())?;
    }
    Ok(bells)
}
