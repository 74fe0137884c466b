//! The scribe of a run. Under the lock it takes the entries that came since, and with the lock free it makes their
//! lines durable, those of several workers at once.

ghost use Rattle.std.specs.Prelude.{◌≡◌, IfSome};
ghost use Rattle.nd_run_desk.specs.Leaves.{Allows};

use crate::floor::Floor;
use nd_keeping::Journal;
use nd_leases::Ticket;
use nd_receipts::ParkPlace;
use nd_run_desk::{Found, Leave, Opened, Step, Writing};
use std::sync::Wait;
use std::thread::yield_now;

/// How often the scribe looks at most whether further entries come, before it takes those that came.
const LOOKS: u32 = 1000;

/// After how many looks in a row that show no further entry it takes those that came.
const STILL: u32 = 32;

/// How many looks in a row showed no further entry, with one more.
fn after_look(still: u32, same: bool) -> u32 {
    if same { still.saturating_add(1) } else { 0 }
}

impl<'a, L: Opened, R: Wait> Floor<'a, L, R> {
    /// Waits until entries came that the scribe hasn't, or until there will be none.
    fn await_news(&self) {
        let mut desk = self.shared.desk.lock(self.rt);
        for _ in self.rt.forever() {
            if desk.has_news() {
                return;
            }
            desk = self.shared.news.wait(self.rt, desk);
        }
    }

    /// Lets workers that are about to make an entry make it, so that one sync serves them all.
    fn settle(&self) {
        let mut before = 0;
        let mut still = 0;
        for _ in 0..LOOKS {
            let now = self.shared.desk.lock(self.rt).dispatch.history().len();
            still = after_look(still, now == before);
            if still >= STILL {
                return;
            }
            before = now;
            yield_now();
        }
    }

    /// Waits until entries came that the scribe hasn't, which are handed to it; or until all workers have ended.
    fn gather<J: Journal>(&self, writing: &mut Writing<L, J>) -> Found {
        self.await_news();
        self.settle();
        let mut desk = self.shared.desk.lock(self.rt);
        desk.hand_over(writing)
    }

    /// What the scribe made durable is known under the lock, and then to those who wait for it.
    fn publish<J: Journal>(&self, writing: &Writing<L, J>) {
        self.keep_in(writing);
        self.shared.bells.ring_all();
    }

    /// What the scribe made durable is known under the lock.
    fn keep_in<J: Journal>(&self, writing: &Writing<L, J>) {
        let mut desk = self.shared.desk.lock(self.rt);
        desk.keep(writing);
    }

    /// The journal has refused, and no further lease is made.
    pub fn refuse(&self) {
        let mut desk = self.shared.desk.lock(self.rt);
        desk.refuse();
        self.shared.bells.ring_all();
    }

    /// Keeps the entries of the run, until all workers have ended and nothing is left to be kept, or until the
    /// journal refuses.
    pub fn keep_all<J: Journal>(&self, writing: Writing<L, J>) -> Writing<L, J> {
        let mut writing = writing;
        'keeping: for _ in self.rt.forever() {
            match self.gather(&mut writing) {
                Found::Nothing => return writing,
                Found::Some if writing.keep() => self.publish(&writing),
                _ => {
                    self.refuse();
                    return writing;
                }
            }
        }
        unreachable!()
    }

    /// All workers have ended: the scribe ends once it has kept all.
    pub fn end_all(&self) {
        let mut desk = self.shared.desk.lock(self.rt);
        desk.end_all();
        self.shared.news.notify_one();
    }

    /// Waits until the entry that stands behind a step of a lease is durable. There is no leave where the journal has
    /// refused. A run without a journal waits for nothing.
    #[tactic(auto, using(crate::proofs::Unkept::unkept))]
    pub(crate) fn leave_for(&self, step: Step, ticket: &Ticket) -> Option<Leave<L>>
        ensures { IfSome result (λ leave. Allows L.keeping.keeps leave.kept.entries leave.place step ticket.now) }
    {
        if !self.shared.keeps {
            return Some(self.shared.free_leave());
        }
        let place = ParkPlace {
            machine: ticket.machine,
            slot: ticket.slot,
        };
        let mut desk = self.shared.desk.lock(self.rt);
        for _ in self.rt.forever() {
            if let Some(leave) = desk.leave_for(step, ticket) {
                return Some(leave);
            }
            if desk.has_refused() {
                return None;
            }
            self.shared.tell();
            desk = self.shared.bells.of(place).wait(self.rt, desk);
        }
        unreachable!()
    }
}
