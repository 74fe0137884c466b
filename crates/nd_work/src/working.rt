//! The loop of a worker.

ghost use Rattle.std.specs.Prelude.{◌≡◌, ◌<◌, [], ℕ, List};
ghost use Rattle.nd_receipts.specs.Noted.{GoesOn, track_of};
ghost use Rattle.nd_run_desk.specs.Jobs.{IsDue, IsNextOf};
ghost use Rattle.nd_work.specs.Ends.{EndsWell};

use crate::calling::Guarded;
use crate::floor::Floor;
use crate::hand::Hand;
use crate::leasing::uncalled;
use nd_history::Why;
use nd_receipts::ParkPlace;
use nd_run_desk::{Desk, Next, Opened, entries_since};
use nd_transports::Transport;
use std::sync::Wait;

/// How a worker ended, or that it goes on.
#[derive(Clone, Copy, PartialEq, Eq)]
pub enum End {
    /// It served a lease, and goes on.
    Again,
    /// Nothing is leased or waits any more.
    Finished,
    /// It found no room for more receipts, or the journal has refused.
    Left,
    /// An entry of its own was refused.
    Refused,
}

impl<'a, L: Opened, R: Wait> Floor<'a, L, R> {
    /// What there is to do for the worker of this place. The bells of all places that get a lease ring.
    fn look(&self, desk: &mut Desk<L>, place: ParkPlace) -> Next
        ensures { IsNextOf L.opening result }
    {
        let before = desk.dispatch.history().len();
        let next = desk.next(self.alloc, place);
        let news = entries_since(&desk.dispatch, before);
        self.shared.bells.ring_for(news);
        next
    }

    /// Waits until there is something to do for the worker of this place.
    fn take(&self, place: ParkPlace) -> Next
        ensures { IsNextOf L.opening result }
    {
        let mut desk = self.shared.desk.lock(self.rt);
        for _ in self.rt.forever() {
            match self.look(&mut *desk, place) {
                Next::Wait => self.shared.tell(),
                Next::Finished => {
                    // Those who wait may not know yet.
                    self.shared.bells.ring_all();
                    return Next::Finished;
                }
                Next::Serve(job, again) => return Next::Serve(job, again),
                Next::Short(ticket, again) => return Next::Short(ticket, again),
            }
            desk = self.shared.bells.of(place).wait(self.rt, desk);
        }
        unreachable!()
    }

    /// The worker of this place leaves, and no further lease is made.
    fn leave(&self, place: ParkPlace) {
        let mut desk = self.shared.desk.lock(self.rt);
        desk.leave(place);
        self.shared.bells.ring_all();
    }

    /// Only the first `started` workers have threads, and no further lease is made.
    pub fn serve_by_few(&self, started: usize) {
        let mut desk = self.shared.desk.lock(self.rt);
        desk.unstarted(started);
        self.shared.bells.ring_all();
    }

    /// One lease of a worker.
    #[tactic(auto, using(crate::proofs::Going::goes_nowhere))]
    fn turn<T: Transport>(
        &self,
        hand: &mut Hand<L>,
        transport: &mut Guarded<T>,
        place: ParkPlace,
    ) -> End
        ensures { EndsWell (IsDue L.keeping L.opening) result (track_of hand.old.notes transport.old) (track_of hand.new.notes transport.new) }
    {
        if hand.make_room().is_err() {
            self.leave(place);
            return End::Left;
        }
        let next = self.take(place);
        let end = self.attend(hand, transport, next);
        if end == End::Refused || end == End::Left {
            self.leave(place);
        }
        end
    }

    /// Does what there is to do for a worker.
    #[tactic(auto, using(crate::proofs::Going::goes_nowhere, crate::proofs::Going::goes_unserved))]
    fn attend<T: Transport>(
        &self,
        hand: &mut Hand<L>,
        transport: &mut Guarded<T>,
        next: Next,
    ) -> End
        requires room { 1 < hand.old.notes.room }
        requires next { IsNextOf L.opening next }
        ensures { EndsWell (IsDue L.keeping L.opening) result (track_of hand.old.notes transport.old) (track_of hand.new.notes transport.new) }
    {
        match next {
            Next::Finished => End::Finished,
            Next::Serve(job, again) => match self.serve(hand, transport, job, again) {
                Ok(true) => End::Again,
                Ok(false) => End::Left,
                Err(_) => End::Refused,
            },
            Next::Short(ticket, again) => {
                let behind = uncalled(self.alloc, again);
                match self.fail(hand, ticket, Why::Memory, behind) {
                    Ok(()) => End::Again,
                    Err(_) => End::Refused,
                }
            }
            Next::Wait => End::Refused,
        }
    }

    /// Serves the leases of a place through a guarded transport, until nothing is leased or waits any more.
    #[tactic(auto, using(crate::proofs::Going::goes_nowhere, crate::proofs::Going::goes_further))]
    pub fn work<T: Transport>(
        &self,
        hand: &mut Hand<L>,
        transport: &mut Guarded<T>,
        place: ParkPlace,
    ) -> End
        ensures { EndsWell (IsDue L.keeping L.opening) result (track_of hand.old.notes transport.old) (track_of hand.new.notes transport.new) }
    {
        'serving: for _ in self.rt.forever() {
            let end = self.turn(hand, transport, place);
            if end != End::Again {
                return end;
            }
        }
        unreachable!()
    }
}
