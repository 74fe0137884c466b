//! How a worker serves a lease: under the lock it makes entries, and with the lock free it calls its
//! transport.

ghost use Rattle.std.specs.Prelude.{◌≡◌, ◌+◌, ◌<◌, ◌≤◌, [], true, IfOk, OnOk, ℕ, List};
ghost use Rattle.nd_receipts.specs.Noted.{HasBegun, HasEnded, HasFetched, IsFinished, HasEndedAgain, GoesOn, afresh, track_of};
ghost use Rattle.nd_run_desk.specs.Jobs.{IsDue, IsJobOf};
ghost use Rattle.nd_run_desk.specs.Leaves.{Allows};
ghost use Rattle.nd_work.specs.Ends.{HasBuilt};

use crate::calling::Guarded;
use crate::floor::Floor;
use crate::hand::Hand;
use nd_closure::Refs;
use nd_history::{Entry, Why};
use nd_leases::Ticket;
use nd_ledger::{Job, Refusal, Refused};
use nd_path::PathSet;
use nd_receipts::Behind;
use nd_run_desk::{Leave, Opened, Step};
use nd_transports::{Fetch, Outcome, Phase, Transport};
use std::alloc::{AllocError, Global};
use std::sync::Wait;

/// What stands behind an end before the first call.
pub(crate) fn uncalled(alloc: Global, again: bool) -> Behind
    ensures calls { result.calls ≡ 0 }
    ensures again { result.again ≡ again }
{
    Behind {
        calls: 0,
        paths: PathSet::new(alloc),
        again,
    }
}

/// What stands behind the end of a lease that was started in the run: its build.
fn one_build(alloc: Global) -> Behind
    ensures { result ≡ afresh 1 [] }
{
    Behind {
        calls: 1,
        paths: PathSet::new(alloc),
        again: false,
    }
}

/// The entry of a start with a copy of these paths.
fn entry_of_start(drv: u32, paths: &PathSet) -> Result<Entry, AllocError>
    ensures { IfOk result (λ e. e ≡ Entry.Started drv paths.now) }
{
    let paths = paths.try_clone()?;
    Ok(Entry::Started { drv, paths })
}

/// The paths of a job alone.
fn into_paths(job: Job) -> PathSet
    ensures { result ≡ job.paths }
{
    let Job {
        ticket: _,
        path,
        output_paths,
        paths,
    } = job;
    drop(path);
    drop(output_paths);
    paths
}

/// The paths of a copy among this many calls: there is none where the first call was refused.
fn copied_paths(alloc: Global, calls: u8, paths: PathSet) -> PathSet
    ensures { calls ≡ 2 → result ≡ paths }
{
    if calls == 2 {
        return paths;
    }
    drop(paths);
    PathSet::new(alloc)
}

impl<'a, L: Opened, R: Wait> Floor<'a, L, R> {
    /// Makes a start with the paths that were copied. The answer is whether there was memory for it; where
    /// there was none the lease failed.
    fn begin(&self, hand: &mut Hand<L>, ticket: Ticket, paths: PathSet) -> Result<bool, Refusal>
        requires { 0 < hand.old.notes.room }
        ensures { IfOk result (HasBegun hand.old.notes hand.new.notes ticket.drv paths) }
    {
        let Ok(copy) = entry_of_start(ticket.drv, &paths) else {
            return self.unstarted(hand, ticket, Refusal::Memory, paths);
        };
        match self.start(hand, ticket, paths, copy) {
            Ok(()) => Ok(true),
            Err(Refused { why, value }) => self.unstarted(hand, ticket, why, value),
        }
    }

    /// What becomes of a start that was refused: for want of memory the lease failed.
    fn unstarted(
        &self,
        hand: &mut Hand<L>,
        ticket: Ticket,
        why: Refusal,
        paths: PathSet,
    ) -> Result<bool, Refusal>
        requires { 0 < hand.old.notes.room }
        ensures { IfOk result (HasBegun hand.old.notes hand.new.notes ticket.drv paths) }
    {
        if why != Refusal::Memory {
            drop(paths);
            return Err(why);
        }
        let behind = Behind {
            calls: 2,
            paths,
            again: false,
        };
        match self.fail(hand, ticket, Why::Memory, behind) {
            Ok(()) => Ok(false),
            Err(refusal) => Err(refusal),
        }
    }

    /// Ends a build that reported these references. Where it may not have them, or where there is no memory for
    /// them, the lease failed.
    #[tactic(auto, using(crate::proofs::Going::endings))]
    fn finish(
        &self,
        hand: &mut Hand<L>,
        ticket: Ticket,
        refs: Refs,
        behind: Behind,
    ) -> Result<(), Refusal>
        requires { 0 < hand.old.notes.room }
        ensures { OnOk result (HasEnded hand.old.notes hand.new.notes ticket.drv behind refs) }
    {
        let Ok(copy) = refs.try_clone() else {
            drop(refs);
            return self.unfinished(hand, ticket, Refusal::Memory, behind);
        };
        match self.end(hand, ticket, refs, copy, behind) {
            Ok(()) => Ok(()),
            Err(Refused { why, value }) => self.unfinished(hand, ticket, why, value),
        }
    }

    /// What becomes of an end that was refused: for want of memory the lease failed.
    #[tactic(auto, using(crate::proofs::Going::endings))]
    fn unfinished(
        &self,
        hand: &mut Hand<L>,
        ticket: Ticket,
        refusal: Refusal,
        behind: Behind,
    ) -> Result<(), Refusal>
        requires { 0 < hand.old.notes.room }
        ensures { (refs : List (List (List ℕ))) → OnOk result (HasEnded hand.old.notes hand.new.notes ticket.drv behind refs) }
    {
        if refusal != Refusal::Memory {
            drop(behind);
            return Err(refusal);
        }
        self.fail(hand, ticket, Why::Memory, behind)?;
        Ok(())
    }

    /// Builds what was copied, with leave for that, and makes the entry of its end, behind which this stands.
    #[tactic(auto, using(crate::proofs::Going::finishes_status, crate::proofs::Going::finishes_lost, crate::proofs::Going::finishes_unreported))]
    fn build_lease<T: Transport>(
        &self,
        hand: &mut Hand<L>,
        transport: &mut Guarded<T>,
        leave: &Leave<L>,
        ticket: Ticket,
        behind: Behind,
    ) -> Result<(), Refusal>
        requires room { 0 < hand.old.notes.room }
        requires phase { transport.old.phase ≡ Phase.Copied }
        requires ticket { transport.old.job.ticket ≡ ticket }
        requires job { IsJobOf L.opening transport.old.job }
        requires leave { Allows L.keeping.keeps leave.now.kept.entries leave.now.place Step.Build ticket }
        ensures { OnOk result (IsFinished (IsDue L.keeping L.opening) (track_of hand.old.notes transport.old) (track_of hand.new.notes transport.new) ticket.drv behind) }
    {
        match transport.build(leave, ticket) {
            Outcome::Built(refs) => {
                self.finish(hand, ticket, refs, behind)?;
                Ok(())
            }
            Outcome::Status(code) => {
                self.fail(hand, ticket, Why::Status(code), behind)?;
                Ok(())
            }
            Outcome::Lost => {
                self.fail(hand, ticket, Why::Lost, behind)?;
                Ok(())
            }
            Outcome::Memory => {
                self.fail(hand, ticket, Why::Memory, behind)?;
                Ok(())
            }
        }
    }

    /// Copies what a lease needs, with leave for that, and makes the entry of its start, or of its end where it can't
    /// start. The answer is whether it started.
    #[tactic(auto, using(crate::proofs::Going::has_begun, crate::proofs::Going::begun_room, crate::proofs::Going::goes_short, crate::proofs::Going::fetched_job, crate::proofs::Going::fetched_ticket))]
    fn fetch_lease<T: Transport>(
        &self,
        hand: &mut Hand<L>,
        transport: &mut Guarded<T>,
        leave: &Leave<L>,
        job: Job,
    ) -> Result<bool, Refusal>
        requires room { 0 < hand.old.notes.room }
        requires job { IsJobOf L.opening job }
        requires leave { Allows L.keeping.keeps leave.now.kept.entries leave.now.place Step.Call job.ticket }
        ensures goes { IfOk result (HasFetched (IsDue L.keeping L.opening) (track_of hand.old.notes transport.old) (track_of hand.new.notes transport.new) job.ticket.drv) }
        ensures phase { result ≡ Ok true → transport.new.phase ≡ Phase.Copied }
        ensures ticket { result ≡ Ok true → transport.new.job.ticket ≡ job.ticket }
        ensures job { result ≡ Ok true → IsJobOf L.opening transport.new.job }
        ensures room { OnOk result (hand.old.notes.room ≤ hand.new.notes.room + 1) }
    {
        let fetched = transport.fetch(leave, &job);
        let ticket = job.ticket;
        let paths = into_paths(job);
        match fetched {
            Fetch::Copied => {
                let begun = self.begin(hand, ticket, paths)?;
                Ok(begun)
            }
            Fetch::Refused(calls) => {
                let kept = copied_paths(self.alloc, calls, paths);
                self.down(hand, ticket, calls, kept)?;
                Ok(false)
            }
            Fetch::Memory => {
                drop(paths);
                let short = uncalled(self.alloc, false);
                self.fail(hand, ticket, Why::Memory, short)?;
                Ok(false)
            }
        }
    }

    /// Builds a lease that was started, once its start is durable. The answer is whether the worker goes on.
    #[tactic(auto, using(crate::proofs::Going::built_behind))]
    fn build_started<T: Transport>(
        &self,
        hand: &mut Hand<L>,
        transport: &mut Guarded<T>,
        ticket: Ticket,
    ) -> Result<bool, Refusal>
        requires room { 0 < hand.old.notes.room }
        requires phase { transport.old.phase ≡ Phase.Copied }
        requires ticket { transport.old.job.ticket ≡ ticket }
        requires job { IsJobOf L.opening transport.old.job }
        ensures { IfOk result (HasBuilt (IsDue L.keeping L.opening) (track_of hand.old.notes transport.old) (track_of hand.new.notes transport.new) ticket.drv) }
    {
        let Some(leave) = self.leave_for(Step::Build, &ticket) else {
            return Ok(false);
        };
        let behind = one_build(self.alloc);
        self.build_lease(hand, transport, &leave, ticket, behind)?;
        Ok(true)
    }

    /// Serves a lease that wasn't started before the run to its end. The answer is whether the worker goes on: it
    /// leaves where the journal has refused an entry that its next step stands behind.
    #[tactic(auto, using(crate::proofs::Going::goes_nowhere))]
    fn serve_anew<T: Transport>(
        &self,
        hand: &mut Hand<L>,
        transport: &mut Guarded<T>,
        job: Job,
    ) -> Result<bool, Refusal>
        requires room { 1 < hand.old.notes.room }
        requires job { IsJobOf L.opening job }
        ensures { OnOk result (GoesOn (IsDue L.keeping L.opening) (track_of hand.old.notes transport.old) (track_of hand.new.notes transport.new)) }
    {
        let ticket = job.ticket;
        let Some(leave) = self.leave_for(Step::Call, &ticket) else {
            drop(job);
            return Ok(false);
        };
        let started = self.fetch_lease(hand, transport, &leave, job)?;
        drop(leave);
        if !started {
            return Ok(true);
        }
        self.build_started(hand, transport, ticket)
    }

    /// Builds a lease once more that was started before the run: copies what it needs, and builds. Where its machine
    /// isn't reached, or the copy fails, it is lost: it can't be given back.
    #[tactic(auto, using(crate::proofs::Going::again_built, crate::proofs::Going::again_short, crate::proofs::Going::fetched_job, crate::proofs::Going::fetched_ticket))]
    fn build_again<T: Transport>(
        &self,
        hand: &mut Hand<L>,
        transport: &mut Guarded<T>,
        call: &Leave<L>,
        build: &Leave<L>,
        job: Job,
    ) -> Result<(), Refusal>
        requires room { 0 < hand.old.notes.room }
        requires job { IsJobOf L.opening job }
        requires call { Allows L.keeping.keeps call.now.kept.entries call.now.place Step.Call job.ticket }
        requires build { Allows L.keeping.keeps build.now.kept.entries build.now.place Step.Build job.ticket }
        ensures { OnOk result (HasEndedAgain (IsDue L.keeping L.opening) (track_of hand.old.notes transport.old) (track_of hand.new.notes transport.new) job.ticket.drv) }
    {
        let fetched = transport.fetch(call, &job);
        let ticket = job.ticket;
        let paths = into_paths(job);
        let again = true;
        match fetched {
            Fetch::Copied => {
                let calls = 3;
                let behind = Behind {
                    calls,
                    paths,
                    again,
                };
                self.build_lease(hand, transport, build, ticket, behind)?;
                Ok(())
            }
            Fetch::Refused(calls) => {
                let paths = copied_paths(self.alloc, calls, paths);
                let lost = Behind {
                    calls,
                    paths,
                    again,
                };
                self.fail(hand, ticket, Why::Lost, lost)?;
                Ok(())
            }
            Fetch::Memory => {
                drop(paths);
                let short = uncalled(self.alloc, again);
                self.fail(hand, ticket, Why::Memory, short)?;
                Ok(())
            }
        }
    }

    /// Serves a lease that was started before the run to its end. The answer is whether the worker goes on.
    #[tactic(auto, using(crate::proofs::Going::goes_again, crate::proofs::Going::goes_nowhere))]
    fn serve_again<T: Transport>(
        &self,
        hand: &mut Hand<L>,
        transport: &mut Guarded<T>,
        job: Job,
    ) -> Result<bool, Refusal>
        requires room { 0 < hand.old.notes.room }
        requires job { IsJobOf L.opening job }
        ensures { OnOk result (GoesOn (IsDue L.keeping L.opening) (track_of hand.old.notes transport.old) (track_of hand.new.notes transport.new)) }
    {
        let ticket = job.ticket;
        let Some(call) = self.leave_for(Step::Call, &ticket) else {
            drop(job);
            return Ok(false);
        };
        let Some(build) = self.leave_for(Step::Build, &ticket) else {
            drop(job);
            return Ok(false);
        };
        self.build_again(hand, transport, &call, &build, job)?;
        Ok(true)
    }

    /// Serves a lease to its end, once more where it was started before the run. The answer is whether the worker goes
    /// on.
    pub(crate) fn serve<T: Transport>(
        &self,
        hand: &mut Hand<L>,
        transport: &mut Guarded<T>,
        job: Job,
        again: bool,
    ) -> Result<bool, Refusal>
        requires room { 1 < hand.old.notes.room }
        requires job { IsJobOf L.opening job }
        ensures { OnOk result (GoesOn (IsDue L.keeping L.opening) (track_of hand.old.notes transport.old) (track_of hand.new.notes transport.new)) }
    {
        if again {
            return self.serve_again(hand, transport, job);
        }
        self.serve_anew(hand, transport, job)
    }
}
