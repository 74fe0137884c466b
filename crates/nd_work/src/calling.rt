//! A worker's transport, which nobody calls without leave.

ghost use Rattle.std.specs.Prelude.{◌≡◌};
ghost use Rattle.nd_transports.specs.Services.{Fetches, Serves};
ghost use Rattle.nd_run_desk.specs.Jobs.{IsJobOf, MayCall};
ghost use Rattle.nd_run_desk.specs.Leaves.{Allows};

use nd_leases::Ticket;
use nd_ledger::Job;
use nd_run_desk::{Leave, Opened, Step};
use nd_transports::{Fetch, Outcome, Phase, Transport, serve_build, serve_copy};
use std::marker::Model;

/// A transport that is called with leave alone. Contracts see it as its transport's state.
#[derive(Drop)]
pub struct Guarded<T: Transport> {
    transport: T,
}

impl<T: Transport> Model for Guarded<T> {
    ghost use Rattle.nd_transports.specs.Calls.{State};

    ghost Value = { State };

    ghost view = { λ guarded. T.state guarded.transport };
}

impl<T: Transport> Guarded<T> {
    /// Guards this transport.
    pub fn new(transport: T) -> Guarded<T>
        ensures { result ≡ T.state transport }
    {
        Guarded { transport }
    }

    /// The transport.
    pub fn into_inner(self) -> T
        ensures { T.state result ≡ self }
    {
        let Guarded { transport } = self;
        transport
    }

    /// Calls the machine of a lease's job and copies what it lacks, as [`serve_copy`]. Where the run keeps a journal
    /// the lease's choice is durable.
    #[tactic(auto, using(crate::proofs::Going::may_call))]
    pub(crate) fn fetch<L: Opened>(&mut self, leave: &Leave<L>, job: &Job) -> Fetch
        requires job { IsJobOf L.opening job.now }
        requires leave { Allows L.keeping.keeps leave.now.kept.entries leave.now.place Step.Call job.now.ticket }
        ensures may { MayCall L.keeping L.opening job.now leave.now.kept Step.Call }
        ensures fetches { Fetches self.old job.now leave.now.kept result self.new }
    {
        serve_copy(&mut self.transport, job, &leave.kept)
    }

    /// Builds what was copied, as [`serve_build`]. Where the run keeps a journal the lease's start is durable.
    #[tactic(auto, using(crate::proofs::Going::may_build))]
    pub(crate) fn build<L: Opened>(&mut self, leave: &Leave<L>, ticket: Ticket) -> Outcome
        requires phase { self.old.phase ≡ Phase.Copied }
        requires ticket { self.old.job.ticket ≡ ticket }
        requires job { IsJobOf L.opening self.old.job }
        requires leave { Allows L.keeping.keeps leave.now.kept.entries leave.now.place Step.Build ticket }
        ensures may { MayCall L.keeping L.opening self.old.job leave.now.kept Step.Build }
        ensures serves { Serves self.old leave.now.kept result self.new }
    {
        serve_build(&mut self.transport, &leave.kept)
    }
}
