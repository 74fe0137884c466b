//! The dispatch: leases and their history.

ghost use Rattle.std.specs.Prelude.{◌≡◌, ℕ, ◌+◌, ◌<◌, ◌≤◌, ◌++◌, [], ◌∷◌, List, true, false, length, slice_index_or, reverse, IfOk, OnOk, IfErr, OnErr, IsOk, IsTrue, ◌↔◌};
ghost use Rattle.nd_history.specs.History.{live, lease_of, current_of, load, is_started, is_up, has_stop};
ghost use Rattle.nd_failure.specs.Statuses.{total_of};
ghost use Rattle.nd_history.specs.Choices.{machines_in, jobs_of, HasReply};
ghost use Rattle.nd_history.specs.Legal.{IsAllowed, IsLegal};
ghost use Rattle.nd_history.specs.Premises.{premises};
ghost use Rattle.nd_history.specs.Closing.{StartsAreProvisioned};
ghost use Rattle.nd_history.specs.Headline.{SlotsAreLeases, LeasesAreInOrder, StartsAreOnce, StartsAreEligible, CountsSum, ChoicesAreBest};
ghost use Rattle.nd_history.specs.Resting.{WaitsForLeases};
ghost use Rattle.nd_history.specs.Standing.{drvs_in};
ghost use Rattle.nd_history.specs.Statuses.{HasStatusIn, AreCountsIn, IsFinished};
ghost use Rattle.nd_history.specs.Pumping.{HasPumped, HasPumpedBy, AreAtRest};
ghost use Rattle.nd_ledger.specs.Moves.{IsStartRefused, IsEndRefused, IsJobRefused};
ghost use Rattle.nd_history.specs.References.{outputs_of};
ghost use Rattle.nd_provision.specs.Stored.{IsMissing, is_quiet};
ghost use Rattle.nd_ledger.specs.Worlds.{GoesOnFrom};
ghost use Rattle.nd_ledger.specs.Refusals.{IsLive, IsFailRefused, IsDownRefused, IsStopRefused};

use crate::fresh::{begin, make_halves};
use crate::job::{Job, copy_paths};
use crate::moving::{is_live, prepare_end, prepare_start};
use crate::refusal::{Refusal, Refused};
use crate::state::State;
use nd_bytes::Items;
use nd_closure::{RefTable, Refs};
use nd_eligible::Local;
use nd_failure::{Board, Counts, Status};
use nd_graph::Graph;
use nd_history::{Book, Entry, Inputs, Parts, Why};
use nd_hook::Reply;
use nd_leases::Ticket;
use nd_machines::Machine;
use nd_path::PathSet;
use nd_provision::Stores;
use nd_pump::{Turns, next_step};
use std::alloc::{AllocError, Global};
use std::marker::Model;
use std::thread::Threads;

/// Over a graph of fewer derivations a dispatch is made by one thread, which takes less time than a second one takes to
/// start.
const LARGE: usize = 4_096;

/// Leases and their history: it only ever holds a legal one. Contracts see the five inputs, which
/// never change, and the entries, oldest first.
#[derive(Drop)]
pub struct Dispatch {
    pub(crate) inputs: Inputs,
    pub(crate) state: State,
    pub(crate) stores: Stores,
}

impl Model for Dispatch {
    ghost use Rattle.nd_ledger.specs.Worlds.{World};

    ghost Value = { World };

    ghost use Rattle.nd_ledger.specs.Inner.{seen, IsKept};

    ghost view = { seen };

    ghost invariant = { IsKept };
}

impl Dispatch {
    ghost use Rattle.nd_ledger.specs.Inner.{room_for};

    /// A dispatch over these inputs, with the empty history. There are at most 1,024 builders.
    ///
    /// Where memory is refused the five inputs come back.
    pub fn new(
        alloc: Global,
        graph: Graph,
        machines: Vec<Machine>,
        local: Local,
        info: RefTable,
        keep_going: bool,
    ) -> Result<Dispatch, Parts>
        requires { length machines.items ≤ 1024 }
        ensures inputs { IfOk result (λ d. d.inputs ≡ premises graph machines.items local info.entries keep_going) }
        ensures empty { IfOk result (λ d. d.history ≡ []) }
        ensures back { IfErr result (λ p. p ≡ record { graph = graph; machines = machines; local = local; info = info; keep_going = keep_going }) }
    {
        let parts = Parts {
            graph,
            machines,
            local,
            info,
            keep_going,
        };
        let machines = parts.machines.as_slice();
        let Ok(stores) = Stores::new(alloc, &parts.graph, machines.len(), &parts.info) else {
            return Err(parts);
        };
        let Ok(state) = State::new(alloc, &parts.graph, machines, &parts.local, keep_going) else {
            return Err(parts);
        };
        Ok(begin(parts, stores, state))
    }

    /// The same as [`Dispatch::new`], by two threads where the graph is large: one makes what is kept of references and
    /// holdings, the other one the empty history with its board and its turns.
    ///
    /// Where memory is refused the five inputs come back.
    pub fn new_side_by_side(
        rt: &(impl Threads + Sync),
        alloc: Global,
        graph: Graph,
        machines: Vec<Machine>,
        local: Local,
        info: RefTable,
        keep_going: bool,
    ) -> Result<Dispatch, Parts>
        requires { length machines.items ≤ 1024 }
        ensures inputs { IfOk result (λ d. d.inputs ≡ premises graph machines.items local info.entries keep_going) }
        ensures empty { IfOk result (λ d. d.history ≡ []) }
        ensures back { IfErr result (λ p. p ≡ record { graph = graph; machines = machines; local = local; info = info; keep_going = keep_going }) }
    {
        if graph.len() < LARGE {
            return Dispatch::new(alloc, graph, machines, local, info, keep_going);
        }
        let parts = Parts {
            graph,
            machines,
            local,
            info,
            keep_going,
        };
        let (stores, state) = make_halves(rt, alloc, &parts);
        let Ok(stores) = stores else {
            return Err(parts);
        };
        let Ok(state) = state else {
            return Err(parts);
        };
        Ok(begin(parts, stores, state))
    }

    /// Again and again the first derivation, in the order of the bundle, that is ready and whose
    /// decision is not to wait gets its choice or the word that nothing can build it, until there is
    /// none. The answer is the number of these steps; those made before a refusal stand. Where no lease
    /// is live after an answer, nothing waits.
    pub fn pump(&mut self) -> Result<usize, AllocError>
        ensures inputs { self.new.inputs ≡ self.old.inputs }
        ensures steps { IfOk result (HasPumpedBy self.old.inputs self.old.history self.new.history) }
        ensures rest { OnOk result (AreAtRest self.new.inputs (reverse self.new.history)) }
        ensures idle { OnOk result (WaitsForLeases self.new.inputs (reverse self.new.history)) }
        ensures err { OnErr result (HasPumped self.old.inputs self.old.history self.new.history) }
    {
        let before = self.state.book.entries().len();
        while let Some(step) = next_step(
            &self.inputs,
            &self.state.book,
            &self.state.board,
            &mut self.state.turns,
        ) {
            self.state.append(step)?; // it stands, whatever comes behind it
        }
        let _order = self.inputs.graph.order();
        Ok(self.state.book.entries().len() - before)
    }

    /// Appends an entry that is legal where it stands, and is no start and no build. Where memory is refused
    /// nothing is appended.
    pub(crate) fn append(&mut self, entry: Entry) -> Result<(), AllocError>
        requires allowed { IsAllowed self.old.inputs entry (reverse self.old.history) }
        requires quiet { is_quiet entry ≡ true }
        ensures ok { OnOk result (self.new ≡ record self.old { history = self.old.history ++ entry ∷ [] }) }
        ensures err { OnErr result (self.new ≡ self.old) }
    {
        self.state.append(entry)?;
        Ok(())
    }

    /// A build starts, after these paths were copied to its machine.
    ///
    /// Refuses with `NotLive` (1) where the ticket is not a live lease's, then with `AlreadyStarted`
    /// (2) where the lease was started, then with `Uncovered` (4) where a path of the input closure is
    /// neither held by the machine nor copied, then with `Extra` (5) where a copied path is outside the
    /// closure, and with `Memory` (8) where an allocation is refused. The paths come back then.
    pub fn started(
        &mut self,
        alloc: Global,
        ticket: Ticket,
        paths: PathSet,
    ) -> Result<(), Refused<PathSet>>
        ensures ok { OnOk result (self.new ≡ record self.old { history = self.old.history ++ Entry.Started ticket.drv paths ∷ [] }) }
        ensures live { OnOk result (IsLive (reverse self.old.history) ticket) }
        ensures allowed { OnOk result (IsAllowed self.old.inputs (Entry.Started ticket.drv paths) (reverse self.old.history)) }
        ensures refused { IfErr result (λ e. IsStartRefused self.old.inputs (reverse self.old.history) ticket paths e.why) }
        ensures err { OnErr result (self.new ≡ self.old) }
        ensures back { IfErr result (λ e. e.value ≡ paths) }
    {
        match prepare_start(
            alloc,
            &self.inputs,
            &mut self.state.book,
            &mut self.stores,
            ticket,
            &paths,
        ) {
            Ok(additions) => {
                self.state.enter(Entry::Started {
                    drv: ticket.drv,
                    paths,
                });
                self.stores.take_in(additions);
                Ok(())
            }
            Err(why) => Err(Refused { why, value: paths }),
        }
    }

    /// A build ends with its outputs, which have these references.
    ///
    /// Refuses with `NotLive` (1) where the ticket is not a live lease's, then with `NotStarted` (3)
    /// where the lease was not started, then with `BadReferences` (6) where there is not one set per
    /// output, or a reference is neither in the input closure nor an output, and with `Memory` (8)
    /// where an allocation is refused, which comes only where there is one set per output. The references
    /// come back then.
    pub fn built(&mut self, alloc: Global, ticket: Ticket, refs: Refs) -> Result<(), Refused<Refs>>
        ensures ok { OnOk result (self.new ≡ record self.old { history = self.old.history ++ Entry.Built ticket.drv refs ∷ [] }) }
        ensures live { OnOk result (IsLive (reverse self.old.history) ticket) }
        ensures allowed { OnOk result (IsAllowed self.old.inputs (Entry.Built ticket.drv refs) (reverse self.old.history)) }
        ensures refused { IfErr result (λ e. IsEndRefused self.old.inputs (reverse self.old.history) ticket refs e.why) }
        ensures err { OnErr result (self.new ≡ self.old) }
        ensures back { IfErr result (λ e. e.value ≡ refs) }
    {
        match prepare_end(
            alloc,
            &self.inputs,
            &self.state.book,
            &mut self.stores,
            ticket,
            &refs,
        ) {
            Ok(additions) => {
                self.state.enter(Entry::Built {
                    drv: ticket.drv,
                    refs,
                });
                self.stores.take_in(additions);
                Ok(())
            }
            Err(why) => Err(Refused { why, value: refs }),
        }
    }

    /// The paths of the lease's input closure that its machine doesn't hold now.
    ///
    /// Refuses with `NotLive` (1) where the ticket is not a live lease's, and with `Memory` (8) where an
    /// allocation is refused.
    pub fn missing(&self, alloc: Global, ticket: &Ticket) -> Result<PathSet, Refusal>
        ensures ok { IfOk result (IsMissing self.now.inputs (reverse self.now.history) ticket.now.drv ticket.now.machine) }
        ensures live { OnOk result (IsLive (reverse self.now.history) ticket.now) }
        ensures refused { IfErr result (IsJobRefused (reverse self.now.history) ticket.now) }
    {
        if !is_live(&self.state.book, *ticket) {
            return Err(Refusal::NotLive);
        }
        Ok(
            self.stores.missing(
                alloc,
                &self.inputs,
                ticket.drv as usize,
                ticket.machine as usize,
            )?,
        )
    }

    /// What a worker needs to know of a lease: its ticket, the derivation's path, the paths of its
    /// outputs in the order in which the graph has them, and the paths that [`Dispatch::missing`] gives.
    ///
    /// Refuses with `NotLive` (1) where the ticket is not a live lease's, and with `Memory` (8) where an
    /// allocation is refused.
    pub fn job(&self, alloc: Global, ticket: &Ticket) -> Result<Job, Refusal>
        ensures ticket { IfOk result (λ job. job.ticket ≡ ticket.now) }
        ensures live { OnOk result (IsLive (reverse self.now.history) ticket.now) }
        ensures path { IfOk result (λ job. job.path ≡ slice_index_or self.now.inputs.graph.paths ticket.now.drv []) }
        ensures outputs { IfOk result (λ job. job.output_paths ≡ outputs_of self.now.inputs ticket.now.drv) }
        ensures paths { IfOk result (λ job. IsMissing self.now.inputs (reverse self.now.history) ticket.now.drv ticket.now.machine job.paths) }
        ensures refused { IfErr result (IsJobRefused (reverse self.now.history) ticket.now) }
    {
        let paths = self.missing(alloc, ticket)?;
        let drv = ticket.drv as usize;
        Ok(Job {
            ticket: *ticket,
            path: self.inputs.graph.path(drv).try_clone()?,
            output_paths: copy_paths(alloc, self.inputs.graph.outputs(drv))?,
            paths,
        })
    }

    /// The end of a lease without its outputs. It takes no memory.
    ///
    /// Refuses with `NotLive` (1) where the ticket is not a live lease's, and else succeeds.
    pub fn failed(&mut self, ticket: Ticket, why: Why) -> Result<(), Refusal>
        ensures ok { OnOk result (self.new ≡ record self.old { history = self.old.history ++ Entry.Failed ticket.drv why ∷ [] }) }
        ensures live { OnOk result (IsLive (reverse self.old.history) ticket) }
        ensures allowed { OnOk result (IsAllowed self.old.inputs (Entry.Failed ticket.drv why) (reverse self.old.history)) }
        ensures refused { IfErr result (λ e. IsFailRefused (reverse self.old.history) ticket e) }
        ensures err { OnErr result (self.new ≡ self.old) }
        ensures succeeds { IsLive (reverse self.old.history) ticket → IsOk result }
    {
        if !is_live(&self.state.book, ticket) {
            return Err(Refusal::NotLive);
        }
        self.state.enter(Entry::Failed {
            drv: ticket.drv,
            why,
        });
        Ok(())
    }

    /// A lease is given back before its start: its machine couldn't be reached, or the copy failed.
    /// The machine is down from then on, and the derivation waits again. It takes no memory.
    ///
    /// Refuses with `NotLive` (1) where the ticket is not a live lease's, then with `AlreadyStarted`
    /// (2) where the lease was started, and else succeeds.
    pub fn down(&mut self, ticket: Ticket) -> Result<(), Refusal>
        ensures ok { OnOk result (self.new ≡ record self.old { history = self.old.history ++ Entry.Down ticket.drv ∷ [] }) }
        ensures live { OnOk result (IsLive (reverse self.old.history) ticket) }
        ensures allowed { OnOk result (IsAllowed self.old.inputs (Entry.Down ticket.drv) (reverse self.old.history)) }
        ensures refused { IfErr result (λ e. IsDownRefused (reverse self.old.history) ticket e) }
        ensures err { OnErr result (self.new ≡ self.old) }
        ensures succeeds { IsLive (reverse self.old.history) ticket → is_started ticket.drv (reverse self.old.history) ≡ false → IsOk result }
    {
        if !is_live(&self.state.book, ticket) {
            return Err(Refusal::NotLive);
        }
        if self.state.book.is_started(ticket.drv as usize) {
            return Err(Refusal::AlreadyStarted);
        }
        self.state.enter(Entry::Down { drv: ticket.drv });
        Ok(())
    }

    /// No further lease is made: what waits is cancelled, and what is leased goes on, a lease that wasn't started
    /// yet too. It takes no memory.
    ///
    /// Refuses with `AlreadyStopped` (7) where a stop was asked for before, and else succeeds.
    pub fn stop(&mut self) -> Result<(), Refusal>
        ensures ok { OnOk result (self.new ≡ record self.old { history = self.old.history ++ Entry.Stop ∷ [] }) }
        ensures allowed { OnOk result (IsAllowed self.old.inputs Entry.Stop (reverse self.old.history)) }
        ensures refused { IfErr result (λ e. IsStopRefused (reverse self.old.history) e) }
        ensures err { OnErr result (self.new ≡ self.old) }
        ensures first { has_stop (reverse self.old.history) ≡ false → IsOk result }
    {
        if self.state.board.has_stop() {
            return Err(Refusal::AlreadyStopped);
        }
        self.state.enter(Entry::Stop);
        Ok(())
    }

    /// Machine `machine` gets no more leases until it is enabled. Its live leases go on.
    pub fn drain(&mut self, machine: u32) -> Result<(), AllocError>
        requires { machine < machines_in self.old.inputs }
        ensures ok { OnOk result (self.new ≡ record self.old { history = self.old.history ++ Entry.Drain machine ∷ [] }) }
        ensures allowed { OnOk result (IsAllowed self.old.inputs (Entry.Drain machine) (reverse self.old.history)) }
        ensures err { OnErr result (self.new ≡ self.old) }
    {
        self.append(Entry::Drain { machine })
    }

    /// Machine `machine` gets leases again: this undoes a `drain` and a `down` alike.
    pub fn enable(&mut self, machine: u32) -> Result<(), AllocError>
        requires { machine < machines_in self.old.inputs }
        ensures ok { OnOk result (self.new ≡ record self.old { history = self.old.history ++ Entry.Enable machine ∷ [] }) }
        ensures allowed { OnOk result (IsAllowed self.old.inputs (Entry.Enable machine) (reverse self.old.history)) }
        ensures err { OnErr result (self.new ≡ self.old) }
    {
        self.append(Entry::Enable { machine })
    }

    /// A copy that is equal to the original. It keeps room of its own for the end of each live lease and
    /// for a stop.
    pub fn try_clone(&self, alloc: Global) -> Result<Dispatch, AllocError>
        ensures { IfOk result (λ copy. copy ≡ self.now) }
    {
        let inputs = self.inputs.try_clone(alloc)?;
        let Ok(book) = self.state.book.try_clone(alloc) else {
            drop(inputs);
            return Err(AllocError);
        };
        let Ok(stores) = self.stores.try_clone(alloc) else {
            drop(inputs);
            drop(book);
            return Err(AllocError);
        };
        let Ok(board) = self.state.board.try_clone(alloc) else {
            drop(inputs);
            drop(book);
            drop(stores);
            return Err(AllocError);
        };
        let Ok(turns) = Turns::new(
            alloc,
            inputs.machines.as_slice(),
            &inputs.local,
            inputs.graph.needs(),
            &board,
        ) else {
            drop(inputs);
            drop(book);
            drop(stores);
            drop(board);
            return Err(AllocError);
        };
        Ok(Dispatch {
            inputs,
            state: State { book, board, turns },
            stores,
        })
    }

    /// Whether this dispatch goes on from the other one: it has the same five inputs, and its history
    /// begins with the other's. It takes no memory.
    pub fn extends(&self, other: &Dispatch) -> bool
        ensures { IsTrue result ↔ GoesOnFrom self.now other.now }
    {
        if !self.inputs.is_same(&other.inputs) {
            return false;
        }
        self.state.book.extends(&other.state.book)
    }

    /// The hook's reply about derivation `drv`, as the machines are now. It doesn't ask how the derivation
    /// stands, and takes no memory.
    pub fn ask(&self, drv: u32) -> Reply
        requires { drv < length self.now.inputs.graph.paths }
        ensures { HasReply self.now.inputs (reverse self.now.history) drv result }
    {
        self.state
            .turns
            .reply_by_kind(&self.inputs, &self.state.book, drv as usize)
    }

    /// The live lease on this slot of this machine.
    pub fn current(&self, machine: u32, slot: u32) -> Option<Ticket>
        ensures { result ≡ current_of machine slot (reverse self.now.history) }
    {
        self.state.book.current(machine, slot)
    }

    /// The live lease of derivation `drv`.
    pub fn lease(&self, drv: u32) -> Option<Ticket>
        ensures { result ≡ lease_of drv (reverse self.now.history) }
    {
        self.state.book.lease(drv)
    }

    /// The status of derivation `i`: built, failed or leased as its entries say; else cancelled where
    /// no further lease is made or a derivation that it depends on failed; and else waiting. What a failure
    /// cancels is the rule of Nix (Nix Reference Manual, the option `--keep-going`). It takes no memory.
    pub fn status(&self, i: usize) -> Status
        requires { i < drvs_in self.now.inputs }
        ensures { HasStatusIn self.now.inputs (reverse self.now.history) i result }
    {
        self.state.board.status(i)
    }

    /// How many derivations have each status. The five numbers sum to the number of derivations. It takes
    /// no memory.
    pub fn counts(&self) -> Counts
        ensures drvs { AreCountsIn self.now.inputs (reverse self.now.history) result }
        ensures sum { total_of result ≡ drvs_in self.now.inputs }
    {
        self.state.board.counts()
    }

    /// Whether the run is over: no derivation waits, and none is leased. It takes no memory.
    pub fn finished(&self) -> bool
        ensures { IsTrue result ↔ IsFinished self.now.inputs (reverse self.now.history) }
    {
        let board = &self.state.board;
        let counts = board.counts();
        if counts.waiting > 0 {
            return false;
        }
        counts.leased == 0
    }

    /// The number of taken slots of this machine.
    pub fn taken(&self, machine: u32) -> u32
        requires { machine < machines_in self.now.inputs }
        ensures { result ≡ load machine (reverse self.now.history) }
    {
        self.state.book.load(machine) as u32
    }

    /// Whether this machine is up.
    pub fn up(&self, machine: u32) -> bool
        requires { machine < machines_in self.now.inputs }
        ensures { result ≡ is_up machine (reverse self.now.history) }
    {
        self.state.book.is_up(machine as usize)
    }

    /// The entries so far, oldest first. They are a legal history of the five inputs, and so:
    ///
    /// - slots are leases: each slot of a machine is taken by at most one live lease, and no machine
    ///   has more of them than it may build at once;
    /// - one lease, inputs first: no derivation has two live leases, and none was leased before its
    ///   inputs were built; and none was started twice;
    /// - eligible and provisioned: each start was that of a lease on a machine that was eligible, and
    ///   that machine holds the derivation's input closure;
    /// - counts sum: each derivation has one status and no other, and the numbers of derivations with
    ///   each status sum to the number of derivations;
    /// - least-loaded choice: each choice of a builder was the least loaded of the eligible machines
    ///   that were up and free at its place in the history.
    #[tactic(auto, using(nd_history::proofs::Headline::slots_are_leases, nd_history::proofs::Headline::leases_are_in_order, nd_history::proofs::StartsOnce::starts_are_once, nd_history::proofs::Headline::starts_are_eligible, nd_history::proofs::Tallies::counts_sum, nd_history::proofs::Headline::choices_are_best, nd_history::proofs::Provisions::starts_are_provisioned))]
    pub fn history(&self) -> &[Entry]
        ensures value { result.now ≡ self.now.history }
        ensures legal { IsLegal self.now.inputs (reverse self.now.history) }
        ensures slots { SlotsAreLeases self.now.inputs (reverse self.now.history) }
        ensures leases { LeasesAreInOrder self.now.inputs (reverse self.now.history) }
        ensures once { StartsAreOnce (reverse self.now.history) }
        ensures starts { StartsAreEligible self.now.inputs (reverse self.now.history) }
        ensures provisioned { StartsAreProvisioned self.now.inputs (reverse self.now.history) }
        ensures counts { CountsSum self.now.inputs (reverse self.now.history) }
        ensures choices { ChoicesAreBest self.now.inputs (reverse self.now.history) }
    {
        self.state.book.entries()
    }

    /// The derivations and what each needs.
    pub fn graph(&self) -> &Graph
        ensures { result.now ≡ self.now.inputs.graph }
    {
        &self.inputs.graph
    }

    /// The builders, at most 1,024: the one at place p is machine p + 1.
    pub fn machines(&self) -> &[Machine]
        ensures value { result.now ≡ self.now.inputs.machines }
        ensures few { length result.now ≤ 1024 }
    {
        self.inputs.machines.as_slice()
    }

    /// How many machines there are, the local one among them.
    pub fn machine_count(&self) -> u32
        ensures { result ≡ machines_in self.now.inputs }
    {
        self.machines().len() as u32 + 1
    }

    /// How many builds may run at once on this machine, the first of which, machine 0, is the local one. There are
    /// none on one that isn't in the park.
    pub fn jobs_on(&self, machine: u32) -> u32
        ensures { result ≡ jobs_of self.now.inputs machine }
    {
        self.inputs.jobs_on(machine)
    }

    /// The settings of the local machine.
    pub fn local(&self) -> &Local
        ensures { result.now ≡ self.now.inputs.local }
    {
        &self.inputs.local
    }
}
