//! Whose turn it is among the derivations that are ready.

ghost use Rattle.std.specs.Prelude.{◌≡◌, ◌+◌, ◌<◌, ℕ, All, Some, false, true, length, reverse, slice_get, slice_set, IfOk, IfSome};
ghost use Rattle.nd_graph.specs.Graphs.{IsSound};
ghost use Rattle.nd_history.specs.Choices.{HasDecision, HasReply};
ghost use Rattle.nd_history.specs.Premises.{premises_of};
ghost use Rattle.nd_kinds.specs.Kinds.{AreKinds, number_of};
ghost use Rattle.nd_pump.specs.Decided.{HasDecisionByKind};
ghost use Rattle.nd_pump.specs.Listing.{IsSized, ListsAlso, ListsTo, ListsEach, ListsAbove, ListsNews, IsNewsWithin, Wakes};
ghost use Rattle.nd_pump.specs.Turned.{AreListed, IsWhole, HasSearched, HasTurned, is_parked};
ghost use Rattle.nd_pump.specs.Vacancies.{AreAllVacant, AreVacant};
ghost use Rattle.nd_pump.specs.Queues.{IsFirstDue};

use crate::deciding::{decide_kind, reply_kind};
use crate::queue::Queue;
use crate::vacancies::Vacancies;
use nd_eligible::{Local, Need};
use nd_failure::Board;
use nd_history::{Book, Entry, Inputs};
use nd_hook::{Decision, Reply};
use nd_kinds::{Kind, Kinds};
use nd_machines::Machine;
use std::alloc::{AllocError, Global};
use std::marker::Model;

/// The derivations that are ready, by kind, the kinds that are passed over since they are to wait, and the
/// builders that may have a free slot. Only `new` takes memory.
#[derive(Drop, Debug)]
pub struct Turns {
    queue: Queue,
    kinds: Kinds,
    vacancies: Vacancies,
}

impl Model for Turns {
    ghost use Rattle.nd_pump.specs.Turned.{Turned};

    ghost Value = { Turned };

    ghost use Rattle.nd_pump.specs.TurnsKept.{turned, IsKept};

    ghost view = { turned };

    ghost invariant = { IsKept };
}

/// Lists a derivation where it is ready on the board.
#[tactic(auto, using(crate::proofs::Listing::listed_one, crate::proofs::Listing::listed_not))]
fn list_if_ready(queue: &mut Queue, board: &Board, drv: usize)
    requires node { drv < length board.now.inputs }
    requires sized { IsSized board.now queue.old }
    ensures { ListsAlso board.now drv queue.old queue.new }
{
    if board.is_ready(drv) {
        queue.add(drv);
    }
}

/// Lists each derivation that is ready on the board.
#[tactic(auto, using(crate::proofs::Listing::lists_none, crate::proofs::Listing::lists_next, crate::proofs::Listing::sized_still))]
fn list_ready(queue: &mut Queue, board: &Board, len: usize)
    requires board { length board.now.inputs ≡ len }
    requires sized { IsSized board.now queue.old }
    ensures { ListsTo board.now len queue.old queue.new }
{
    for drv in 0..len {
        list_if_ready(queue, board, drv);
    }
}

/// Lists each of these derivations that is ready on the board.
#[tactic(auto, using(crate::proofs::Listing::first_none, crate::proofs::Listing::first_next, crate::proofs::Listing::first_all, crate::proofs::Listing::sized_still))]
fn list_each(queue: &mut Queue, board: &Board, drvs: &[usize])
    requires within { All (λ d. d < length board.now.inputs) drvs.now }
    requires sized { IsSized board.now queue.old }
    ensures { ListsEach board.now drvs.now queue.old queue.new }
{
    for drv in drvs {
        list_if_ready(queue, board, *drv);
    }
}

/// Lists each derivation that is ready on the board and has `drv` among its inputs.
#[tactic(auto, using(crate::proofs::Listing::each_above, nd_failure::proofs::SpreadFacts::dependants_within))]
fn list_above(queue: &mut Queue, board: &Board, drv: usize)
    requires node { drv < length board.now.inputs }
    requires sized { IsSized board.now queue.old }
    ensures { ListsAbove board.now drv queue.old queue.new }
{
    list_each(queue, board, board.edges().dependants(drv));
}

/// Lists what an entry made ready, which the board has followed.
#[tactic(auto, using(crate::proofs::Listing::news_here, crate::proofs::Listing::news_above, crate::proofs::Listing::more_none))]
fn list_news(queue: &mut Queue, board: &Board, entry: &Entry)
    requires within { IsNewsWithin (length board.now.inputs) entry.now }
    requires sized { IsSized board.now queue.old }
    ensures { ListsNews board.now entry.now queue.old queue.new }
{
    match entry {
        Entry::Down { drv } => list_if_ready(queue, board, *drv as usize),
        Entry::Built { drv, .. } => list_above(queue, board, *drv as usize),
        Entry::Chosen { .. } | Entry::NoBuilder { .. } | Entry::Started { .. } => {}
        Entry::Failed { .. } | Entry::Stop | Entry::Drain { .. } | Entry::Enable { .. } => {}
    }
}

/// Wakes these groups.
#[tactic(auto, using(crate::proofs::Listing::wakes_none, crate::proofs::Listing::wakes_next, crate::proofs::Listing::wakes_all))]
fn wake_all(queue: &mut Queue, groups: &[usize])
    requires { All (λ n. n < length queue.old.parked) groups.now }
    ensures { Wakes groups.now queue.old queue.new }
{
    for group in groups {
        queue.wake(*group);
    }
}

/// The kind of a derivation.
fn kind_of(kinds: &Kinds, drv: usize) -> &Kind
    requires { drv < length kinds.now.numbers }
    ensures { slice_get kinds.now.kinds (number_of kinds.now drv) ≡ Some result.now }
{
    let numbers = kinds.numbers();
    kinds.kind(numbers[drv])
}

impl Turns {
    /// The turns of the derivations with these needs, as they are on the board; no kind is passed over, and each
    /// builder may have a free slot.
    pub fn new(
        alloc: Global,
        machines: &[Machine],
        local: &Local,
        needs: &[Need],
        board: &Board,
    ) -> Result<Turns, AllocError>
        requires { length board.now.inputs ≡ length needs.now }
        ensures whole { IfOk result IsWhole }
        ensures kinds { IfOk result (λ t. AreKinds machines.now local.now needs.now t.kinds) }
        ensures listed { IfOk result (λ t. AreListed board.now t.queue) }
        ensures parked { IfOk result (λ t. (n : ℕ) → is_parked t n ≡ false) }
        ensures vacant { IfOk result (λ t. AreAllVacant (length machines.now) t.vacant) }
    {
        let kinds = Kinds::new(alloc, machines, local, needs)?;
        let mut queue = Queue::new(alloc, kinds.numbers(), kinds.len())?;
        list_ready(&mut queue, board, needs.len());
        let vacancies = Vacancies::new(alloc, machines.len())?;
        Ok(Turns {
            queue,
            kinds,
            vacancies,
        })
    }

    /// The first derivation that is ready and of no kind that is passed over.
    pub(crate) fn next(&mut self) -> Option<usize>
        ensures same { self.new ≡ self.old }
        ensures first { IsFirstDue self.old.queue result }
    {
        self.queue.next()
    }

    /// The decision about derivation `drv`, found among the machines of its kind, and among the builders that may
    /// have a free slot where these are few. It takes no memory.
    pub fn decide_by_kind(&mut self, inputs: &Inputs, book: &Book, drv: usize) -> Decision
        requires sound { IsSound inputs.now.graph }
        requires node { drv < length inputs.now.graph.paths }
        requires park { book.now.machines ≡ length inputs.now.machines + 1 }
        requires kinds { AreKinds inputs.now.machines inputs.now.local inputs.now.graph.needs self.old.kinds }
        requires vacant { AreVacant (premises_of inputs.now) (reverse book.now.entries) self.old.vacant }
        ensures searched { HasSearched (premises_of inputs.now) (reverse book.now.entries) self.old self.new }
        ensures kind { HasDecisionByKind (premises_of inputs.now) (reverse book.now.entries) self.old.kinds drv result }
        ensures decision { HasDecision (premises_of inputs.now) (reverse book.now.entries) drv result }
    {
        // For the proof: what is decided about the kind is decided about each derivation with this need.
        let _need = inputs.graph.need(drv);
        let kind = kind_of(&self.kinds, drv);
        decide_kind(inputs, book, &mut self.vacancies, kind)
    }

    /// The hook's reply about derivation `drv`, whatever its status, found among the machines of its kind alone.
    /// It takes no memory.
    pub fn reply_by_kind(&self, inputs: &Inputs, book: &Book, drv: usize) -> Reply
        requires sound { IsSound inputs.now.graph }
        requires node { drv < length inputs.now.graph.paths }
        requires park { book.now.machines ≡ length inputs.now.machines + 1 }
        requires kinds { AreKinds inputs.now.machines inputs.now.local inputs.now.graph.needs self.now.kinds }
        ensures { HasReply (premises_of inputs.now) (reverse book.now.entries) drv result }
    {
        // For the proof: what is replied about the kind is replied about each derivation with this need.
        let _need = inputs.graph.need(drv);
        let kind = kind_of(&self.kinds, drv);
        reply_kind(inputs, book, kind)
    }

    /// A derivation isn't listed any more.
    pub(crate) fn remove(&mut self, drv: usize)
        requires { drv < length self.old.kinds.numbers }
        ensures kinds { self.new.kinds ≡ self.old.kinds }
        ensures vacant { self.new.vacant ≡ self.old.vacant }
        ensures queue { self.new.queue ≡ record self.old.queue { ready = slice_set self.old.queue.ready drv false } }
    {
        self.queue.remove(drv);
    }

    /// The kind of a derivation is passed over until it is woken.
    pub(crate) fn park(&mut self, drv: usize)
        requires { drv < length self.old.kinds.numbers }
        ensures kinds { self.new.kinds ≡ self.old.kinds }
        ensures vacant { self.new.vacant ≡ self.old.vacant }
        ensures queue { self.new.queue ≡ record self.old.queue { parked = slice_set self.old.queue.parked (number_of self.old.kinds drv) true } }
    {
        let number = self.queue.group(drv);
        self.queue.park(number);
    }

    /// Follows one more entry, which the board has followed: what it made ready is listed, no kind that may use
    /// `machine`, which it touches, is passed over, and that machine may have a free slot. It takes no memory.
    #[tactic(auto, using(crate::proofs::Listing::turned_awake, crate::proofs::Listing::turned_alone, crate::proofs::Listing::builder_ranged))]
    pub fn follow(&mut self, board: &Board, entry: &Entry, machine: Option<u32>)
        requires board { length board.now.inputs ≡ length self.old.kinds.numbers }
        requires within { IsNewsWithin (length board.now.inputs) entry.now }
        requires machine { IfSome machine (λ m. m < length self.old.kinds.users) }
        ensures turned { HasTurned board.now entry.now machine self.old self.new }
        ensures whole { IsWhole self.new }
    {
        self.vacancies.follow(machine);
        list_news(&mut self.queue, board, entry);
        if let Some(machine) = machine {
            wake_all(&mut self.queue, self.kinds.users(machine as usize));
        }
    }
}
