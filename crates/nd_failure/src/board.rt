//! The statuses of a graph's nodes, kept as they change.
ghost use Rattle.std.specs.Prelude.{◌≡◌, ◌<◌, [], true, false, slice_set, length, replicate, vec_capacity, MatchBool, IfOk};
ghost use Rattle.nd_failure.specs.Kept.{AreZero};
ghost use Rattle.nd_failure.specs.Progress.{IsReady, IsStopped, HasFailure, untouched};
ghost use Rattle.nd_graph.specs.Graphs.{rows_of};
ghost use Rattle.nd_failure.specs.Statuses.{HasStatus, CanFail, AreCounts, IsNextReady, total_of};

use crate::edges::Edges;
use crate::spread::spread;
use crate::status::{Counts, Mark, Status};
use crate::unbuilt::{UnbuiltInputs, wake};
use nd_flags::NodeSet;
use nd_graph::Graph;
use std::alloc::{AllocError, Global};
use std::marker::Model;

/// The marks of `len` nodes, all of them free, and an empty work list with room for each node and one more.
fn fresh_lists(alloc: Global, len: usize) -> Result<(Vec<Mark>, Vec<usize>), AllocError>
    ensures marks { IfOk result (λ lists. lists.0.items ≡ replicate len Mark.Free) }
    ensures idle { IfOk result (λ lists. lists.1.items ≡ []) }
    ensures room { IfOk result (λ lists. len < vec_capacity lists.1) }
{
    let marks = vec![in alloc; Mark::Free; len]?;
    let work = Vec::with_capacity(alloc, len + 1)?;
    Ok((marks, work))
}

/// No node of `len`, and the nodes whose inputs are all built.
fn fresh_sets(
    alloc: Global,
    len: usize,
    unbuilt: &UnbuiltInputs,
) -> Result<(NodeSet, NodeSet), AllocError>
    ensures doomed { IfOk result (λ sets. sets.0 ≡ replicate len false) }
    ensures ready { IfOk result (λ sets. AreZero unbuilt.now sets.1) }
{
    let doomed = NodeSet::new(alloc, len)?;
    let ready = unbuilt.nodes_with_none(alloc)?;
    Ok((doomed, ready))
}

/// Equal marks, and an empty work list with this much room.
fn copied_lists(
    alloc: Global,
    marks: &[Mark],
    room: usize,
) -> Result<(Vec<Mark>, Vec<usize>), AllocError>
    ensures marks { IfOk result (λ lists. lists.0.items ≡ marks.now) }
    ensures idle { IfOk result (λ lists. lists.1.items ≡ []) }
    ensures room { IfOk result (λ lists. vec_capacity lists.1 ≡ room) }
{
    let copy = Vec::from_slice(alloc, marks)?;
    let work = Vec::with_capacity(alloc, room)?;
    Ok((copy, work))
}

/// Two equal sets.
fn copied_sets(
    alloc: Global,
    doomed: &NodeSet,
    ready: &NodeSet,
) -> Result<(NodeSet, NodeSet), AllocError>
    ensures doomed { IfOk result (λ sets. sets.0 ≡ doomed.now) }
    ensures ready { IfOk result (λ sets. sets.1 ≡ ready.now) }
{
    let first = doomed.try_clone(alloc)?;
    let second = ready.try_clone(alloc)?;
    Ok((first, second))
}

/// The statuses of a graph's nodes.
///
/// It keeps the number of unbuilt inputs of each node, the nodes that have a failed one below, the five counts, and the
/// free nodes whose inputs are all built, so that no call searches the nodes. Only `new` and `try_clone` take memory.
#[derive(Drop, Debug)]
pub struct Board {
    edges: Edges,
    keep_going: bool,
    stop: bool,
    marks: Vec<Mark>,
    unbuilt: UnbuiltInputs,
    doomed: NodeSet,
    ready: NodeSet,
    /// The counts as they are where nothing has stopped the board.
    counts: Counts,
    /// The nodes whose dependants are to be visited while a failure spreads: empty between calls, with room for all.
    work: Vec<usize>,
}

impl Model for Board {
    ghost use Rattle.nd_failure.specs.Progress.{Progress};

    ghost Value = { Progress };

    ghost use Rattle.nd_failure.specs.BoardParts.{IsKept};

    ghost view = { λ b. record { inputs = b.edges; keep_going = b.keep_going; marks = b.marks.items; stop = b.stop } };

    ghost invariant = { IsKept };
}

impl Board {
    /// The board of a graph on which nothing has happened yet; with `keep_going`, a failure cancels only what depends on it.
    pub fn new(alloc: Global, graph: &Graph, keep_going: bool) -> Result<Board, AllocError>
        ensures { IfOk result (λ board. board ≡ untouched (rows_of graph.now) keep_going) }
    {
        Board::over(alloc, Edges::new(alloc, graph)?, keep_going)
    }

    /// The board over these edges on which nothing has happened yet.
    fn over(alloc: Global, edges: Edges, keep_going: bool) -> Result<Board, AllocError>
        ensures { IfOk result (λ board. board ≡ untouched edges keep_going) }
    {
        let len = edges.len();
        let unbuilt = UnbuiltInputs::new(alloc, &edges)?;
        let (marks, work) = fresh_lists(alloc, len)?;
        let (doomed, ready) = fresh_sets(alloc, len, &unbuilt)?;
        Ok(Board {
            edges,
            keep_going,
            stop: false,
            marks,
            unbuilt,
            doomed,
            ready,
            counts: Counts::all_waiting(len),
            work,
        })
    }

    /// An equal board.
    pub fn try_clone(&self, alloc: Global) -> Result<Board, AllocError>
        ensures { IfOk result (λ copy. copy ≡ self.now) }
    {
        let (marks, work) = copied_lists(alloc, self.marks.as_slice(), self.work.capacity())?;
        let unbuilt = self.unbuilt.try_clone()?;
        let (doomed, ready) = copied_sets(alloc, &self.doomed, &self.ready)?;
        let edges = self.edges.try_clone()?;
        Ok(Board {
            edges,
            keep_going: self.keep_going,
            stop: self.stop,
            marks,
            unbuilt,
            doomed,
            ready,
            counts: self.counts,
            work,
        })
    }

    /// The edges of the board's graph.
    pub fn edges(&self) -> &Edges
        ensures { result.now ≡ self.now.inputs }
    {
        &self.edges
    }

    /// Node `i`, which is ready, is leased.
    #[tactic(auto, using(crate::proofs::BoardFacts::counted_ready, crate::proofs::BoardFacts::counts_fit))]
    pub fn leased(&mut self, i: usize)
        requires { IsReady self.old i }
        ensures { self.new ≡ record self.old { marks = slice_set self.old.marks i Mark.Leased } }
    {
        self.marks[i] = Mark::Leased;
        self.ready.remove(i);
        self.counts.change(Status::Waiting, Status::Leased);
    }

    /// The lease of node `i` is given back: it was not begun.
    #[tactic(auto, using(crate::proofs::BoardFacts::counted_leased, crate::proofs::BoardFacts::counts_fit))]
    pub fn back(&mut self, i: usize)
        requires { HasStatus self.old i Status.Leased }
        ensures { self.new ≡ record self.old { marks = slice_set self.old.marks i Mark.Free } }
    {
        self.marks[i] = Mark::Free;
        self.ready.insert(i);
        self.counts.change(Status::Leased, Status::Waiting);
    }

    /// Node `i`, which is leased, is built.
    #[tactic(auto, using(crate::proofs::BoardFacts::counted_leased, crate::proofs::BoardFacts::counts_fit))]
    pub fn built(&mut self, i: usize)
        requires { HasStatus self.old i Status.Leased }
        ensures { self.new ≡ record self.old { marks = slice_set self.old.marks i Mark.Built } }
    {
        self.marks[i] = Mark::Built;
        self.counts.change(Status::Leased, Status::Built);
        let dependants = self.edges.dependants(i);
        self.unbuilt.lower_all(dependants);
        wake(&mut self.ready, &self.unbuilt, dependants);
    }

    /// Node `i` fails, which is leased, or is ready and has no builder.
    pub fn failed(&mut self, i: usize)
        requires { CanFail self.old i }
        ensures { self.new ≡ record self.old { marks = slice_set self.old.marks i Mark.Failed } }
    {
        let was = self.status(i);
        self.marks[i] = Mark::Failed;
        self.ready.remove(i);
        self.counts.change(was, Status::Failed);
        let cancelled = spread(&self.edges, &mut self.doomed, &mut self.work, i);
        self.counts.waiting -= cancelled;
        self.counts.cancelled += cancelled;
    }

    /// No further lease is made.
    pub fn stop(&mut self)
        ensures { self.new ≡ record self.old { stop = true } }
    {
        self.stop = true;
    }

    /// Whether a stop was asked for.
    pub fn has_stop(&self) -> bool
        ensures { result ≡ self.now.stop }
    {
        self.stop
    }

    /// Whether some node has failed.
    fn has_failure(&self) -> bool
        ensures { MatchBool result (HasFailure self.now.marks) (HasFailure self.now.marks → ⊥) }
    {
        self.counts.failed > 0
    }

    /// Whether no further lease is made: a stop was asked for, or a node has failed and the others don't go on.
    fn is_stopped(&self) -> bool
        ensures { MatchBool result (IsStopped self.now) (IsStopped self.now → ⊥) }
    {
        self.stop || (!self.keep_going && self.has_failure())
    }

    /// The status of node `i`.
    pub fn status(&self, i: usize) -> Status
        requires { i < length self.now.inputs }
        ensures { HasStatus self.now i result }
    {
        match self.marks[i] {
            Mark::Leased => Status::Leased,
            Mark::Built => Status::Built,
            Mark::Failed => Status::Failed,
            Mark::Free if self.is_stopped() || self.doomed.contains(i) => Status::Cancelled,
            Mark::Free => Status::Waiting,
        }
    }

    /// How many nodes have each status.
    pub fn counts(&self) -> Counts
        ensures nodes { AreCounts self.now result }
        ensures sum { total_of result ≡ length self.now.inputs }
    {
        if !self.is_stopped() {
            return self.counts;
        }
        Counts {
            waiting: 0,
            cancelled: self.counts.waiting + self.counts.cancelled,
            ..self.counts
        }
    }

    /// Whether node `i` is ready.
    pub fn is_ready(&self, i: usize) -> bool
        requires { i < length self.now.inputs }
        ensures { MatchBool result (IsReady self.now i) (IsReady self.now i → ⊥) }
    {
        if self.is_stopped() {
            return false;
        }
        self.ready.contains(i)
    }

    /// The least ready node that is not before `from`, which may be any number.
    pub fn first_ready(&self, from: usize) -> Option<usize>
        ensures { IsNextReady self.now from result }
    {
        if self.is_stopped() {
            return None;
        }
        self.ready.first_from(from)
    }
}
