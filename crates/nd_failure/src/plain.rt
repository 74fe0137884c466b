//! The statuses of a graph's nodes, found by searching the nodes.
ghost use Rattle.std.specs.Prelude.{◌≡◌, ◌<◌, ◌⊎◌, ℕ, All, Contains, true, false, slice_set, length, MatchBool, IfOk};
ghost use Rattle.nd_graph.specs.Graphs.{rows_of};
ghost use Rattle.nd_graph.specs.Walks.{IsOrder};
ghost use Rattle.nd_failure.specs.Progress.{IsReady, IsStopped, HasFailure, untouched};
ghost use Rattle.nd_failure.specs.Statuses.{HasStatus, CanFail, AreCounts, IsNextReady, total_of};
ghost use Rattle.nd_failure.specs.Plain.{HasFailedInput, AreBuilt, AreSound};
ghost use Rattle.nd_failure.specs.Kept.{AreDoomed};

use crate::edges::input_rows;
use crate::status::{Counts, Mark, Status};
use nd_flags::{NodeSet, Rows};
use nd_graph::Graph;
use std::alloc::{AllocError, Global};
use std::marker::Model;

/// Whether an input has failed or has a failed node below.
fn has_failed_input(inputs: &[usize], marks: &[Mark], doomed: &NodeSet) -> bool
    requires in_range { All (λ c. c < length marks.now) inputs.now }
    requires sized { length doomed.now ≡ length marks.now }
    ensures { MatchBool result (HasFailedInput inputs.now marks.now doomed.now) (HasFailedInput inputs.now marks.now doomed.now → ⊥) }
{
    for input in inputs {
        if matches!(marks[*input], Mark::Failed) || doomed.contains(*input) {
            return true;
        }
    }
    false
}

/// Whether all inputs are built.
fn are_built(inputs: &[usize], marks: &[Mark]) -> bool
    requires { All (λ c. c < length marks.now) inputs.now }
    ensures { MatchBool result (AreBuilt inputs.now marks.now) (AreBuilt inputs.now marks.now → ⊥) }
{
    for input in inputs {
        if !matches!(marks[*input], Mark::Built) {
            return false;
        }
    }
    true
}

/// Puts all nodes that have a failed one below into the set: one walk up from the inputs.
fn find_doomed(inputs: &Rows, order: &[usize], marks: &[Mark], doomed: &mut NodeSet)
    requires order { IsOrder inputs.now order.now }
    requires marked { length marks.now ≡ length inputs.now }
    requires sound { AreSound inputs.now marks.now doomed.old }
    ensures { AreDoomed inputs.now marks.now doomed.new }
{
    for node in order {
        if has_failed_input(inputs.row(*node), marks, doomed) {
            doomed.insert(*node);
        }
    }
}

/// The statuses of a graph's nodes, as `Board` has them.
///
/// It keeps the three sets of nodes as marks, and which nodes have a failed one below; all else is found by a search over the
/// nodes. Only `new` and `try_clone` take memory.
#[derive(Drop, Debug)]
pub struct PlainBoard {
    inputs: Rows,
    /// The nodes, each after its inputs.
    order: Vec<usize>,
    keep_going: bool,
    stop: bool,
    marks: Vec<Mark>,
    doomed: NodeSet,
}

impl Model for PlainBoard {
    ghost use Rattle.nd_failure.specs.Progress.{Progress};

    ghost Value = { Progress };

    ghost use Rattle.nd_failure.specs.PlainParts.{IsPlain};

    ghost view = { λ b. record { inputs = b.inputs; keep_going = b.keep_going; marks = b.marks.items; stop = b.stop } };

    ghost invariant = { IsPlain };
}

impl PlainBoard {
    /// The board of a graph on which nothing has happened yet; with `keep_going`, a failure cancels only what depends on it.
    pub fn new(alloc: Global, graph: &Graph, keep_going: bool) -> Result<PlainBoard, AllocError>
        ensures { IfOk result (λ board. board ≡ untouched (rows_of graph.now) keep_going) }
    {
        Ok(PlainBoard {
            inputs: input_rows(alloc, graph)?,
            order: Vec::from_slice(alloc, graph.order())?,
            keep_going,
            stop: false,
            marks: vec![in alloc; Mark::Free; graph.len()]?,
            doomed: NodeSet::new(alloc, graph.len())?,
        })
    }

    /// An equal board.
    pub fn try_clone(&self, alloc: Global) -> Result<PlainBoard, AllocError>
        ensures { IfOk result (λ copy. copy ≡ self.now) }
    {
        Ok(PlainBoard {
            inputs: self.inputs.try_clone()?,
            order: Vec::from_slice(alloc, self.order.as_slice())?,
            keep_going: self.keep_going,
            stop: self.stop,
            marks: Vec::from_slice(alloc, self.marks.as_slice())?,
            doomed: self.doomed.try_clone(alloc)?,
        })
    }

    /// Node `i`, which is ready, is leased.
    pub fn leased(&mut self, i: usize)
        requires { IsReady self.old i }
        ensures { self.new ≡ record self.old { marks = slice_set self.old.marks i Mark.Leased } }
    {
        self.marks[i] = Mark::Leased;
    }

    /// The lease of node `i` is given back: it was not begun.
    pub fn back(&mut self, i: usize)
        requires { HasStatus self.old i Status.Leased }
        ensures { self.new ≡ record self.old { marks = slice_set self.old.marks i Mark.Free } }
    {
        self.marks[i] = Mark::Free;
    }

    /// Node `i`, which is leased, is built.
    pub fn built(&mut self, i: usize)
        requires { HasStatus self.old i Status.Leased }
        ensures { self.new ≡ record self.old { marks = slice_set self.old.marks i Mark.Built } }
    {
        self.marks[i] = Mark::Built;
    }

    /// Node `i` fails, which is leased, or is ready and has no builder.
    pub fn failed(&mut self, i: usize)
        requires { CanFail self.old i }
        ensures { self.new ≡ record self.old { marks = slice_set self.old.marks i Mark.Failed } }
    {
        self.marks[i] = Mark::Failed;
        find_doomed(
            &self.inputs,
            self.order.as_slice(),
            self.marks.as_slice(),
            &mut self.doomed,
        );
    }

    /// No further lease is made.
    pub fn stop(&mut self)
        ensures { self.new ≡ record self.old { stop = true } }
    {
        self.stop = true;
    }

    /// Whether some node has failed.
    fn has_failure(&self) -> bool
        ensures { MatchBool result (HasFailure self.now.marks) (HasFailure self.now.marks → ⊥) }
    {
        let marks = self.marks.as_slice();
        for mark in marks {
            if matches!(*mark, Mark::Failed) {
                return true;
            }
        }
        false
    }

    /// Whether no further lease is made: a stop was asked for, or a node has failed and the others don't go on.
    fn is_stopped(&self) -> bool
        ensures { MatchBool result (IsStopped self.now) (IsStopped self.now → ⊥) }
    {
        self.stop || (!self.keep_going && self.has_failure())
    }

    /// The status of node `i`.
    pub fn status(&self, i: usize) -> Status
        requires { i < length self.now.inputs }
        ensures { HasStatus self.now i result }
    {
        match self.marks[i] {
            Mark::Leased => Status::Leased,
            Mark::Built => Status::Built,
            Mark::Failed => Status::Failed,
            Mark::Free if self.is_stopped() || self.doomed.contains(i) => Status::Cancelled,
            Mark::Free => Status::Waiting,
        }
    }

    /// How many nodes have each status.
    pub fn counts(&self) -> Counts
        ensures nodes { AreCounts self.now result }
        ensures sum { total_of result ≡ length self.now.inputs }
    {
        let mut counts = Counts::all_waiting(0);
        for i in 0..self.marks.len() {
            counts.add(self.status(i));
        }
        counts
    }

    /// Whether node `i` is ready.
    pub fn is_ready(&self, i: usize) -> bool
        requires { i < length self.now.inputs }
        ensures { MatchBool result (IsReady self.now i) (IsReady self.now i → ⊥) }
    {
        match self.status(i) {
            Status::Waiting => are_built(self.inputs.row(i), self.marks.as_slice()),
            _ => false,
        }
    }

    /// The least ready node that is not before `from`, which may be any number.
    pub fn first_ready(&self, from: usize) -> Option<usize>
        ensures { IsNextReady self.now from result }
    {
        for i in from..self.marks.len() {
            if self.is_ready(i) {
                return Some(i);
            }
        }
        None
    }
}
