//! Whether two dispatches have the same inputs, and one's entries begin with the other's.

ghost use Rattle.std.specs.Prelude.{◌≡◌, ◌↔◌, ◌<◌, IsTrue, length};
ghost use Rattle.nd_history.specs.Sameness.{IsSameNode, BeginsWith};

use crate::entry::{Entry, Why};
use nd_bytes::ByteString;
use nd_closure::Refs;
use nd_eligible::{Local, Need};
use nd_graph::{Graph, Input};
use nd_machines::{FeatureSet, Machine};
use nd_path::{PathSet, StorePath};

/// Values of which it can be told whether they are the same.
pub(crate) trait Same {
    /// Whether the two are the same.
    fn is_same(&self, other: &Self) -> bool
        ensures { IsTrue result ↔ (self.now ≡ other.now) };
}

/// Whether these lists are the same.
#[tactic(auto, using(crate::proofs::Alike::same_on, crate::proofs::Alike::apart_at, crate::proofs::Alike::same_whole))]
pub(crate) fn are_same<T: Same>(items: &[T], others: &[T]) -> bool
    ensures { IsTrue result ↔ (items.now ≡ others.now) }
{
    if items.len() != others.len() {
        return false;
    }
    for i in 0..items.len() {
        if !items[i].is_same(&others[i]) {
            return false;
        }
    }
    true
}

impl Same for u8 {
    fn is_same(&self, other: &u8) -> bool {
        *self == *other
    }
}

impl Same for usize {
    fn is_same(&self, other: &usize) -> bool {
        *self == *other
    }
}

impl Same for ByteString {
    fn is_same(&self, other: &ByteString) -> bool {
        self == other
    }
}

impl Same for FeatureSet {
    fn is_same(&self, other: &FeatureSet) -> bool {
        self == other
    }
}

impl Same for StorePath {
    fn is_same(&self, other: &StorePath) -> bool {
        self == other
    }
}

impl Same for PathSet {
    fn is_same(&self, other: &PathSet) -> bool {
        self == other
    }
}

impl Same for Machine {
    fn is_same(&self, other: &Machine) -> bool {
        self == other
    }
}

impl Same for Why {
    fn is_same(&self, other: &Why) -> bool {
        self == other
    }
}

impl Same for Refs {
    fn is_same(&self, other: &Refs) -> bool {
        are_same(self.lists(), other.lists())
    }
}

impl Same for Need {
    #[tactic(auto, using(crate::proofs::Alike::same_need))]
    fn is_same(&self, other: &Need) -> bool {
        if self.prefer_local != other.prefer_local {
            return false;
        }
        if self.builtin != other.builtin {
            return false;
        }
        if !self.system.is_same(&other.system) {
            return false;
        }
        self.features.is_same(&other.features)
    }
}

impl Same for Input {
    #[tactic(auto, using(crate::proofs::Alike::same_input))]
    fn is_same(&self, other: &Input) -> bool {
        if self.node != other.node {
            return false;
        }
        are_same(self.outputs.as_slice(), other.outputs.as_slice())
    }
}

impl Same for Local {
    #[tactic(auto, using(crate::proofs::Alike::same_settings))]
    fn is_same(&self, other: &Local) -> bool {
        if self.jobs() != other.jobs() {
            return false;
        }
        if !are_same(self.system(), other.system()) {
            return false;
        }
        if !self.extra().is_same(other.extra()) {
            return false;
        }
        self.features().is_same(other.features())
    }
}

/// Whether node `i` is the same in both graphs, its need aside.
fn is_same_node(graph: &Graph, other: &Graph, i: usize) -> bool
    requires here { i < length graph.now.paths }
    requires there { i < length other.now.paths }
    ensures { IsTrue result ↔ IsSameNode graph.now other.now i }
{
    if !graph.path(i).is_same(other.path(i)) {
        return false;
    }
    if !are_same(graph.inputs(i), other.inputs(i)) {
        return false;
    }
    if !are_same(graph.sources(i), other.sources(i)) {
        return false;
    }
    are_same(graph.outputs(i), other.outputs(i))
}

/// Whether the graphs are the same.
#[tactic(auto, using(crate::proofs::Alike::same_graph, crate::proofs::Alike::node_itself))]
pub(crate) fn is_same_graph(graph: &Graph, other: &Graph) -> bool
    ensures { IsTrue result ↔ (graph.now ≡ other.now) }
{
    if graph.len() != other.len() {
        return false;
    }
    for i in 0..graph.len() {
        if !is_same_node(graph, other, i) {
            return false;
        }
    }
    are_same(graph.needs(), other.needs())
}

/// Whether the entry is this choice.
fn is_chosen(entry: &Entry, drv: u32, machine: u32, slot: u32) -> bool
    ensures { IsTrue result ↔ (Entry.Chosen drv machine slot ≡ entry.now) }
{
    match entry {
        Entry::Chosen {
            drv: d,
            machine: m,
            slot: s,
        } => {
            if drv != *d {
                return false;
            }
            if machine != *m {
                return false;
            }
            slot == *s
        }
        _ => false,
    }
}

/// Whether the entry says that nothing can build this derivation.
fn is_no_builder(entry: &Entry, drv: u32) -> bool
    ensures { IsTrue result ↔ (Entry.NoBuilder drv ≡ entry.now) }
{
    match entry {
        Entry::NoBuilder { drv: d } => drv == *d,
        _ => false,
    }
}

/// Whether the entry is the start of this derivation with these paths.
fn is_start(entry: &Entry, drv: u32, paths: &PathSet) -> bool
    ensures { IsTrue result ↔ (Entry.Started drv paths.now ≡ entry.now) }
{
    match entry {
        Entry::Started { drv: d, paths: p } => {
            if drv != *d {
                return false;
            }
            paths.is_same(p)
        }
        _ => false,
    }
}

/// Whether the entry gives the lease of this derivation back.
fn is_down(entry: &Entry, drv: u32) -> bool
    ensures { IsTrue result ↔ (Entry.Down drv ≡ entry.now) }
{
    match entry {
        Entry::Down { drv: d } => drv == *d,
        _ => false,
    }
}

/// Whether the entry is the end of this build with these references.
fn is_build(entry: &Entry, drv: u32, refs: &Refs) -> bool
    ensures { IsTrue result ↔ (Entry.Built drv refs.now ≡ entry.now) }
{
    match entry {
        Entry::Built { drv: d, refs: r } => {
            if drv != *d {
                return false;
            }
            refs.is_same(r)
        }
        _ => false,
    }
}

/// Whether the entry is this failure.
fn is_failure(entry: &Entry, drv: u32, why: Why) -> bool
    ensures { IsTrue result ↔ (Entry.Failed drv why ≡ entry.now) }
{
    match entry {
        Entry::Failed { drv: d, why: w } => {
            if drv != *d {
                return false;
            }
            why.is_same(w)
        }
        _ => false,
    }
}

/// Whether the entry is a stop.
fn is_stop(entry: &Entry) -> bool
    ensures { IsTrue result ↔ (Entry.Stop ≡ entry.now) }
{
    match entry {
        Entry::Stop => true,
        _ => false,
    }
}

/// Whether the entry drains this machine.
fn is_drain(entry: &Entry, machine: u32) -> bool
    ensures { IsTrue result ↔ (Entry.Drain machine ≡ entry.now) }
{
    match entry {
        Entry::Drain { machine: m } => machine == *m,
        _ => false,
    }
}

/// Whether the entry enables this machine.
fn is_enable(entry: &Entry, machine: u32) -> bool
    ensures { IsTrue result ↔ (Entry.Enable machine ≡ entry.now) }
{
    match entry {
        Entry::Enable { machine: m } => machine == *m,
        _ => false,
    }
}

impl Same for Entry {
    fn is_same(&self, other: &Entry) -> bool {
        match self {
            Entry::Chosen { drv, machine, slot } => is_chosen(other, *drv, *machine, *slot),
            Entry::NoBuilder { drv } => is_no_builder(other, *drv),
            Entry::Started { drv, paths } => is_start(other, *drv, paths),
            Entry::Down { drv } => is_down(other, *drv),
            Entry::Built { drv, refs } => is_build(other, *drv, refs),
            Entry::Failed { drv, why } => is_failure(other, *drv, *why),
            Entry::Stop => is_stop(other),
            Entry::Drain { machine } => is_drain(other, *machine),
            Entry::Enable { machine } => is_enable(other, *machine),
        }
    }
}

/// Whether the two entries are the same. It takes no memory.
pub fn is_same_entry(entry: &Entry, other: &Entry) -> bool
    ensures { IsTrue result ↔ (entry.now ≡ other.now) }
{
    entry.is_same(other)
}

/// Whether the entries begin with these first ones.
#[tactic(auto, using(crate::proofs::Alike::begins_from, crate::proofs::Alike::begin_of, crate::proofs::Alike::begin_shorter))]
pub(crate) fn begins_with(entries: &[Entry], first: &[Entry]) -> bool
    ensures { IsTrue result ↔ BeginsWith entries.now first.now }
{
    if entries.len() < first.len() {
        return false;
    }
    are_same(&entries[..first.len()], first)
}
