//! Parks, and the dispatches over them.

ghost use Rattle.std.specs.Prelude.{◌≤◌};
ghost use Rattle.std.specs.Vec.{vec_len};

use nd_bundle::GraphError;
use nd_bundle::plain::read_bundle;
use nd_bytes::ByteString;
use nd_closure::RefTable;
use nd_eligible::Local;
use nd_graph::Graph;
use nd_ledger::Dispatch;
use nd_machines::{FeatureSet, Machine, MachineError, parse_builders};
use std::alloc::{AllocError, Global};

/// What a dispatch is made of. There is no info text, and nothing goes on after a failure.
#[derive(Clone, Copy)]
pub struct Park<'a> {
    /// The bundle.
    pub bundle: &'a str,
    /// The builders list.
    pub builders: &'a str,
    /// The number of local jobs.
    pub jobs: u32,
}

/// A bundle with these builders alone.
pub fn builders_alone<'a>(bundle: &'a str, builders: &'a str) -> Park<'a> {
    Park {
        bundle,
        builders,
        jobs: 0,
    }
}

/// Why there is no dispatch over a park.
#[derive(Clone, Copy, Debug, PartialEq, Eq)]
pub enum Unmade {
    /// An input was refused.
    Input,
    /// A growth was refused.
    Memory,
}

impl From<AllocError> for Unmade {
    fn from(_refused: AllocError) -> Unmade {
        Unmade::Memory
    }
}

/// Why there is none where the bundle was refused.
fn without_graph(fault: GraphError) -> Unmade {
    match fault {
        GraphError::Memory => Unmade::Memory,
        _ => Unmade::Input,
    }
}

/// Why there is none where the builders list was refused.
fn without_machines(fault: MachineError) -> Unmade {
    match fault {
        MachineError::Memory => Unmade::Memory,
        _ => Unmade::Input,
    }
}

/// A local machine with these jobs.
fn local_of(alloc: Global, jobs: u32) -> Result<Local, Unmade> {
    match ByteString::from_slice(alloc, b"x86_64-linux") {
        Ok(system) => Local::new(
            system,
            FeatureSet::new(Vec::new(alloc)),
            FeatureSet::new(Vec::new(alloc)),
            jobs,
        )
        .ok_or(Unmade::Input),
        Err(_) => Err(Unmade::Memory),
    }
}

/// A dispatch over these inputs, without an info text.
fn dispatch_with(
    alloc: Global,
    graph: Graph,
    machines: Vec<Machine>,
    local: Local,
    keep_going: bool,
) -> Result<Dispatch, Unmade>
    requires { vec_len machines ≤ 1024 }
{
    match Dispatch::new(
        alloc,
        graph,
        machines,
        local,
        RefTable::new(alloc),
        keep_going,
    ) {
        Ok(dispatch) => Ok(dispatch),
        Err(parts) => {
            drop(parts);
            Err(Unmade::Memory)
        }
    }
}

/// A dispatch over a graph and a local machine, with these builders.
fn dispatch_over(
    alloc: Global,
    builders: &str,
    graph: Graph,
    local: Local,
    keep_going: bool,
) -> Result<Dispatch, Unmade> {
    match parse_builders(alloc, builders.as_bytes(), b"x86_64-linux") {
        Ok(machines) => dispatch_with(alloc, graph, machines, local, keep_going),
        Err(fault) => {
            drop(graph);
            drop(local);
            Err(without_machines(fault))
        }
    }
}

/// A dispatch over a park with this local machine.
fn dispatch_at(
    alloc: Global,
    park: &Park,
    local: Local,
    keep_going: bool,
) -> Result<Dispatch, Unmade> {
    match read_bundle(alloc, park.bundle.as_bytes(), false) {
        Ok(graph) => dispatch_over(alloc, park.builders, graph, local, keep_going),
        Err(fault) => {
            drop(local);
            Err(without_graph(fault))
        }
    }
}

/// A dispatch over a park. Each function of these ends in one call, and lets go of what it holds by
/// `drop`: the end of a large value is then proved once for its type.
pub fn dispatch_of(alloc: Global, park: &Park) -> Result<Dispatch, Unmade> {
    dispatch_that(alloc, park, false)
}

/// A dispatch over a park whose rest goes on after a failure where it is to keep going.
pub fn dispatch_that(alloc: Global, park: &Park, keep_going: bool) -> Result<Dispatch, Unmade> {
    match local_of(alloc, park.jobs) {
        Ok(local) => dispatch_at(alloc, park, local, keep_going),
        Err(why) => Err(why),
    }
}

/// Lets go of a dispatch. The end of so large a value is long to prove, so that whoever owns one calls
/// this, and it is proved once.
pub fn close(_dispatch: Dispatch) {}
