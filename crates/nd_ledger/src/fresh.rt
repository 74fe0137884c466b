//! What a dispatch begins with.

ghost use Rattle.std.specs.Prelude.{◌≡◌, ℕ, ◌≤◌, [], length, IfOk};
ghost use Rattle.nd_choose.specs.Best.{jobs_at};
ghost use Rattle.nd_graph.specs.Graphs.{IsSound};
ghost use Rattle.nd_history.specs.Premises.{premises};
ghost use Rattle.nd_provision.specs.Stored.{IsFirstFor};
ghost use Rattle.nd_ledger.specs.States.{IsFresh};

use crate::dispatch::Dispatch;
use crate::state::State;
use nd_bytes::Items;
use nd_eligible::Local;
use nd_history::{Inputs, Parts};
use nd_machines::Machine;
use nd_provision::Stores;
use std::alloc::{AllocError, Global};
use std::thread::{Threads, join};

/// What a dispatch over these parts keeps of references and holdings, and its empty history, with the board and the turns:
/// the one is made by another thread, and the other by this one.
pub(crate) fn make_halves(
    rt: &(impl Threads + Sync),
    alloc: Global,
    parts: &Parts,
) -> (Result<Stores, AllocError>, Result<State, AllocError>)
    requires { length parts.now.machines.items ≤ 1024 }
    ensures stores { IfOk result.0 (IsFirstFor parts.now.graph (length parts.now.machines.items) parts.now.info.entries) }
    ensures fresh { IfOk result.1 (IsFresh parts.now.graph parts.now.machines.items parts.now.local parts.now.keep_going) }
    ensures sound { IsSound parts.now.graph }
{
    let machines = parts.machines.as_slice();
    join(
        rt,
        || Stores::new(alloc, &parts.graph, machines.len(), &parts.info),
        || State::new(
            alloc,
            &parts.graph,
            machines,
            &parts.local,
            parts.keep_going,
        ),
    )
}

/// The dispatch over these parts, of what was made for them.
pub(crate) fn begin(parts: Parts, stores: Stores, state: State) -> Dispatch
    requires few { length parts.machines.items ≤ 1024 }
    requires sound { IsSound parts.graph }
    requires stores { IsFirstFor parts.graph (length parts.machines.items) parts.info.entries stores }
    requires fresh { IsFresh parts.graph parts.machines.items parts.local parts.keep_going state }
    ensures inputs { result.inputs ≡ premises parts.graph parts.machines.items parts.local parts.info.entries parts.keep_going }
    ensures empty { result.history ≡ [] }
{
    learn_jobs(parts.machines.as_slice(), &parts.local);
    Dispatch {
        inputs: Inputs {
            graph: parts.graph,
            machines: Items::new(parts.machines),
            local: parts.local,
            info: parts.info,
            keep_going: parts.keep_going,
        },
        state,
        stores,
    }
}

/// No machine builds more than 65,535 at once, which is all that this tells.
pub fn learn_jobs(machines: &[Machine], local: &Local)
    ensures builders { (p : ℕ) → jobs_at machines.now p ≤ 65535 }
    ensures local { local.now.jobs ≤ 65535 }
{
    let _jobs = local.jobs();
    for machine in machines {
        let _jobs = machine.jobs();
    }
}
