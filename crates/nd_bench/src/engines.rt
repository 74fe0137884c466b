//! The engines of the program, over memory.

ghost use Rattle.std.specs.Prelude.{◌≡◌, map};
ghost use Rattle.nd_workers.specs.Runs.{AreManned};

use nd_cli::{ParkOptions, ask_engine};
use nd_commands::{audit_engine, sim_engine};
use nd_devices::Told;
use nd_keeping::NoJournal;
use nd_ledger::Dispatch;
use nd_run_command::{RunInputs, run_engine, run_inputs, stand_ins};
use nd_serve_command::{Devices, Opened, open_session, serve_engine};
use nd_transports::StandIn;
use nd_workers::Seat;
use std::alloc::Global;
use std::mem;
use std::sync::Wait;
use std::thread::Threads;

/// What `ask` writes about a bundle.
pub(crate) fn ask<R: Threads + Sync>(
    rt: &R,
    alloc: Global,
    options: &ParkOptions,
    bundle: &[u8],
) -> Option<Vec<u8>> {
    let mut input = Told::new(bundle);
    let mut output = Told::new(Vec::new(alloc));
    match ask_engine(rt, alloc, options, &mut input, &mut output) {
        Ok(_) => Some(output.into_inner()),
        Err(_) => None,
    }
}

/// What `sim` writes.
pub(crate) fn sim<R: Threads + Sync>(
    rt: &R,
    alloc: Global,
    options: &ParkOptions,
    bundle: &[u8],
    script: &[u8],
) -> Option<Vec<u8>> {
    let mut input = Told::new(bundle);
    let mut output = Told::new(Vec::new(alloc));
    match sim_engine(rt, alloc, options, script, &mut input, &mut output) {
        Ok(_) => Some(output.into_inner()),
        Err(_) => None,
    }
}

/// What `audit` writes.
pub(crate) fn audit<R: Threads + Sync>(
    rt: &R,
    alloc: Global,
    options: &ParkOptions,
    bundle: &[u8],
    history: &[u8],
) -> Option<Vec<u8>> {
    let mut input = Told::new(bundle);
    let mut output = Told::new(Vec::new(alloc));
    match audit_engine(rt, alloc, options, history, &mut input, &mut output) {
        Ok(_) => Some(output.into_inner()),
        Err(_) => None,
    }
}

/// What `run` writes, with a stand-in for each slot and the report at the end.
pub(crate) fn run<R: Threads + Wait + Sync>(
    rt: &R,
    alloc: Global,
    options: &ParkOptions,
    bundle: &[u8],
    stand: &[u8],
) -> Option<Vec<u8>> {
    let mut input = Told::new(bundle);
    let RunInputs { dispatch, rules } = match run_inputs(rt, alloc, options, stand, &mut input) {
        Ok(given) => given,
        Err(_) => return None,
    };
    match stand_ins(alloc, &dispatch, rules) {
        Ok(seats) => run_seated(rt, alloc, dispatch, seats),
        Err(_) => {
            mem::forget(dispatch);
            None
        }
    }
}

/// A run by these stand-ins, who man the park.
fn run_seated<R: Threads + Wait + Sync>(
    rt: &R,
    alloc: Global,
    dispatch: Dispatch,
    seats: Vec<Seat<StandIn>>,
) -> Option<Vec<u8>>
    requires manned { AreManned dispatch.inputs (map (λ w. w.place) seats.items) }
{
    let mut output = Told::new(Vec::new(alloc));
    match run_engine(rt, dispatch, seats, true, &mut output) {
        Ok(_) => Some(output.into_inner()),
        Err(_) => None,
    }
}

/// What a session answers that goes on from this journal.
pub(crate) fn serve<R: Threads + Sync>(
    rt: &R,
    alloc: Global,
    options: &ParkOptions,
    bundle: &[u8],
    journal: &[u8],
    lines: &[u8],
) -> Option<Vec<u8>> {
    let mut input = Told::new(bundle);
    match open_session(rt, alloc, options, journal, true, &mut input) {
        Ok(opened) => hold(alloc, opened, lines),
        Err(_) => None,
    }
}

/// What this session answers to these lines.
fn hold(alloc: Global, opened: Opened, lines: &[u8]) -> Option<Vec<u8>> {
    let mut devices = Devices {
        input: lines,
        output: Vec::new(alloc),
        journal: NoJournal,
    };
    match serve_engine(alloc, opened, &mut devices) {
        Ok(_) => Some(devices.output),
        Err(_) => None,
    }
}
