//! The command `run`: an agent for each slot of the park where `--agents` names the folder of their files,
//! and else a stand-in. A dispatch and its workers are left to the system where the command ends, since the process
//! ends with it.

ghost use Rattle.std.specs.Prelude.{◌≡◌, map, IfOk};
ghost use Rattle.nd_workers.specs.Runs.{AreManned};

use crate::beginning::{Begun, begin};
use crate::endings::Ending;
use crate::journal_files::Kept;
use crate::running::run_workers;
use crate::stand_ins::run_stand_ins;
use clap::ArgMatches;
use nd_agents::Agent;
use nd_cli::CliFault;
use nd_command_line::placed;
use nd_explain::{Failure, Source};
use nd_receipts::ParkPlace;
use nd_run_command::places;
use nd_serve_command::Opened;
use nd_workers::Seat;
use std::alloc::Global;
use std::fs::{File, OpenOptions};
use std::io::BufReader;
use std::mem;
use std::rt::Files;
use std::sync::Wait;
use std::thread::Threads;

/// An agent that is spoken to by two files.
type FileAgent = Agent<BufReader<File>, File>;

/// Runs what is given, with agents or with stand-ins, and writes the history, and where asked the report.
pub(crate) fn run_given<
    'a,
    R: Files<File = File> + Input + Print + AllocGlobal + Threads + Wait + Sync,
>(rt: &R, alloc: Global, options: &ArgMatches<'a>) -> Result<u8, Ending<'a>> {
    match options.get_str("agents") {
        Some(folder) => run_agents(rt, alloc, options, folder),
        None => run_stand_ins(rt, alloc, options),
    }
}

/// Runs what is given with the agents whose files lie in this folder. The files are opened once all inputs
/// are accepted, and so is the journal.
fn run_agents<'a, R: Files<File = File> + Input + Print + AllocGlobal + Threads + Wait + Sync>(
    rt: &R,
    alloc: Global,
    options: &ArgMatches<'a>,
    folder: &'a str,
) -> Result<u8, Ending<'a>> {
    let Begun {
        opened,
        rules,
        journal,
    } = begin(rt, alloc, options)?;
    drop(rules);
    match places(alloc, &opened.dispatch) {
        Ok(places) => run_placed(
            rt,
            alloc,
            opened,
            places,
            folder,
            journal,
            options.get_flag("report"),
        ),
        Err(fault) => {
            mem::forget(opened);
            drop(journal);
            Err(Ending::Common(placed(options, fault)))
        }
    }
}

/// A run by an agent on each of these places.
fn run_placed<'a, R: Files<File = File> + Print + AllocGlobal + Threads + Wait + Sync>(
    rt: &R,
    alloc: Global,
    opened: Opened,
    places: Vec<ParkPlace>,
    folder: &'a str,
    journal: Kept<'a, File>,
    report: bool,
) -> Result<u8, Ending<'a>>
    requires { AreManned opened.dispatch.inputs places.items }
{
    match agents_on(rt, alloc, folder, places) {
        Ok(agents) => run_workers(rt, alloc, opened, agents, journal, report),
        Err(failure) => {
            mem::forget(opened);
            mem::forget(journal);
            Err(Ending::Common(failure))
        }
    }
}

/// An agent on each of these places, whose files are opened in their order. Where one can't be made, those that were
/// made before it are left to the system.
///
/// `Read`: a file of theirs can't be opened. `Memory`.
fn agents_on<'a, R: Files<File = File>>(
    rt: &R,
    alloc: Global,
    folder: &'a str,
    places: Vec<ParkPlace>,
) -> Result<Vec<Seat<FileAgent>>, Failure<'a>>
    ensures { IfOk result (λ seats. map (λ w. w.place) seats.items ≡ places.items) }
{
    let mut seats = Vec::new(alloc);
    for place in places {
        let transport = match agent_at(rt, alloc, folder, place) {
            Ok(agent) => agent,
            Err(failure) => {
                mem::forget(seats);
                return Err(failure);
            }
        };
        let seat = Seat { place, transport };
        if seats.push(seat).is_err() {
            mem::forget(seats);
            return Err(Failure::of(CliFault::Memory));
        }
    }
    Ok(seats)
}

/// The agent of this place, machine M's slot S, which is called by its file `M.S.calls` and answers by `M.S.answers`.
/// They are opened in this order, and for pipes each waits until the other end is opened.
///
/// `Read`: one of them can't be opened. `Memory`.
fn agent_at<'a, R: Files<File = File>>(
    rt: &R,
    alloc: Global,
    folder: &'a str,
    place: ParkPlace,
) -> Result<FileAgent, Failure<'a>> {
    let mut writing = OpenOptions::new();
    let _ = writing.write(true);
    let calls = agent_file(rt, alloc, folder, place, "calls", &writing)?;
    let mut reading = OpenOptions::new();
    let _ = reading.read(true);
    let answers = match agent_file(rt, alloc, folder, place, "answers", &reading) {
        Ok(answers) => answers,
        Err(failure) => {
            drop(calls);
            return Err(failure);
        }
    };
    match BufReader::new(alloc, answers) {
        Ok(answers) => Ok(Agent::new(alloc, answers, calls)),
        Err(_) => {
            drop(calls);
            Err(Failure::of(CliFault::Memory))
        }
    }
}

/// A file of an agent, opened so.
///
/// `Read`: it can't be opened. `Memory`.
fn agent_file<'a, R: Files<File = File>>(
    rt: &R,
    alloc: Global,
    folder: &'a str,
    place: ParkPlace,
    kind: &str,
    how: &OpenOptions,
) -> Result<File, Failure<'a>> {
    let ParkPlace { machine, slot } = place;
    let Ok(name) = format!(in alloc; "{folder}/{machine}.{slot}.{kind}") else {
        return Err(Failure::of(CliFault::Memory));
    };
    let opened = how.open(rt, name.as_str());
    drop(name);
    match opened {
        Ok(file) => Ok(file),
        Err(error) => {
            let source = Source::File {
                option: "agents",
                name: folder,
            };
            Err(Failure::at(CliFault::Read, source, Some(error)))
        }
    }
}
