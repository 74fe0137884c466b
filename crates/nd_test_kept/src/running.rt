//! A run with a journal in memory.

ghost use Rattle.std.specs.Prelude.{◌≡◌, ◌==◌, Some, [], not, map};
ghost use Rattle.nd_keeping.specs.Scribing.{HoldsDurably, journal_text};
ghost use Rattle.nd_keeping.specs.Stored.{stored_with};
ghost use Rattle.nd_workers.specs.Runs.{AreManned};

use nd_devices::Told;
use nd_journal::whole_lines;
use nd_kept_run::{KeptEnd, run_kept_engine, scribe_of};
use nd_ledger::Dispatch;
use nd_run_command::{RunInputs, run_inputs, stand_ins};
use nd_script::Rule;
use nd_serve_command::{Opened, ServeFault, take_journal};
use nd_test_fixtures::journals::MemoryJournal;
use nd_test_fixtures::places::{Place, options};
use nd_transports::StandIn;
use nd_workers::Seat;
use std::alloc::Global;
use std::mem;
use std::sync::Wait;
use std::thread::Threads;

/// What became of a run.
#[derive(Drop)]
pub struct Seen {
    /// Its status, or why there is none.
    pub answer: Result<u8, ServeFault>,
    /// What was written of it.
    pub text: Vec<u8>,
    /// What its journal holds.
    pub journal: Vec<u8>,
}

/// A run with stand-ins that say yes to all, with a journal that holds these bytes, cut to their whole lines, and
/// grants so many calls. There is none where the journal is refused.
pub(crate) fn run_in<R: Threads + Wait + Sync>(
    rt: &R,
    alloc: Global,
    place: Place<'_>,
    journal: &[u8],
    resumes: bool,
    grants: usize,
) -> Option<Seen> {
    let options = options(alloc, &place);
    let mut input = Told::new(place.bundle.as_bytes());
    let given = run_inputs(rt, alloc, &options, b"", &mut input);
    drop(options);
    match given {
        Ok(RunInputs { dispatch, rules }) => {
            begin(rt, alloc, dispatch, rules, journal, resumes, grants)
        }
        Err(_) => None,
    }
}

/// The same, of a dispatch without a history.
#[tactic(auto, using(crate::proofs::Held::begun_held))]
fn begin<R: Threads + Wait + Sync>(
    rt: &R,
    alloc: Global,
    dispatch: Dispatch,
    rules: Vec<Rule>,
    journal: &[u8],
    resumes: bool,
    grants: usize,
) -> Option<Seen>
    requires { dispatch.history ≡ [] }
{
    let Ok(whole) = Vec::from_slice(alloc, whole_lines(journal)) else {
        mem::forget(dispatch);
        return None;
    };
    match take_journal(alloc, dispatch, journal, resumes) {
        Ok(opened) => {
            let journal = MemoryJournal::holding(whole, grants);
            seat(rt, alloc, opened, rules, journal)
        }
        Err(_) => None,
    }
}

/// The same, of what was opened.
fn seat<R: Threads + Wait + Sync>(
    rt: &R,
    alloc: Global,
    opened: Opened,
    rules: Vec<Rule>,
    journal: MemoryJournal,
) -> Option<Seen>
    requires held { HoldsDurably (Some (stored_with journal.bytes.items journal.durable)) (journal_text (not (opened.kept == 0)) opened.dispatch.history) }
{
    match stand_ins(alloc, &opened.dispatch, rules) {
        Ok(seats) => run_seated(rt, alloc, opened, seats, journal),
        Err(_) => {
            mem::forget(opened);
            None
        }
    }
}

/// The same, by these stand-ins.
fn run_seated<R: Threads + Wait + Sync>(
    rt: &R,
    alloc: Global,
    opened: Opened,
    seats: Vec<Seat<StandIn>>,
    journal: MemoryJournal,
) -> Option<Seen>
    requires manned { AreManned opened.dispatch.inputs (map (λ w. w.place) seats.items) }
    requires held { HoldsDurably (Some (stored_with journal.bytes.items journal.durable)) (journal_text (not (opened.kept == 0)) opened.dispatch.history) }
{
    let mut output = Told::new(Vec::new(alloc));
    let Ok(scribe) = scribe_of(alloc, &opened, journal) else {
        mem::forget(opened);
        mem::forget(seats);
        return None;
    };
    let Opened { dispatch, kept: _ } = opened;
    let KeptEnd { answer, journal } = run_kept_engine(
        rt,
        dispatch,
        seats,
        scribe,
        false,
        &mut output,
    );
    Some(Seen {
        answer,
        text: output.into_inner(),
        journal: journal.bytes,
    })
}
