//! What the command `run` begins with.

ghost use Rattle.std.specs.Prelude.{◌≡◌, [], IfOk};
ghost use Rattle.nix_dispatch.specs.Statuses.{fault_in};

use crate::endings::Ending;
use crate::journal_files::{Found, Kept, find_journal, ready_journal};
use clap::ArgMatches;
use nd_command_line::{placed, read_inputs};
use nd_explain::Failure;
use nd_run_command::{RunInputs, run_inputs};
use nd_script::Rule;
use nd_serve_command::{JournalFailure, Opened, ServeFault, take_journal};
use std::alloc::Global;
use std::fs::File;
use std::mem;
use std::rt::Files;
use std::thread::Threads;

/// What a run begins with.
#[derive(Drop)]
pub(crate) struct Begun<'a> {
    /// The derivations and the park, with the history of the journal that is gone on from.
    pub(crate) opened: Opened,
    /// What stand-ins answer.
    pub(crate) rules: Vec<Rule>,
    /// Where entries are kept.
    pub(crate) journal: Kept<'a, File>,
}

/// Reads all that a run begins with. Where it is kept in a journal, that is looked at first, and made or changed
/// only once all inputs and what it holds are accepted.
pub(crate) fn begin<'a, R: Files<File = File> + Input + Threads + Sync>(
    rt: &R,
    alloc: Global,
    options: &ArgMatches<'a>,
) -> Result<Begun<'a>, Ending<'a>> {
    if let Some(name) = options.get_str("journal") {
        return begin_kept(rt, alloc, options, name);
    }
    match inputs(rt, alloc, options) {
        Ok(RunInputs { dispatch, rules }) => Ok(Begun {
            opened: Opened { dispatch, kept: 0 },
            rules,
            journal: Kept::Nowhere,
        }),
        Err(failure) => Err(Ending::Common(failure)),
    }
}

/// The same, with the journal of this name.
fn begin_kept<'a, R: Files<File = File> + Input + Threads + Sync>(
    rt: &R,
    alloc: Global,
    options: &ArgMatches<'a>,
    name: &'a str,
) -> Result<Begun<'a>, Ending<'a>> {
    let found = find_journal(rt, alloc, Some(name))?;
    let RunInputs { dispatch, rules } = match inputs(rt, alloc, options) {
        Ok(given) => given,
        Err(failure) => {
            drop(found);
            return Err(Ending::Common(failure));
        }
    };
    match take_journal(
        alloc,
        dispatch,
        found.bytes.as_slice(),
        options.get_flag("resume"),
    ) {
        Ok(opened) => go_on(rt, opened, rules, found),
        Err(fault) => {
            drop(rules);
            let ending = refusal(alloc, options, fault, name, found.bytes.as_slice());
            drop(found);
            Err(ending)
        }
    }
}

/// What a run begins with that was opened with what was found of its journal.
fn go_on<'a, R: Files<File = File>>(
    rt: &R,
    opened: Opened,
    rules: Vec<Rule>,
    found: Found<'a>,
) -> Result<Begun<'a>, Ending<'a>> {
    match ready_journal(rt, found, opened.kept) {
        Ok(journal) => Ok(Begun {
            opened,
            rules,
            journal,
        }),
        Err(ending) => {
            mem::forget(opened);
            drop(rules);
            Err(ending)
        }
    }
}

/// What is known of a journal with this name and these bytes that isn't gone on from.
fn refusal<'a>(
    alloc: Global,
    options: &ArgMatches<'a>,
    fault: ServeFault,
    name: &'a str,
    bytes: &[u8],
) -> Ending<'a>
    ensures { fault_in result ≡ fault }
{
    match fault {
        ServeFault::Cli(fault) => Ending::Common(placed(options, fault)),
        fault => Ending::Journal(JournalFailure::of_bytes(alloc, fault, name, bytes)),
    }
}

/// What is read and accepted: the files that the options name, and then the bundle.
fn inputs<'a, R: Files + Input + Threads + Sync>(
    rt: &R,
    alloc: Global,
    options: &ArgMatches<'a>,
) -> Result<RunInputs, Failure<'a>>
    ensures { IfOk result (λ given. given.dispatch.history ≡ []) }
{
    let mut inputs = read_inputs(rt, alloc, options, Some("stand"))?;
    let stand = inputs.own.as_slice();
    match run_inputs(rt, alloc, &inputs.park, stand, &mut inputs.bundle) {
        Ok(given) => {
            drop(inputs);
            Ok(given)
        }
        Err(fault) => Err(inputs.failure(alloc, options, fault)),
    }
}
