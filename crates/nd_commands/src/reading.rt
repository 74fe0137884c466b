//! What `sim` and `audit` are given.

ghost use Rattle.std.specs.Prelude.{◌≡◌, ◌≤◌, ℕ, List, Some, Bool, false, length, IfOk, IfErr, IfSome};
ghost use Rattle.std.specs.List.{All};
ghost use Rattle.nd_history.specs.declared.entry.Entry.{Entry};
ghost use Rattle.nd_cli.specs.Inputs.{OkUnlessMemory, is_read_failure};
ghost use Rattle.nd_cli.specs.Statuses.{RefusesNoInput};
ghost use Rattle.nd_sim.specs.Answers.{IsNamed};
ghost use Rattle.nd_commands.specs.Opened.{IsParkGiven, IsParkTaken};
ghost use Rattle.nd_commands.specs.Simulated.{IsSimAccepted, IsSimGiven, IsSimFault};
ghost use Rattle.nd_commands.specs.Audited.{HasHistory, IsHistoryFault, IsAuditAccepted, IsAuditFault};

use crate::history::{read_entries, read_entries_ahead};
use crate::opening::{close_dispatch, take_dispatch};
use crate::script::read_script;
use nd_cli::{CliFault, Park, ParkOptions, take_park};
use nd_devices::Told;
use nd_history::Entry;
use nd_ledger::Dispatch;
use nd_script::Command;
use std::alloc::Global;
use std::io::Read;
use std::sync::atomic::{AtomicBool, Ordering};
use std::thread::{Threads, join_mut};

/// What `sim` is given, once all of it is accepted.
pub struct SimInputs {
    /// The derivations and the park, on which nothing is begun yet.
    pub dispatch: Dispatch,
    /// The commands of the script.
    pub commands: Vec<Command>,
}

/// What `audit` is given, once all of it is accepted.
#[derive(Drop)]
pub struct AuditInputs {
    /// The derivations and the park.
    pub park: Park,
    /// The entries of the history text.
    pub entries: Vec<Entry>,
}

/// Reads the bundle on the input, what the options name, and the script.
///
/// The first refusal in this order is answered, whatever becomes of a writer: `Read`; `TooLarge` or
/// `Drvs` for the bundle; `TooLarge` or `Builders` for the builders list; `TooLarge` or `Info` for the
/// info text; `TooLarge` or `Script` for the script. `Memory` may come at any point.
pub(crate) fn read_sim_inputs<R: Read>(
    rt: &(impl Threads + Sync),
    alloc: Global,
    options: &ParkOptions,
    script: &[u8],
    input: &mut Told<R>,
) -> Result<SimInputs, CliFault>
    requires reader { input.old.is_marked ≡ false }
    ensures read { IfOk result (λ given. IsSimGiven options.now script.now R.remaining input.old input.new given.dispatch given.commands.items) }
    ensures named { IfOk result (λ given. All (IsNamed given.dispatch.inputs) given.commands.items) }
    ensures mark { input.new.is_marked ≡ is_read_failure result }
    ensures exactly { (text : List ℕ) → R.remaining input.old.device ≡ Some text → IsSimAccepted options.now text script.now → RefusesNoInput result }
    ensures fault { IfErr result (λ e. (writer_marked : Bool) → IsSimFault options.now script.now R.remaining input.old input.new writer_marked e) }
{
    let dispatch = take_dispatch(rt, alloc, options, input)?;
    match read_script(alloc, &dispatch, script) {
        Ok(commands) => Ok(SimInputs { dispatch, commands }),
        Err(fault) => {
            close_dispatch(dispatch);
            Err(fault)
        }
    }
}

/// Reads the bundle on the input, what the options name, and the history text. There are at most 1,024
/// builders.
///
/// The first refusal in this order is answered, whatever becomes of a writer: `Read`; `TooLarge` or
/// `Drvs` for the bundle; `TooLarge` or `Builders` for the builders list; `TooLarge` or `Info` for the
/// info text; `TooLarge` or `History` for the history text. `Memory` may come at any point.
pub(crate) fn read_audit_inputs<R: Read>(
    rt: &(impl Threads + Sync),
    alloc: Global,
    options: &ParkOptions,
    history: &[u8],
    input: &mut Told<R>,
) -> Result<AuditInputs, CliFault>
    requires reader { input.old.is_marked ≡ false }
    ensures read { IfOk result (λ given. IsParkGiven options.now R.remaining input.old input.new given.park) }
    ensures entries { IfOk result (λ given. HasHistory history.now given.entries.items) }
    ensures few { IfOk result (λ given. length given.park.machines.items ≤ 1024) }
    ensures mark { input.new.is_marked ≡ is_read_failure result }
    ensures exactly { (text : List ℕ) → R.remaining input.old.device ≡ Some text → IsAuditAccepted options.now text history.now → RefusesNoInput result }
    ensures fault { IfErr result (λ e. (writer_marked : Bool) → IsAuditFault options.now history.now R.remaining input.old input.new writer_marked e) }
{
    let (park, ahead) = take_park_beside(rt, alloc, options, history, input);
    let park = park?;
    let entries = entries_of(alloc, history, ahead)?;
    Ok(AuditInputs { park, entries })
}

/// What the bundle on the input and the options describe, as [`take_park`], and what [`read_entries_ahead`] answers of
/// the history text, which another thread reads meanwhile, until the park is refused.
fn take_park_beside<R: Read>(
    rt: &(impl Threads + Sync),
    alloc: Global,
    options: &ParkOptions,
    history: &[u8],
    input: &mut Told<R>,
) -> (Result<Park, CliFault>, Option<Result<Vec<Entry>, CliFault>>)
    ensures park { IsParkTaken options.now R.remaining input.old input.new result.0 }
    ensures read { IfSome result.1 (λ answer. IfOk answer (λ entries. HasHistory history.now entries.items)) }
    ensures refused { IfSome result.1 (λ answer. IfErr answer (IsHistoryFault history.now)) }
    ensures exactly { IfSome result.1 (λ answer. (entries : List Entry) → HasHistory history.now entries → OkUnlessMemory answer (λ read. read.items ≡ entries)) }
{
    let stop = AtomicBool::new(false);
    let (entries, park) = join_mut(
        rt,
        &mut || read_entries_ahead(alloc, history, &stop),
        &mut || take_park_or_stop(rt, alloc, options, input, &stop),
    );
    (park, entries)
}

/// The same as [`take_park`]. Where that refuses, `stop` is set, so that nothing is read any more beside it.
fn take_park_or_stop<R: Read>(
    rt: &(impl Threads + Sync),
    alloc: Global,
    options: &ParkOptions,
    input: &mut Told<R>,
    stop: &AtomicBool,
) -> Result<Park, CliFault>
    ensures { IsParkTaken options.now R.remaining input.old input.new result }
{
    let park = take_park(rt, alloc, options, input);
    if park.is_err() {
        stop.store(true, Ordering::Relaxed);
    }
    park
}

/// The entries of a history text, which may have been read already.
fn entries_of(
    alloc: Global,
    history: &[u8],
    ahead: Option<Result<Vec<Entry>, CliFault>>,
) -> Result<Vec<Entry>, CliFault>
    requires read { IfSome ahead (λ answer. IfOk answer (λ entries. HasHistory history.now entries.items)) }
    requires refused { IfSome ahead (λ answer. IfErr answer (IsHistoryFault history.now)) }
    requires exactly { IfSome ahead (λ answer. (entries : List Entry) → HasHistory history.now entries → OkUnlessMemory answer (λ read. read.items ≡ entries)) }
    ensures read { IfOk result (λ entries. HasHistory history.now entries.items) }
    ensures refused { IfErr result (IsHistoryFault history.now) }
    ensures exactly { (entries : List Entry) → HasHistory history.now entries → OkUnlessMemory result (λ read. read.items ≡ entries) }
{
    match ahead {
        Some(answer) => answer,
        None => read_entries(alloc, history),
    }
}
