//! The command `audit`.

ghost use Rattle.std.specs.Prelude.{◌≡◌, ◌≤◌, ◌||◌, ℕ, List, Some, false, length, reverse, is_err, IfOk, IfErr, OnOk, OnErr};
ghost use Rattle.std.specs.Io.KnownBytes.{Appends};
ghost use Rattle.nd_devices.specs.Written.{WritesPart};
ghost use Rattle.nd_cli.specs.declared.fault.CliFault.{CliFault};
ghost use Rattle.nd_cli.specs.Statuses.{RefusesNoInput};
ghost use Rattle.nd_cli.specs.Inputs.{is_write_fault, is_read_failure, is_write_failure};
ghost use Rattle.nd_history.specs.Legal.{IsLegal};
ghost use Rattle.nd_report.specs.Audits.{IsAuditRefused};
ghost use Rattle.nd_commands.specs.Opened.{park_inputs};
ghost use Rattle.nd_commands.specs.Audited.{IsAuditAccepted, AnswersAudit, LeavesAudit, IsAuditFault, WritesVerdict, LeavesVerdict, IsVerdictFault, legal_line, illegal_line};

use crate::reading::read_audit_inputs;
use crate::verdict::{write_illegal, write_legal};
use nd_bytes::Items;
use nd_cli::{CliFault, Park, ParkOptions};
use nd_devices::{Fault, Told};
use nd_history::{Entry, Inputs, Rule};
use nd_report::{AuditError, audit_side_by_side};
use std::alloc::Global;
use std::io::{Read, Write};
use std::mem;
use std::thread::Threads;

/// The exit status where a history is not legal.
const ILLEGAL: u8 = 4;

/// Writes `legal N` where the history text is that of a legal history of N entries over the bundle on
/// the input, and the status is 0; else `illegal INDEX RULE` with the place of the first entry that is
/// not allowed, from 0, and the first rule that refuses it, and the status is 4.
///
/// The first refusal in this order is answered, and nothing is written then: `Read`; `TooLarge` or
/// `Drvs` for the bundle; `TooLarge` or `Builders` for the builders list; `TooLarge` or `Info` for the
/// info text; `TooLarge` or `History` for the history text. `Write` leaves a part of the line, from its
/// beginning. `Memory` may come at any point before the line is written. The reader is marked exactly at
/// `Read`, and the writer exactly at `Write`. Where a reader that is known to have a whole bundle left
/// has one that is accepted, with the other inputs, nothing but `Read`, `Write` and `Memory` comes.
pub fn audit_engine<R: Read, W: Write>(
    rt: &(impl Threads + Sync),
    alloc: Global,
    options: &ParkOptions,
    history: &[u8],
    input: &mut Told<R>,
    output: &mut Told<W>,
) -> Result<u8, CliFault>
    requires reader { input.old.is_marked ≡ false }
    requires writer { output.old.is_marked ≡ false }
    ensures answer { IfOk result (λ status. AnswersAudit options.now history.now status R.remaining input.old input.new W.contents output.old output.new) }
    ensures fault { IfErr result (IsAuditFault options.now history.now R.remaining input.old input.new output.new.is_marked) }
    ensures reader_mark { input.new.is_marked ≡ is_read_failure result }
    ensures writer_mark { output.new.is_marked ≡ is_write_failure result }
    ensures exactly { (text : List ℕ) → R.remaining input.old.device ≡ Some text → IsAuditAccepted options.now text history.now → RefusesNoInput result }
    ensures untouched { IfErr result (λ e. is_write_fault e ≡ false → output.new ≡ output.old) }
    ensures partly { IfErr result (LeavesAudit options.now history.now R.remaining input.old input.new W.contents output.old output.new) }
{
    let given = read_audit_inputs(rt, alloc, options, history, input)?;
    match write_verdict(
        rt,
        alloc,
        given.park,
        options.keep_going,
        given.entries,
        output,
    ) {
        Ok(status) => Ok(status),
        Err(fault) => Err(fault),
    }
}

/// Writes whether these entries are a legal history, and answers the status.
fn write_verdict<W: Write>(
    rt: &(impl Threads + Sync),
    alloc: Global,
    park: Park,
    keep_going: bool,
    entries: Vec<Entry>,
    output: &mut Told<W>,
) -> Result<u8, CliFault>
    requires few { length park.machines.items ≤ 1024 }
    ensures written { IfOk result (λ status. WritesVerdict (park_inputs park keep_going) entries.items status W.contents output.old output.new) }
    ensures partly { IfErr result (LeavesVerdict (park_inputs park keep_going) entries.items W.contents output.old output.new) }
    ensures fault { IfErr result (IsVerdictFault output.new.is_marked) }
    ensures mark { output.new.is_marked ≡ (output.old.is_marked || is_write_failure result) }
    ensures untouched { IfErr result (λ e. is_write_fault e ≡ false → output.new ≡ output.old) }
{
    let count = entries.len();
    match judge(rt, alloc, park, keep_going, entries) {
        Ok(()) => say_legal(count, output),
        Err(AuditError::Illegal { index, rule }) => say_illegal(index, rule, output),
        Err(AuditError::Memory) => Err(CliFault::Memory),
    }
}

/// Whether these entries are a legal history of the park, as `audit` of `nd_report` says it. What was made for the answer
/// is left to the system, since the command ends with it.
fn judge(
    rt: &(impl Threads + Sync),
    alloc: Global,
    park: Park,
    keep_going: bool,
    entries: Vec<Entry>,
) -> Result<(), AuditError>
    requires few { length park.machines.items ≤ 1024 }
    ensures legal { OnOk result (IsLegal (park_inputs park keep_going) (reverse entries.items)) }
    ensures refused { IfErr result (IsAuditRefused (park_inputs park keep_going) entries.items) }
{
    let inputs = Inputs {
        graph: park.graph,
        machines: Items::new(park.machines),
        local: park.local,
        info: park.info,
        keep_going,
    };
    let answer = match audit_side_by_side(rt, alloc, &inputs, entries) {
        Ok(audited) => {
            mem::forget(audited);
            Ok(())
        }
        Err(error) => Err(error),
    };
    mem::forget(inputs);
    answer
}

/// Writes that a history of so many entries is legal, and answers the status: 0.
///
/// `Write`: the writer refused, and is marked; a part of the line, from its beginning, may be out.
pub fn say_legal<W: Write>(count: usize, output: &mut Told<W>) -> Result<u8, CliFault>
    ensures status { IfOk result (λ status. status ≡ 0) }
    ensures written { OnOk result (Appends (W.contents output.old.device) (W.contents output.new.device) (legal_line count)) }
    ensures partly { OnErr result (WritesPart (W.contents output.old.device) (W.contents output.new.device) (legal_line count)) }
    ensures fault { IfErr result (λ e. e ≡ CliFault.Write) }
    ensures mark { output.new.is_marked ≡ (output.old.is_marked || is_err result) }
{
    match write_legal(count, output) {
        Ok(()) => Ok(0),
        Err(Fault) => Err(CliFault::Write),
    }
}

/// Writes which entry is the first that is not allowed, and by which rule, and answers the status: 4.
///
/// `Write`: the writer refused, and is marked; a part of the line, from its beginning, may be out.
pub fn say_illegal<W: Write>(index: usize, rule: Rule, output: &mut Told<W>) -> Result<u8, CliFault>
    ensures status { IfOk result (λ status. status ≡ 4) }
    ensures written { OnOk result (Appends (W.contents output.old.device) (W.contents output.new.device) (illegal_line index rule)) }
    ensures partly { OnErr result (WritesPart (W.contents output.old.device) (W.contents output.new.device) (illegal_line index rule)) }
    ensures fault { IfErr result (λ e. e ≡ CliFault.Write) }
    ensures mark { output.new.is_marked ≡ (output.old.is_marked || is_err result) }
{
    match write_illegal(index, rule, output) {
        Ok(()) => Ok(ILLEGAL),
        Err(Fault) => Err(CliFault::Write),
    }
}
