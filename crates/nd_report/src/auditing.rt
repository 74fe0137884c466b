//! The audit of a history.

ghost use Rattle.std.specs.Prelude.{◌≡◌, ◌≤◌, [], ◌∷◌, ◌++◌, length, reverse, IfErr, OnOk, OnErr};
ghost use Rattle.nd_history.specs.Legal.{IsAllowed, IsLegal};
ghost use Rattle.nd_history.specs.Premises.{premises_of};
ghost use Rattle.nd_report.specs.declared.audit_error.AuditError.{AuditError};
ghost use Rattle.nd_report.specs.Audits.{IsAuditRefused, IsAdmissionRefused, IsRefusedAt, answer_at, premises};

use crate::audit_error::AuditError;
use nd_audit::Audited;
use nd_closure::RefTable;
use nd_eligible::Local;
use nd_graph::Graph;
use nd_history::{Entry, Inputs};
use nd_ledger::{AdmitError, Dispatch};
use nd_machines::Machine;
use std::alloc::Global;
use std::thread::Threads;

/// Whether a history is a legal one of these five inputs: each entry is allowed after those before
/// it. There are at most 1,024 builders. Inputs and entries are taken over, and nothing of them is copied.
///
/// Refuses with `Illegal` (1), the place of the first entry that isn't, from 0, and the first rule
/// that refuses it; and with `Memory` (2) where an allocation is refused.
pub fn audit(
    alloc: Global,
    graph: Graph,
    machines: Vec<Machine>,
    local: Local,
    info: RefTable,
    keep_going: bool,
    entries: Vec<Entry>,
) -> Result<(), AuditError>
    requires { length machines.items ≤ 1024 }
    ensures legal { OnOk result (IsLegal (premises graph machines.items local info keep_going) (reverse entries.items)) }
    ensures refused { IfErr result (IsAuditRefused (premises graph machines.items local info keep_going) entries.items) }
    ensures exactly { IsLegal (premises graph machines.items local info keep_going) (reverse entries.items) → IfErr result (λ e. e ≡ AuditError.Memory) }
{
    let mut dispatch = match Dispatch::new(alloc, graph, machines, local, info, keep_going) {
        Ok(dispatch) => dispatch,
        Err(parts) => {
            drop(parts);
            drop(entries);
            return Err(AuditError::Memory);
        }
    };
    let answer = admit_all(alloc, &mut dispatch, entries);
    drop(dispatch);
    answer
}

/// The same as [`audit`] over inputs that stay with the caller, by two threads. What was kept for it is handed back where
/// the history is legal.
#[tactic(auto, using(crate::proofs::Admissions::beside_refused, crate::proofs::Admissions::refused_alone))]
pub fn audit_side_by_side(
    rt: &(impl Threads + Sync),
    alloc: Global,
    inputs: &Inputs,
    entries: Vec<Entry>,
) -> Result<Audited, AuditError>
    requires { length inputs.now.machines ≤ 1024 }
    ensures legal { OnOk result (IsLegal (premises_of inputs.now) (reverse entries.items)) }
    ensures refused { IfErr result (IsAuditRefused (premises_of inputs.now) entries.items) }
    ensures exactly { IsLegal (premises_of inputs.now) (reverse entries.items) → IfErr result (λ e. e ≡ AuditError.Memory) }
{
    match nd_audit::audit_side_by_side(rt, alloc, inputs, entries) {
        Ok(audited) => Ok(audited),
        Err(unadmitted) => Err(refusal_at(unadmitted.index, unadmitted.error)),
    }
}

/// Appends these entries to the history of a dispatch, each if it is allowed after those before it. The
/// entries are taken over, and the dispatch stays with the caller.
///
/// Refuses with `Illegal` (1), the place of the first entry that isn't allowed, from 0 among these
/// entries, and the first rule that refuses it; and with `Memory` (2) where an allocation is refused.
/// The entries before that one are then appended, and no others.
#[tactic(auto, using(crate::proofs::Admissions::admissions))]
pub fn admit_all(
    alloc: Global,
    dispatch: &mut Dispatch,
    entries: Vec<Entry>,
) -> Result<(), AuditError>
    ensures inputs { dispatch.new.inputs ≡ dispatch.old.inputs }
    ensures history { OnOk result (dispatch.new.history ≡ dispatch.old.history ++ entries.items) }
    ensures legal { OnOk result (IsLegal dispatch.old.inputs (reverse (dispatch.old.history ++ entries.items))) }
    ensures refused { IfErr result (IsAdmissionRefused dispatch.old entries.items dispatch.new) }
    ensures exactly { IsLegal dispatch.old.inputs (reverse (dispatch.old.history ++ entries.items)) → IfErr result (λ e. e ≡ AuditError.Memory) }
{
    // For the proof: the history of a dispatch is legal.
    let _before = dispatch.history();
    let mut index = 0;
    'admitting: for entry in entries {
        admit_at(alloc, dispatch, index, entry)?;
        index += 1;
    }
    Ok(())
}

/// Appends an entry, which has this place among those that are to be, to the history of a dispatch if it
/// is allowed there.
#[tactic(auto, using(crate::proofs::Admissions::refused_there))]
fn admit_at(
    alloc: Global,
    dispatch: &mut Dispatch,
    index: usize,
    entry: Entry,
) -> Result<(), AuditError>
    ensures appended { OnOk result (dispatch.new ≡ record dispatch.old { history = dispatch.old.history ++ entry ∷ [] }) }
    ensures allowed { OnOk result (IsAllowed dispatch.old.inputs entry (reverse dispatch.old.history)) }
    ensures refused { IfErr result (IsRefusedAt dispatch.old.inputs (reverse dispatch.old.history) entry index) }
    ensures kept { OnErr result (dispatch.new ≡ dispatch.old) }
{
    match dispatch.admit(alloc, entry) {
        Ok(()) => Ok(()),
        Err(fault) => Err(refusal_at(index, fault)),
    }
}

/// What an audit answers where the entry at this place is refused.
fn refusal_at(index: usize, fault: AdmitError) -> AuditError
    ensures { result ≡ answer_at index fault }
{
    match fault {
        AdmitError::Illegal(rule) => AuditError::Illegal { index, rule },
        AdmitError::Memory => AuditError::Memory,
    }
}
