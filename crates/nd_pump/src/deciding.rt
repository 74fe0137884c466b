//! What is decided about the derivations of a kind.

ghost use Rattle.std.specs.Prelude.{◌≡◌, ◌<◌, ◌+◌, ◌↔◌, All, IfSome, IsTrue, length, reverse};
ghost use Rattle.std.specs.List.Sorted.{IsStrictlyIncreasing};
ghost use Rattle.nd_history.specs.Premises.{premises_of};
ghost use Rattle.nd_pump.specs.Decided.{IsHome, IsHomeFree, HasKindDecision, HasKindReply};
ghost use Rattle.nd_pump.specs.Few.{HoldFreeOf};
ghost use Rattle.nd_pump.specs.Vacancies.{AreVacant};

use crate::few::Few;
use crate::vacancies::Vacancies;
use nd_history::deciding::{builder_loads, builder_ups};
use nd_history::{Book, Inputs};
use nd_hook::{Decision, Reply, decide_among, decide_in, reply_in};
use nd_kinds::Kind;

/// Whether the local machine may build derivations of this kind, and is up.
fn is_home(inputs: &Inputs, book: &Book, kind: &Kind) -> bool
    requires { 0 < book.now.machines }
    ensures { IsTrue result ↔ IsHome (premises_of inputs.now) (reverse book.now.entries) kind.now }
{
    if inputs.local.jobs() == 0 {
        return false;
    }
    if !book.is_up(0) {
        return false;
    }
    kind.local
}

/// Whether the local machine may build derivations of this kind, is up and has a free slot.
fn is_home_free(inputs: &Inputs, book: &Book, kind: &Kind) -> bool
    requires { 0 < book.now.machines }
    ensures { IsTrue result ↔ IsHomeFree (premises_of inputs.now) (reverse book.now.entries) kind.now }
{
    if !is_home(inputs, book, kind) {
        return false;
    }
    book.load(0) < inputs.local.jobs() as usize
}

/// The decision about the derivations of a kind, found among the builders that may have a free slot where these
/// are few. No builder is looked at where the local machine is preferred and may build them: it decides alone then.
/// It takes no memory.
pub(crate) fn decide_kind(
    inputs: &Inputs,
    book: &Book,
    vacancies: &mut Vacancies,
    kind: &Kind,
) -> Decision
    requires park { book.now.machines ≡ length inputs.now.machines + 1 }
    requires rising { IsStrictlyIncreasing kind.now.places }
    requires ranged { All (λ p. p < length inputs.now.machines) kind.now.places }
    requires vacant { AreVacant (premises_of inputs.now) (reverse book.now.entries) vacancies.old }
    ensures vacant { AreVacant (premises_of inputs.now) (reverse book.now.entries) vacancies.new }
    ensures decision { HasKindDecision (premises_of inputs.now) (reverse book.now.entries) kind.now result }
{
    if kind.prefer_local && is_home(inputs, book, kind) {
        return decide_all(inputs, book, kind);
    }
    match few_of_kind(inputs, book, vacancies, kind) {
        Some(few) => decide_few(inputs, book, kind, few.as_slice()),
        None => decide_all(inputs, book, kind),
    }
}

/// The places of a kind's builders that are up and have a free slot, where these are few.
fn few_of_kind(inputs: &Inputs, book: &Book, vacancies: &mut Vacancies, kind: &Kind) -> Option<Few>
    requires park { book.now.machines ≡ length inputs.now.machines + 1 }
    requires rising { IsStrictlyIncreasing kind.now.places }
    requires vacant { AreVacant (premises_of inputs.now) (reverse book.now.entries) vacancies.old }
    ensures vacant { AreVacant (premises_of inputs.now) (reverse book.now.entries) vacancies.new }
    ensures few { IfSome result (HoldFreeOf (premises_of inputs.now) (reverse book.now.entries) kind.now) }
    ensures rising { IfSome result IsStrictlyIncreasing }
{
    let machines = inputs.machines.as_slice();
    let loads = builder_loads(inputs, book);
    let ups = builder_ups(inputs, book);
    vacancies.few_of(machines, kind.places.as_slice(), loads, ups)
}

/// The decision about the derivations of a kind, whose free builders stand at these few places.
fn decide_few(inputs: &Inputs, book: &Book, kind: &Kind, few: &[usize]) -> Decision
    requires park { book.now.machines ≡ length inputs.now.machines + 1 }
    requires ranged { All (λ p. p < length inputs.now.machines) kind.now.places }
    requires few { HoldFreeOf (premises_of inputs.now) (reverse book.now.entries) kind.now few.now }
    requires rising { IsStrictlyIncreasing few.now }
    ensures { HasKindDecision (premises_of inputs.now) (reverse book.now.entries) kind.now result }
{
    let machines = inputs.machines.as_slice();
    let loads = builder_loads(inputs, book);
    let ups = builder_ups(inputs, book);
    let loc = is_home(inputs, book, kind);
    let loc_free = is_home_free(inputs, book, kind);
    decide_among(
        machines,
        kind.places.as_slice(),
        few,
        loads,
        ups,
        kind.prefer_local,
        loc,
        loc_free,
    )
}

/// The decision about the derivations of a kind, found by a walk over all of its machines.
fn decide_all(inputs: &Inputs, book: &Book, kind: &Kind) -> Decision
    requires park { book.now.machines ≡ length inputs.now.machines + 1 }
    requires rising { IsStrictlyIncreasing kind.now.places }
    requires ranged { All (λ p. p < length inputs.now.machines) kind.now.places }
    ensures { HasKindDecision (premises_of inputs.now) (reverse book.now.entries) kind.now result }
{
    let machines = inputs.machines.as_slice();
    let loads = builder_loads(inputs, book);
    let ups = builder_ups(inputs, book);
    let loc = is_home(inputs, book, kind);
    let loc_free = is_home_free(inputs, book, kind);
    decide_in(
        machines,
        kind.places.as_slice(),
        loads,
        ups,
        kind.prefer_local,
        loc,
        loc_free,
    )
}

/// The hook's reply about the derivations of a kind, whatever their status. It takes no memory.
pub(crate) fn reply_kind(inputs: &Inputs, book: &Book, kind: &Kind) -> Reply
    requires park { book.now.machines ≡ length inputs.now.machines + 1 }
    requires rising { IsStrictlyIncreasing kind.now.places }
    requires ranged { All (λ p. p < length inputs.now.machines) kind.now.places }
    ensures { HasKindReply (premises_of inputs.now) (reverse book.now.entries) kind.now result }
{
    let machines = inputs.machines.as_slice();
    let loads = builder_loads(inputs, book);
    let ups = builder_ups(inputs, book);
    let loc_free = is_home_free(inputs, book, kind);
    reply_in(machines, kind.places.as_slice(), loads, ups, loc_free)
}
