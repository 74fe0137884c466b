//! How the entries of a run come to its scribe, and how what is durable comes back to those who wait for it.

ghost use Rattle.std.specs.Prelude.{◌≡◌, ◌<◌, length, true, IfSome};
ghost use Rattle.nd_run_desk.specs.Leaves.{Allows, HasHandedOver, IsStartOf};

use crate::desk::Desk;
use crate::keeping::{Leave, Step, Writing};
use crate::opened::Opened;
use nd_history::Entry;
use nd_keeping::Journal;
use nd_leases::Ticket;

/// What the scribe found under the lock.
#[derive(Clone, Copy, PartialEq, Eq)]
pub enum Found {
    /// Entries that came since, which were handed to it.
    Some,
    /// No further entry.
    Nothing,
    /// No memory for their lines, or that the journal has refused.
    Refused,
}

impl<L: Opened> Desk<L> {
    /// Hands the entries that came since to the scribe. `Refused` where there is no memory for their lines, or where it
    /// has refused before or isn't the scribe of this run.
    #[tactic(auto, using(crate::proofs::Fronts::begun_through, crate::proofs::Fronts::handed_over, crate::proofs::Upheld::upheld_handed))]
    pub fn hand_over<J: Journal>(&mut self, writing: &mut Writing<L, J>) -> Found
        ensures same { self.new.dispatch ≡ self.old.dispatch }
        ensures handed { result ≡ Found.Some → HasHandedOver writing.new.scribe self.new.progress.handed self.new.dispatch.history }
        ensures nothing { result ≡ Found.Nothing → length self.new.progress.handed.entries ≡ length self.new.dispatch.history }
    {
        let Desk {
            dispatch,
            progress,
            ..
        } = self;
        if progress.refused || !writing.scribe.handed().begins(&progress.handed) {
            return Found::Refused;
        }
        let history = dispatch.history();
        if history.len() == progress.handed.len() {
            return Found::Nothing;
        }
        if writing.scribe.take(history).is_err() {
            return Found::Refused;
        }
        progress.handed = writing.scribe.handed();
        Found::Some
    }

    /// What the scribe made durable is known under the lock from then on.
    #[tactic(auto, using(crate::proofs::Upheld::upheld_durable))]
    pub fn keep<J: Journal>(&mut self, writing: &Writing<L, J>) {
        let Desk { progress, .. } = self;
        if writing.scribe.handed().begins(&progress.handed) {
            progress.kept = writing.scribe.kept();
        }
    }

    /// Whether entries came that weren't handed to the scribe, or none will come any more that it could keep.
    pub fn has_news(&self) -> bool {
        self.progress.refused
            || self.progress.over
            || self.dispatch.history().len() != self.progress.handed.len()
    }

    /// The journal has refused: no further lease is made.
    pub fn refuse(&mut self) {
        self.progress.refused = true;
        self.begin_no_more();
    }

    /// Whether the journal has refused, and no entry is kept any more.
    pub fn has_refused(&self) -> bool {
        self.progress.refused
    }

    /// All workers have ended.
    pub fn end_all(&mut self) {
        self.progress.over = true;
    }

    /// Leave for the next step of a lease, where the entry that stands behind it is durable.
    #[tactic(auto, using(crate::proofs::Fronts::allowed))]
    pub fn leave_for(&self, step: Step, ticket: &Ticket) -> Option<Leave<L>>
        ensures { IfSome result (λ leave. Allows L.keeping.keeps leave.kept.entries leave.place step ticket.now) }
    {
        let place = place_behind(self.dispatch.history(), step, ticket)?;
        if place >= self.progress.kept.len() {
            return None;
        }
        Some(self.progress.leave(place))
    }
}

/// The place of the entry that stands behind a step of a lease: of its choice or of its start.
fn place_behind(history: &[Entry], step: Step, ticket: &Ticket) -> Option<usize>
    ensures { IfSome result (λ place. Allows true history.now place step ticket.now) }
{
    match step {
        Step::Call => place_of_choice(history, ticket),
        Step::Build => place_of_start(history, ticket),
    }
}

/// The place of a lease's choice.
fn place_of_choice(history: &[Entry], ticket: &Ticket) -> Option<usize>
    ensures { IfSome result (λ place. Allows true history.now place Step.Call ticket.now) }
{
    if !is_choice_of(history.get(ticket.serial)?, ticket) {
        return None;
    }
    Some(ticket.serial)
}

/// Whether the entry is the choice of this lease.
fn is_choice_of(entry: &Entry, ticket: &Ticket) -> bool
    ensures { result ≡ true → entry.now ≡ Entry.Chosen ticket.now.drv ticket.now.machine ticket.now.slot }
{
    match entry {
        Entry::Chosen { drv, machine, slot } => {
            *drv == ticket.drv && *machine == ticket.machine && *slot == ticket.slot
        }
        _ => false,
    }
}

/// The place of the last start of a lease's derivation, behind the lease's choice.
fn place_of_start(history: &[Entry], ticket: &Ticket) -> Option<usize>
    ensures { IfSome result (λ place. Allows true history.now place Step.Build ticket.now) }
{
    for behind in 0..history.len() {
        let place = history.len() - 1 - behind;
        if place <= ticket.serial {
            return None;
        }
        if is_start_of(&history[place], ticket.drv) {
            return Some(place);
        }
    }
    None
}

/// Whether the entry is a start of this derivation.
fn is_start_of(entry: &Entry, drv: u32) -> bool
    ensures { result ≡ true → IsStartOf drv entry.now }
{
    match entry {
        Entry::Started { drv: d, .. } => *d == drv,
        _ => false,
    }
}
