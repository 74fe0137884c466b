//! What a worker holds: its share of the entries that were made, and its notes.

ghost use Rattle.std.specs.Prelude.{◌≡◌, ◌+◌, ◌<◌, ◌≤◌, [], length, reverse, true, IfErr, OnOk, OnErr};
ghost use Rattle.nd_ledger.specs.Moves.{IsEndRefused};
ghost use Rattle.nd_receipts.specs.Noted.{HasNoted, HasNotedWith, HasJudged, afresh};
ghost use Rattle.nd_run_desk.specs.Judgements.{is_own_cause};

use nd_closure::Refs;
use nd_history::{Entry, Why};
use nd_leases::Ticket;
use nd_ledger::{Refusal, Refused};
use nd_path::PathSet;
use nd_receipts::{Behind, Kind, Notes, Receipt};
use nd_run_desk::{Desk, Opened};
use std::alloc::{AllocError, Global};
use std::sync::ledger::Share;

/// No references. It takes no memory.
fn no_refs(alloc: Global) -> Refs
    ensures { result ≡ [] }
{
    Refs::new(Vec::new(alloc))
}

/// A worker's share, which is the number of its receipts, and its notes.
#[derive(Drop)]
pub struct Hand<L: Opened> {
    /// Its share of the entries that workers made.
    pub share: Share<L>,
    /// Its receipts, with the entries that it noted.
    pub notes: Notes,
    ghost part: { share.parts ≡ 1 },
    ghost counted: { share.amount ≡ length notes.receipts },
}

impl<L: Opened> Hand<L> {
    /// A hand without receipts. It takes no memory.
    pub fn new(alloc: Global, share: Share<L>) -> Hand<L>
        requires part { share.parts ≡ 1 }
        requires none { share.amount ≡ 0 }
        ensures receipts { result.notes.receipts ≡ [] }
        ensures copies { result.notes.copies ≡ [] }
    {
        Hand {
            share,
            notes: Notes::new(alloc),
        }
    }

    /// Makes room for two receipts.
    pub(crate) fn make_room(&mut self) -> Result<(), AllocError>
        ensures receipts { self.new.notes.receipts ≡ self.old.notes.receipts }
        ensures copies { self.new.notes.copies ≡ self.old.notes.copies }
        ensures made { OnOk result (1 < self.new.notes.room) }
    {
        self.notes.make_room(2)
    }

    /// Makes a start, and notes it.
    pub(crate) fn start(
        &mut self,
        alloc: Global,
        desk: &mut Desk<L>,
        ticket: Ticket,
        paths: PathSet,
        copy: Entry,
    ) -> Result<(), Refused<PathSet>>
        requires room { 0 < self.old.notes.room }
        requires copy { copy ≡ Entry.Started ticket.drv paths }
        ensures ok { OnOk result (HasNoted self.old.notes self.new.notes Kind.Started (afresh 2 []) (Entry.Started ticket.drv paths)) }
        ensures err { OnErr result (self.new.notes ≡ self.old.notes) }
        ensures back { IfErr result (λ r. r.value ≡ paths) }
    {
        let Hand { share, notes } = self;
        match desk.start(alloc, ticket, paths, share) {
            Ok(index) => {
                let receipt = Receipt {
                    index,
                    kind: Kind::Started,
                    calls: 2,
                    paths: PathSet::new(alloc),
                    refs: no_refs(alloc),
                    again: false,
                };
                notes.note(receipt, copy);
                Ok(())
            }
            Err(refused) => {
                drop(copy);
                Err(refused)
            }
        }
    }

    /// Gives a lease back, and notes it.
    pub(crate) fn down(
        &mut self,
        alloc: Global,
        desk: &mut Desk<L>,
        ticket: Ticket,
        calls: u8,
        paths: PathSet,
    ) -> Result<(), Refusal>
        requires room { 0 < self.old.notes.room }
        ensures ok { OnOk result (HasNoted self.old.notes self.new.notes Kind.Down (afresh calls paths) (Entry.Down ticket.drv)) }
    {
        let Hand { share, notes } = self;
        match desk.down(ticket, share) {
            Ok(index) => {
                let receipt = Receipt {
                    index,
                    kind: Kind::Down,
                    calls,
                    paths,
                    refs: no_refs(alloc),
                    again: false,
                };
                notes.note(receipt, Entry::Down { drv: ticket.drv });
                Ok(())
            }
            Err(refusal) => {
                drop(paths);
                Err(refusal)
            }
        }
    }

    /// Ends a build with its outputs, where it may have the references that it reported, and else as a failure
    /// for them, and notes it. A refusal hands back what stands behind the entry.
    #[tactic(auto, using(crate::proofs::Going::judgements))]
    pub(crate) fn end(
        &mut self,
        alloc: Global,
        desk: &mut Desk<L>,
        ticket: Ticket,
        refs: Refs,
        copy: Refs,
        behind: Behind,
    ) -> Result<(), Refused<Behind>>
        requires room { 0 < self.old.notes.room }
        requires copy { copy ≡ refs }
        ensures ok { OnOk result (HasJudged self.old.notes self.new.notes ticket.drv behind refs) }
        ensures err { OnErr result (self.new.notes ≡ self.old.notes) }
        ensures back { IfErr result (λ r. r.value ≡ behind) }
    {
        let Hand { share, notes } = self;
        match desk.end(alloc, ticket, refs, share) {
            Ok(index) => {
                let Behind {
                    calls,
                    paths,
                    again,
                } = behind;
                let receipt = Receipt {
                    index,
                    kind: Kind::Built,
                    calls,
                    paths,
                    refs: no_refs(alloc),
                    again,
                };
                let drv = ticket.drv;
                notes.note(receipt, Entry::Built { drv, refs: copy });
                Ok(())
            }
            Err(Refused { why, value }) => {
                if why != Refusal::BadReferences {
                    drop(value);
                    drop(copy);
                    return Err(Refused { why, value: behind });
                }
                self.misreport(alloc, desk, ticket, value, copy, behind)
            }
        }
    }

    /// Ends a build as a failure for the references that it reported, and notes it with them.
    fn misreport(
        &mut self,
        alloc: Global,
        desk: &mut Desk<L>,
        ticket: Ticket,
        refs: Refs,
        copy: Refs,
        behind: Behind,
    ) -> Result<(), Refused<Behind>>
        requires room { 0 < self.old.notes.room }
        requires copy { copy ≡ refs }
        requires wrong { IsEndRefused desk.old.dispatch.inputs (reverse desk.old.dispatch.history) ticket refs Refusal.BadReferences }
        ensures ok { OnOk result (HasNotedWith self.old.notes self.new.notes Kind.Failed behind refs (Entry.Failed ticket.drv Why.BadReferences)) }
        ensures err { OnErr result (self.new.notes ≡ self.old.notes) }
        ensures back { IfErr result (λ r. r.value ≡ behind) }
    {
        let Hand { share, notes } = self;
        match desk.misreport(ticket, refs, share) {
            Ok(index) => {
                let Behind {
                    calls,
                    paths,
                    again,
                } = behind;
                let receipt = Receipt {
                    index,
                    kind: Kind::Failed,
                    calls,
                    paths,
                    refs: copy,
                    again,
                };
                let (drv, why) = (ticket.drv, Why::BadReferences);
                notes.note(receipt, Entry::Failed { drv, why });
                Ok(())
            }
            Err(_) => {
                drop(copy);
                Err(Refused {
                    why: Refusal::Memory,
                    value: behind,
                })
            }
        }
    }

    /// Ends a lease without outputs, and notes it.
    pub(crate) fn fail(
        &mut self,
        alloc: Global,
        desk: &mut Desk<L>,
        ticket: Ticket,
        why: Why,
        behind: Behind,
    ) -> Result<(), Refusal>
        requires room { 0 < self.old.notes.room }
        requires cause { is_own_cause why ≡ true }
        ensures ok { OnOk result (HasNoted self.old.notes self.new.notes Kind.Failed behind (Entry.Failed ticket.drv why)) }
    {
        let Hand { share, notes } = self;
        match desk.fail(ticket, why, share) {
            Ok(index) => {
                let Behind {
                    calls,
                    paths,
                    again,
                } = behind;
                let receipt = Receipt {
                    index,
                    kind: Kind::Failed,
                    calls,
                    paths,
                    refs: no_refs(alloc),
                    again,
                };
                let drv = ticket.drv;
                notes.note(receipt, Entry::Failed { drv, why });
                Ok(())
            }
            Err(refusal) => {
                drop(behind);
                Err(refusal)
            }
        }
    }
}
