//! How the desk of a run is opened, and what is left of it when the run ends.

ghost use Rattle.std.specs.Prelude.{◌≡◌, true, false};
ghost use Rattle.nd_receipts.specs.Made.{made};
ghost use Rattle.nd_run_desk.specs.Judgements.{AreJudged};
ghost use Rattle.nd_run_desk.specs.Leaves.{IsFrontOf};
ghost use Rattle.nd_run_desk.specs.Steps.{RunsOn, StopsAreTold};
ghost use Rattle.nd_run_desk.specs.Written.{IsUnwritten, IsWritten, IsWrittenWhole};

use crate::desk::Desk;
use crate::keeping::{Progress, Writing};
use crate::opened::Opened;
use nd_keeping::{Front, Journal, Scribe};
use nd_ledger::Dispatch;
use nd_receipts::{Misreports, ParkPlace};
use std::alloc::Global;
use std::sync::ledger::{Book, Share};

/// What is left of a desk.
#[derive(Drop)]
pub struct Closed {
    /// The leases and their history.
    pub dispatch: Dispatch,
    /// The references that builds reported and may not have.
    pub misreports: Misreports,
    /// Whether the journal took the whole history. It counts as kept where there is no journal.
    pub kept: bool,
    /// The entries that were handed to the scribe: the first ones of the history.
    pub handed: Front,
}

impl<L: Opened> Desk<L> {
    /// The desk of a run when it begins, where the first entries of its history are in the scribe's journal already.
    /// Workers serve the places `manned`.
    #[tactic(auto, using(crate::proofs::Upheld::upheld_first))]
    pub fn open<J: Journal>(
        alloc: Global,
        dispatch: Dispatch,
        manned: Vec<ParkPlace>,
        book: Book<L>,
        scribe: &Scribe<J>,
    ) -> Desk<L>
        requires opening { L.opening ≡ dispatch }
        requires made { made dispatch.history ≡ book.total }
        requires there { scribe.now.handed.book ≡ L.keeping.book }
        requires handed { IsFrontOf scribe.now.handed.entries dispatch.history }
        requires durable { IsFrontOf scribe.now.kept.entries dispatch.history }
    {
        let opened = dispatch.history().len();
        Desk {
            dispatch,
            book,
            manned,
            misreports: Misreports::new(alloc),
            opened,
            progress: Progress::new(scribe),
        }
    }

    /// What is left of the desk once the ledger's whole share came back: it is what the workers made.
    pub fn close<J: Journal>(self, all: Share<L>, keeps: bool, writing: &Writing<L, J>) -> Closed
        requires { all.parts ≡ L.parts }
        ensures total { made result.dispatch.history ≡ all.amount }
        ensures runs { RunsOn L.opening result.dispatch }
        ensures told { StopsAreTold L.opening result.dispatch }
        ensures misreports { AreJudged L.opening result.dispatch result.misreports }
        ensures handed { result.handed ≡ self.progress.handed }
        ensures written { IsWritten keeps result.kept writing.now.scribe result.handed.entries result.dispatch.history }
    {
        let mut all = all;
        let kept = self.is_kept(keeps, writing);
        let Desk {
            dispatch,
            mut book,
            manned,
            misreports,
            progress,
            opened: _,
        } = self;
        book.audit(&mut all);
        drop(book);
        drop(all);
        drop(manned);
        let Progress { handed, .. } = progress;
        Closed {
            dispatch,
            misreports,
            kept,
            handed,
        }
    }

    /// Whether a run that keeps its history has all of it in the journal. One that keeps none has it all.
    #[tactic(auto, using(crate::proofs::Fronts::unkept, crate::proofs::Fronts::kept_written))]
    fn is_kept<J: Journal>(&self, keeps: bool, writing: &Writing<L, J>) -> bool
        ensures { IsWritten keeps result writing.now.scribe self.now.progress.handed.entries self.now.dispatch.history }
    {
        if !keeps {
            return true;
        }
        self.is_written(writing)
    }

    /// Whether the journal has taken the whole history.
    #[tactic(auto, using(crate::proofs::Fronts::written_whole, crate::proofs::Fronts::refused_unwritten, crate::proofs::Fronts::other_unwritten, crate::proofs::Fronts::beyond_unwritten))]
    fn is_written<J: Journal>(&self, writing: &Writing<L, J>) -> bool
        ensures whole { result ≡ true → IsWrittenWhole writing.now.scribe self.now.dispatch.history }
        ensures lacks { result ≡ false → IsUnwritten writing.now.scribe self.now.progress.handed.entries self.now.dispatch.history }
    {
        let scribe = &writing.scribe;
        if scribe.is_refused() {
            return false;
        }
        let kept = scribe.kept();
        if kept.len() != self.dispatch.history().len() {
            return false;
        }
        if !kept.begins(&self.progress.handed) {
            return false;
        }
        true
    }
}
