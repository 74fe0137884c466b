//! Which derivations were being built when a run began.

ghost use Rattle.std.specs.Prelude.{◌≡◌, IfOk, length, reverse, slice_get};
ghost use Rattle.nd_receipts.specs.Standing.{IsIdle, Tells, lease_said, start_said, flag_of, flags_after, is_flagged};
ghost use Rattle.nd_receipts.specs.Walks.{AreWithin};

use nd_history::Entry;
use std::alloc::{AllocError, Global};

/// For each derivation whether it is leased, and whether its lease was started. It is made before the run, so
/// that going through the entries takes no memory.
#[derive(Drop, Debug)]
pub struct Standing {
    pub(crate) leased: Vec<bool>,
    pub(crate) started: Vec<bool>,
}

impl Standing {
    /// So many derivations, none of which was leased yet.
    #[tactic(auto, using(crate::proofs::Standings::idle, crate::proofs::Standings::sized))]
    pub fn new(alloc: Global, drvs: usize) -> Result<Standing, AllocError>
        ensures idle { IfOk result (λ s. IsIdle s) }
        ensures sized { IfOk result (λ s. length s.leased.items ≡ drvs) }
    {
        Ok(Standing {
            leased: vec![in alloc; false; drvs]?,
            started: vec![in alloc; false; drvs]?,
        })
    }

    /// Follows over one more entry.
    fn follow(&mut self, entry: &Entry)
        ensures leased { self.new.leased.items ≡ flags_after self.old.leased.items (lease_said entry.now) }
        ensures started { self.new.started.items ≡ flags_after self.old.started.items (start_said entry.now) }
    {
        let Standing { leased, started } = self;
        put_said(leased, lease_said(entry));
        put_said(started, start_said(entry));
    }

    /// Whether this derivation is being built: its lease is live and was started.
    pub(crate) fn is_building(&self, drv: u32) -> bool
        ensures { result ≡ is_flagged self.now drv }
    {
        if !flag_at(self.leased.as_slice(), drv) {
            return false;
        }
        flag_at(self.started.as_slice(), drv)
    }
}

/// What an entry says of whether a derivation is leased: its choice that it is, its end that it isn't.
fn lease_said(entry: &Entry) -> Option<(u32, bool)>
    ensures { result ≡ lease_said entry.now }
{
    match entry {
        Entry::Chosen { drv, .. } => Some((*drv, true)),
        Entry::Down { drv } => Some((*drv, false)),
        Entry::Built { drv, .. } => Some((*drv, false)),
        Entry::Failed { drv, .. } => Some((*drv, false)),
        Entry::NoBuilder { .. }
        | Entry::Started { .. }
        | Entry::Stop
        | Entry::Drain { .. }
        | Entry::Enable { .. } => None,
    }
}

/// What an entry says of whether a derivation's lease was started: its start that it was, its choice that it
/// wasn't.
pub(crate) fn start_said(entry: &Entry) -> Option<(u32, bool)>
    ensures { result ≡ start_said entry.now }
{
    match entry {
        Entry::Started { drv, .. } => Some((*drv, true)),
        Entry::Chosen { drv, .. } => Some((*drv, false)),
        Entry::NoBuilder { .. }
        | Entry::Down { .. }
        | Entry::Built { .. }
        | Entry::Failed { .. }
        | Entry::Stop
        | Entry::Drain { .. }
        | Entry::Enable { .. } => None,
    }
}

/// Puts what was said of a derivation; past the end nothing is put.
fn put_said(flags: &mut Vec<bool>, said: Option<(u32, bool)>)
    ensures { flags.new.items ≡ flags_after flags.old.items said }
{
    if let Some((drv, flag)) = said {
        let drv = drv as usize;
        if drv < flags.len() {
            flags[drv] = flag;
        }
    }
}

/// The flag of this derivation; it isn't set past the end.
fn flag_at(flags: &[bool], drv: u32) -> bool
    ensures { result ≡ flag_of (slice_get flags.now drv) }
{
    match flags.get(drv as usize) {
        Some(flag) => *flag,
        None => false,
    }
}

/// What stands behind these entries of a history, the first ones.
#[tactic(auto, using(crate::proofs::Standings::standings))]
pub(crate) fn stand_behind(standing: Standing, old: &[Entry]) -> Standing
    requires idle { IsIdle standing }
    requires within { AreWithin (length standing.leased.items) old.now }
    ensures { Tells result (reverse old.now) }
{
    let mut standing = standing;
    'following: for entry in old {
        standing.follow(entry);
    }
    standing
}
