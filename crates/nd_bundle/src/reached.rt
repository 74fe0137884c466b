//! How far a bundle's text that comes in blocks was read.

ghost use Rattle.std.specs.Prelude.{◌≡◌, ◌++◌, [], None, IfErr, IfOk, OnOk};
ghost use Rattle.nd_bundle.specs.Parts.{GoesOn, IsFaultBy, IsReadBehind, IsSpent, IsToldBy, IsUnread, ReadsLines};

use crate::cutting::{cut_line, whole_lines};
use crate::found::Numbered;
use crate::gathered::Gathered;
use crate::manner::Manner;
use nd_links::GraphError;
use std::alloc::{AllocError, Global};
use std::thread::Threads;

/// How far a bundle's text that comes in blocks was read: what was gathered of its whole lines, and the rest, which
/// is a line that hasn't ended.
#[derive(Drop)]
pub(crate) struct Reached {
    pub gathered: Gathered,
    pub rest: Vec<u8>,
}

impl Reached {
    /// Nothing was read. It takes no memory.
    #[tactic(auto, using(crate::proofs::Parted::is_unread))]
    pub(crate) fn new(alloc: Global) -> Reached
        ensures { IsUnread result }
    {
        Reached {
            gathered: Gathered::new(alloc),
            rest: Vec::new(alloc),
        }
    }

    /// Reads on. Where memory is refused nothing is read any more.
    #[tactic(auto, using(crate::proofs::Parted::goes_spent))]
    pub(crate) fn read_on(
        &mut self,
        rt: &(impl Threads + Sync),
        alloc: Global,
        block: &[u8],
        manner: Manner,
    ) -> Result<(), AllocError>
        ensures { GoesOn manner block.now self.old self.new }
    {
        match self.read_block(rt, alloc, block, manner) {
            Ok(()) => Ok(()),
            Err(refused) => {
                self.end();
                Err(refused)
            }
        }
    }

    /// Reads nothing any more, for want of memory.
    #[tactic(auto, using(crate::proofs::Parted::is_spent))]
    fn end(&mut self)
        ensures { IsSpent self.new }
    {
        self.gathered.found.refused = Some(GraphError::Memory);
    }

    /// Reads on, unless a line was refused.
    fn read_block(
        &mut self,
        rt: &(impl Threads + Sync),
        alloc: Global,
        block: &[u8],
        manner: Manner,
    ) -> Result<(), AllocError>
        ensures { OnOk result (GoesOn manner block.now self.old self.new) }
    {
        match self.gathered.found.refused {
            Some(_) => Ok(()),
            None => self.read_text(rt, alloc, block, manner),
        }
    }

    /// Reads on, where no line was refused.
    #[tactic(auto, using(crate::proofs::Parted::goes_within, crate::proofs::Parted::goes_lines))]
    fn read_text(
        &mut self,
        rt: &(impl Threads + Sync),
        alloc: Global,
        block: &[u8],
        manner: Manner,
    ) -> Result<(), AllocError>
        requires { self.old.gathered.found.refused ≡ None }
        ensures { OnOk result (GoesOn manner block.now self.old self.new) }
    {
        if self.rest.is_empty() {
            return self.read_afresh(rt, alloc, block, manner);
        }
        match cut_line(block) {
            None => {
                self.rest.extend_from_slice(block)?;
                Ok(())
            }
            Some((end, behind)) => {
                self.end_line(alloc, end, manner)?;
                self.read_behind(rt, alloc, behind, manner)
            }
        }
    }

    /// Reads on, where no line was refused or had begun.
    fn read_afresh(
        &mut self,
        rt: &(impl Threads + Sync),
        alloc: Global,
        block: &[u8],
        manner: Manner,
    ) -> Result<(), AllocError>
        requires none { self.old.gathered.found.refused ≡ None }
        requires rest { self.old.rest.items ≡ [] }
        ensures { OnOk result (GoesOn manner block.now self.old self.new) }
    {
        self.read_behind(rt, alloc, block, manner)
    }

    /// Reads the line that hasn't ended, which ends so.
    fn end_line(&mut self, alloc: Global, end: &[u8], manner: Manner) -> Result<(), AllocError>
        requires { self.old.gathered.found.refused ≡ None }
        ensures lines { OnOk result (ReadsLines manner (self.old.rest.items ++ end.now) self.old.gathered self.new.gathered) }
        ensures rest { OnOk result (self.new.rest.items ≡ []) }
    {
        self.rest.extend_from_slice(end)?;
        self.gathered
            .read_line(alloc, self.rest.as_slice(), manner)?;
        self.rest.clear();
        Ok(())
    }

    /// Reads the whole lines of the text, where none has begun before it. What stands behind them is kept.
    #[tactic(auto, using(crate::proofs::Parted::read_behind))]
    fn read_behind(
        &mut self,
        rt: &(impl Threads + Sync),
        alloc: Global,
        text: &[u8],
        manner: Manner,
    ) -> Result<(), AllocError>
        requires { self.old.rest.items ≡ [] }
        ensures { OnOk result (IsReadBehind manner text.now self.old self.new) }
    {
        let (front, rest) = whole_lines(text);
        self.gathered.read_lines(rt, alloc, front, manner)?;
        self.rest.extend_from_slice(rest)?;
        Ok(())
    }

    /// What the lines of the text that was read say, the last line being the rest where there is one; or the
    /// first refusal.
    #[tactic(auto, using(crate::proofs::Parted::told_by, crate::proofs::Parted::fault_by, crate::proofs::Parted::fault_before, crate::proofs::Parted::fault_of_memory))]
    pub(crate) fn into_numbered(self, alloc: Global, manner: Manner) -> Result<Numbered, GraphError>
        ensures ok { IfOk result (IsToldBy manner self) }
        ensures err { IfErr result (IsFaultBy manner self) }
    {
        let Reached { gathered, rest } = self;
        match gathered.found.refused {
            Some(fault) => Err(fault),
            None => {
                let mut gathered = gathered;
                gathered.read_line(alloc, rest.as_slice(), manner)?;
                gathered.into_numbered()
            }
        }
    }
}
