//! The reader of the lines of a bundle whose text comes in blocks.

ghost use Rattle.std.specs.Prelude.{◌≡◌, ◌++◌, [], IfOk, IfErr};
ghost use Rattle.nd_bundle.specs.Bundles.{IsFirstFault};
ghost use Rattle.nd_bundle.specs.Said.{SayNumbered};
ghost use Rattle.nd_bundle.specs.Lines.{lines};

use crate::found::Numbered;
use crate::manner::Manner;
use crate::reached::Reached;
use crate::so_far::SoFar;
use nd_links::GraphError;
use std::alloc::{AllocError, Global};
use std::marker::Model;
use std::thread::Threads;

/// A reader of the lines of a bundle whose text comes in blocks, which may be cut anywhere. No block is kept once it was
/// read, but for a line that hasn't ended. Contracts see how lines are read, and the text so far.
#[derive(Drop)]
pub(crate) struct LinesReader {
    alloc: Global,
    manner: Manner,
    reached: Reached,
    so_far: SoFar,
}

impl Model for LinesReader {
    ghost use Rattle.nd_bundle.specs.ReadingLines.{ReadingLines};

    ghost Value = { ReadingLines };

    ghost use Rattle.nd_bundle.specs.Parts.{IsReading};

    ghost view = { λ r. record { manner = r.manner; text = r.so_far.bytes } };

    ghost invariant = { λ r. IsReading r.manner r.so_far.bytes r.reached };
}

impl LinesReader {
    /// A reader that has read nothing. It takes no memory.
    pub(crate) fn new(alloc: Global, manner: Manner) -> LinesReader
        ensures manner { result.manner ≡ manner }
        ensures text { result.text ≡ [] }
    {
        LinesReader {
            alloc,
            manner,
            reached: Reached::new(alloc),
            so_far: SoFar::new(),
        }
    }

    /// Reads on: the block stands behind what was read, whether its reading is refused memory or not.
    pub(crate) fn feed(
        &mut self,
        rt: &(impl Threads + Sync),
        block: &[u8],
    ) -> Result<(), AllocError>
        ensures manner { self.new.manner ≡ self.old.manner }
        ensures text { self.new.text ≡ self.old.text ++ block.now }
    {
        let read = self.reached.read_on(rt, self.alloc, block, self.manner);
        self.so_far = self.so_far.with(block);
        read
    }

    /// What the lines say with their paths numbered, or the first refusal. What stands behind the last newline is the
    /// last line.
    #[tactic(auto, using(crate::proofs::Parted::says_so_far, crate::proofs::Parted::fault_so_far))]
    pub(crate) fn into_numbered(self) -> Result<Numbered, GraphError>
        ensures ok { IfOk result (SayNumbered self.manner (lines self.text)) }
        ensures err { IfErr result (IsFirstFault self.manner.check self.text) }
    {
        let LinesReader {
            alloc,
            manner,
            reached,
            ..
        } = self;
        // For the proof: each clause of the answer is met where the answer is known.
        match reached.into_numbered(alloc, manner) {
            Ok(numbered) => Ok(numbered),
            Err(fault) => Err(fault),
        }
    }
}
