//! The reader of a bundle whose text comes in blocks.

ghost use Rattle.std.specs.Prelude.{◌≡◌, ◌++◌, [], IfOk, IfErr, MatchResult};
ghost use Rattle.nd_links.specs.declared.fault.GraphError.{GraphError};
ghost use Rattle.nd_bundle.specs.Bundles.{IsBundle, IsFirstFault};
ghost use Rattle.nd_graph.specs.Graphs.{Nodes};

use crate::lines_reader::LinesReader;
use crate::manner::Manner;
use crate::whole::graph_side_by_side;
use nd_graph::Graph;
use nd_links::GraphError;
use std::alloc::{AllocError, Global};
use std::marker::Model;
use std::thread::Threads;

/// A reader of a bundle whose text comes in blocks, which may be cut anywhere. No block is kept once it was read, but
/// for a line that hasn't ended. `read_bundle` is this reader over the whole text as one block. Contracts see whether
/// paths are checked, and the text so far.
#[derive(Drop)]
pub struct BundleReader {
    alloc: Global,
    lines: LinesReader,
}

impl Model for BundleReader {
    ghost use Rattle.nd_bundle.specs.Reading.{Reading};

    ghost Value = { Reading };

    ghost use Rattle.nd_bundle.specs.Told.{reading_of, ReadsGraph};

    ghost view = { λ r. reading_of r.lines };

    ghost invariant = { λ r. ReadsGraph r.lines };
}

impl BundleReader {
    /// A reader that has read nothing. With `check_paths` each line's path has to be the one that its name and
    /// text have. It takes no memory.
    pub fn new(alloc: Global, check_paths: bool) -> BundleReader
        ensures check { result.check ≡ check_paths }
        ensures text { result.text ≡ [] }
    {
        BundleReader {
            alloc,
            lines: LinesReader::new(
                alloc,
                Manner {
                    check: check_paths,
                    whole: true,
                },
            ),
        }
    }

    /// Reads on: the block stands behind what was read, whether this is refused or not. The lines that end in it are
    /// read by many threads where they have 128 KiB or more, and what was read of the block before is put together
    /// meanwhile. Behind the first line that is refused nothing is read any more: `finish` tells of it.
    ///
    /// Refuses where an allocation is refused. Nothing is read any more then, and `finish` answers `Memory`.
    pub fn feed(&mut self, rt: &(impl Threads + Sync), block: &[u8]) -> Result<(), AllocError>
        ensures check { self.new.check ≡ self.old.check }
        ensures text { self.new.text ≡ self.old.text ++ block.now }
    {
        self.lines.feed(rt, block)
    }

    /// The graph of the bundle that was read. What stands behind the last newline is its last line.
    ///
    /// Refuses with the first of the refusals 1 to 6 of `GraphError` on the first line that has one,
    /// else with the first of 7 to 11 over the whole, and with `Memory` (12) where an allocation is
    /// refused.
    #[tactic(auto, using(crate::proofs::Told::numbered_sized, crate::proofs::Told::numbered_paired, crate::proofs::Told::numbered_rising, crate::proofs::Told::numbered_bundle, crate::proofs::Told::numbered_fault))]
    pub fn finish(self, rt: &(impl Threads + Sync)) -> Result<Graph, GraphError>
        ensures ok { IfOk result (λ graph. IsBundle self.check self.text graph) }
        ensures refused { IfErr result (λ fault. IsFirstFault self.check self.text fault) }
        ensures exactly { (graph : Nodes) → IsBundle self.check self.text graph
            → MatchResult result (λ g. g ≡ graph) (λ e. e ≡ GraphError.Memory) }
    {
        let BundleReader { alloc, lines } = self;
        let numbered = lines.into_numbered()?;
        graph_side_by_side(rt, alloc, numbered)
    }
}
