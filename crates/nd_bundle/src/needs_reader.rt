//! The reader of a bundle's needs.

ghost use Rattle.std.specs.Prelude.{◌≡◌, ◌++◌, [], IfOk, IfErr, MatchResult};
ghost use Rattle.nd_links.specs.declared.fault.GraphError.{GraphError};
ghost use Rattle.nd_bundle.specs.Bundles.{IsBundle, IsFirstFault};
ghost use Rattle.nd_bundle.specs.Needed.{HasNeeds};
ghost use Rattle.nd_links.specs.Placing.{ArePlaced};
ghost use Rattle.nd_graph.specs.Graphs.{Nodes};

use crate::lines_reader::LinesReader;
use crate::manner::Manner;
use crate::needs::Needs;
use crate::whole::needs_side_by_side;
use nd_links::GraphError;
use std::alloc::{AllocError, Global};
use std::marker::Model;
use std::thread::Threads;

/// A reader of a bundle whose text comes in blocks, as [`BundleReader`], for who asks what its derivations need and not
/// for their graph: of what a line says it keeps no sources and no
/// outputs' paths, and a need that several lines say mostly once. Contracts see whether paths are
/// checked, and the text so far.
#[derive(Drop)]
pub struct NeedsReader {
    alloc: Global,
    lines: LinesReader,
}

impl Model for NeedsReader {
    ghost use Rattle.nd_bundle.specs.Reading.{Reading};

    ghost Value = { Reading };

    ghost use Rattle.nd_bundle.specs.Told.{reading_of, ReadsNeeds};

    ghost view = { λ r. reading_of r.lines };

    ghost invariant = { λ r. ReadsNeeds r.lines };
}

impl NeedsReader {
    /// A reader that has read nothing. With `check_paths` each line's path has to be the one that its name and
    /// text have. It takes no memory.
    pub fn new(alloc: Global, check_paths: bool) -> NeedsReader
        ensures check { result.check ≡ check_paths }
        ensures text { result.text ≡ [] }
    {
        NeedsReader {
            alloc,
            lines: LinesReader::new(
                alloc,
                Manner {
                    check: check_paths,
                    whole: false,
                },
            ),
        }
    }

    /// Reads on, as [`BundleReader::feed`].
    pub fn feed(&mut self, rt: &(impl Threads + Sync), block: &[u8]) -> Result<(), AllocError>
        ensures check { self.new.check ≡ self.old.check }
        ensures text { self.new.text ≡ self.old.text ++ block.now }
    {
        self.lines.feed(rt, block)
    }

    /// The needs of the bundle that was read, whose graph there is. What stands behind the last newline is its last
    /// line. Refuses as [`BundleReader::finish`] does.
    pub fn finish(self, rt: &(impl Threads + Sync)) -> Result<Needs, GraphError>
        ensures ok { IfOk result (HasNeeds self.check self.text) }
        ensures refused { IfErr result (λ fault. IsFirstFault self.check self.text fault) }
        ensures exactly { (graph : Nodes) → IsBundle self.check self.text graph
            → MatchResult result (λ needs. ArePlaced needs.table needs.places graph.needs) (λ e. e ≡ GraphError.Memory) }
    {
        let NeedsReader { alloc, lines } = self;
        let numbered = lines.into_numbered()?;
        needs_side_by_side(rt, alloc, numbered)
    }
}
