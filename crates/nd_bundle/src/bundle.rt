//! The reader of bundles.

ghost use Rattle.std.specs.Prelude.{◌≡◌, IfOk, IfErr, MatchResult};
ghost use Rattle.nd_links.specs.declared.fault.GraphError.{GraphError};
ghost use Rattle.nd_bundle.specs.Bundles.{IsBundle, IsFirstFault};
ghost use Rattle.nd_graph.specs.Graphs.{Nodes};

use crate::reader::BundleReader;
use nd_graph::Graph;
use nd_links::GraphError;
use std::alloc::Global;
use std::thread::Threads;

/// The graph of a bundle, as `plain::read_bundle`: what a `BundleReader` answers that is fed the whole text as one block.
/// So the lines of a bundle of 128 KiB or more are read by many threads. The answer is that of `plain::read_bundle`, unless
/// one of the two wants memory (`laws::one_bundle`).
///
/// Refuses with the first of the refusals 1 to 6 of `GraphError` on the first line that has one,
/// else with the first of 7 to 11 over the whole, and with `Memory` (12) where an allocation is
/// refused.
pub fn read_bundle(
    rt: &(impl Threads + Sync),
    alloc: Global,
    text: &[u8],
    check_paths: bool,
) -> Result<Graph, GraphError>
    ensures ok { IfOk result (λ graph. IsBundle check_paths text.now graph) }
    ensures refused { IfErr result (λ fault. IsFirstFault check_paths text.now fault) }
    ensures exactly { (graph : Nodes) → IsBundle check_paths text.now graph
        → MatchResult result (λ g. g ≡ graph) (λ e. e ≡ GraphError.Memory) }
{
    let mut reader = BundleReader::new(alloc, check_paths);
    reader.feed(rt, text)?;
    reader.finish(rt)
}
