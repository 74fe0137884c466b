//! The sequential reader of bundles: the clearest body of the reader's contract.

ghost use Rattle.std.specs.Prelude.{◌≡◌, IfOk, IfErr, MatchResult};
ghost use Rattle.nd_links.specs.declared.fault.GraphError.{GraphError};
ghost use Rattle.nd_bundle.specs.Bundles.{IsBundle, IsFirstFault};
ghost use Rattle.nd_graph.specs.Graphs.{Nodes};

use crate::collect::read_lines;
use crate::manner::Manner;
use crate::whole::graph_of;
use nd_graph::Graph;
use nd_links::GraphError;
use std::alloc::Global;

/// The graph of a bundle: a line for each derivation, its path, a space and its text, the lines
/// separated by newlines, of which the last may be missing (this project's own format). With
/// `check_paths` each line's path has to be the one that its name and text have.
///
/// Refuses with the first of the refusals 1 to 6 of `GraphError` on the first line that has one,
/// else with the first of 7 to 11 over the whole, and with `Memory` (12) where an allocation is
/// refused.
#[tactic(auto, using(crate::proofs::Told::say_sized, crate::proofs::Told::say_paired, crate::proofs::Told::say_rising, crate::proofs::Told::is_bundle, crate::proofs::Told::first_fault))]
pub fn read_bundle(alloc: Global, text: &[u8], check_paths: bool) -> Result<Graph, GraphError>
    ensures ok { IfOk result (λ graph. IsBundle check_paths text.now graph) }
    ensures refused { IfErr result (λ fault. IsFirstFault check_paths text.now fault) }
    ensures exactly { (graph : Nodes) → IsBundle check_paths text.now graph
        → MatchResult result (λ g. g ≡ graph) (λ e. e ≡ GraphError.Memory) }
{
    let manner = Manner {
        check: check_paths,
        whole: true,
    };
    let columns = read_lines(alloc, text, manner)?;
    graph_of(alloc, columns)
}
