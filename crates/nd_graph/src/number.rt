//! The number of a path among distinct paths.

ghost use Rattle.nd_graph.specs.Graphs.{IsNumber};

use indexmap::IndexSet;
use nd_path::StorePath;

/// The number of a path, from 0 in the order of the set, or `None` where it isn't there. It is looked
/// up by hash.
#[tactic(auto, using(crate::proofs::Numbers::number_found))]
pub fn find_path(paths: &IndexSet<StorePath>, path: &StorePath) -> Option<usize>
    ensures { IsNumber paths.now.keys path.now result }
{
    paths.get_index_of(path)
}
