//! Paths looked up by their bytes.

ghost use Rattle.std.specs.Cmp as Cmp;
ghost use Rattle.std.specs.Cmp.Lexicographic.{nat_list_eq_equiv};
ghost use Rattle.nd_graph.specs.Graphs.{IsNumber};
ghost use Rattle.nd_path.specs.StorePath.{path_eq, path_input};
ghost use Rattle.nd_path.specs.SamePaths.{paths_alike};

use indexmap::{Equivalent, IndexSet};
use nd_path::StorePath;
use std::hash::{Hash, Hasher};
use std::marker::Model;

/// The bytes of a text by which a store path is looked up, without a copy. They needn't be a store path's.
#[derive(Drop)]
struct PathBytes<'t> {
    bytes: &'t [u8],
}

impl<'t> Model for PathBytes<'t> {
    ghost use Rattle.std.specs.Prelude.{ℕ, List};

    ghost Value = { List ℕ };

    ghost view = { λ p. p.bytes.now };
}

impl<'t> PartialEq for PathBytes<'t> {
    ghost eq = { path_eq };

    ghost laws = { Cmp.partial_equiv_from_equiv nat_list_eq_equiv };

    fn eq(&self, other: &PathBytes<'t>) -> bool {
        self.bytes == other.bytes
    }
}

impl<'t> Eq for PathBytes<'t> {
    ghost laws = { nat_list_eq_equiv };
}

impl<'t> Hash for PathBytes<'t> {
    ghost hash_input = { path_input };

    ghost respects_eq = { paths_alike };

    fn hash<H: Hasher>(&self, state: &mut H) {
        state.write(self.bytes);
    }
}

impl<'t> Equivalent<StorePath> for &PathBytes<'t> {
    ghost equivalent = { λ q. path_eq q.now };

    ghost respects_hash = { λ q. paths_alike q.now };

    ghost respects_eq = { λ q. nat_list_eq_equiv.congr q.now };

    fn equivalent(&self, key: &StorePath) -> bool {
        self.bytes == key.bytes()
    }
}

/// The number of the path with these bytes, or `None` where there is none.
#[tactic(auto, using(nd_graph::proofs::Numbers::number_found))]
pub(crate) fn find_bytes(paths: &IndexSet<StorePath>, bytes: &[u8]) -> Option<usize>
    ensures { IsNumber paths.now.keys bytes.now result }
{
    paths.get_index_of(&PathBytes { bytes })
}
