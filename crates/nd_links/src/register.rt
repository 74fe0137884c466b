//! What the inputs of a bundle's lines are looked up in.

ghost use Rattle.std.specs.Prelude.{◌≡◌, ◌<◌, [], length};
ghost use Rattle.std.specs.List.{slice_index_or};
ghost use Rattle.nd_graph.specs.Graphs.{IsNumber};
ghost use Rattle.nd_links.specs.Linking.{known_of};
ghost use Rattle.nd_links.specs.Settled.{AllNamesRise, NamesRise};

use crate::name::Name;
use crate::names::Names;
use crate::path_bytes::find_bytes;
use indexmap::IndexSet;
use nd_path::StorePath;
use std::marker::Model;

/// The nodes of a bundle by number: their paths, and the names of the outputs of each, which rise.
#[derive(Drop)]
pub(crate) struct Register<'n> {
    paths: &'n IndexSet<StorePath>,
    names: &'n [Names],
}

impl<'n> Model for Register<'n> {
    ghost use Rattle.nd_links.specs.Linking.{known_of, IsKnown, Known};

    ghost Value = { Known };

    ghost view = { λ r. known_of r.paths.now.keys r.names.now };

    ghost invariant = { λ r. IsKnown (known_of r.paths.now.keys r.names.now) };
}

impl<'n> Register<'n> {
    /// The nodes with these paths and these output names.
    pub(crate) fn new(paths: &'n IndexSet<StorePath>, names: &'n [Names]) -> Register<'n>
        requires sized { length names.now ≡ length paths.now.keys }
        requires rising { AllNamesRise names.now }
        ensures { result ≡ known_of paths.now.keys names.now }
    {
        Register { paths, names }
    }

    /// The number of the node with this path, or `None` where there is none.
    pub(crate) fn find(&self, path: &[u8]) -> Option<usize>
        ensures { IsNumber self.now.paths path.now result }
    {
        find_bytes(self.paths, path)
    }

    /// The names of the outputs of a node, which rise.
    pub(crate) fn names_of(&self, node: usize) -> &[Name]
        requires { node < length self.now.paths }
        ensures names { result.now ≡ slice_index_or self.now.names node [] }
        ensures rising { NamesRise result.now }
    {
        row_of(self.names, node)
    }
}

/// The names at a place, which rise.
#[tactic(auto, using(crate::proofs::Linked::names_rise_at))]
fn row_of<'n>(names: &'n [Names], node: usize) -> &'n [Name]
    requires within { node < length names.now }
    requires rising { AllNamesRise names.now }
    ensures names { result.now ≡ slice_index_or names.now node [] }
    ensures rising { NamesRise result.now }
{
    names[node].as_slice()
}
