//! The numbering of paths, in the order of the bundle's lines.

ghost use Rattle.std.specs.Prelude.{◌≡◌, None, IfOk, OnOk, IfErr};
ghost use Rattle.nd_links.specs.Numbering.{AddsPaths, AreNoNumbers, HasNumbers, IsNumberFault, LacksNumbers};
ghost use Rattle.nd_graph.specs.Walks.{AreDistinct};

use crate::fault::GraphError;
use indexmap::IndexSet;
use nd_path::StorePath;
use std::alloc::{AllocError, Global};

/// Paths as a set, in the order of their lines, up to the first that an earlier line has too.
#[derive(Drop)]
pub struct Numbers {
    /// The paths, each of which stands once.
    pub paths: IndexSet<StorePath>,
    /// The line of that one. Behind it no path is numbered.
    pub repeat: Option<usize>,
}

impl Numbers {
    /// Of no path. It takes no memory.
    #[tactic(auto, using(crate::proofs::Numbering::no_numbers))]
    pub fn new(alloc: Global) -> Numbers
        ensures { AreNoNumbers result }
    {
        Numbers {
            paths: IndexSet::new(alloc),
            repeat: None,
        }
    }

    /// Numbers paths behind those before, unless one stood twice. Refuses where an allocation is refused: some of them may
    /// have been numbered then.
    #[tactic(auto, using(crate::proofs::Numbering::adds_behind))]
    pub fn add(&mut self, paths: Vec<StorePath>) -> Result<(), AllocError>
        ensures { OnOk result (AddsPaths self.old paths.items self.new) }
    {
        match self.repeat {
            Some(_) => Ok(()),
            None => self.number(paths),
        }
    }

    /// Numbers paths behind those before, none of which stood twice.
    #[tactic(auto, using(crate::proofs::Numbering::adds_none))]
    fn number(&mut self, paths: Vec<StorePath>) -> Result<(), AllocError>
        requires { self.old.repeat ≡ None }
        ensures { OnOk result (AddsPaths self.old paths.items self.new) }
    {
        self.paths.reserve(paths.len())?;
        for path in paths {
            if !self.paths.insert(path)? {
                self.repeat = Some(self.paths.len() + 1);
                return Ok(());
            }
        }
        Ok(())
    }

    /// The paths as a set, in their order. Refuses with `Duplicate` and the first line, from 1, whose path stood before.
    #[tactic(auto, using(crate::proofs::Numbering::has_numbers, crate::proofs::Numbering::lacks_numbers))]
    pub fn into_paths(self) -> Result<IndexSet<StorePath>, GraphError>
        ensures ok { IfOk result (λ paths. HasNumbers self paths.keys) }
        ensures err { IfErr result (LacksNumbers self) }
    {
        let Numbers { paths, repeat } = self;
        match repeat {
            None => Ok(paths),
            Some(line) => Err(GraphError::Duplicate(line)),
        }
    }
}

/// The paths as a set, in their order. Refuses with `Duplicate` and the first line, from 1, whose path stood before, and
/// with `Memory` where an allocation is refused.
pub fn number_all(alloc: Global, paths: Vec<StorePath>) -> Result<IndexSet<StorePath>, GraphError>
    ensures ok { IfOk result (λ numbered. numbered.keys ≡ paths.items) }
    ensures distinct { OnOk result (AreDistinct paths.items) }
    ensures err { IfErr result (λ fault. IsNumberFault paths.items fault) }
{
    let mut numbers = Numbers::new(alloc);
    numbers.add(paths)?;
    numbers.into_paths()
}
