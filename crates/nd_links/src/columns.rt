//! What the lines of a piece of a bundle say, as lists with one item per node.

ghost use Rattle.std.specs.Prelude.{◌≡◌, ◌++◌, ◌∷◌, [], List, IfOk, OnOk};
ghost use Rattle.nd_links.specs.Columned.{HasColumns};
ghost use Rattle.nd_line.specs.declared.line.LineNode.{LineNode};

use crate::details::Details;
use crate::pool::Pool;
use nd_line::LineView;
use nd_path::StorePath;
use std::alloc::{AllocError, Global};

/// What the lines of a piece of a bundle say, as lists with one item per node.
#[derive(Drop)]
pub struct Columns {
    /// The path of each.
    pub paths: Vec<StorePath>,
    /// The rest.
    pub details: Details,
}

impl Columns {
    /// No node, and room for so many: for all of them where `whole` is set, and else for their links and needs. Refuses
    /// where an allocation is refused.
    pub fn with_capacity(alloc: Global, count: usize, whole: bool) -> Result<Columns, AllocError>
        ensures { IfOk result (HasColumns whole []) }
    {
        let paths = Vec::with_capacity(alloc, count)?;
        let details = Details::with_capacity(alloc, count, whole)?;
        Ok(Columns { paths, details })
    }

    /// Adds the parts of a node, which share what the pool has: all of them where `whole` is set, and else its links and
    /// its need. Refuses where an allocation is refused: some of them may have been added then.
    #[tactic(auto, using(crate::proofs::Taken::pushed, crate::proofs::Taken::pushed_links))]
    pub fn push(
        &mut self,
        alloc: Global,
        pool: &mut Pool,
        node: LineView<'_>,
        whole: bool,
    ) -> Result<(), AllocError>
        ensures { OnOk result ((nodes : List LineNode) → HasColumns whole nodes self.old → HasColumns whole (nodes ++ node.entry ∷ []) self.new) }
    {
        let LineView {
            path,
            need,
            inputs,
            sources,
            output_names,
            outputs,
        } = node;
        let wants = pool.wants(alloc, inputs.as_slice())?;
        let names = pool.names(alloc, output_names.as_slice())?;
        pool.keep(alloc, &path)?;
        self.paths.push(path)?;
        self.details.wants.push(wants)?;
        self.details.names.push(names)?;
        if !whole {
            self.details.shared.push(need)?;
            return Ok(());
        }
        self.details.needs.push(need)?;
        self.details.sources.push(sources)?;
        self.details.outputs.push(outputs)?;
        Ok(())
    }
}
