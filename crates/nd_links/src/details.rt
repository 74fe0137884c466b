//! What lines say of nodes beside their paths, as lists with one item per node.

ghost use Rattle.std.specs.Prelude.{◌≡◌, ◌+◌, ◌++◌, [], Bool, length, IfOk, OnOk};
ghost use Rattle.nd_links.specs.Columned.{HasDetails};
ghost use Rattle.nd_links.specs.Columned.{HasSameNodes, IsAppended};

use crate::names::Names;
use crate::shared_needs::SharedNeeds;
use crate::want::Want;
use nd_bytes::Items;
use nd_eligible::Need;
use nd_path::StorePath;
use std::alloc::{AllocError, Global};

/// What lines say of nodes beside their paths, as lists with one item per node.
#[derive(Drop)]
pub struct Details {
    /// What each needs. None where the links and the needs alone are kept.
    pub needs: Vec<Need>,
    /// The same, where equal needs share a value. None where all is kept.
    pub shared: SharedNeeds,
    /// The input derivations of each, by path.
    pub wants: Vec<Items<Want>>,
    /// The input sources of each. None where the links and the needs alone are kept.
    pub sources: Vec<Items<StorePath>>,
    /// The names of the outputs of each.
    pub names: Vec<Names>,
    /// The paths of the outputs of each. None where the links and the needs alone are kept.
    pub outputs: Vec<Items<StorePath>>,
}

impl Details {
    /// Of no node. It takes no memory.
    #[tactic(auto, using(crate::proofs::Taken::no_details))]
    pub fn new(alloc: Global) -> Details
        ensures { (whole : Bool) → HasDetails whole [] result }
    {
        Details {
            needs: Vec::new(alloc),
            shared: SharedNeeds::new(alloc),
            wants: Vec::new(alloc),
            sources: Vec::new(alloc),
            names: Vec::new(alloc),
            outputs: Vec::new(alloc),
        }
    }

    /// Of no node, and room for so many: for all of them where `whole` is set, and else for their links and needs.
    #[tactic(auto, using(crate::proofs::Taken::no_details))]
    pub(crate) fn with_capacity(
        alloc: Global,
        count: usize,
        whole: bool,
    ) -> Result<Details, AllocError>
        ensures { IfOk result (HasDetails whole []) }
    {
        let kept = if whole { count } else { 0 };
        let needs = Vec::with_capacity(alloc, kept)?;
        let shared = SharedNeeds::with_capacity(alloc, count - kept)?;
        let wants = Vec::with_capacity(alloc, count)?;
        let sources = Vec::with_capacity(alloc, kept)?;
        let names = Vec::with_capacity(alloc, count)?;
        let outputs = Vec::with_capacity(alloc, kept)?;
        Ok(Details {
            needs,
            shared,
            wants,
            sources,
            names,
            outputs,
        })
    }

    /// The number of the line behind those that say these nodes, from 1.
    pub fn next_line(&self) -> usize
        ensures { result ≡ length self.now.names.items + 1 }
    {
        self.names.len() + 1
    }

    /// Makes room for so many nodes more. Refuses where an allocation is refused.
    #[tactic(auto, using(crate::proofs::Taken::reserved))]
    pub fn reserve(&mut self, count: usize) -> Result<(), AllocError>
        ensures { OnOk result (HasSameNodes self.old self.new) }
    {
        self.needs.reserve(count)?;
        self.wants.reserve(count)?;
        self.sources.reserve(count)?;
        self.names.reserve(count)?;
        self.outputs.reserve(count)?;
        Ok(())
    }

    /// Adds those of other nodes behind these. Refuses where an allocation is refused: some of them may have been added
    /// then.
    #[tactic(auto, using(crate::proofs::Taken::appended))]
    pub fn append(&mut self, others: Details) -> Result<(), AllocError>
        ensures { OnOk result (IsAppended self.old others self.new) }
    {
        let Details {
            needs,
            shared,
            wants,
            sources,
            names,
            outputs,
        } = others;
        add_all(&mut self.needs, needs)?;
        self.shared.append(shared)?;
        add_all(&mut self.wants, wants)?;
        add_all(&mut self.sources, sources)?;
        add_all(&mut self.names, names)?;
        add_all(&mut self.outputs, outputs)?;
        Ok(())
    }
}

/// Moves all items behind those of the other list.
fn add_all<T: Drop>(list: &mut Vec<T>, items: Vec<T>) -> Result<(), AllocError>
    ensures { OnOk result (list.new.items ≡ list.old.items ++ items.items) }
{
    let mut items = items;
    list.append(&mut items)?;
    Ok(())
}
