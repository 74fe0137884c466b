//! The needs of a bundle's derivations.

ghost use Rattle.std.specs.Prelude.{◌≡◌};

use indexmap::IndexSet;
use nd_bytes::Items;
use nd_eligible::Need;
use nd_graph::Input;
use nd_links::{Names, SharedNeeds};
use nd_path::StorePath;
use std::marker::Model;

/// What the derivations of a bundle need of the machines that build them: needs in a table, where equal ones mostly stand
/// once, and for each derivation, in the order of the bundle, the place of its need there. It holds what else was read,
/// too: to let go of that takes as long as to link it, which a process that ends can spare.
#[derive(Drop)]
pub struct Needs {
    shared: SharedNeeds,
    unused: Unused,
}

/// What was read beside the needs.
#[derive(Drop)]
pub(crate) struct Unused {
    pub paths: IndexSet<StorePath>,
    pub names: Vec<Names>,
    pub inputs: Vec<Items<Input>>,
}

impl Model for Needs {
    ghost use Rattle.nd_links.specs.Placing.{Placed};

    ghost Value = { Placed };

    ghost view = { λ n. record { table = n.shared.table.items; places = n.shared.places.items } };
}

impl Needs {
    /// These needs, with what was read beside them.
    pub(crate) fn new(shared: SharedNeeds, unused: Unused) -> Needs
        ensures table { result.table ≡ shared.table.items }
        ensures places { result.places ≡ shared.places.items }
    {
        Needs { shared, unused }
    }

    /// The table of the needs.
    pub fn table(&self) -> &[Need]
        ensures { result.now ≡ self.now.table }
    {
        self.shared.table.as_slice()
    }

    /// For each derivation the place of its need in the table.
    pub fn places(&self) -> &[usize]
        ensures { result.now ≡ self.now.places }
    {
        self.shared.places.as_slice()
    }
}
