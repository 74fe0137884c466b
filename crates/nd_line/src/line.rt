//! One line of a bundle: the path of a derivation, a space, and its text.

ghost use Rattle.std.specs.Prelude.{◌≡◌, IfOk};
ghost use Rattle.nd_path.specs.Refusals.{IsPath};

use nd_aterm::{Leaf, Names};
use nd_bytes::{ByteString, Items};
use nd_eligible::Need;
use nd_path::StorePath;
use std::alloc::{AllocError, Global};
use std::marker::Model;

/// An input derivation, and the outputs that are wanted of it. It serves contracts alone: no call takes
/// or answers one.
#[derive(Debug, Drop)]
pub struct NamedInput {
    /// The input derivation's path.
    pub path: StorePath,
    /// The names of the outputs, in rising order, possibly none.
    pub names: Items<ByteString>,
}

/// What a line says. It serves contracts alone: no call takes or answers one.
#[derive(Debug, Drop)]
pub struct LineNode {
    /// The derivation's path.
    pub path: StorePath,
    /// What it needs of the machine that builds it.
    pub need: Need,
    /// The input derivations, by path.
    pub inputs: Items<NamedInput>,
    /// The input sources, in rising order.
    pub sources: Items<StorePath>,
    /// The names of the outputs, in rising order.
    pub output_names: Items<ByteString>,
    /// The paths of the outputs, in the order of the names.
    pub outputs: Items<StorePath>,
}

/// An input derivation, its path and its names borrowed from the line. Contracts see the [`NamedInput`].
#[derive(Drop)]
pub struct InputView<'t> {
    /// The input derivation's path, a store path.
    path: Leaf<'t>,
    /// The names of the outputs, in rising order, possibly none.
    names: Names<'t>,
}

impl<'t> Model for InputView<'t> {
    ghost use Rattle.nd_path.specs.Refusals.{IsPath};
    ghost use Rattle.nd_line.specs.declared.line.NamedInput.{NamedInput};

    ghost Value = { NamedInput };

    ghost view = { λ i. record { path = i.path; names = i.names } };

    ghost invariant = { λ i. IsPath i.path };
}

impl<'t> InputView<'t> {
    /// The input derivation with this store path, and the outputs that are wanted of it.
    pub(crate) fn new(path: Leaf<'t>, names: Names<'t>) -> InputView<'t>
        requires { IsPath path }
        ensures path { result.path ≡ path.entry }
        ensures names { result.names ≡ names.entry }
    {
        InputView { path, names }
    }

    /// The bytes of the input derivation's path.
    pub fn path(&self) -> &[u8]
        ensures { result.now ≡ self.now.path }
    {
        self.path.as_slice()
    }

    /// The names of the outputs.
    pub fn names(&self) -> &[Leaf<'t>]
        ensures { result.now ≡ self.now.names }
    {
        self.names.as_slice()
    }

    /// The input derivation's path on its own. Refuses where an allocation is refused.
    pub fn store_path(&self, alloc: Global) -> Result<StorePath, AllocError>
        ensures { IfOk result (λ path. path ≡ self.now.path) }
    {
        StorePath::from_path(alloc, self.path.as_slice())
    }
}

/// What a line says, its names borrowed from it. Contracts see the [`LineNode`].
#[derive(Drop)]
pub struct LineView<'t> {
    /// The derivation's path.
    pub path: StorePath,
    /// What it needs of the machine that builds it.
    pub need: Need,
    /// The input derivations, by path.
    pub inputs: Items<InputView<'t>>,
    /// The input sources, in rising order.
    pub sources: Items<StorePath>,
    /// The names of the outputs, in rising order.
    pub output_names: Items<Leaf<'t>>,
    /// The paths of the outputs, in the order of the names.
    pub outputs: Items<StorePath>,
}

impl<'t> Model for LineView<'t> {
    ghost use Rattle.nd_line.specs.declared.line.LineNode.{LineNode};

    ghost Value = { LineNode };

    ghost view = { λ n. record { path = n.path; need = n.need; inputs = n.inputs; sources = n.sources; output_names = n.output_names; outputs = n.outputs } };
}
