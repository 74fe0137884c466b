//! A derivation as it stands in its text, its strings borrowed.

ghost use Rattle.std.specs.Prelude.{◌≡◌, map, IfOk};

use crate::leaf::Leaf;
use crate::names::Names;
use crate::records::{EnvEntry, InputDrv, Output, Parts};
use nd_bytes::{ByteString, Items};
use std::alloc::{AllocError, Global};
use std::marker::Model;

/// An output of a derivation, its strings borrowed from the text. Contracts see the [`Output`].
#[derive(Debug, Drop)]
pub struct OutputView<'t> {
    /// The output's name, as `out`.
    pub name: Leaf<'t>,
    /// The store path that the output gets.
    pub path: Leaf<'t>,
    /// Of a fixed output the method and algorithm of its hash, and else empty.
    pub hash_algo: Leaf<'t>,
    /// Of a fixed output its hash, and else empty.
    pub hash: Leaf<'t>,
}

impl<'t> Model for OutputView<'t> {
    ghost use Rattle.nd_aterm.specs.declared.records.Output.{Output};

    ghost Value = { Output };

    ghost view = { λ o. record { name = o.name; path = o.path; hash_algo = o.hash_algo; hash = o.hash } };
}

/// A derivation that another one needs, its strings borrowed, with no list where one output of it is needed.
/// Contracts see the [`InputDrv`].
#[derive(Debug, Drop)]
pub struct NeededDrvView<'t> {
    /// The store path of the other derivation.
    pub path: Leaf<'t>,
    /// The names of the outputs that are needed.
    pub outputs: Names<'t>,
}

impl<'t> Model for NeededDrvView<'t> {
    ghost use Rattle.nd_aterm.specs.declared.records.InputDrv.{InputDrv};

    ghost Value = { InputDrv };

    ghost view = { λ d. record { path = d.path; outputs = d.outputs } };
}

/// A variable of the builder's environment, its strings borrowed. Contracts see the [`EnvEntry`].
#[derive(Debug, Drop)]
pub struct EnvEntryView<'t> {
    /// The variable's name.
    pub key: Leaf<'t>,
    /// The variable's value.
    pub value: Leaf<'t>,
}

impl<'t> Model for EnvEntryView<'t> {
    ghost use Rattle.nd_aterm.specs.declared.records.EnvEntry.{EnvEntry};

    ghost Value = { EnvEntry };

    ghost view = { λ v. record { key = v.key; value = v.value } };
}

/// What is selected of the parts of a derivation, its strings borrowed from the text. Contracts see the
/// [`SelectedParts`].
#[derive(Debug, Drop)]
pub struct SelectedView<'t> {
    /// What the build makes.
    pub outputs: Items<OutputView<'t>>,
    /// The derivations that must be built first.
    pub input_drvs: Items<NeededDrvView<'t>>,
    /// The store paths that are sources.
    pub input_srcs: Items<Leaf<'t>>,
    /// The system to build on, as `x86_64-linux`.
    pub platform: Leaf<'t>,
    /// The program that builds.
    pub builder: Leaf<'t>,
    /// The variables of the builder's environment that are asked for, in their order there.
    pub env: Items<EnvEntryView<'t>>,
}

impl<'t> Model for SelectedView<'t> {
    ghost use Rattle.nd_aterm.specs.declared.records.SelectedParts.{SelectedParts};

    ghost Value = { SelectedParts };

    ghost view = { λ p. record { outputs = p.outputs; input_drvs = p.input_drvs; input_srcs = p.input_srcs; platform = p.platform; builder = p.builder; env = p.env } };
}

impl<'t> SelectedView<'t> {
    ghost use Rattle.nd_aterm.specs.Selected.{with_args};

    /// A copy of the parts, where all variables were selected, with these arguments.
    pub(crate) fn copied(&self, alloc: Global, args: &[Leaf<'t>]) -> Result<Parts, AllocError>
        ensures { IfOk result (λ parts. parts ≡ with_args self.now args.now) }
    {
        Ok(Parts {
            outputs: copies(alloc, self.outputs.as_slice())?,
            input_drvs: copies(alloc, self.input_drvs.as_slice())?,
            input_srcs: copies(alloc, self.input_srcs.as_slice())?,
            platform: self.platform.copied(alloc)?,
            builder: self.builder.copied(alloc)?,
            args: copies(alloc, args)?,
            env: copies(alloc, self.env.as_slice())?,
        })
    }
}

/// What is borrowed from a text and can be copied.
trait Borrowed {
    type Owned: Drop;

    ghost owned: { Self → Self.Owned };

    /// A copy on its own.
    fn copied(&self, alloc: Global) -> Result<Self::Owned, AllocError>
        ensures { IfOk result (λ x. x ≡ owned self.now) };
}

impl<'t> Borrowed for Leaf<'t> {
    type Owned = ByteString;

    ghost owned = { λ s. s };

    fn copied(&self, alloc: Global) -> Result<ByteString, AllocError> {
        ByteString::from_slice(alloc, self.as_slice())
    }
}

impl<'t> Borrowed for OutputView<'t> {
    type Owned = Output;

    ghost owned = { λ o. o };

    fn copied(&self, alloc: Global) -> Result<Output, AllocError> {
        Ok(Output {
            name: self.name.copied(alloc)?,
            path: self.path.copied(alloc)?,
            hash_algo: self.hash_algo.copied(alloc)?,
            hash: self.hash.copied(alloc)?,
        })
    }
}

impl<'t> Borrowed for NeededDrvView<'t> {
    type Owned = InputDrv;

    ghost owned = { λ d. d };

    fn copied(&self, alloc: Global) -> Result<InputDrv, AllocError> {
        Ok(InputDrv {
            path: self.path.copied(alloc)?,
            outputs: copies(alloc, self.outputs.as_slice())?,
        })
    }
}

impl<'t> Borrowed for EnvEntryView<'t> {
    type Owned = EnvEntry;

    ghost owned = { λ v. v };

    fn copied(&self, alloc: Global) -> Result<EnvEntry, AllocError> {
        Ok(EnvEntry {
            key: self.key.copied(alloc)?,
            value: self.value.copied(alloc)?,
        })
    }
}

/// Copies of the items.
fn copies<T: Borrowed>(alloc: Global, items: &[T]) -> Result<Items<T::Owned>, AllocError>
    ensures { IfOk result (λ copies. copies ≡ map T.owned items.now) }
{
    let mut copies = Vec::with_capacity(alloc, items.len())?;
    for item in items {
        copies.push(item.copied(alloc)?)?;
    }
    Ok(Items::new(copies))
}
