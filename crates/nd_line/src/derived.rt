//! The derivation of a text, and the path that its text has.

ghost use Rattle.std.specs.Prelude.{◌≡◌, ℕ, List, ◌++◌, map, true, IfOk, IfErr};
ghost use Rattle.nd_aterm.specs.declared.records.Parts.{Parts};
ghost use Rattle.nd_aterm.specs.Selected.{selected};
ghost use Rattle.nd_path.specs.StorePath.{is_name};
ghost use Rattle.nd_path.specs.PathSets.{IsRising, HasSameMembers};
ghost use Rattle.nd_line.specs.Derived.{Spells, Derives, IsOwnPath, IsPathOfText};
ghost use Rattle.nd_line.specs.Found.{HasContents, path_of};
ghost use Rattle.nd_line.specs.Kept.{is_attribute};
ghost use Rattle.nd_line.specs.Refused.{NotPaths, WantsMemory};

use crate::attributes::Attributes;
use crate::kinds::{Outputs, inputs_of, outputs_of, sources_of};
use crate::line::InputView;
use crate::refusal::LineError;
use nd_aterm::{AtermError, EnvEntryView, Leaf, SelectedView, parse_selected};
use nd_bytes::Items;
use nd_path::{PathError, PathSet, StorePath, text_path};
use std::alloc::{AllocError, Global};

/// What a derivation text says.
#[derive(Drop)]
pub(crate) struct Contents<'t> {
    /// The input derivations.
    pub(crate) inputs: Items<InputView<'t>>,
    /// The input sources.
    pub(crate) sources: Items<StorePath>,
    /// The outputs.
    pub(crate) outputs: Outputs<'t>,
    /// The platform.
    pub(crate) platform: Leaf<'t>,
    /// The builder.
    pub(crate) builder: Leaf<'t>,
    /// The variables of the environment that say what the derivation needs.
    pub(crate) env: Items<EnvEntryView<'t>>,
}

/// What the text of a derivation says, whose paths are of their kinds.
pub(crate) fn contents_of(alloc: Global, text: &[u8]) -> Result<Contents<'_>, LineError>
    ensures found { IfOk result (λ contents. (parts : Parts) × Derives text.now parts × HasContents parts contents) }
    ensures err { IfErr result (λ fault. NotPaths fault ((parts : Parts) → Derives text.now parts → ⊥)) }
{
    let SelectedView {
        outputs,
        input_drvs,
        input_srcs,
        platform,
        builder,
        env,
    } = selected_of(alloc, text)?;
    let inputs = inputs_of(alloc, input_drvs)?;
    let sources = sources_of(alloc, input_srcs.as_slice())?;
    let outputs = outputs_of(alloc, outputs)?;
    Ok(Contents {
        inputs,
        sources,
        outputs,
        platform,
        builder,
        env,
    })
}

/// What is selected of the derivation of a text.
fn selected_of(alloc: Global, text: &[u8]) -> Result<SelectedView<'_>, LineError>
    ensures found { IfOk result (λ found. (parts : Parts) × Spells text.now parts × (found ≡ selected is_attribute parts)) }
    ensures once { (parts : Parts) → Spells text.now parts → IfOk result (λ found. found ≡ selected is_attribute parts) }
    ensures err { IfErr result (λ fault. NotPaths fault ((parts : Parts) → Spells text.now parts → ⊥)) }
{
    match parse_selected::<Attributes>(alloc, text) {
        Ok(selected) => Ok(selected),
        Err(AtermError::Memory) => Err(LineError::Memory),
        Err(_) => Err(LineError::BadDerivation),
    }
}

/// The path of the derivation with this name and this text: the text path over its input sources and input
/// derivations as one set (Nix Reference Manual, "Store Path Specification").
///
/// Refuses with `BadDerivation` where the text is no derivation text or a path in it is none of its kind, and
/// with `Memory` where an allocation is refused.
pub fn path_of_text(alloc: Global, name: &[u8], text: &[u8]) -> Result<StorePath, LineError>
    requires { is_name name.now ≡ true }
    ensures found { IfOk result (IsPathOfText name.now text.now) }
    ensures err { IfErr result (λ fault. NotPaths fault ((parts : Parts) → Derives text.now parts → ⊥)) }
{
    let contents = contents_of(alloc, text)?;
    let inputs = contents.inputs.as_slice();
    own_path(alloc, name, inputs, contents.sources.as_slice(), text)
}

/// The path of the derivation with this name, this text and these inputs and sources.
pub(crate) fn own_path(
    alloc: Global,
    name: &[u8],
    inputs: &[InputView<'_>],
    sources: &[StorePath],
    text: &[u8],
) -> Result<StorePath, LineError>
    requires { is_name name.now ≡ true }
    ensures own { IfOk result (IsOwnPath name.now text.now (sources.now ++ map path_of inputs.now)) }
    ensures err { IfErr result WantsMemory }
{
    let refs = references_of(alloc, inputs, sources)?;
    match text_path(alloc, name, refs.as_slice(), text) {
        Ok(path) => Ok(path),
        Err(PathError::Memory) => Err(LineError::Memory),
        Err(_) => unreachable!(),
    }
}

/// The sources and the paths of the inputs as a set.
fn references_of(
    alloc: Global,
    inputs: &[InputView<'_>],
    sources: &[StorePath],
) -> Result<PathSet, AllocError>
    ensures members { IfOk result (HasSameMembers (sources.now ++ map path_of inputs.now)) }
    ensures rising { IfOk result IsRising }
{
    let mut paths = Vec::new(alloc);
    for source in sources {
        paths.push(source.try_clone()?)?;
    }
    for input in inputs {
        paths.push(input.store_path(alloc)?)?;
    }
    PathSet::from_vec(paths)
}
