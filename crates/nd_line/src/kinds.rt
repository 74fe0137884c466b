//! The paths of a derivation, each of its kind.

ghost use Rattle.std.specs.Prelude.{◌≡◌, true, false, map, filter, IfOk, IfErr, MatchOption};
ghost use Rattle.std.specs.List.{list_all};
ghost use Rattle.nd_line.specs.Kinds.{is_path, is_drv, is_known, are_drvs, are_paths, are_outputs};
ghost use Rattle.nd_line.specs.Reads.{named};
ghost use Rattle.nd_line.specs.Refused.{WantsMemory, NotPaths};
ghost use Rattle.nd_line.specs.Found.{TellsOutputs};

use crate::line::InputView;
use crate::refusal::LineError;
use nd_aterm::{Leaf, NeededDrvView, OutputView};
use nd_bytes::Items;
use nd_path::{StorePath, is_drv_store_path, is_store_path};
use std::alloc::{AllocError, Global};

/// The store path with these bytes, or `None` where they are no store path.
fn store_path(alloc: Global, bytes: &[u8]) -> Result<Option<StorePath>, LineError>
    ensures ok { IfOk result (λ found. MatchOption found (is_path bytes.now ≡ false)
        (λ path. (path ≡ bytes.now) × (is_path bytes.now ≡ true))) }
    ensures err { IfErr result WantsMemory }
{
    if !is_store_path(bytes) {
        return Ok(None);
    }
    Ok(Some(StorePath::from_path(alloc, bytes)?))
}

/// The store path of a derivation with these bytes, or `None` where they are none.
pub(crate) fn drv_store_path(alloc: Global, bytes: &[u8]) -> Result<Option<StorePath>, LineError>
    ensures ok { IfOk result (λ found. MatchOption found (is_drv bytes.now ≡ false)
        (λ path. (path ≡ bytes.now) × (is_drv bytes.now ≡ true))) }
    ensures err { IfErr result WantsMemory }
{
    if !is_drv_store_path(bytes) {
        return Ok(None);
    }
    Ok(Some(StorePath::from_path(alloc, bytes)?))
}

/// The store path with these bytes, and `BadDerivation` where they are no store path.
fn path_in(alloc: Global, bytes: &[u8]) -> Result<StorePath, LineError>
    ensures same { IfOk result (λ path. path ≡ bytes.now) }
    ensures path { IfOk result (λ _. is_path bytes.now ≡ true) }
    ensures err { IfErr result (λ fault. NotPaths fault (is_path bytes.now ≡ false)) }
{
    match store_path(alloc, bytes)? {
        Some(path) => Ok(path),
        None => Err(LineError::BadDerivation),
    }
}

/// The input derivations with their store paths.
pub(crate) fn inputs_of<'t>(
    alloc: Global,
    drvs: Items<NeededDrvView<'t>>,
) -> Result<Items<InputView<'t>>, LineError>
    ensures same { IfOk result (λ inputs. inputs ≡ map named drvs.entry) }
    ensures paths { IfOk result (λ _. are_drvs drvs.entry ≡ true) }
    ensures err { IfErr result (λ fault. NotPaths fault (are_drvs drvs.entry ≡ false)) }
{
    let mut inputs = Vec::with_capacity(alloc, drvs.len())?;
    for drv in drvs.into_vec() {
        inputs.push(input_of(drv)?)?;
    }
    Ok(Items::new(inputs))
}

/// An input derivation with its store path.
fn input_of<'t>(drv: NeededDrvView<'t>) -> Result<InputView<'t>, LineError>
    ensures same { IfOk result (λ input. input ≡ named drv.entry) }
    ensures path { IfOk result (λ _. is_drv drv.entry.path ≡ true) }
    ensures err { IfErr result (λ fault. NotPaths fault (is_drv drv.entry.path ≡ false)) }
{
    if !is_drv_store_path(drv.path.as_slice()) {
        return Err(LineError::BadDerivation);
    }
    Ok(InputView::new(drv.path, drv.outputs))
}

/// The sources as store paths.
pub(crate) fn sources_of(alloc: Global, sources: &[Leaf<'_>]) -> Result<Items<StorePath>, LineError>
    ensures same { IfOk result (λ paths. paths ≡ sources.now) }
    ensures paths { IfOk result (λ _. are_paths sources.now ≡ true) }
    ensures err { IfErr result (λ fault. NotPaths fault (are_paths sources.now ≡ false)) }
{
    let mut paths = Vec::with_capacity(alloc, sources.len())?;
    for source in sources {
        paths.push(path_in(alloc, source.as_slice())?)?;
    }
    Ok(Items::new(paths))
}

/// The outputs of a derivation.
#[derive(Drop)]
pub(crate) struct Outputs<'t> {
    /// The names.
    pub(crate) names: Items<Leaf<'t>>,
    /// The paths that are known before the build.
    pub(crate) paths: Items<StorePath>,
    /// Whether all are known.
    pub(crate) known: bool,
}

/// The outputs' names and paths.
pub(crate) fn outputs_of<'t>(
    alloc: Global,
    outputs: Items<OutputView<'t>>,
) -> Result<Outputs<'t>, LineError>
    ensures found { IfOk result (TellsOutputs outputs.entry) }
    ensures paths { IfOk result (λ _. are_outputs outputs.entry ≡ true) }
    ensures err { IfErr result (λ fault. NotPaths fault (are_outputs outputs.entry ≡ false)) }
{
    let known = are_known(outputs.as_slice());
    let paths = known_paths(alloc, outputs.as_slice())?;
    let names = names_of(alloc, outputs)?;
    Ok(Outputs {
        names,
        paths,
        known,
    })
}

/// Whether all paths are known before the build.
fn are_known(outputs: &[OutputView<'_>]) -> bool
    ensures { result ≡ list_all is_known outputs.now }
{
    for output in outputs {
        if output.path.is_empty() {
            return false;
        }
    }
    true
}

/// The paths that are known before the build.
fn known_paths(alloc: Global, outputs: &[OutputView<'_>]) -> Result<Items<StorePath>, LineError>
    ensures same { IfOk result (λ paths. paths ≡ map (λ output. output.path) (filter is_known outputs.now)) }
    ensures paths { IfOk result (λ _. are_outputs outputs.now ≡ true) }
    ensures err { IfErr result (λ fault. NotPaths fault (are_outputs outputs.now ≡ false)) }
{
    let mut paths = Vec::with_capacity(alloc, outputs.len())?;
    for output in outputs {
        if !output.path.is_empty() {
            paths.push(path_in(alloc, output.path.as_slice())?)?;
        }
    }
    Ok(Items::new(paths))
}

/// The names.
fn names_of<'t>(
    alloc: Global,
    outputs: Items<OutputView<'t>>,
) -> Result<Items<Leaf<'t>>, AllocError>
    ensures { IfOk result (λ names. names ≡ map (λ output. output.name) outputs.entry) }
{
    let mut names = Vec::with_capacity(alloc, outputs.len())?;
    for output in outputs.into_vec() {
        names.push(output.name)?;
    }
    Ok(Items::new(names))
}
