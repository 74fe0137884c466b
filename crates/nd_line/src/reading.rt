//! Reading a line of a bundle.

ghost use Rattle.std.specs.Prelude.{◌≡◌, false, IfOk, IfErr, OnOk};
ghost use Rattle.nd_aterm.specs.declared.records.Parts.{Parts};
ghost use Rattle.nd_line.specs.Found.{IsOwnPathOf, IsAnother};
ghost use Rattle.nd_line.specs.Reads.{Tells, IsNode, IsBad, Reads};

use crate::attributes::need_of;
use crate::derived::{Contents, contents_of, own_path};
use crate::kinds::{Outputs, drv_store_path};
use crate::line::LineView;
use crate::refusal::LineError;
use nd_bytes::cut;
use nd_path::StorePath;
use std::alloc::Global;

/// What a line says. With `check` its path has to be the one that its derivation's text has.
///
/// Refuses with the first of `BadLine`, `BadPath`, `BadDerivation`, `UnknownOutput`, `BadAttribute`
/// and, with `check`, `WrongPath` that the line gives cause for, and with `Memory` where an
/// allocation is refused.
#[tactic(auto, using(crate::proofs::Sayings::lines))]
pub fn read_line(alloc: Global, line: &[u8], check: bool) -> Result<LineView<'_>, LineError>
    ensures { Reads check line.now result }
{
    let (front, back) = cut(line, b' ');
    let Some(text) = back else {
        return Err(LineError::BadLine);
    };
    let Some(path) = drv_store_path(alloc, front)? else {
        return Err(LineError::BadPath);
    };
    read_text(alloc, path, text, check)
}

/// What the text behind a derivation's path says. With `check` the path has to be the one that the
/// text has.
#[tactic(auto, using(crate::proofs::Sayings::checks))]
fn read_text(
    alloc: Global,
    path: StorePath,
    text: &[u8],
    check: bool,
) -> Result<LineView<'_>, LineError>
    ensures ok { IfOk result (IsNode check path text.now) }
    ensures err { IfErr result (IsBad check path text.now) }
{
    let node = node_of(alloc, path, text)?;
    if check {
        check_path(alloc, &node, text)?;
    }
    Ok(node)
}

/// Whether the node's path is the one that its text has.
fn check_path(alloc: Global, node: &LineView<'_>, text: &[u8]) -> Result<(), LineError>
    ensures ok { OnOk result (IsOwnPathOf node.now text.now node.now.path) }
    ensures err { IfErr result (IsAnother node.now text.now) }
{
    let inputs = node.inputs.as_slice();
    let own = own_path(
        alloc,
        node.path.name(),
        inputs,
        node.sources.as_slice(),
        text,
    )?;
    if own != node.path {
        return Err(LineError::WrongPath);
    }
    Ok(())
}

/// The node of the derivation with this path and this text.
fn node_of(alloc: Global, path: StorePath, text: &[u8]) -> Result<LineView<'_>, LineError>
    ensures path { IfOk result (λ node. node.path ≡ path) }
    ensures tells { IfOk result (λ node. (parts : Parts) × Tells text.now parts node) }
    ensures err { IfErr result (IsBad false path text.now) }
{
    let Contents {
        inputs,
        sources,
        outputs,
        platform,
        builder,
        env,
    } = contents_of(alloc, text)?;
    let Outputs {
        names,
        paths,
        known,
    } = outputs;
    if !known {
        return Err(LineError::UnknownOutput);
    }
    let platform = platform.into_byte_string(alloc)?;
    let need = need_of(alloc, platform, builder.as_slice(), env.as_slice())?;
    Ok(LineView {
        path,
        need,
        inputs,
        sources,
        output_names: names,
        outputs: paths,
    })
}
