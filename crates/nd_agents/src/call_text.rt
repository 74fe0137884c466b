//! The lines by which an agent is called.

ghost use Rattle.std.specs.Prelude.{◌≡◌, ◌++◌, IfOk, OnOk};
ghost use Rattle.nd_agents.specs.CallTexts.{spaced, copy_line, build_line};

use nd_path::StorePath;
use std::alloc::{AllocError, Global};

/// The line by which a machine is called.
pub(crate) const CONNECT_LINE: &[u8; 8] = b"connect\n";

/// The line by which these paths are copied.
pub(crate) fn copy_line(alloc: Global, paths: &[StorePath]) -> Result<Vec<u8>, AllocError>
    ensures { IfOk result (λ line. line.items ≡ copy_line paths.now) }
{
    let mut line = Vec::from_slice(alloc, b"copy")?;
    push_spaced(&mut line, paths)?;
    line.push(b'\n')?;
    Ok(line)
}

/// The line by which the derivation with this path is built, whose outputs have these paths.
pub(crate) fn build_line(
    alloc: Global,
    path: &StorePath,
    outputs: &[StorePath],
) -> Result<Vec<u8>, AllocError>
    ensures { IfOk result (λ line. line.items ≡ build_line path.now outputs.now) }
{
    let mut line = Vec::from_slice(alloc, b"build ")?;
    line.extend_from_slice(path.bytes())?;
    push_spaced(&mut line, outputs)?;
    line.push(b'\n')?;
    Ok(line)
}

/// Puts each of these paths behind the line, a space before it.
fn push_spaced(line: &mut Vec<u8>, paths: &[StorePath]) -> Result<(), AllocError>
    ensures { OnOk result (line.new.items ≡ line.old.items ++ spaced paths.now) }
{
    for path in paths {
        line.push(b' ')?;
        line.extend_from_slice(path.bytes())?;
    }
    Ok(())
}
