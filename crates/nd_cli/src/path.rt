//! The command `path`.

ghost use Rattle.std.specs.Prelude.{◌≡◌, ◌≤◌, ℕ, List, Some, ◌++◌, ◌∷◌, ◌||◌, [], false, length, is_err, IfOk, IfErr, OnOk, OnErr};
ghost use Rattle.std.specs.Io.KnownBytes.{Appends};
ghost use Rattle.nd_bundle.specs.DrvPaths.{IsDrvPath};
ghost use Rattle.nd_devices.specs.Written.{WritesPart};
ghost use Rattle.nd_cli.specs.Statuses.{RefusesNoInput};
ghost use Rattle.nd_cli.specs.Inputs.{limit, OkUnlessMemory, is_write_fault, is_read_failure, is_write_failure};
ghost use Rattle.nd_cli.specs.Paths.{HasPath, AnswersPath, LeavesPath, IsPathFault, IsTextFault};

use crate::fault::{CliFault, DerivationError, Place};
use crate::input::{LIMIT, read_input};
use nd_bundle::{GraphError, drv_path};
use nd_devices::{Fault, Told};
use nd_path::StorePath;
use std::alloc::Global;
use std::io::{Read, Write};

/// Writes the store path that the derivation text on the input has under this name, and a newline.
/// The status is 0.
///
/// A refusal comes in this order, and nothing is written then: `Read`, `TooLarge`, `Derivation`. `Write`
/// leaves a part of the line, from its beginning. `Memory` may come at any point before the line is
/// written. The reader is marked exactly at `Read`, and the writer exactly at `Write`. Where a reader that
/// is known to have a whole text left has one with a path, nothing but `Read`, `Write` and `Memory` comes.
pub fn path_engine<R: Read, W: Write>(
    alloc: Global,
    name: &[u8],
    input: &mut Told<R>,
    output: &mut Told<W>,
) -> Result<u8, CliFault>
    requires reader { input.old.is_marked ≡ false }
    requires writer { output.old.is_marked ≡ false }
    ensures status { IfOk result (λ status. status ≡ 0) }
    ensures answer { OnOk result (AnswersPath name.now R.remaining input.old input.new W.contents output.old output.new) }
    ensures fault { IfErr result (IsPathFault name.now R.remaining input.old input.new output.new.is_marked) }
    ensures reader_mark { input.new.is_marked ≡ is_read_failure result }
    ensures writer_mark { output.new.is_marked ≡ is_write_failure result }
    ensures partly { IfErr result (LeavesPath name.now R.remaining input.old input.new W.contents output.old output.new) }
    ensures exactly { (text path : List ℕ) → R.remaining input.old.device ≡ Some text → HasPath name.now text path → RefusesNoInput result }
    ensures untouched { IfErr result (λ e. is_write_fault e ≡ false → output.new ≡ output.old) }
{
    let text = read_input(alloc, input)?;
    // For the proof: with `?` the search doesn't find that the path is the one that is written.
    let path = match derivation_path(alloc, name, text.as_slice()) {
        Ok(path) => path,
        Err(fault) => {
            drop(text);
            return Err(fault);
        }
    };
    drop(text);
    let written = write_line(path.bytes(), output);
    drop(path);
    match written {
        Ok(()) => Ok(0),
        Err(Fault) => Err(CliFault::Write),
    }
}

/// The path of the derivation with this name and text.
fn derivation_path(alloc: Global, name: &[u8], text: &[u8]) -> Result<StorePath, CliFault>
    ensures found { IfOk result (IsDrvPath name.now text.now) }
    ensures within { OnOk result (length text.now ≤ limit) }
    ensures refused { IfErr result (IsTextFault name.now text.now) }
    ensures exactly { (path : List ℕ) → HasPath name.now text.now path → OkUnlessMemory result (λ p. p ≡ path) }
{
    if text.len() > LIMIT {
        return Err(CliFault::TooLarge(Place::Derivation));
    }
    match drv_path(alloc, name, text) {
        Ok(path) => Ok(path),
        Err(GraphError::Memory) => Err(CliFault::Memory),
        Err(GraphError::BadPath(_)) => Err(CliFault::Derivation(DerivationError::BadPath)),
        Err(GraphError::BadDerivation(_)) => {
            Err(CliFault::Derivation(DerivationError::BadDerivation))
        }
        Err(_) => unreachable!(),
    }
}

/// Writes a line with its newline, and has the writer pass on what it holds back.
///
/// `Fault`: the writer refused, and is marked. A part of the line, from its beginning, is out.
#[tactic(auto, using(nd_devices::proofs::Pieces::writes))]
fn write_line<W: Write>(line: &[u8], output: &mut Told<W>) -> Result<(), Fault>
    ensures written { OnOk result (Appends (W.contents output.old.device) (W.contents output.new.device) (line.now ++ 10 ∷ [])) }
    ensures partly { OnErr result (WritesPart (W.contents output.old.device) (W.contents output.new.device) (line.now ++ 10 ∷ [])) }
    ensures mark { output.new.is_marked ≡ (output.old.is_marked || is_err result) }
{
    output.put_all(line)?;
    end_line(output)
}

/// Writes a newline, and has the writer pass on what it holds back.
#[tactic(auto, using(nd_devices::proofs::Pieces::flushes))]
fn end_line<W: Write>(output: &mut Told<W>) -> Result<(), Fault>
    ensures written { OnOk result (Appends (W.contents output.old.device) (W.contents output.new.device) (10 ∷ [])) }
    ensures partly { OnErr result (WritesPart (W.contents output.old.device) (W.contents output.new.device) (10 ∷ [])) }
    ensures mark { output.new.is_marked ≡ (output.old.is_marked || is_err result) }
{
    output.put_all(b"\n")?;
    output.flush()?;
    Ok(())
}
