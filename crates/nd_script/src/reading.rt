//! Reading a text of lines that say one thing each.

ghost use Rattle.std.specs.Prelude.{◌≡◌, ℕ, List, IfOk, IfErr};
ghost use Rattle.nd_bytes.specs.Lines.{lines_of};
ghost use Rattle.nd_script.specs.Faults.{RulesOut};
ghost use Rattle.nd_script.specs.Lines.{AreItems, IsRefusedBy};

use crate::line_error::LineError;
use crate::script_error::{ScriptError, refusal};
use nd_bytes::cut;
use std::alloc::Global;

/// What a line says, for a graph of `drvs` derivations and a park of `machines` machines.
pub trait Said: Drop {
    ghost says: { ℕ → ℕ → List ℕ → Self → Type 0 };

    /// What this line says.
    fn read(alloc: Global, line: &[u8], drvs: usize, machines: usize) -> Result<Self, LineError>
        ensures found { IfOk result (says drvs machines line.now) }
        ensures refused { IfErr result (RulesOut (says drvs machines line.now)) };
}

/// What the lines of a text say, one thing each. It is refused with `BadLine` (1) and the number of the
/// first line that says nothing, counted from 1, and with `Memory` (2).
pub(crate) fn read_text<S: Said>(
    alloc: Global,
    text: &[u8],
    drvs: usize,
    machines: usize,
) -> Result<Vec<S>, ScriptError>
    ensures found { IfOk result (λ items. AreItems (S.says drvs machines) (lines_of text.now) items.items) }
    ensures refused { IfErr result (IsRefusedBy (S.says drvs machines) text.now) }
{
    let mut items = Vec::new(alloc);
    let mut left = text;
    let mut number = 0;
    while !left.is_empty() {
        let (line, rest) = cut(left, b'\n');
        number += 1;
        let item = match S::read(alloc, line, drvs, machines) {
            Ok(item) => item,
            Err(fault) => return Err(refusal(fault, number)),
        };
        items.push(item)?;
        left = rest.unwrap_or(&[]);
    }
    Ok(items)
}
