//! Reading an info text.

ghost use Rattle.std.specs.Prelude.{◌≡◌, ℕ, List, IfOk, IfErr};
ghost use Rattle.nd_bytes.specs.Lines.{lines_of};
ghost use Rattle.nd_closure.specs.Info.{IsLine, AreListed, IsRefused, OkUnlessMemory};
ghost use Rattle.nd_closure.specs.Lines.{IsBadFor, refusal_of};

use crate::info_error::InfoError;
use crate::ref_table::RefTable;
use nd_bytes::cut;
use nd_path::{PathError, PathSet, StorePath};
use std::alloc::Global;

/// The table that an info text lists. Its lines are separated by newlines, and one may end the last;
/// a line is a store path and its references, separated by single spaces. References may come in any
/// order and may repeat, and a path may refer to itself. No path is listed twice.
///
/// Refuses with `BadLine` (1) and the number of the first line that is not so, counted from 1, and
/// with `Memory` (2) where an allocation is refused.
pub fn parse_info(alloc: Global, text: &[u8]) -> Result<RefTable, InfoError>
    ensures found { IfOk result (λ t. AreListed (lines_of text.now) t.entries) }
    ensures refused { IfErr result (IsRefused text.now) }
    ensures exactly { (entries : List (List ℕ × List (List ℕ))) → AreListed (lines_of text.now) entries → OkUnlessMemory result (λ t. t.entries ≡ entries) }
{
    let mut table = RefTable::new(alloc);
    let mut left = text;
    let mut number = 0;
    while !left.is_empty() {
        let (line, rest) = cut(left, b'\n');
        number += 1;
        let (path, refs) = match read_line(alloc, line) {
            Ok(entry) => entry,
            Err(fault) => return Err(refusal(fault, number)),
        };
        let added = table.add(path, refs)?;
        if !added {
            return Err(InfoError::BadLine(number));
        }
        left = rest.unwrap_or(&[]);
    }
    Ok(table)
}

/// The refusal of the line with this number, whose reading ended with `fault`.
fn refusal(fault: PathError, number: usize) -> InfoError
    ensures { result ≡ refusal_of fault number }
{
    match fault {
        PathError::Prefix | PathError::Digest | PathError::Name => InfoError::BadLine(number),
        PathError::Memory => InfoError::Memory,
    }
}

/// What a line lists: a path and the set of its references. Any refusal but `Memory` says that the
/// line lists nothing.
fn read_line(alloc: Global, line: &[u8]) -> Result<(StorePath, PathSet), PathError>
    ensures found { IfOk result (IsLine line.now) }
    ensures refused { IfErr result (IsBadFor line.now) }
{
    let (first, mut left) = cut(line, b' ');
    let path = StorePath::parse(alloc, first)?;
    let mut refs = Vec::new(alloc);
    while let Some(bytes) = left {
        let (word, rest) = cut(bytes, b' ');
        refs.push(StorePath::parse(alloc, word)?)?;
        left = rest;
    }
    Ok((path, PathSet::from_vec(refs)?))
}
