//! Marks that a list has beside it once it has more than a few numbers.

ghost use Rattle.std.specs.Prelude.{◌≤◌, List, ℕ, IfOk, OnOk};
ghost use Rattle.nd_path_numbers.specs.Marks.{AreTold, TellTheSame, room_beside};

use crate::marks::Marks;
use std::alloc::{AllocError, Global};

/// Among so many numbers or fewer one is looked for in their list.
pub(crate) const FEW: usize = 64;

/// Makes room beside these numbers for so many more: where they stay a few, and have no marks, they need none.
pub(crate) fn reserve_beside(
    marks: &mut Option<Marks>,
    alloc: Global,
    numbers: &[usize],
    more: usize,
) -> Result<(), AllocError>
    ensures told { AreTold numbers.now marks.old → AreTold numbers.now marks.new }
    ensures made { OnOk result (more ≤ room_beside numbers.now marks.new) }
    ensures room { room_beside numbers.now marks.old ≤ room_beside numbers.now marks.new }
{
    if marks.is_none() && numbers.len().saturating_add(more) <= FEW {
        return Ok(());
    }
    mark_beside(marks, alloc, numbers, more)
}

/// Makes sure that there are marks beside these numbers, with room for so many more.
pub(crate) fn mark_beside(
    marks: &mut Option<Marks>,
    alloc: Global,
    numbers: &[usize],
    more: usize,
) -> Result<(), AllocError>
    ensures told { AreTold numbers.now marks.old → AreTold numbers.now marks.new }
    ensures made { OnOk result (more ≤ room_beside numbers.now marks.new) }
    ensures room { room_beside numbers.now marks.old ≤ room_beside numbers.now marks.new }
{
    if let Some(made) = marks {
        return made.reserve(more);
    }
    let mut made = Marks::with_set(alloc, numbers)?;
    made.reserve(more.max(FEW))?;
    *marks = Some(made);
    Ok(())
}

/// Makes sure that there are marks beside these numbers, and that each number below the limit has a flag, where so
/// many numbers pay for them.
pub(crate) fn flag_beside(
    marks: &mut Option<Marks>,
    alloc: Global,
    numbers: &[usize],
    paying: usize,
    limit: usize,
) -> Result<(), AllocError>
    ensures told { AreTold numbers.now marks.old → AreTold numbers.now marks.new }
    ensures room { room_beside numbers.now marks.old ≤ room_beside numbers.now marks.new }
{
    mark_beside(marks, alloc, numbers, 0)?;
    let Some(made) = marks else {
        return Ok(());
    };
    made.flag_below(alloc, numbers, paying, limit)
}

/// Marks of the same numbers, where there are any.
pub(crate) fn marks_again(marks: &Option<Marks>) -> Result<Option<Marks>, AllocError>
    ensures { IfOk result (TellTheSame marks.now) }
{
    match marks {
        Some(made) => Ok(Some(made.try_clone()?)),
        None => Ok(None),
    }
}
