//! The slots of one machine, and which derivation is on each.

ghost use Rattle.std.specs.Prelude.{◌≡◌, ℕ, ◌+◌, ◌<◌, ◌≤◌, Option, None, [], length, slice_index_or, slice_set, IfOk, IfSome, OnOk};
ghost use Rattle.nd_leases.specs.RowKept.{IsNone};
ghost use Rattle.nd_leases.specs.Rows.{HasGap};

use nd_flags::NodeSet;
use std::alloc::{AllocError, Global};
use std::marker::Model;

/// The slots of a machine as far as they were ever needed, seen by contracts as the derivation on each
/// of them. The slots past the end are free.
///
/// The free ones are a set too, so that the least of them is found without a walk over the others. The
/// set has room for at least as many slots as there are, and is made anew where a full row has more.
#[derive(Drop, Debug)]
pub struct Row {
    slots: Vec<Option<u32>>,
    free: NodeSet,
}

impl Model for Row {
    ghost use Rattle.std.specs.Prelude.{List, Option, ℕ};

    ghost Value = { List (Option ℕ) };

    ghost use Rattle.nd_leases.specs.RowKept.{IsKept};

    ghost view = { λ row. row.slots.items };

    ghost invariant = { IsKept };
}

/// A number of slots greater than this one.
fn more_than(slots: usize) -> Option<usize>
    ensures { IfSome result (λ more. slots < more) }
{
    slots.checked_mul(2)?.checked_add(8)
}

/// Makes room for the number `slot` in a set without members. Where memory is refused the set is as it
/// was.
fn make_room(alloc: Global, free: &mut NodeSet, slot: usize) -> Result<(), AllocError>
    requires { IsNone free.old }
    ensures none { IsNone free.new }
    ensures longer { length free.old ≤ length free.new }
    ensures room { OnOk result (slot < length free.new) }
{
    if slot < free.len() {
        return Ok(());
    }
    let Some(more) = more_than(slot) else {
        return Err(AllocError);
    };
    *free = NodeSet::new(alloc, more)?;
    Ok(())
}

impl Row {
    /// A row without slots.
    pub(crate) fn new(alloc: Global) -> Result<Row, AllocError>
        ensures { IfOk result (λ row. row ≡ []) }
    {
        Ok(Row {
            slots: Vec::new(alloc),
            free: NodeSet::new(alloc, 0)?,
        })
    }

    /// The derivation on this slot.
    pub(crate) fn at(&self, slot: usize) -> Option<u32>
        ensures { result ≡ slice_index_or self.now slot None }
    {
        if slot < self.slots.len() {
            self.slots[slot]
        } else {
            None
        }
    }

    /// Puts this derivation on the slot, or none.
    pub(crate) fn put(&mut self, slot: usize, drv: Option<u32>)
        requires { slot < length self.old }
        ensures { self.new ≡ slice_set self.old slot drv }
    {
        self.slots[slot] = drv;
        if drv.is_none() {
            self.free.insert(slot);
        } else {
            self.free.remove(slot);
        }
    }

    /// The least slot that no derivation is on. Where the row is full it is the first past the end.
    pub(crate) fn least_free(&self) -> usize
        ensures within { result ≤ length self.now }
        ensures free { slice_index_or self.now result None ≡ None }
        ensures least { (k : ℕ) → k < result → slice_index_or self.now k None ≡ None → ⊥ }
    {
        match self.free.first_from(0) {
            Some(slot) => slot,
            None => self.slots.len(),
        }
    }

    /// Makes a full row longer by a free slot.
    pub(crate) fn make_slot(&mut self) -> Result<(), AllocError>
        ensures same { (k : ℕ) → slice_index_or self.new k None ≡ slice_index_or self.old k None }
        ensures longer { length self.old ≤ length self.new }
        ensures made { OnOk result (HasGap self.new) }
    {
        if self.least_free() < self.slots.len() {
            return Ok(());
        }
        let slot = self.slots.len();
        make_room(*self.slots.allocator(), &mut self.free, slot)?;
        self.slots.push(None)?;
        self.free.insert(slot);
        Ok(())
    }

    /// An equal row.
    pub(crate) fn try_clone(&self, alloc: Global) -> Result<Row, AllocError>
        ensures { IfOk result (λ copy. copy ≡ self.now) }
    {
        Ok(Row {
            slots: Vec::from_slice(alloc, self.slots.as_slice())?,
            free: self.free.try_clone(alloc)?,
        })
    }
}
