//! Which paths are listed, by number.

ghost use Rattle.std.specs.Prelude.{◌≡◌, ◌<◌, ◌≤◌, ◌+◌, ◌∷◌, ◌++◌, [], not, if◌then◌else◌, IfOk, OnOk};
ghost use Rattle.nd_path_numbers.specs.Held.{is_among, with_new};

use crate::seen::{Entries, SeenPath, SeenRefs};
use nd_path_numbers::Holdings;
use std::alloc::{AllocError, Global};
use std::marker::Model;

/// Which paths are listed, by number. What they refer to stands in the rows of their numbers; contracts see the
/// entries in the order in which they came, and beside them the numbers and the reserved room.
#[derive(Debug, Drop)]
pub(crate) struct Listed {
    /// The numbers, as what one machine holds.
    marks: Holdings,
    entries: Entries,
}

impl Model for Listed {
    ghost use Rattle.std.specs.Prelude.{◌≡◌, length};
    ghost use Rattle.nd_path_numbers.specs.Held.{hold_of};
    ghost use Rattle.nd_provision.specs.Told.{Told};

    ghost Value = { Told };

    ghost view = { λ l. record { entries = l.entries.listed; spare = (hold_of l.marks 0).spare; numbers = (hold_of l.marks 0).numbers } };

    ghost invariant = { λ l. length l.marks ≡ 1 };
}

impl Listed {
    /// No path is listed. Refuses where an allocation is refused.
    pub(crate) fn new(alloc: Global) -> Result<Listed, AllocError>
        ensures entries { IfOk result (λ l. l.entries ≡ []) }
        ensures numbers { IfOk result (λ l. l.numbers ≡ []) }
    {
        Ok(Listed {
            marks: Holdings::new(alloc, 1)?,
            entries: Entries::new(),
        })
    }

    /// Makes room for `n` more paths with numbers that are mostly below a limit, and lists none.
    pub(crate) fn reserve(
        &mut self,
        alloc: Global,
        n: usize,
        limit: usize,
    ) -> Result<(), AllocError>
        ensures room { OnOk result (n ≤ self.new.spare) }
        ensures entries { self.new.entries ≡ self.old.entries }
        ensures numbers { self.new.numbers ≡ self.old.numbers }
    {
        self.marks.reserve_below(alloc, 0, n, limit)
    }

    /// Lists a path by its number, where it isn't listed, and says whether it did: what is listed stays as it is.
    /// It takes no memory.
    pub(crate) fn add(&mut self, number: usize, path: &SeenPath, refs: &SeenRefs) -> bool
        requires { 0 < self.old.spare }
        ensures added { result ≡ not (is_among self.old.numbers number) }
        ensures numbers { self.new.numbers ≡ with_new self.old.numbers number result }
        ensures entries { self.new.entries ≡ (if result then self.old.entries ++ (path.now, refs.now) ∷ [] else self.old.entries) }
        ensures room { self.old.spare ≤ self.new.spare + 1 }
    {
        let Ok(is_new) = self.marks.add(0, number) else {
            unreachable!()
        };
        if is_new {
            self.entries = self.entries.with(path, refs);
        }
        is_new
    }

    /// A copy with the same entries and the same numbers.
    pub(crate) fn try_clone(&self) -> Result<Listed, AllocError>
        ensures entries { IfOk result (λ l. l.entries ≡ self.now.entries) }
        ensures numbers { IfOk result (λ l. l.numbers ≡ self.now.numbers) }
    {
        Ok(Listed {
            marks: self.marks.try_clone()?,
            entries: self.entries.again(),
        })
    }
}
