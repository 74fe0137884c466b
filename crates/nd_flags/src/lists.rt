//! A list of numbers for each group.
ghost use Rattle.std.specs.Prelude.{◌≡◌, ◌<◌, ◌++◌, ◌∷◌, [], length, slice_set, slice_index_or, replicate, IfOk, OnOk, OnErr};

use std::alloc::{AllocError, Global};
use std::marker::Model;

/// A list of numbers.
#[derive(Drop, Debug, Clone)]
struct Numbers {
    items: Vec<usize>,
}

impl Model for Numbers {
    ghost use Rattle.std.specs.Prelude.{List, ℕ};

    ghost Value = { List ℕ };

    ghost view = { λ list. list.items.items };
}

/// A list of numbers for each group.
#[derive(Drop, Debug, Clone)]
pub struct Lists {
    lists: Vec<Numbers>,
}

impl Model for Lists {
    ghost use Rattle.std.specs.Prelude.{List, ℕ};

    ghost Value = { List (List ℕ) };

    ghost view = { λ lists. lists.lists.items };
}

impl Lists {
    /// An empty list for each of `count` groups.
    pub fn empty(alloc: Global, count: usize) -> Result<Lists, AllocError>
        ensures { IfOk result (λ lists. lists ≡ replicate count []) }
    {
        let mut lists = Vec::with_capacity(alloc, count)?;
        for _ in 0..count {
            let items = Vec::new(alloc);
            lists.push(Numbers { items })?;
        }
        Ok(Lists { lists })
    }

    /// No lists, with room for `count` of them.
    pub fn with_capacity(alloc: Global, count: usize) -> Result<Lists, AllocError>
        ensures { IfOk result (λ lists. lists ≡ []) }
    {
        Ok(Lists {
            lists: Vec::with_capacity(alloc, count)?,
        })
    }

    /// The number of lists.
    pub fn len(&self) -> usize
        ensures { result ≡ length self.now }
    {
        self.lists.len()
    }

    /// The list of a group.
    pub fn list(&self, group: usize) -> &[usize]
        requires { group < length self.now }
        ensures { result.now ≡ slice_index_or self.now group [] }
    {
        self.lists[group].items.as_slice()
    }

    /// Adds a number to the end of a group's list.
    pub fn push(&mut self, group: usize, number: usize) -> Result<(), AllocError>
        requires { group < length self.old }
        ensures ok { OnOk result (self.new ≡ slice_set self.old group (slice_index_or self.old group [] ++ number ∷ [])) }
        ensures err { OnErr result (self.new ≡ self.old) }
    {
        self.lists[group].items.push(number)?;
        Ok(())
    }

    /// Adds the list of one more group.
    pub fn add(&mut self, items: Vec<usize>) -> Result<(), AllocError>
        ensures ok { OnOk result (self.new ≡ self.old ++ items.items ∷ []) }
        ensures err { OnErr result (self.new ≡ self.old) }
    {
        self.lists.push(Numbers { items })?;
        Ok(())
    }

    /// Equal lists.
    pub fn try_clone(&self) -> Result<Lists, AllocError>
        ensures { IfOk result (λ copy. copy ≡ self.now) }
    {
        self.clone()
    }
}
