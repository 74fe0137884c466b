//! The paths that machines hold, by number.

ghost use Rattle.std.specs.Prelude.{◌≡◌, ℕ, ◌+◌, ◌<◌, ◌≤◌, ◌∷◌, ◌++◌, [], length, not, IfOk, OnOk, OnErr, IsOk, IsTrue, ◌↔◌};
ghost use Rattle.std.specs.List.{Contains};
ghost use Rattle.nd_path_numbers.specs.Held.{is_among, with_new, hold_of, KeepsOthers, HoldTheSame};

use crate::few::{FEW, flag_beside, mark_beside, marks_again, reserve_beside};
use crate::marks::Marks;
use std::alloc::{AllocError, Global};
use std::marker::Model;

/// The numbers of the paths that one machine holds. Contracts see the list of them in the order in which
/// they came, each once, and beside it the reserved room, of which "equal" and "as before" do not speak.
///
/// Whether a number is held is told by a flag, where enough is held to pay for flags of all numbers, and else by
/// a set; a machine that holds a few, and has no room for more, has neither, and its list is looked through. There is
/// reserved room only where the list has it, and what stands beside it.
#[derive(Debug, Drop)]
pub struct Held {
    numbers: Vec<usize>,
    /// Whether a number is held, once more than a few are, or room for more was made.
    marks: Option<Marks>,
    alloc: Global,
}

impl Model for Held {
    ghost use Rattle.std.specs.Prelude.{◌-◌, min, vec_len, vec_capacity};
    ghost use Rattle.nd_path_numbers.specs.Held.{Hold};
    ghost use Rattle.nd_path_numbers.specs.Marks.{AreTold, room_beside};

    ghost Value = { Hold };

    ghost view = { λ h. record { numbers = h.numbers.items; spare = min (vec_capacity h.numbers - vec_len h.numbers) (room_beside h.numbers.items h.marks) } };

    ghost invariant = { λ h. AreTold h.numbers.items h.marks };
}

impl Held {
    /// Nothing is held. It takes no memory.
    pub fn new(alloc: Global) -> Held
        ensures { result.numbers ≡ [] }
    {
        Held {
            numbers: Vec::new(alloc),
            marks: None,
            alloc,
        }
    }

    /// Whether the path with this number is held. It takes no memory.
    #[inline(always)]
    pub fn contains(&self, number: usize) -> bool
        ensures { IsTrue result ↔ Contains self.now.numbers number }
    {
        self.tells(number)
    }

    /// The same as a test of the list.
    #[inline(always)]
    fn tells(&self, number: usize) -> bool
        ensures { result ≡ is_among self.now.numbers number }
    {
        match &self.marks {
            Some(marks) => marks.tell(number),
            None => self.numbers.as_slice().contains(&number),
        }
    }

    fn reserve(&mut self, n: usize) -> Result<(), AllocError>
        ensures room { OnOk result (n ≤ self.new.spare) }
        ensures kept { self.new.numbers ≡ self.old.numbers }
        ensures as_before { self.old.spare ≤ self.new.spare }
    {
        reserve_beside(&mut self.marks, self.alloc, self.numbers.as_slice(), n)?;
        self.numbers.reserve(n)
    }

    /// The same for numbers below a limit, which get flags where so many pay for them.
    fn reserve_below(&mut self, alloc: Global, n: usize, limit: usize) -> Result<(), AllocError>
        ensures room { OnOk result (n ≤ self.new.spare) }
        ensures kept { self.new.numbers ≡ self.old.numbers }
        ensures as_before { self.old.spare ≤ self.new.spare }
    {
        let numbers = self.numbers.as_slice();
        let paying = numbers.len().saturating_add(n);
        if n > 0 && paying > FEW {
            flag_beside(&mut self.marks, alloc, numbers, paying, limit)?;
        }
        self.reserve(n)
    }

    fn add(&mut self, number: usize) -> Result<bool, AllocError>
        ensures added { IfOk result (λ added. added ≡ not (is_among self.old.numbers number)) }
        ensures numbers { IfOk result (λ added. self.new.numbers ≡ with_new self.old.numbers number added) }
        ensures refused { OnErr result (self.new.numbers ≡ self.old.numbers) }
        ensures succeeds { 0 < self.old.spare → IsOk result }
        ensures room { self.old.spare ≤ self.new.spare + 1 }
    {
        if self.contains(number) {
            return Ok(false);
        }
        self.enter(number)?;
        Ok(true)
    }

    /// Enters a number that isn't held. Within reserved room it takes no memory; a refusal changes nothing.
    #[inline(always)]
    fn enter(&mut self, number: usize) -> Result<(), AllocError>
        ensures entered { OnOk result (self.new.numbers ≡ self.old.numbers ++ number ∷ []) }
        ensures refused { OnErr result (self.new.numbers ≡ self.old.numbers) }
        ensures succeeds { 0 < self.old.spare → IsOk result }
        ensures room { self.old.spare ≤ self.new.spare + 1 }
    {
        self.numbers.reserve(1)?;
        if self.numbers.len() >= FEW && self.marks.is_none() {
            mark_beside(&mut self.marks, self.alloc, self.numbers.as_slice(), 1)?;
        }
        if let Some(marks) = &mut self.marks {
            marks.note(number)?;
        }
        self.numbers.push_reserved(number);
        Ok(())
    }
}

/// A copy of these numbers.
fn copy_of(numbers: &Vec<usize>) -> Result<Vec<usize>, AllocError>
    ensures { IfOk result (λ copy. copy.items ≡ numbers.now.items) }
{
    numbers.clone()
}

impl Clone for Held {
    ghost is_clone = { λ h k. k.numbers ≡ h.numbers };

    fn clone(&self) -> Result<Held, AllocError> {
        Ok(Held {
            numbers: copy_of(&self.numbers)?,
            marks: marks_again(&self.marks)?,
            alloc: self.alloc,
        })
    }
}

/// The paths that the machines of a park hold, by number, one set for each machine, numbered from 0.
/// Contracts see the list of the sets. A machine that holds nothing has no room of its own.
#[derive(Debug, Drop)]
pub struct Holdings {
    machines: Vec<Held>,
}

impl Model for Holdings {
    ghost use Rattle.std.specs.Prelude.{List};
    ghost use Rattle.nd_path_numbers.specs.Held.{Hold};

    ghost Value = { List Hold };

    ghost view = { λ h. h.machines.items };
}

impl Holdings {
    /// This many machines, each with nothing held.
    pub fn new(alloc: Global, machines: usize) -> Result<Holdings, AllocError>
        ensures machines { IfOk result (λ h. length h ≡ machines) }
        ensures empty { IfOk result (λ h. (m : ℕ) → (hold_of h m).numbers ≡ []) }
    {
        let mut sets = Vec::with_capacity(alloc, machines)?;
        for _machine in 0..machines {
            sets.push(Held::new(alloc))?;
        }
        Ok(Holdings { machines: sets })
    }

    /// Makes room for at least `n` more paths on machine `m`, and changes no machine's paths.
    pub fn reserve(&mut self, m: usize, n: usize) -> Result<(), AllocError>
        requires { m < length self.old }
        ensures room { OnOk result (n ≤ (hold_of self.new m).spare) }
        ensures kept { (hold_of self.new m).numbers ≡ (hold_of self.old m).numbers }
        ensures others { KeepsOthers self.old self.new m }
    {
        self.machines[m].reserve(n)
    }

    /// The same where it is known that the numbers to come are below a limit. Where enough is held to pay for a flag
    /// for each number below it, whether one is held is one look-up from then on.
    pub fn reserve_below(
        &mut self,
        alloc: Global,
        m: usize,
        n: usize,
        limit: usize,
    ) -> Result<(), AllocError>
        requires { m < length self.old }
        ensures room { OnOk result (n ≤ (hold_of self.new m).spare) }
        ensures kept { (hold_of self.new m).numbers ≡ (hold_of self.old m).numbers }
        ensures others { KeepsOthers self.old self.new m }
    {
        self.machines[m].reserve_below(alloc, n, limit)
    }

    /// Adds a path to those that machine `m` holds, and says whether it was new there. Within reserved
    /// room it takes no memory and succeeds; a refusal changes nothing.
    pub fn add(&mut self, m: usize, number: usize) -> Result<bool, AllocError>
        requires { m < length self.old }
        ensures added { IfOk result (λ added. added ≡ not (is_among (hold_of self.old m).numbers number)) }
        ensures numbers { IfOk result (λ added. (hold_of self.new m).numbers ≡ with_new (hold_of self.old m).numbers number added) }
        ensures refused { OnErr result ((hold_of self.new m).numbers ≡ (hold_of self.old m).numbers) }
        ensures others { KeepsOthers self.old self.new m }
        ensures succeeds { 0 < (hold_of self.old m).spare → IsOk result }
        ensures room { (hold_of self.old m).spare ≤ (hold_of self.new m).spare + 1 }
    {
        self.machines[m].add(number)
    }

    /// What machine `m` holds. It takes no memory.
    pub fn held(&self, m: usize) -> &Held
        requires { m < length self.now }
        ensures { result.now ≡ hold_of self.now m }
    {
        &self.machines[m]
    }

    /// A copy whose machines hold the same paths.
    pub fn try_clone(&self) -> Result<Holdings, AllocError>
        ensures { IfOk result (HoldTheSame self.now) }
    {
        let machines = self.machines.clone()?;
        Ok(Holdings { machines })
    }
}
