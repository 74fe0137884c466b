//! The kinds of the derivations.

ghost use Rattle.std.specs.Prelude.{◌≡◌, ◌<◌, ◌+◌, ◌++◌, ◌∷◌, [], All, Some, length, slice_get, IfOk, IfSome, OnOk};
ghost use Rattle.nd_kinds.specs.Kinds.{AreKinds, number_of, users_of};
ghost use Rattle.nd_kinds.specs.Sharing.{SharesNeed, AddsTo, IsListed, IsOneMore, IsOneMoreOf, AreSoFar};

use crate::kind::Kind;
use crate::sharing::{Known, Marks};
use nd_eligible::{Local, Need};
use nd_flags::Lists;
use nd_machines::Machine;
use std::alloc::{AllocError, Global};
use std::marker::Model;

/// The kinds of the derivations, one for all those that may use the same machines with the same
/// preference, and for each machine the kinds that may use it. Only `new` takes memory.
#[derive(Drop, Debug)]
pub struct Kinds {
    /// The number of each derivation's kind.
    numbers: Vec<usize>,
    kinds: Vec<Kind>,
    users: Lists,
}

impl Model for Kinds {
    ghost use Rattle.nd_kinds.specs.Kinds.{Kinded};

    ghost Value = { Kinded };

    ghost use Rattle.nd_kinds.specs.KindsKept.{kinded, IsKept};

    ghost view = { kinded };

    ghost invariant = { IsKept };
}

/// Adds the number of a kind to the list of each machine that it may use.
fn add_users(users: &mut Lists, kind: &Kind, number: usize) -> Result<(), AllocError>
    requires park { 0 < length users.old }
    requires places { All (λ p. p + 1 < length users.old) kind.now.places }
    ensures adds { AddsTo number users.old users.new }
    ensures listed { OnOk result (IsListed kind.now number users.new) }
{
    // For the proof: a machine's number is less than this one, so it is a number of its type.
    let _park = users.len();
    if kind.local {
        users.push(0, number)?;
    }
    for place in kind.places.as_slice() {
        users.push(*place + 1, number)?;
    }
    Ok(())
}

impl Kinds {
    /// The kinds of the derivations with these needs.
    pub fn new(
        alloc: Global,
        machines: &[Machine],
        local: &Local,
        needs: &[Need],
    ) -> Result<Kinds, AllocError>
        ensures { IfOk result (AreKinds machines.now local.now needs.now) }
    {
        let mut known = Known::new(alloc);
        let mut marks = Marks::new(alloc);
        let mut kinds = Kinds {
            numbers: Vec::with_capacity(alloc, needs.len())?,
            kinds: Vec::new(alloc),
            users: Lists::empty(alloc, machines.len() + 1)?,
        };
        for drv in 0..needs.len() {
            let first = known.meet(needs, drv)?;
            kinds.one_more(alloc, machines, local, needs, drv, first, &mut marks)?;
        }
        Ok(kinds)
    }

    /// One more derivation, the next of those with these needs. `first` is an earlier one with the same
    /// need, if one is known.
    #[tactic(auto, using(crate::proofs::KindFacts::so_far_joined, crate::proofs::KindFacts::so_far_taken, crate::proofs::KindFacts::places_within))]
    fn one_more(
        &mut self,
        alloc: Global,
        machines: &[Machine],
        local: &Local,
        needs: &[Need],
        drv: usize,
        first: Option<usize>,
        marks: &mut Marks,
    ) -> Result<(), AllocError>
        requires node { drv < length needs.now }
        requires first { IfSome first (SharesNeed needs.now drv) }
        requires so_far { AreSoFar machines.now local.now needs.now drv self.old }
        ensures { OnOk result (AreSoFar machines.now local.now needs.now (drv + 1) self.new) }
    {
        match first {
            Some(first) => self.join(first),
            None => self.take(Kind::of(alloc, machines, local, &needs[drv])?, marks),
        }
    }

    /// One more derivation, of the kind of an earlier one.
    fn join(&mut self, first: usize) -> Result<(), AllocError>
        requires { first < length self.old.numbers }
        ensures { OnOk result (self.new ≡ record self.old { numbers = self.old.numbers ++ number_of self.old first ∷ [] }) }
    {
        let number = self.numbers[first];
        self.join_kind(number)
    }

    /// One more derivation, of the kind with this number.
    #[tactic(auto, using(crate::proofs::KindFacts::pushed_ranged))]
    fn join_kind(&mut self, number: usize) -> Result<(), AllocError>
        requires { number < length self.old.kinds }
        ensures { OnOk result (self.new ≡ record self.old { numbers = self.old.numbers ++ number ∷ [] }) }
    {
        self.numbers.push(number)?;
        Ok(())
    }

    /// One more derivation, of this kind: of an equal one, if one is known, and else of its own.
    #[tactic(auto, using(crate::proofs::KindFacts::known_kind, crate::proofs::KindFacts::new_kind, crate::proofs::KindFacts::kind_within))]
    fn take(&mut self, kind: Kind, marks: &mut Marks) -> Result<(), AllocError>
        requires park { 0 < length self.old.users }
        requires places { All (λ p. p + 1 < length self.old.users) kind.places }
        ensures { OnOk result (IsOneMoreOf kind self.old self.new) }
    {
        match marks.meet(self.kinds.as_slice(), &kind)? {
            Some(number) => self.join_kind(number),
            None => self.add(kind),
        }
    }

    /// One more derivation, of a kind of its own.
    fn add(&mut self, kind: Kind) -> Result<(), AllocError>
        requires park { 0 < length self.old.users }
        requires places { All (λ p. p + 1 < length self.old.users) kind.places }
        ensures { OnOk result (IsOneMore kind self.old self.new) }
    {
        let number = self.kinds.len();
        self.kinds.push(kind)?;
        add_users(&mut self.users, &self.kinds[number], number)?;
        self.numbers.push(number)?;
        Ok(())
    }

    /// The number of each derivation's kind.
    pub fn numbers(&self) -> &[usize]
        ensures value { result.now ≡ self.now.numbers }
        ensures ranged { All (λ n. n < length self.now.kinds) result.now }
    {
        self.numbers.as_slice()
    }

    /// How many kinds there are.
    pub fn len(&self) -> usize
        ensures { result ≡ length self.now.kinds }
    {
        self.kinds.len()
    }

    /// The kind with this number.
    pub fn kind(&self, number: usize) -> &Kind
        requires { number < length self.now.kinds }
        ensures { slice_get self.now.kinds number ≡ Some result.now }
    {
        &self.kinds[number]
    }

    /// The numbers of the kinds that may use this machine.
    pub fn users(&self, machine: usize) -> &[usize]
        requires { machine < length self.now.users }
        ensures value { result.now ≡ users_of self.now machine }
        ensures ranged { All (λ n. n < length self.now.kinds) result.now }
    {
        self.users.list(machine)
    }
}
