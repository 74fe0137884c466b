//! The rules of stand-ins, which share them.

ghost use Rattle.std.specs.Prelude.{◌≡◌, ℕ, IfOk, option_copied};
ghost use Rattle.std.specs.List.{find, list_any};
ghost use Rattle.nd_script.specs.Rules.{is_no_connect, is_no_copy, is_about};
ghost use Rattle.nd_transports.specs.Books.{AreFirsts, is_named};

use nd_script::Rule;
use std::alloc::{AllocError, Global};
use std::collections::BTreeMap;
use std::marker::Model;
use std::sync::Arc;

/// The rules of stand-ins in their order, which as many stand-ins share as have a copy: a copy takes no
/// more memory, however many rules there are. The first rule about the build of a derivation is found
/// without a walk over those before it. Contracts see the list of the rules.
#[derive(Drop, Debug)]
pub struct RuleBook {
    shared: Arc<Indexed, Global>,
}

impl Model for RuleBook {
    ghost use Rattle.std.specs.Prelude.{List};
    ghost use Rattle.nd_script.specs.declared.rule.Rule.{Rule};

    ghost Value = { List Rule };

    ghost view = { λ b. b.shared.value };
}

impl RuleBook {
    /// The book of these rules. Memory is refused for the numbers by which rules are found alone: the
    /// rules themselves are kept where they are.
    pub fn new(rules: Vec<Rule>) -> Result<RuleBook, AllocError>
        ensures { IfOk result (λ book. book ≡ rules.items) }
    {
        let alloc = *rules.allocator();
        let indexed = Indexed::new(alloc, rules)?;
        Ok(RuleBook {
            shared: Arc::new(alloc, indexed)?,
        })
    }

    /// The same rules, for one more stand-in.
    pub fn try_clone(&self) -> Result<RuleBook, AllocError>
        ensures { IfOk result (λ copy. copy ≡ self.now) }
    {
        Ok(RuleBook {
            shared: Arc::try_clone(&self.shared)?,
        })
    }

    /// The first rule about the build of this derivation.
    pub fn about(&self, drv: u32) -> Option<&Rule>
        ensures { option_copied result ≡ find (is_about drv) self.now }
    {
        self.shared.about(drv)
    }

    /// Whether one of the rules refuses each connect on this machine. It looks at each of them.
    pub fn refuses_connect(&self, machine: u32) -> bool
        ensures { result ≡ list_any (is_no_connect machine) self.now }
    {
        let mut rules = self.shared.rules().iter();
        rules.any(|rule| rule.is_no_connect(machine))
    }

    /// Whether one of the rules refuses each copy on this machine. It looks at each of them.
    pub fn refuses_copy(&self, machine: u32) -> bool
        ensures { result ≡ list_any (is_no_copy machine) self.now }
    {
        let mut rules = self.shared.rules().iter();
        rules.any(|rule| rule.is_no_copy(machine))
    }
}

/// Rules, and for each derivation the place of the first that is about its build.
#[derive(Drop, Debug)]
struct Indexed {
    rules: Vec<Rule>,
    firsts: BTreeMap<u32, usize>,
}

impl Model for Indexed {
    ghost use Rattle.std.specs.Prelude.{List};
    ghost use Rattle.nd_script.specs.declared.rule.Rule.{Rule};
    ghost use Rattle.nd_transports.specs.Books.{AreFirsts};

    ghost Value = { List Rule };

    ghost view = { λ i. i.rules.items };

    ghost invariant = { λ i. AreFirsts i.rules.items i.firsts };
}

impl Indexed {
    fn new(alloc: Global, rules: Vec<Rule>) -> Result<Indexed, AllocError>
        ensures { IfOk result (λ indexed. indexed ≡ rules.items) }
    {
        let firsts = first_places(alloc, rules.as_slice())?;
        Ok(Indexed { rules, firsts })
    }

    fn rules(&self) -> &[Rule]
        ensures { result.now ≡ self.now }
    {
        self.rules.as_slice()
    }

    fn about(&self, drv: u32) -> Option<&Rule>
        ensures { option_copied result ≡ find (is_about drv) self.now }
    {
        match self.firsts.get(&drv) {
            Some(place) => self.rules.as_slice().get(*place),
            None => None,
        }
    }
}

/// For each derivation that one of these rules is about the place of the first such rule.
fn first_places(alloc: Global, rules: &[Rule]) -> Result<BTreeMap<u32, usize>, AllocError>
    ensures { IfOk result (AreFirsts rules.now) }
{
    let mut firsts = BTreeMap::new(alloc);
    for place in (0..rules.len()).rev() {
        if let Some(drv) = built_by(&rules[place]) {
            firsts.insert(drv, place)?;
        }
    }
    Ok(firsts)
}

/// The derivation whose build the rule is about.
fn built_by(rule: &Rule) -> Option<u32>
    ensures { (drv : ℕ) → is_about drv rule.now ≡ is_named result drv }
{
    match rule {
        Rule::Fail(drv, _) | Rule::Lose(drv) | Rule::Built(drv, _) => Some(*drv),
        Rule::NoConnect(_) | Rule::NoCopy(_) => None,
    }
}
