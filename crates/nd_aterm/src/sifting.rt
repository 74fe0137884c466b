//! Lists of which not all is kept.

ghost use Rattle.std.specs.Prelude.{◌≡◌, ℕ, ◌≤◌, Bool, List, [], ◌∷◌, length, IfOk, IfErr, OnOk};
ghost use Rattle.nd_aterm.specs.declared.records.EnvEntry.{EnvEntry};
ghost use Rattle.nd_aterm.specs.Refusals.{Refuses};
ghost use Rattle.nd_aterm.specs.Spelling.{right_bracket, string, list};
ghost use Rattle.nd_aterm.specs.Derivations.{env_entry};
ghost use Rattle.nd_aterm.specs.Sifting.{Begins, AreStrings, BeginsListed, NoneListed, IsValue, IsVariable, IsSifted, IsTaken, IsSiftedMore, BeginsEnv, HasEnv, follows};

use crate::fault::AtermError;
use crate::leaf::Leaf;
use crate::part::{Part, expect, field, strip};
use crate::strings::behind_string;
use crate::views::EnvEntryView;
use nd_bytes::Items;
use std::alloc::{AllocError, Global};

/// Which variables of an environment are asked for, by their names.
pub trait Selection {
    ghost selects: { List ℕ → Bool };

    /// Whether the variables with this name are asked for.
    fn selects(name: &[u8]) -> bool
        ensures { result ≡ selects name.now };
}

/// What stands behind the strings of a list that has some, and its closing bracket.
fn behind_listed(bytes: &[u8]) -> Result<&[u8], AtermError>
    ensures found { IfOk result (λ rest. BeginsListed string bytes.now (right_bracket ∷ rest.now)) }
    ensures none { IfErr result (λ e. Refuses e (NoneListed string bytes.now)) }
{
    let mut rest = behind_string(bytes)?;
    while let Some(after) = strip(rest, b',') {
        rest = behind_string(after)?;
    }
    expect(rest, b']')
}

/// What stands behind a list of strings, of which nothing is kept: it takes no memory.
#[tactic(auto, unfolding(crate::specs::Spelling::list))]
fn behind_strings(bytes: &[u8]) -> Result<&[u8], AtermError>
    ensures found { IfOk result (λ rest. Begins (list string) bytes.now rest.now) }
    ensures none { IfErr result (λ e. Refuses e
        ((xs : List (List ℕ)) (rest : List ℕ) → bytes.now ≡ list string xs rest → ⊥)) }
{
    let bytes = expect(bytes, b'[')?;
    if let Some(rest) = strip(bytes, b']') {
        return Ok(rest);
    }
    behind_listed(bytes)
}

/// Reads a list of strings, of which none is kept unless they are asked for.
pub(crate) fn strings_at(
    alloc: Global,
    keeps: bool,
    bytes: &[u8],
) -> Result<(Items<Leaf<'_>>, &[u8]), AtermError>
    ensures found { IfOk result (λ x. AreStrings keeps bytes.now x.0 x.1.now) }
    ensures none { IfErr result (λ e. Refuses e
        ((xs : List (List ℕ)) (rest : List ℕ) → bytes.now ≡ list string xs rest → ⊥)) }
{
    if !keeps {
        let rest = behind_strings(bytes)?;
        return Ok((Items::new(Vec::new(alloc)), rest));
    }
    Items::read(alloc, bytes)
}

/// Reads a string, which is given only where it is to be kept.
fn value_at(
    alloc: Global,
    keeps: bool,
    bytes: &[u8],
) -> Result<(Option<Leaf<'_>>, &[u8]), AtermError>
    ensures found { IfOk result (λ x. IsValue keeps bytes.now x.0 x.1.now) }
    ensures shorter { IfOk result (λ x. length x.1.now ≤ length bytes.now) }
    ensures none { IfErr result (λ e. Refuses e
        ((cs : List ℕ) (rest : List ℕ) → bytes.now ≡ string cs rest → ⊥)) }
{
    if !keeps {
        let rest = behind_string(bytes)?;
        return Ok((None, rest));
    }
    let (value, rest) = Leaf::read(alloc, bytes)?;
    Ok((Some(value), rest))
}

/// Reads a variable of an environment: its name, and its value where it is asked for.
#[tactic(auto, using(crate::specs::SpellingOnce::string_once), unfolding(crate::specs::Derivations::env_entry))]
fn variable_at<S: Selection>(
    alloc: Global,
    bytes: &[u8],
) -> Result<(Leaf<'_>, Option<Leaf<'_>>, &[u8]), AtermError>
    ensures found { IfOk result (λ x. IsVariable S.selects bytes.now x.0 x.1 x.2.now) }
    ensures shorter { IfOk result (λ x. length x.2.now ≤ length bytes.now) }
    ensures none { IfErr result (λ e. Refuses e
        ((v : EnvEntry) (rest : List ℕ) → bytes.now ≡ env_entry v rest → ⊥)) }
{
    let rest = expect(bytes, b'(')?;
    let (key, rest) = field::<Leaf<'_>>(alloc, rest, b',')?;
    let (value, rest) = value_at(alloc, S::selects(key.as_slice()), rest)?;
    let rest = expect(rest, b')')?;
    Ok((key, value, rest))
}

/// What is kept of an environment that is read, and what its order wants.
#[derive(Drop)]
pub(crate) struct Sifted<'t> {
    /// The variables that are asked for, in their order.
    pub(crate) kept: Vec<EnvEntryView<'t>>,
    /// The name of the last variable, kept or not.
    last: Option<Leaf<'t>>,
    /// Whether each name is below the next.
    pub(crate) rising: bool,
}

impl<'t> Sifted<'t> {
    /// What is kept of an environment without variables.
    fn new(alloc: Global) -> Sifted<'t>
        ensures { (selects : List ℕ → Bool) → IsSifted selects [] result }
    {
        Sifted {
            kept: Vec::new(alloc),
            last: None,
            rising: true,
        }
    }

    /// Whether a variable with this name may be the next.
    fn may_follow(&self, name: &[u8]) -> bool
        ensures { result ≡ follows self.now.last name.now }
    {
        match &self.last {
            Some(last) => last.as_slice().cmp(name).is_lt(),
            None => true,
        }
    }

    /// Takes one more variable, whose value is there where it is asked for.
    fn take(
        &mut self,
        alloc: Global,
        key: Leaf<'t>,
        value: Option<Leaf<'t>>,
    ) -> Result<(), AllocError>
        ensures { OnOk result (IsTaken key.entry value.entry self.old self.new) }
    {
        self.rising = self.rising && self.may_follow(key.as_slice());
        let Some(value) = value else {
            self.last = Some(key);
            return Ok(());
        };
        self.last = Some(key.try_clone(alloc)?);
        self.kept.push(EnvEntryView { key, value })?;
        Ok(())
    }

    /// Reads one more variable.
    fn read<S: Selection>(&mut self, alloc: Global, bytes: &'t [u8]) -> Result<&'t [u8], AtermError>
        ensures found { IfOk result (λ rest. IsSiftedMore S.selects bytes.now rest.now self.old self.new) }
        ensures shorter { IfOk result (λ rest. length rest.now ≤ length bytes.now) }
        ensures none { IfErr result (λ e. Refuses e
            ((v : EnvEntry) (rest : List ℕ) → bytes.now ≡ env_entry v rest → ⊥)) }
    {
        let (key, value, rest) = variable_at::<S>(alloc, bytes)?;
        self.take(alloc, key, value)?;
        Ok(rest)
    }
}

/// Reads the variables of an environment that has some, and its closing bracket.
fn listed_env<S: Selection>(alloc: Global, bytes: &[u8]) -> Result<(Sifted<'_>, &[u8]), AtermError>
    ensures found { IfOk result (λ x. BeginsEnv S.selects bytes.now (right_bracket ∷ x.1.now) x.0) }
    ensures none { IfErr result (λ e. Refuses e (NoneListed env_entry bytes.now)) }
{
    let mut sifted = Sifted::new(alloc);
    let mut rest = sifted.read::<S>(alloc, bytes)?;
    while let Some(after) = strip(rest, b',') {
        rest = sifted.read::<S>(alloc, after)?;
    }
    let rest = expect(rest, b']')?;
    Ok((sifted, rest))
}

/// Reads an environment, of which the variables that are asked for are kept.
pub(crate) fn env_at<S: Selection>(
    alloc: Global,
    bytes: &[u8],
) -> Result<(Sifted<'_>, &[u8]), AtermError>
    ensures found { IfOk result (λ x. HasEnv S.selects bytes.now x.1.now x.0) }
    ensures none { IfErr result (λ e. Refuses e
        ((env : List EnvEntry) (rest : List ℕ) → bytes.now ≡ list env_entry env rest → ⊥)) }
{
    let bytes = expect(bytes, b'[')?;
    if let Some(rest) = strip(bytes, b']') {
        return Ok((Sifted::new(alloc), rest));
    }
    listed_env::<S>(alloc, bytes)
}
