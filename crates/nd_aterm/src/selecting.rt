//! The one reader of derivation texts, which keeps what is asked for.

ghost use Rattle.std.specs.Prelude.{◌≡◌, ℕ, ◌≤◌, ◌<◌, List, ◌++◌, codes, length, IfOk, IfErr, MatchOption};
ghost use Rattle.nd_aterm.specs.declared.records.Parts.{Parts};
ghost use Rattle.nd_aterm.specs.Derivations.{derivation, Text};
ghost use Rattle.nd_aterm.specs.Refusals.{Refuses};
ghost use Rattle.nd_aterm.specs.Sections.{Command, paths, command};
ghost use Rattle.nd_aterm.specs.Selected.{selected, IsSelected};
ghost use Rattle.nd_aterm.specs.Sifting.{HasSettings, NoSettings, HasCommand, HasParts, IsKept, IsText, IsJoined};
ghost use Rattle.nd_aterm.specs.Texts.{text_limit, IsRefused, OkUnlessMemory};

use crate::fault::AtermError;
use crate::leaf::Leaf;
use crate::orders::is_selected_in_order;
use crate::part::{expect, field, two_fields};
use crate::sifting::{Selection, Sifted, env_at, strings_at};
use crate::views::{NeededDrvView, OutputView, SelectedView};
use nd_bytes::Items;
use std::alloc::Global;

/// The most bytes that a derivation text may have.
pub(crate) const TEXT_LIMIT: usize = 16_777_216;

/// What stands behind the word that each derivation text begins with.
pub(crate) fn behind_word(bytes: &[u8]) -> Option<&[u8]>
    ensures { MatchOption result
        ((rest : List ℕ) → bytes.now ≡ codes "Derive(" ++ rest → ⊥)
        (λ rest. bytes.now ≡ codes "Derive(" ++ rest.now) }
{
    match bytes {
        [b'D', b'e', b'r', b'i', b'v', b'e', b'(', rest @ ..] => Some(rest),
        _ => None,
    }
}

/// What a derivation makes, and the store paths that it needs.
#[derive(Drop)]
struct Paths<'t> {
    outputs: Items<OutputView<'t>>,
    input_drvs: Items<NeededDrvView<'t>>,
    input_srcs: Items<Leaf<'t>>,
}

/// What is kept of how a derivation is built.
#[derive(Drop)]
struct KeptCommand<'t> {
    platform: Leaf<'t>,
    builder: Leaf<'t>,
    args: Items<Leaf<'t>>,
    env: Sifted<'t>,
}

/// What is kept of a derivation.
#[derive(Drop)]
pub(crate) struct KeptParts<'t> {
    /// All but the arguments, with the variables that are asked for.
    pub(crate) view: SelectedView<'t>,
    /// The arguments, where they are asked for.
    pub(crate) args: Items<Leaf<'t>>,
    /// Whether each name of the environment is below the next.
    rising: bool,
}

/// Reads the first section of a derivation text, up to the sources and their comma.
#[tactic(auto, using(crate::specs::DerivationsOnce::outputs_once, crate::specs::DerivationsOnce::input_drvs_once), unfolding(crate::specs::Sections::paths))]
fn paths_at(alloc: Global, bytes: &[u8]) -> Result<(Paths<'_>, &[u8]), AtermError>
    ensures found { IfOk result (λ x. bytes.now ≡ paths x.0 x.1.now) }
    ensures none { IfErr result (λ e. Refuses e
        ((p : Paths) (rest : List ℕ) → bytes.now ≡ paths p rest → ⊥)) }
{
    let (outputs, input_drvs, rest) = two_fields(alloc, bytes, b',')?;
    let (input_srcs, rest) = field(alloc, rest, b',')?;
    let paths = Paths {
        outputs,
        input_drvs,
        input_srcs,
    };
    Ok((paths, rest))
}

/// Reads the arguments, kept where they are asked for, and the environment.
#[tactic(auto, unfolding(crate::specs::Sifting::settings))]
fn settings_at<S: Selection>(
    alloc: Global,
    keeps_args: bool,
    bytes: &[u8],
) -> Result<(Items<Leaf<'_>>, Sifted<'_>, &[u8]), AtermError>
    ensures found { IfOk result (λ x. HasSettings S.selects keeps_args bytes.now x.2.now x.0 x.1) }
    ensures none { IfErr result (λ e. Refuses e (NoSettings bytes.now)) }
{
    let (args, rest) = strings_at(alloc, keeps_args, bytes)?;
    let rest = expect(rest, b',')?;
    let (env, rest) = env_at::<S>(alloc, rest)?;
    let rest = expect(rest, b')')?;
    Ok((args, env, rest))
}

/// Reads the second section of a derivation text, from the platform on.
fn command_at<S: Selection>(
    alloc: Global,
    keeps_args: bool,
    bytes: &[u8],
) -> Result<(KeptCommand<'_>, &[u8]), AtermError>
    ensures found { IfOk result (λ x. HasCommand S.selects keeps_args bytes.now x.1.now x.0) }
    ensures none { IfErr result (λ e. Refuses e
        ((c : Command) (rest : List ℕ) → bytes.now ≡ command c rest → ⊥)) }
{
    let (platform, builder, rest) = two_fields(alloc, bytes, b',')?;
    let (args, env, rest) = settings_at::<S>(alloc, keeps_args, rest)?;
    let command = KeptCommand {
        platform,
        builder,
        args,
        env,
    };
    Ok((command, rest))
}

/// What is kept of a derivation with these two sections.
fn join<'t>(paths: Paths<'t>, command: KeptCommand<'t>) -> KeptParts<'t>
    ensures { IsJoined paths.entry command.entry result }
{
    let Paths {
        outputs,
        input_drvs,
        input_srcs,
    } = paths;
    let KeptCommand {
        platform,
        builder,
        args,
        env,
    } = command;
    let Sifted { kept, rising, .. } = env;
    let view = SelectedView {
        outputs,
        input_drvs,
        input_srcs,
        platform,
        builder,
        env: Items::new(kept),
    };
    KeptParts { view, args, rising }
}

/// Reads the parts of a derivation, its lists in any order, and gives what is kept of them with what
/// stands behind the text.
fn parts_at<S: Selection>(
    alloc: Global,
    keeps_args: bool,
    bytes: &[u8],
) -> Result<(KeptParts<'_>, &[u8]), AtermError>
    ensures found { IfOk result (λ x. HasParts S.selects keeps_args bytes.now x.1.now x.0) }
    ensures none { IfErr result (λ e. Refuses e
        ((p : Parts) (rest : List ℕ) → bytes.now ≡ derivation p rest → ⊥)) }
{
    let Some(rest) = behind_word(bytes) else {
        return Err(AtermError::NotDerivation);
    };
    let (paths, rest) = paths_at(alloc, rest)?;
    match command_at::<S>(alloc, keeps_args, rest) {
        Ok((command, rest)) => Ok((join(paths, command), rest)),
        Err(fault) => {
            drop(paths);
            Err(fault)
        }
    }
}

/// Reads a whole derivation text as [`parse`](crate::parse) does, and keeps the variables that are asked
/// for, and the arguments where they are asked for.
pub(crate) fn kept_parts<S: Selection>(
    alloc: Global,
    keeps_args: bool,
    bytes: &[u8],
) -> Result<KeptParts<'_>, AtermError>
    ensures found { IfOk result (λ x. (length bytes.now ≤ text_limit) × IsText S.selects keeps_args bytes.now x) }
    ensures exactly { (p : Parts) → length bytes.now ≤ text_limit → Text p bytes.now
        → OkUnlessMemory result (λ x. IsKept S.selects keeps_args p x) }
    ensures refused { IfErr result (IsRefused bytes.now) }
    ensures too_long { text_limit < length bytes.now → result ≡ Err AtermError.TooLong }
{
    if bytes.len() > TEXT_LIMIT {
        return Err(AtermError::TooLong);
    }
    let (parts, rest) = parts_at::<S>(alloc, keeps_args, bytes)?;
    if !rest.is_empty() {
        return Err(AtermError::NotDerivation);
    }
    if !is_selected_in_order(&parts.view, parts.rising) {
        return Err(AtermError::Order);
    }
    Ok(parts)
}

/// Reads a derivation text as [`parse`](crate::parse) does, and keeps less: no arguments, and of
/// the environment the variables alone whose names are asked for, each of these also where there are
/// several of one name. No value that isn't kept takes memory. Each refusal comes where it comes there.
#[tactic(auto, using(crate::proofs::SelectingLemmas::is_selected))]
pub fn parse_selected<S: Selection>(
    alloc: Global,
    bytes: &[u8],
) -> Result<SelectedView<'_>, AtermError>
    // What is read is selected of the derivation that has this text.
    ensures found { IfOk result (λ q. (length bytes.now ≤ text_limit) × IsSelected S.selects bytes.now q) }
    // What has this text is read, unless memory runs out.
    ensures exactly { (p : Parts) → length bytes.now ≤ text_limit → Text p bytes.now
        → OkUnlessMemory result (λ q. q ≡ selected S.selects p) }
    // When each refusal comes.
    ensures refused { IfErr result (IsRefused bytes.now) }
    ensures too_long { text_limit < length bytes.now → result ≡ Err AtermError.TooLong }
{
    let KeptParts { view, args, .. } = kept_parts::<S>(alloc, false, bytes)?;
    drop(args);
    Ok(view)
}
