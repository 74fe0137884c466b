//! What a derivation needs of the machine that builds it.

ghost use Rattle.std.specs.Prelude.{◌≡◌, [], option_map, unwrap_or, IfOk, IfErr};
ghost use Rattle.nd_eligible.specs.Attributes.{word_set};
ghost use Rattle.nd_line.specs.Attributes.{variable, is_one, structured, AreVariables, Asks, Needs, AsksNothing};
ghost use Rattle.nd_line.specs.Refused.{Attribute};

use crate::refusal::LineError;
use crate::structured::{Wishes, read_structured};
use nd_aterm::{EnvEntryView, Selection};
use nd_bytes::ByteString;
use nd_eligible::{Need, words};
use nd_machines::FeatureSet;
use std::alloc::{AllocError, Global};

/// The variables that say what a derivation needs, which are all that is kept of its environment.
pub(crate) struct Attributes;

impl Selection for Attributes {
    ghost use Rattle.nd_line.specs.Kept.{is_attribute};

    ghost selects = { is_attribute };

    fn selects(name: &[u8]) -> bool {
        name == b"__json".as_slice()
            || name == b"requiredSystemFeatures".as_slice()
            || name == b"preferLocalBuild".as_slice()
    }
}

/// The need of a derivation with this platform, this builder and this environment.
pub(crate) fn need_of(
    alloc: Global,
    platform: ByteString,
    builder: &[u8],
    env: &[EnvEntryView<'_>],
) -> Result<Need, LineError>
    ensures ok { IfOk result (λ need. Needs platform builder.now env.now need) }
    ensures err { IfErr result (λ fault. Attribute fault (AsksNothing env.now)) }
{
    let Wishes {
        features,
        prefer_local,
    } = wishes_of(alloc, env)?;
    Ok(Need {
        system: platform,
        features,
        prefer_local,
        builtin: builder.starts_with(b"builtin:"),
    })
}

/// What the environment asks for.
fn wishes_of(alloc: Global, env: &[EnvEntryView<'_>]) -> Result<Wishes, LineError>
    ensures ok { IfOk result (λ wishes. Asks (structured env.now) env.now wishes) }
    ensures err { IfErr result (λ fault. Attribute fault (AsksNothing env.now)) }
{
    match value_of(env, b"__json") {
        Some(json) => read_structured(alloc, json),
        None => Ok(variables_of(alloc, env)?),
    }
}

/// What the two variables ask for.
fn variables_of(alloc: Global, env: &[EnvEntryView<'_>]) -> Result<Wishes, AllocError>
    ensures { IfOk result (λ wishes. AreVariables env.now wishes) }
{
    let features = features_in(alloc, value_of(env, b"requiredSystemFeatures"))?;
    let prefer_local = match value_of(env, b"preferLocalBuild") {
        Some(value) => value == b"1".as_slice(),
        None => false,
    };
    Ok(Wishes {
        features,
        prefer_local,
    })
}

/// The words of a list of features; none where there is no list, which takes no memory.
fn features_in(alloc: Global, list: Option<&[u8]>) -> Result<FeatureSet, AllocError>
    ensures { IfOk result (λ set. set ≡ word_set (unwrap_or (option_map (λ text. text.now) list.entry) [])) }
{
    match list {
        Some(text) => words(alloc, text),
        None => Ok(FeatureSet::new(Vec::new(alloc))),
    }
}

/// The value of the variable with this name, or `None` where there is none.
fn value_of<'e>(env: &'e [EnvEntryView<'_>], name: &[u8]) -> Option<&'e [u8]>
    ensures { option_map (λ value. value.now) result ≡ variable name.now env.now }
{
    for entry in env {
        if entry.key.as_slice() == name {
            return Some(entry.value.as_slice());
        }
    }
    None
}
