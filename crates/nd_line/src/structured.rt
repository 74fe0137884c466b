//! Structured attributes: a derivation's needs as the members of a JSON object.

ghost use Rattle.std.specs.Prelude.{◌≡◌, ◌++◌, codes, Some, IfOk, IfErr, option_map};
ghost use Rattle.serde_json.specs.Data.{Data};
ghost use Rattle.serde_json.specs.View.{view, items_view};
ghost use Rattle.nd_line.specs.Structured.{IsJson, strings, features_in, preference_in};
ghost use Rattle.nd_line.specs.Refused.{NotJson, NotStrings, NotFeatures, NotPreference, SaysNothing};
ghost use Rattle.nd_line.specs.Wishes.{Says};

use crate::refusal::LineError;
use nd_bytes::{ByteString, Items};
use nd_machines::FeatureSet;
use serde_json::Value;
use std::alloc::Global;

/// What a derivation asks of the machine that builds it, beside its platform.
#[derive(Debug, Drop)]
pub(crate) struct Wishes {
    /// The required system features.
    pub features: FeatureSet,
    /// Whether a local build is preferred.
    pub prefer_local: bool,
}

/// The wishes that the JSON text of structured attributes says.
pub(crate) fn read_structured(alloc: Global, text: &[u8]) -> Result<Wishes, LineError>
    ensures ok { IfOk result (λ wishes. Says text.now wishes) }
    ensures err { IfErr result (λ fault. SaysNothing text.now fault) }
{
    let value = json_value(alloc, text)?;
    if !value.is_object() {
        return Err(LineError::BadAttribute);
    }
    let listed = features_of(alloc, value.get("requiredSystemFeatures"))?;
    let prefer_local = preference_of(value.get("preferLocalBuild"))?;
    Ok(Wishes {
        features: FeatureSet::new(listed.into_vec()),
        prefer_local,
    })
}

fn json_value(alloc: Global, text: &[u8]) -> Result<Value, LineError>
    ensures ok { IfOk result (λ value. IsJson text.now (view value)) }
    ensures err { IfErr result (λ fault. NotJson text.now fault) }
{
    match Value::from_slice(alloc, text) {
        Ok(value) => Ok(value),
        Err(error) => {
            if error.is_memory() {
                Err(LineError::Memory)
            } else {
                Err(LineError::BadAttribute)
            }
        }
    }
}

fn features_of(alloc: Global, member: Option<&Value>) -> Result<Items<ByteString>, LineError>
    ensures ok { IfOk result (λ features. features_in (option_map (λ v. view v.now) member.entry) ≡ Some features) }
    ensures err { IfErr result (λ fault. NotFeatures (option_map (λ v. view v.now) member.entry) fault) }
{
    let Some(value) = member else {
        return Ok(Items::new(Vec::new(alloc)));
    };
    let Some(items) = value.as_array() else {
        return Err(LineError::BadAttribute);
    };
    strings_of(alloc, items.as_slice())
}

fn preference_of(member: Option<&Value>) -> Result<bool, LineError>
    ensures ok { IfOk result (λ preference. preference_in (option_map (λ v. view v.now) member.entry) ≡ Some preference) }
    ensures err { IfErr result (λ fault. NotPreference (option_map (λ v. view v.now) member.entry) fault) }
{
    let Some(value) = member else {
        return Ok(false);
    };
    match value.as_bool() {
        Some(preference) => Ok(preference),
        None => Err(LineError::BadAttribute),
    }
}

#[tactic(auto, using(crate::proofs::Strings::steps))]
fn strings_of(alloc: Global, values: &[Value]) -> Result<Items<ByteString>, LineError>
    ensures ok { IfOk result (λ texts. strings (items_view values.now) ≡ Some texts) }
    ensures err { IfErr result (λ fault. NotStrings (items_view values.now) fault) }
{
    let mut texts = Vec::new(alloc);
    for value in values {
        let Some(text) = value.as_str() else {
            return Err(LineError::BadAttribute);
        };
        texts.push(ByteString::from_slice(alloc, text.as_bytes())?)?;
    }
    Ok(Items::new(texts))
}
