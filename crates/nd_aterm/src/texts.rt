//! Derivations from whole texts, and their texts.

ghost use Rattle.std.specs.Prelude.{◌≡◌, ℕ, ◌≤◌, ◌<◌, List, ◌++◌, length, IfOk, IfErr, OnOk, true};
ghost use Rattle.nd_aterm.specs.declared.records.Parts.{Parts};
ghost use Rattle.nd_aterm.specs.Derivations.{derivation, Text};
ghost use Rattle.nd_aterm.specs.Texts.{text_limit, IsRefused, IsUnwritten, OkUnlessMemory};

use crate::derivations::Derivation;
use crate::fault::AtermError;
use crate::part::put_field;
use crate::records::Parts;
use crate::selecting::{KeptParts, TEXT_LIMIT, kept_parts};
use crate::sifting::Selection;
use std::alloc::{AllocError, Global};

/// All variables of an environment.
struct All;

impl Selection for All {
    ghost selects = { λ _. true };

    fn selects(_name: &[u8]) -> bool {
        true
    }
}

/// Reads a derivation text, in one pass, and gives the derivation whose text the bytes are. Refusals,
/// first to last, `Memory` at any point:
///
/// 1. `TooLong`: there are more than 16,777,216 bytes.
/// 2. `NotDerivation`: no derivation has this text, in whatever order its lists stand.
/// 3. `Order`: it would be a derivation's text, but one of its lists doesn't strictly rise.
/// 4. `Memory`: there was no memory left.
///
/// The form is that of the Nix Reference Manual (Derivation "ATerm" file format), and only one spelling
/// is read. It is the one that Nix writes where platform, builder, paths, names and hash fields hold no
/// quote, backslash, newline, return or tab; elsewhere it is this project's own choice.
#[tactic(auto, using(crate::proofs::SelectingLemmas::whole_text))]
pub fn parse(alloc: Global, bytes: &[u8]) -> Result<Derivation, AtermError>
    // What is read has this text.
    ensures found { IfOk result (λ d. (length bytes.now ≤ text_limit) × Text d.parts bytes.now) }
    // What has this text is read, unless memory runs out.
    ensures exactly { (p : Parts) → length bytes.now ≤ text_limit → Text p bytes.now
        → OkUnlessMemory result (λ d. d.parts ≡ p) }
    // When each refusal comes.
    ensures refused { IfErr result (IsRefused bytes.now) }
    ensures too_long { text_limit < length bytes.now → result ≡ Err AtermError.TooLong }
{
    let KeptParts { view, args, .. } = kept_parts::<All>(alloc, true, bytes)?;
    let parts = view.copied(alloc, args.as_slice())?;
    Ok(Derivation { parts })
}

/// Writes at the end the text of the derivation with these parts.
#[tactic(auto, unfolding(crate::specs::Derivations::derivation))]
fn put_derivation(parts: &Parts, out: &mut Vec<u8>) -> Result<(), AllocError>
    ensures { OnOk result ((rest : List ℕ)
        → out.new.items ++ rest ≡ out.old.items ++ derivation parts.now rest) }
{
    out.extend_from_slice(b"Derive(")?;
    put_field(&parts.outputs, b',', out)?;
    put_field(&parts.input_drvs, b',', out)?;
    put_field(&parts.input_srcs, b',', out)?;
    put_field(&parts.platform, b',', out)?;
    put_field(&parts.builder, b',', out)?;
    put_field(&parts.args, b',', out)?;
    put_field(&parts.env, b')', out)?;
    Ok(())
}

/// The one text of a derivation. It is refused as `TooLong` (1) where that has more than 16,777,216
/// bytes, and as `Memory` (4) where there was no memory left.
pub fn write(alloc: Global, derivation: &Derivation) -> Result<Vec<u8>, AtermError>
    // What is written is the derivation's text.
    ensures written { IfOk result (λ text.
        (length text.items ≤ text_limit) × Text derivation.now.parts text.items) }
    // A text that isn't too long is written, unless memory runs out.
    ensures exactly { (bytes : List ℕ) → length bytes ≤ text_limit
        → Text derivation.now.parts bytes
        → OkUnlessMemory result (λ text. text.items ≡ bytes) }
    // When each refusal comes.
    ensures refused { IfErr result (IsUnwritten derivation.now.parts) }
{
    let mut text = Vec::new(alloc);
    put_derivation(&derivation.parts, &mut text)?;
    if text.len() > TEXT_LIMIT {
        return Err(AtermError::TooLong);
    }
    Ok(text)
}
