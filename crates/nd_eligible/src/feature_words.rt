//! The list of features in a derivation's environment.

ghost use Rattle.std.specs.Prelude.{◌≡◌, IfOk, map};
ghost use Rattle.std.specs.List.{slice_split};
ghost use Rattle.nd_eligible.specs.Attributes.{is_blank, word_set};

use nd_bytes::ByteString;
use nd_machines::FeatureSet;
use std::alloc::{AllocError, Global};

/// The words of a text, parted by spaces, tabs, newlines and returns, as a set.
pub fn words(alloc: Global, text: &[u8]) -> Result<FeatureSet, AllocError>
    ensures { IfOk result (λ set. set ≡ word_set text.now) }
{
    let pieces = pieces(alloc, text)?;
    // Derivations keep their features, so a list has room for its words alone.
    let count = pieces.iter().filter(|piece| !piece.is_empty()).count();
    let mut found = Vec::with_capacity(alloc, count)?;
    for piece in &pieces {
        if !piece.is_empty() {
            found.push(ByteString::from_slice(alloc, piece)?)?;
        }
    }
    Ok(FeatureSet::new(found))
}

/// The pieces of a text between its blanks, the empty ones among them.
fn pieces(alloc: Global, text: &[u8]) -> Result<Vec<&[u8]>, AllocError>
    ensures { IfOk result (λ found. map (λ piece. piece.now) found.items ≡ slice_split is_blank text.now) }
{
    text.split(|byte| matches!(*byte, b' ' | b'\t' | b'\n' | b'\r'))
        .collect(alloc)
}
