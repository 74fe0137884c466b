//! Paths of texts.

ghost use Rattle.std.specs.Prelude.{◌≡◌, ◌∷◌, ◌++◌, ℕ, List, true, IfOk, IfErr, OnOk};
ghost use Rattle.nd_path.specs.StorePath.{is_name};
ghost use Rattle.nd_path.specs.TextPaths.{hashed_text, text_path_of, RefusesName};

use crate::encoding::{base32, fold};
use crate::path_error::PathError;
use crate::store_path::{StorePath, is_path_name};
use sha2::{Digest, Sha256};
use std::alloc::{AllocError, Global};

/// The store path of a text with this name, these references in the order given, and these contents
/// (Nix Reference Manual, "Store Path Specification"): what is hashed is `text`, each reference behind
/// a colon, `:sha256:`, the SHA-256 of the contents in hexadecimal, `:/nix/store:` and the name.
///
/// Refuses with `Name` (3) where `name` is no store path's name, else with `Memory` (4) where an
/// allocation is refused; with nothing else.
pub fn text_path(
    alloc: Global,
    name: &[u8],
    refs: &[StorePath],
    contents: &[u8],
) -> Result<StorePath, PathError>
    ensures found { IfOk result (λ p. p ≡ text_path_of name.now refs.now contents.now) }
    ensures named { OnOk result (is_name name.now ≡ true) }
    ensures refused { IfErr result (RefusesName name.now) }
{
    if !is_path_name(name) {
        return Err(PathError::Name);
    }
    let text = text_to_hash(alloc, name, refs, contents)?;
    let digest = Sha256::digest(text.as_slice());
    Ok(StorePath::from_digest(alloc, &base32(&fold(&digest)), name)?)
}

/// What is hashed for the path of a text.
fn text_to_hash(
    alloc: Global,
    name: &[u8],
    refs: &[StorePath],
    contents: &[u8],
) -> Result<Vec<u8>, AllocError>
    ensures { IfOk result (λ v. v.items ≡ hashed_text name.now refs.now contents.now) }
{
    let mut text = Vec::new(alloc);
    text.extend_from_slice(b"text")?;
    for path in refs {
        text.push(b':')?;
        text.extend_from_slice(path.bytes())?;
    }
    text.extend_from_slice(b":sha256:")?;
    text.extend_from_slice(hex::encode(alloc, Sha256::digest(contents))?.as_bytes())?;
    text.extend_from_slice(b":/nix/store:")?;
    text.extend_from_slice(name)?;
    Ok(text)
}
