//! Quoted strings.

ghost use Rattle.std.specs.Prelude.{◌≡◌, ◌≢◌, ℕ, ◌≤◌, ◌<◌, List, None, ◌∷◌, ◌++◌, length, slice_index, IfOk, IfErr, OnOk, IfSome, MatchOption};
ghost use Rattle.nd_aterm.specs.Refusals.{Refuses};
ghost use Rattle.nd_aterm.specs.Sifting.{Begins};
ghost use Rattle.nd_aterm.specs.Spelling.{quote, letter_of, character, characters, IsPlain, string};
ghost use Rattle.nd_aterm.specs.SpellingOnce.{string_once, string_opens};

use crate::fault::AtermError;
use crate::leaf::Leaf;
use crate::part::{Part, Written, expect, strip};
use crate::plain::plain_length;
use nd_bytes::ByteString;
use std::alloc::{AllocError, Global};

/// What stands behind the backslash of a byte that is escaped.
pub(crate) fn letter(byte: u8) -> Option<u8>
    ensures { result ≡ letter_of byte }
{
    match byte {
        b'"' => Some(b'"'),
        b'\\' => Some(b'\\'),
        b'\n' => Some(b'n'),
        b'\r' => Some(b'r'),
        b'\t' => Some(b't'),
        _ => None,
    }
}

/// The byte that stands first in a string, and what stands behind its spelling.
#[tactic(auto, unfolding(crate::specs::Spelling::character))]
fn character_at(bytes: &[u8]) -> Option<(u8, &[u8])>
    ensures found { MatchOption result
        ((c : ℕ) (rest : List ℕ) → bytes.now ≡ character c rest → ⊥)
        (λ x. bytes.now ≡ character x.0 x.1.now) }
    ensures shorter { IfSome result (λ x. length x.1.now < length bytes.now) }
{
    let (first, rest) = bytes.split_first()?;
    match *first {
        b'"' | b'\n' | b'\r' | b'\t' => None,
        b'\\' => {
            let (letter, rest) = rest.split_first()?;
            match *letter {
                b'"' => Some((b'"', rest)),
                b'\\' => Some((b'\\', rest)),
                b'n' => Some((b'\n', rest)),
                b'r' => Some((b'\r', rest)),
                b't' => Some((b'\t', rest)),
                _ => None,
            }
        }
        byte => Some((byte, rest)),
    }
}

/// The bytes in front that a string spells as they are, and what stands behind them: nothing, or what
/// begins with a byte that is escaped.
fn plain_at(bytes: &[u8]) -> (&[u8], &[u8])
    ensures split { bytes.now ≡ result.0.now ++ result.1.now }
    ensures plain { IsPlain result.0.now }
    ensures ends { 0 < length result.1.now → letter_of (slice_index result.1.now 0) ≢ None }
{
    bytes.split_at(plain_length(bytes))
}

/// The bytes of a string up to its closing quote, and what stands behind that.
#[inline(never)]
fn characters_at(alloc: Global, bytes: &[u8]) -> Result<(Vec<u8>, &[u8]), AtermError>
    ensures found { IfOk result (λ x. bytes.now ≡ characters x.0.items (quote ∷ x.1.now)) }
    ensures shorter { IfOk result (λ x. length x.1.now ≤ length bytes.now) }
    ensures none { IfErr result (λ e. Refuses e
        ((cs : List ℕ) (rest : List ℕ) → bytes.now ≡ characters cs (quote ∷ rest) → ⊥)) }
{
    let (plain, mut rest) = plain_at(bytes);
    let mut read = Vec::from_slice(alloc, plain)?;
    while let Some((byte, after)) = character_at(rest) {
        read.push(byte)?;
        let (plain, after) = plain_at(after);
        read.extend_from_slice(plain)?;
        rest = after;
    }
    let rest = expect(rest, b'"')?;
    Ok((read, rest))
}

/// Writes a byte as it stands in a string.
#[tactic(auto, unfolding(crate::specs::Spelling::character))]
fn put_character(byte: u8, out: &mut Vec<u8>) -> Result<(), AllocError>
    ensures { OnOk result ((rest : List ℕ)
        → out.new.items ++ rest ≡ out.old.items ++ character byte rest) }
{
    match letter(byte) {
        Some(letter) => {
            out.push(b'\\')?;
            out.push(letter)?;
        }
        None => out.push(byte)?,
    }
    Ok(())
}

/// Writes the bytes as they stand in a string.
fn put_characters(bytes: &[u8], out: &mut Vec<u8>) -> Result<(), AllocError>
    ensures { OnOk result ((rest : List ℕ)
        → out.new.items ++ rest ≡ out.old.items ++ characters bytes.now rest) }
{
    let (plain, mut left) = plain_at(bytes);
    out.extend_from_slice(plain)?;
    while let Some((byte, after)) = left.split_first() {
        put_character(*byte, out)?;
        let (plain, after) = plain_at(after);
        out.extend_from_slice(plain)?;
        left = after;
    }
    Ok(())
}

/// The same, borrowed where nothing is escaped.
fn leaf_at(alloc: Global, bytes: &[u8]) -> Result<(Leaf<'_>, &[u8]), AtermError>
    ensures found { IfOk result (λ x. bytes.now ≡ characters x.0 (quote ∷ x.1.now)) }
    ensures shorter { IfOk result (λ x. length x.1.now ≤ length bytes.now) }
    ensures none { IfErr result (λ e. Refuses e
        ((cs : List ℕ) (rest : List ℕ) → bytes.now ≡ characters cs (quote ∷ rest) → ⊥)) }
{
    let (plain, rest) = plain_at(bytes);
    if let Some(rest) = strip(rest, b'"') {
        return Ok((Leaf::new(plain), rest));
    }
    let (read, rest) = characters_at(alloc, bytes)?;
    Ok((Leaf::from_vec(read), rest))
}

/// What stands behind the characters of a string and its closing quote.
fn behind_characters(bytes: &[u8]) -> Result<&[u8], AtermError>
    ensures found { IfOk result (λ rest. Begins characters bytes.now (quote ∷ rest.now)) }
    ensures shorter { IfOk result (λ rest. length rest.now ≤ length bytes.now) }
    ensures none { IfErr result (λ e. Refuses e
        ((cs : List ℕ) (rest : List ℕ) → bytes.now ≡ characters cs (quote ∷ rest) → ⊥)) }
{
    let (_, mut rest) = plain_at(bytes);
    while let Some((_, after)) = character_at(rest) {
        let (_, after) = plain_at(after);
        rest = after;
    }
    expect(rest, b'"')
}

/// What stands behind a string, of which nothing is kept: it takes no memory.
#[tactic(auto, unfolding(crate::specs::Spelling::string))]
pub(crate) fn behind_string(bytes: &[u8]) -> Result<&[u8], AtermError>
    ensures found { IfOk result (λ rest. Begins string bytes.now rest.now) }
    ensures shorter { IfOk result (λ rest. length rest.now ≤ length bytes.now) }
    ensures none { IfErr result (λ e. Refuses e
        ((cs : List ℕ) (rest : List ℕ) → bytes.now ≡ string cs rest → ⊥)) }
{
    let rest = expect(bytes, b'"')?;
    behind_characters(rest)
}

impl<'t> Part<'t> for Leaf<'t> {
    ghost text = { string };

    // Of most input derivations one output is needed.
    const ROOM: usize = 1;

    #[tactic(auto, unfolding(crate::specs::Spelling::string))]
    fn read(alloc: Global, bytes: &'t [u8]) -> Result<(Self, &'t [u8]), AtermError> {
        let rest = expect(bytes, b'"')?;
        leaf_at(alloc, rest)
    }

    ghost once = { string_once };

    ghost opens = { string_opens };
}

impl Written for ByteString {
    ghost text = { string };

    #[tactic(auto, unfolding(crate::specs::Spelling::string))]
    fn write(&self, out: &mut Vec<u8>) -> Result<(), AllocError> {
        out.push(b'"')?;
        put_characters(self.as_slice(), out)?;
        out.push(b'"')?;
        Ok(())
    }
}
