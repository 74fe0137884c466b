//! Lists between brackets.

ghost use Rattle.std.specs.Prelude.{◌≡◌, ℕ, ◌≤◌, List, ◌∷◌, ◌++◌, length, IfOk, IfErr, OnOk};
ghost use Rattle.nd_aterm.specs.Refusals.{Refuses};
ghost use Rattle.nd_aterm.specs.Spelling.{right_bracket, others, listed, list};
ghost use Rattle.nd_aterm.specs.SpellingOnce.{list_once, list_opens};

use crate::fault::AtermError;
use crate::part::{Part, Written, expect, strip};
use nd_bytes::Items;
use std::alloc::{AllocError, Global};

/// The items of a list that begins with `first`, up to the closing bracket, and what stands behind
/// that. The bytes are those behind the first item.
pub(crate) fn listed_at<'t, T: Part<'t>>(
    alloc: Global,
    first: T,
    bytes: &'t [u8],
) -> Result<(Vec<T>, &'t [u8]), AtermError>
    ensures found { IfOk result (λ x.
        T.text first bytes.now ≡ listed T.text x.0.items (right_bracket ∷ x.1.now)) }
    ensures shorter { IfOk result (λ x. length x.1.now ≤ length bytes.now) }
    ensures none { IfErr result (λ e. Refuses e ((xs : List T) (rest : List ℕ)
        → T.text first bytes.now ≡ listed T.text xs (right_bracket ∷ rest) → ⊥)) }
{
    let mut items = Vec::with_capacity(alloc, T::ROOM)?;
    items.push(first)?;
    let mut rest = bytes;
    while let Some(after) = strip(rest, b',') {
        let (item, after) = T::read(alloc, after)?;
        items.push(item)?;
        rest = after;
    }
    let rest = expect(rest, b']')?;
    Ok((items, rest))
}

/// Writes items, each with a comma before it.
fn put_others<T: Written>(items: &[T], out: &mut Vec<u8>) -> Result<(), AllocError>
    ensures { OnOk result ((rest : List ℕ)
        → out.new.items ++ rest ≡ out.old.items ++ others T.text items.now rest) }
{
    for item in items {
        out.push(b',')?;
        item.write(out)?;
    }
    Ok(())
}

/// Writes items with commas between them.
fn put_listed<T: Written>(items: &[T], out: &mut Vec<u8>) -> Result<(), AllocError>
    ensures { OnOk result ((rest : List ℕ)
        → out.new.items ++ rest ≡ out.old.items ++ listed T.text items.now rest) }
{
    if let [first, others @ ..] = items {
        first.write(out)?;
        put_others(others, out)?;
    }
    Ok(())
}

impl<'t, T: Part<'t>> Part<'t> for Items<T> {
    ghost text = { list T.text };

    const ROOM: usize = 1;

    #[tactic(auto, unfolding(crate::specs::Spelling::list))]
    fn read(alloc: Global, bytes: &'t [u8]) -> Result<(Self, &'t [u8]), AtermError> {
        let bytes = expect(bytes, b'[')?;
        if let Some(rest) = strip(bytes, b']') {
            return Ok((Items::new(Vec::new(alloc)), rest));
        }
        let (first, rest) = T::read(alloc, bytes)?;
        let (items, rest) = listed_at(alloc, first, rest)?;
        Ok((Items::new(items), rest))
    }

    ghost once = { list_once T.text T.once T.opens };

    ghost opens = { list_opens T.text };
}

impl<T: Written> Written for Items<T> {
    ghost text = { list T.text };

    #[tactic(auto, unfolding(crate::specs::Spelling::list))]
    fn write(&self, out: &mut Vec<u8>) -> Result<(), AllocError> {
        out.push(b'[')?;
        put_listed(self.as_slice(), out)?;
        out.push(b']')?;
        Ok(())
    }
}
