//! The parts of a derivation text: what can be read from the front of one, and written behind one.

ghost use Rattle.std.specs.Prelude.{◌≡◌, ℕ, ◌≤◌, ◌<◌, List, [], ◌∷◌, ◌++◌, length, IfOk, IfErr, OnOk, IfSome, MatchOption};
ghost use Rattle.nd_aterm.specs.Refusals.{Refuses};

use crate::fault::AtermError;
use std::alloc::{AllocError, Global};

/// A part that is read of a derivation text `'t`: its text, with the bytes of a rest behind it.
pub trait Part<'t>: Drop {
    ghost text: { Self → List ℕ → List ℕ };

    // Two parts whose texts begin a text are one part, and leave the same rest.
    ghost once: { (x y : Self) (r s : List ℕ) → text x r ≡ text y s → (x ≡ y) × (r ≡ s) };

    // No part begins as the end of a list does, with `]`.
    ghost opens: { (x : Self) (r s : List ℕ) → text x r ≡ 93 ∷ s → ⊥ };

    /// For how many parts room is made where the first of a list is found.
    const ROOM: usize;

    /// Reads a part from the front, and gives it with what stands behind it. It is refused as
    /// `NotDerivation` where the bytes don't begin with the text of such a part.
    fn read(alloc: Global, bytes: &'t [u8]) -> Result<(Self, &'t [u8]), AtermError>
        ensures found { IfOk result (λ x. bytes.now ≡ text x.0 x.1.now) }
        ensures shorter { IfOk result (λ x. length x.1.now ≤ length bytes.now) }
        ensures none { IfErr result (λ e. Refuses e
            ((x : Self) (rest : List ℕ) → bytes.now ≡ text x rest → ⊥)) };
}

/// A part that is written into a derivation text.
pub trait Written {
    ghost text: { Self → List ℕ → List ℕ };

    /// Writes the part's text at the end.
    fn write(&self, out: &mut Vec<u8>) -> Result<(), AllocError>
        ensures { OnOk result ((rest : List ℕ)
            → out.new.items ++ rest ≡ out.old.items ++ text self.now rest) };
}

/// What stands behind this byte, where the bytes begin with it.
pub(crate) fn strip(bytes: &[u8], first: u8) -> Option<&[u8]>
    ensures { MatchOption result
        ((rest : List ℕ) → bytes.now ≡ first ∷ rest → ⊥)
        (λ rest. bytes.now ≡ first ∷ rest.now) }
{
    match bytes {
        [byte, rest @ ..] if *byte == first => Some(rest),
        _ => None,
    }
}

/// What stands behind this byte, which has to come first.
pub(crate) fn expect(bytes: &[u8], first: u8) -> Result<&[u8], AtermError>
    ensures found { IfOk result (λ rest. bytes.now ≡ first ∷ rest.now) }
    ensures none { IfErr result (λ e.
        (e ≡ AtermError.NotDerivation) × ((rest : List ℕ) → bytes.now ≡ first ∷ rest → ⊥)) }
{
    strip(bytes, first).ok_or(AtermError::NotDerivation)
}

/// Reads a part, and the byte that has to stand behind it.
pub fn field<'t, T: Part<'t>>(
    alloc: Global,
    bytes: &'t [u8],
    end: u8,
) -> Result<(T, &'t [u8]), AtermError>
    ensures found { IfOk result (λ x. bytes.now ≡ T.text x.0 (end ∷ x.1.now)) }
    ensures shorter { IfOk result (λ x. length x.1.now < length bytes.now) }
    ensures none { IfErr result (λ e. Refuses e
        ((x : T) (rest : List ℕ) → bytes.now ≡ T.text x (end ∷ rest) → ⊥)) }
{
    let (part, rest) = T::read(alloc, bytes)?;
    let rest = expect(rest, end)?;
    Ok((part, rest))
}

/// Reads two parts with a comma between them, and the byte that has to stand behind the second.
pub(crate) fn two_fields<'t, T: Part<'t>, U: Part<'t>>(
    alloc: Global,
    bytes: &'t [u8],
    end: u8,
) -> Result<(T, U, &'t [u8]), AtermError>
    ensures found { IfOk result (λ x. bytes.now ≡ T.text x.0 (44 ∷ U.text x.1 (end ∷ x.2.now))) }
    ensures shorter { IfOk result (λ x. length x.2.now < length bytes.now) }
    ensures none { IfErr result (λ e. Refuses e
        ((x : T) (y : U) (rest : List ℕ) → bytes.now ≡ T.text x (44 ∷ U.text y (end ∷ rest)) → ⊥)) }
{
    let (first, rest) = field(alloc, bytes, b',')?;
    let (second, rest) = field(alloc, rest, end)?;
    Ok((first, second, rest))
}

/// Writes a part at the end, and this byte behind it.
pub(crate) fn put_field<T: Written>(part: &T, end: u8, out: &mut Vec<u8>) -> Result<(), AllocError>
    ensures { OnOk result ((rest : List ℕ)
        → out.new.items ++ rest ≡ out.old.items ++ T.text part.now (end ∷ rest)) }
{
    part.write(out)?;
    out.push(end)?;
    Ok(())
}
