//! Cutting a text at a byte.

ghost use Rattle.std.specs.Prelude.{◌≡◌, ◌==◌, ◌≤◌, ◌∷◌, length};
ghost use Rattle.std.specs.Option.{option_copied};
ghost use Rattle.std.specs.List.{slice_split};
ghost use Rattle.nd_bytes.specs.Cut.{until, behind, pieces, left_over};

use memchr::memchr;

/// What stands before the first `byte` of `bytes`, and what stands after it: `None` where `bytes`
/// has no such byte, and then the first part is the whole.
///
/// A text is cut into its pieces by cutting again what is left, until nothing is.
pub fn cut(bytes: &[u8], byte: u8) -> (&[u8], Option<&[u8]>)
    ensures whole { slice_split (λ b. b == byte) bytes.now ≡ result.0.now ∷ pieces byte (option_copied result.1) }
    ensures front { result.0.now ≡ until (λ b. b == byte) bytes.now }
    ensures rest { option_copied result.1 ≡ behind (λ b. b == byte) bytes.now }
    ensures shorter { left_over (option_copied result.1) ≤ length bytes.now }
{
    match memchr(byte, bytes) {
        Some(i) => {
            let (front, _) = bytes.split_at(i);
            let (_, rest) = bytes.split_at(i + 1);
            (front, Some(rest))
        }
        None => (bytes, None),
    }
}
