//! Cutting the text of a bundle into its lines, and into pieces of whole lines.

ghost use Rattle.std.specs.Prelude.{◌≡◌, ◌<◌, ◌++◌, length, map, IfOk, IfSome};
ghost use Rattle.nd_bundle.specs.Lines.{lines, lines_in};
ghost use Rattle.nd_bundle.specs.Parts.{HasWholeLines, IsLineEnd};

use nd_bytes::cut;
use std::alloc::{AllocError, Global};

/// The lines of the text.
pub(crate) fn cut_lines(alloc: Global, text: &[u8]) -> Result<Vec<&[u8]>, AllocError>
    ensures { IfOk result (λ found. map (λ line. line.now) found.items ≡ lines text.now) }
{
    let mut found = Vec::new(alloc);
    let mut left = text;
    while !left.is_empty() {
        let (line, rest) = cut(left, b'\n');
        found.push(line)?;
        left = match rest {
            Some(behind) => behind,
            None => &[],
        };
    }
    Ok(found)
}

/// The text in pieces of whole lines, each of at least so many bytes but for the last.
pub(crate) fn cut_pieces(alloc: Global, text: &[u8], least: usize) -> Result<Vec<&[u8]>, AllocError>
    ensures { IfOk result (λ found. lines_in (map (λ piece. piece.now) found.items) ≡ lines text.now) }
{
    let mut found = Vec::new(alloc);
    let mut left = text;
    while !left.is_empty() {
        let (piece, behind) = first_piece(left, least);
        found.push(piece)?;
        left = behind;
    }
    Ok(found)
}

/// The lines in which the first bytes of the text stand, so many of them and one more, and what stands behind
/// those lines.
#[tactic(auto, using(crate::proofs::Newlines::cut_behind, crate::proofs::Newlines::whole_piece))]
fn first_piece(text: &[u8], least: usize) -> (&[u8], &[u8])
    requires { 0 < length text.now }
    ensures lines { lines result.0.now ++ lines result.1.now ≡ lines text.now }
    ensures shorter { length result.1.now < length text.now }
{
    if text.len() <= least {
        return (text, &[]);
    }
    let (_, back) = text.split_at(least);
    match cut(back, b'\n') {
        (_, Some(behind)) => text.split_at(text.len() - behind.len()),
        (_, None) => (text, &[]),
    }
}

/// The text up to its first newline, which is with it, and what stands behind; or `None` where it has no newline.
pub(crate) fn cut_line(text: &[u8]) -> Option<(&[u8], &[u8])>
    ensures parts { IfSome result (λ r. text.now ≡ r.0.now ++ r.1.now) }
    ensures end { IfSome result (λ r. IsLineEnd r.0.now) }
{
    match cut(text, b'\n') {
        (_, Some(behind)) => Some(text.split_at(text.len() - behind.len())),
        (_, None) => None,
    }
}

/// The whole lines of the text, and what stands behind its last newline.
#[tactic(auto, using(crate::proofs::Newlines::no_line, crate::proofs::Newlines::whole_to))]
pub(crate) fn whole_lines(text: &[u8]) -> (&[u8], &[u8])
    ensures parts { text.now ≡ result.0.now ++ result.1.now }
    ensures whole { HasWholeLines result.0.now }
{
    let mut end = text.len();
    while end > 0 {
        if text[end - 1] == b'\n' {
            return text.split_at(end);
        }
        end -= 1;
    }
    (&[], text)
}
