//! The bytes in front of a text that a string spells as they are, looked for 32 at a time.

ghost use Rattle.std.specs.Prelude.{◌≡◌, ◌≢◌, ◌<◌, ◌≤◌, ◌+◌, None, length, slice_index};
ghost use Rattle.nd_aterm.specs.Spelling.{letter_of};
ghost use Rattle.nd_aterm.specs.PlainBytes.{ArePlainTo, AreEscapesFrom, AreEscapes, ArePlaces};

use crate::strings::letter;
use std::simd::prelude::*;

/// How many bytes in front have no escape: up to the first that has one, or all.
#[tactic(auto, using(crate::proofs::PlainLemmas::none_left, crate::proofs::PlainLemmas::first_within, crate::proofs::PlainLemmas::first_plain, crate::proofs::PlainLemmas::first_escaped))]
pub(crate) fn plain_length(bytes: &[u8]) -> usize
    ensures within { result ≤ length bytes.now }
    ensures plain { ArePlainTo bytes.now result }
    ensures ends { result < length bytes.now → letter_of (slice_index bytes.now result) ≢ None }
{
    if bytes.len() < 32 {
        return plain_length_of_few(bytes);
    }
    let mut place = 0;
    while 32 <= bytes.len() - place {
        let escapes = escapes_from(bytes, place, place);
        if escapes != 0 {
            return place + escapes.trailing_zeros() as usize;
        }
        place += 32;
    }
    if place == bytes.len() {
        return place;
    }
    // The last 32 bytes begin with some that were looked at.
    let escapes = escapes_from(bytes, bytes.len() - 32, place);
    if escapes == 0 {
        return bytes.len();
    }
    place + escapes.trailing_zeros() as usize
}

/// The same, byte by byte.
#[tactic(auto, using(crate::proofs::PlainLemmas::plain_further))]
fn plain_length_of_few(bytes: &[u8]) -> usize
    ensures within { result ≤ length bytes.now }
    ensures plain { ArePlainTo bytes.now result }
    ensures ends { result < length bytes.now → letter_of (slice_index bytes.now result) ≢ None }
{
    let mut place = 0;
    while place < bytes.len() && letter(bytes[place]).is_none() {
        place += 1;
    }
    place
}

/// Which of the 32 bytes from `start` on have an escape, from `place` on: a bit for each, the first the
/// lowest.
#[inline(always)]
#[tactic(auto, using(crate::proofs::PlainLemmas::escapes_moved))]
fn escapes_from(bytes: &[u8], start: usize, place: usize) -> u64
    requires inside { start + 32 ≤ length bytes.now }
    requires from { start ≤ place }
    requires below { place < start + 32 }
    ensures { AreEscapesFrom bytes.now place (start + 32) result }
{
    let block = u8x32::from_slice(&bytes[start..]);
    escapes_in(block) >> (place - start)
}

/// Which bytes have an escape: a bit for each, the first the lowest.
#[inline(always)]
#[tactic(auto, using(crate::proofs::PlainLemmas::five_places))]
fn escapes_in(block: u8x32) -> u64
    ensures { AreEscapes block result }
{
    places_of(b'"', block)
        | places_of(b'\\', block)
        | places_of(b'\n', block)
        | places_of(b'\r', block)
        | places_of(b'\t', block)
}

/// Which bytes are this one: a bit for each, the first the lowest.
#[inline(always)]
fn places_of(byte: u8, block: u8x32) -> u64
    ensures { ArePlaces byte block result }
{
    block.simd_eq(u8x32::splat(byte)).to_bitmask()
}
