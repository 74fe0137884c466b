//! A text that grows, and numbers that look random.

use itoa::Buffer;
use std::alloc::{AllocError, Global};

/// A text that grows.
#[derive(Drop)]
pub(crate) struct Text {
    bytes: Vec<u8>,
}

impl Text {
    /// The empty text, with room for so many bytes.
    pub(crate) fn with_room(alloc: Global, room: usize) -> Result<Text, AllocError> {
        Ok(Text {
            bytes: Vec::with_capacity(alloc, room)?,
        })
    }

    pub(crate) fn len(&self) -> usize {
        self.bytes.len()
    }

    pub(crate) fn as_slice(&self) -> &[u8] {
        self.bytes.as_slice()
    }

    pub(crate) fn into_vec(self) -> Vec<u8> {
        let Text { bytes } = self;
        bytes
    }

    pub(crate) fn put(&mut self, piece: &[u8]) -> Result<(), AllocError> {
        self.bytes.extend_from_slice(piece)
    }

    /// Puts a number in decimal behind this word.
    pub(crate) fn put_word(&mut self, word: &[u8], number: usize) -> Result<(), AllocError> {
        self.put(word)?;
        let mut buffer = Buffer::new();
        self.put(buffer.format(number).as_bytes())
    }
}

/// A number that looks random, by the number of its draw: the steps that finish a draw of SplitMix64 (Steele, Lea
/// and Flood 2014).
pub(crate) fn drawn(seed: u64, draw: u64) -> u64 {
    let word = seed.wrapping_add(draw.wrapping_mul(0x9e37_79b9_7f4a_7c15));
    let word = (word ^ (word >> 30)).wrapping_mul(0xbf58_476d_1ce4_e5b9);
    let word = (word ^ (word >> 27)).wrapping_mul(0x94d0_49bb_1331_11eb);
    word ^ (word >> 31)
}

/// One of the numbers below `count`, or 0 where there is none.
pub(crate) fn drawn_below(seed: u64, draw: u64, count: usize) -> usize {
    if count == 0 {
        return 0;
    }
    (drawn(seed, draw) % 65_536) as usize % count
}

/// The letters of base 32, in rising order.
const LETTERS: &[u8; 32] = b"0123456789abcdfghijklmnpqrsvwxyz";

/// 32 letters for a store path, twelve of each of the numbers but for the last. They are ordered as the first number.
pub(crate) fn letters_of(words: [u64; 3]) -> [u8; 32] {
    let mut letters = [0u8; 32];
    for (place, letter) in letters.iter_mut().enumerate() {
        *letter = letter_at(words, place);
    }
    letters
}

/// The letter at this place.
fn letter_at(words: [u64; 3], place: usize) -> u8 {
    let word = match place / 12 {
        0 => words[0],
        1 => words[1],
        _ => words[2],
    };
    let shift = 5 * (11 - (place % 12) as u32);
    LETTERS[((word >> shift) % 32) as usize]
}
