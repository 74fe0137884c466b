//! Numbers that look random.

/// A linear congruential generator (Knuth, The Art of Computer Programming, volume 2, section 3.2.1), with the multiplier
/// and the increment of his MMIX.
#[derive(Drop)]
pub(crate) struct Draws {
    word: u64,
}

impl Draws {
    /// The numbers of this seed.
    pub(crate) fn new(seed: u64) -> Draws {
        Draws { word: seed }
    }

    /// The next number below `count`; 0 where there is none. It is of the upper half of the word, whose lower bits
    /// repeat early.
    pub(crate) fn below(&mut self, count: u32) -> u32 {
        let next = self.word.wrapping_mul(6_364_136_223_846_793_005);
        self.word = next.wrapping_add(1_442_695_040_888_963_407);
        if count == 0 {
            return 0;
        }
        ((self.word >> 32) % 65_536) as u32 % count
    }

    /// The next number from 1 to `most`.
    pub(crate) fn up_to(&mut self, most: u32) -> u32 {
        self.below(most).saturating_add(1)
    }
}
