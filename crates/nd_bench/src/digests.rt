//! Digests of what is answered.

/// What a digest begins with.
pub(crate) const BEGIN: u64 = 0xcbf2_9ce4_8422_2325;

/// A digest, gone on with by a text: FNV-1a (Fowler, Noll and Vo).
pub(crate) fn digest(before: u64, text: &[u8]) -> u64 {
    let mut digest = before;
    for byte in text {
        digest = (digest ^ u64::from(*byte)).wrapping_mul(0x0100_0000_01b3);
    }
    digest
}

/// A digest, gone on with by a number.
pub(crate) fn joined(before: u64, number: u64) -> u64 {
    (before ^ number)
        .wrapping_mul(0x0100_0000_01b3)
        .rotate_left(29)
}
