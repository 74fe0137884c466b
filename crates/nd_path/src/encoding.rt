//! Nix's base 32, and the folding of a digest.

ghost use Rattle.std.specs.Prelude.{◌≡◌, ◌+◌, ◌*◌, ◌<◌, true};
ghost use Rattle.std.specs.List.{list_all};
ghost use Rattle.nd_path.specs.StorePath.{is_digest_byte};
ghost use Rattle.nd_path.specs.Encoding.{bit_of, five_bits_of, character_of, base32_of, folded_byte_of, fold_of};

/// The digits of base 32 by their values.
const ALPHABET: &[u8; 32] = b"0123456789abcdfghijklmnpqrsvwxyz";

/// The 20 bytes in Nix's base 32 (Nix Reference Manual, "Nix32 encoding"). Character k, counted from
/// the right from 0, is the digit of the five bits that begin at bit 5 k, bit 0 being the lowest bit
/// of byte 0. It takes no memory.
pub fn base32(bytes: &[u8; 20]) -> [u8; 32]
    ensures value { result ≡ base32_of bytes.now }
    ensures digits { list_all is_digest_byte result ≡ true }
{
    let mut text = [0; 32];
    for i in 0..32 {
        text[i] = character(bytes, 31 - i);
    }
    text
}

/// The digest folded to 20 bytes: each byte is xored into the place that its number leaves divided
/// by 20 (Nix Reference Manual, "Store Path Specification"). It takes no memory.
pub fn fold(digest: &[u8; 32]) -> [u8; 20]
    ensures { result ≡ fold_of digest.now }
{
    let mut folded = [0; 20];
    for j in 0..20 {
        folded[j] = folded_byte(digest, j);
    }
    folded
}

/// Character `k` of the bytes in base 32, counted from the right from 0.
#[tactic(auto, unfolding(crate::specs::Encoding::character_of))]
fn character(bytes: &[u8; 20], k: usize) -> u8
    requires { k < 32 }
    ensures { result ≡ character_of bytes.now k }
{
    ALPHABET[five_bits(bytes, 5 * k)]
}

/// The number in the five bits that begin at bit `n`.
fn five_bits(bytes: &[u8; 20], n: usize) -> usize
    requires { n + 4 < 160 }
    ensures value { result ≡ five_bits_of bytes.now n }
    ensures small { result < 32 }
{
    bit(bytes, n)
        + 2 * bit(bytes, n + 1)
        + 4 * bit(bytes, n + 2)
        + 8 * bit(bytes, n + 3)
        + 16 * bit(bytes, n + 4)
}

/// Bit `n` of the bytes, 0 or 1.
fn bit(bytes: &[u8; 20], n: usize) -> usize
    requires { n < 160 }
    ensures value { result ≡ bit_of bytes.now n }
    ensures small { result < 2 }
{
    ((bytes[n / 8] >> (n % 8)) & 1) as usize
}

/// The byte at place `j` of the folded digest.
#[tactic(auto, using(crate::proofs::Digits::folded_two, crate::proofs::Digits::folded_one))]
fn folded_byte(digest: &[u8; 32], j: usize) -> u8
    requires { j < 20 }
    ensures { result ≡ folded_byte_of digest.now j }
{
    if j < 12 {
        digest[j] ^ digest[j + 20]
    } else {
        digest[j]
    }
}
