//! Decimal numbers as they stand in texts.

ghost use Rattle.std.specs.Prelude.{◌≡◌};
ghost use Rattle.nd_bytes.specs.Decimal.{decimal_of};

/// The value of `bytes`, one or more ASCII digits, where it is at most `limit`. `None` where there is
/// no byte, a byte that is no digit, or a value above `limit`. Leading zeros are taken.
pub fn decimal(bytes: &[u8], limit: u32) -> Option<u32>
    ensures { result ≡ decimal_of limit bytes.now }
{
    if bytes.is_empty() {
        return None;
    }
    let mut value = 0u64;
    for byte in bytes {
        if *byte < b'0' || *byte > b'9' {
            return None;
        }
        value = value * 10 + u64::from(*byte - b'0');
        if value > u64::from(limit) {
            return None;
        }
    }
    Some(value as u32)
}
