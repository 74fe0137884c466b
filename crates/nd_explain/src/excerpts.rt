//! The beginning of a text, as it is shown.

ghost use Rattle.std.specs.Prelude.{◌≡◌, ◌++◌, ◌<◌, IfOk, OnOk};
ghost use Rattle.std.specs.String.{string_bytes};
ghost use Rattle.nd_explain.specs.Excerpts.{excerpt_of, shown_text, shown_byte, hex_digit};

use std::alloc::{AllocError, Global};

/// The most bytes of a text that are shown.
pub const MOST: usize = 200;

/// The first 200 bytes of a text, or all of it where it is shorter. A byte that is no printable ASCII
/// stands as `\x` and two hexadecimal digits, and a text that is cut short has `..` behind it.
pub fn excerpt(alloc: Global, text: &[u8]) -> Result<String, AllocError>
    ensures { IfOk result (λ s. string_bytes s ≡ excerpt_of text.now) }
{
    if text.len() <= MOST {
        return shown(alloc, text);
    }
    let (front, _) = text.split_at(MOST);
    let mut excerpt = shown(alloc, front)?;
    excerpt.push_str("..")?;
    Ok(excerpt)
}

/// A text with its other bytes than printable ASCII escaped.
fn shown(alloc: Global, text: &[u8]) -> Result<String, AllocError>
    ensures { IfOk result (λ s. string_bytes s ≡ shown_text text.now) }
{
    let mut line = String::new(alloc);
    for byte in text {
        put_byte(&mut line, *byte)?;
    }
    Ok(line)
}

/// Adds a byte as it is shown.
fn put_byte(line: &mut String, byte: u8) -> Result<(), AllocError>
    ensures { OnOk result (string_bytes line.new ≡ string_bytes line.old ++ shown_byte byte) }
{
    if byte >= b' ' && byte <= b'~' {
        return line.push(char::from(byte));
    }
    line.push_str("\\x")?;
    line.push(digit(byte / 16))?;
    line.push(digit(byte % 16))
}

/// The hexadecimal digit of a number below 16.
fn digit(value: u8) -> char
    requires { value < 16 }
    ensures { result ≡ hex_digit value }
{
    if value < 10 {
        char::from(b'0' + value)
    } else {
        char::from(b'a' + (value - 10))
    }
}
