//! What is printed of a value, and texts in parts.

use std::alloc::Global;
use std::fmt;

/// Whether a value is printed so. Want of memory is a no.
pub fn is_printed<T: fmt::Display>(alloc: Global, value: &T, text: &str) -> bool {
    match format!(in alloc; "{value}") {
        Ok(printed) => printed.as_str() == text,
        Err(_) => false,
    }
}

/// A text in parts, which is printed as these, one behind the other.
#[derive(Clone, Copy, Debug)]
pub struct Parts<'a>(pub &'a [&'a str]);

impl fmt::Display for Parts<'_> {
    fn fmt<W: fmt::Write>(&self, f: &mut fmt::Formatter<W>) -> fmt::Result {
        for part in self.0 {
            write!(f, "{part}")?;
        }
        Ok(())
    }
}
