//! Small types and readers that the crates above share: byte strings, lists that contracts see as
//! lists, the cutting of a text at a byte, and decimal numbers.
#![tactic(auto)]

mod byte_string;
mod cutting;
mod decimals;
mod items;

pub use byte_string::ByteString;
pub use cutting::cut;
pub use decimals::decimal;
pub use items::Items;
