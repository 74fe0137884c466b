//! Reading one line of a bundle: the path of a derivation, a space, and the derivation's text.
#![tactic(auto)]

mod attributes;
mod derived;
mod kinds;
pub mod laws;
mod line;
mod reading;
mod refusal;
mod structured;

pub use derived::path_of_text;
pub use line::{InputView, LineNode, LineView, NamedInput};
pub use reading::read_line;
pub use refusal::LineError;
