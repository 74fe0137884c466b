//! What a line of a session asks for.

use nd_script::Command;

/// What a line of a session asks for. Derivations are numbered from 0 in the order of the bundle.
#[derive(Debug, Drop)]
pub enum Request {
    /// A command of a script.
    Call(Command),
    /// `job D`: where the derivation's lease is, and what its machine lacks. Nothing changes.
    Job { drv: u32 },
    /// `report`: how the dispatch stands. Nothing changes.
    Report,
    /// A line that is none of these. Nothing changes.
    Unknown,
}
