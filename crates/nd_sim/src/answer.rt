//! What a command of a script comes to.

use nd_hook::Reply;
use nd_ledger::Refusal;

/// What a command came to.
#[derive(Clone, Copy, Debug)]
pub enum Answer {
    /// An entry was added to the history: its last one.
    Added,
    /// The call was refused, and nothing changed.
    Refused(Refusal),
    /// The hook's reply that was asked for. Nothing changed.
    Replied(Reply),
}
