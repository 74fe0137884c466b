//! What a session begins with, and a run with a journal.

ghost use Rattle.std.specs.Prelude.{◌≡◌, length};

use nd_ledger::Dispatch;

/// What a session or a run begins with, once all of it is accepted.
#[derive(Drop)]
pub struct Opened {
    /// The derivations and the park, with the history of the journal.
    pub dispatch: Dispatch,
    /// How many bytes of the journal are gone on from: its whole lines. A file is to be cut to these, and
    /// what stays made durable, before the session or the run begins.
    pub kept: usize,
    pub ghost begun: { kept ≡ 0 → length dispatch.history ≡ 0 },
}
