//! What a session does to the outside.

use nd_bytes::ByteString;

/// What a session did to its input, its journal or its output.
#[derive(Debug, Drop)]
pub enum Event {
    /// A line of the input was read: its bytes without the newline.
    Heard(ByteString),
    /// The input was at its end.
    Ended,
    /// The input refused a read.
    Unheard,
    /// These bytes were appended to the journal; or it refused them, and a part of them, from their
    /// beginning, may be there.
    Appended { bytes: ByteString, done: bool },
    /// The journal made durable what it holds, or refused that.
    Synced { done: bool },
    /// These bytes were written to the output and passed on; or it refused them, and a part of them, from
    /// their beginning, may be out.
    Answered { bytes: ByteString, done: bool },
}
