//! What comes of a run with a journal.

use nd_serve_command::ServeFault;

/// What came of a run with a journal.
#[derive(Drop)]
pub struct KeptEnd<J> {
    /// The status, or why there is none.
    pub answer: Result<u8, ServeFault>,
    /// The journal, as the run left it.
    pub journal: J,
}
