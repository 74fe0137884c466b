//! The versions of history texts and the kinds of their lines.

/// The form of a history text.
#[derive(Clone, Copy, Debug, PartialEq, Eq)]
pub enum Version {
    /// The form without drained and enabled machines.
    First,
    /// The form with them.
    Second,
}

/// The kind of a line, which its first word says.
#[derive(Clone, Copy, Debug, PartialEq, Eq)]
pub enum Kind {
    /// `chosen`
    Choice,
    /// `nobuilder`
    NoChoice,
    /// `started`
    Start,
    /// `down`
    Return,
    /// `built`
    Finish,
    /// `failed`
    Failure,
    /// `stop`
    Halt,
    /// `drain`
    Drained,
    /// `enable`
    Enabled,
}
