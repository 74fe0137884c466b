//! The replies of the hook, and the decisions about a derivation.

/// What the hook replies about a derivation.
#[derive(Clone, Copy, Debug, PartialEq, Eq)]
pub enum Reply {
    /// The machine at this place of the list, from 0, builds it.
    Accept(usize),
    /// A machine that may build it is up but none is free, and no local slot is free for it
    /// either: ask again.
    Postpone,
    /// No machine of the list builds it now.
    Decline,
    /// There is no machine in the list.
    DeclinePermanently,
}

/// What is done with a derivation that can be built now.
#[derive(Clone, Copy, Debug, PartialEq, Eq)]
pub enum Decision {
    /// It is built on the local machine.
    Local,
    /// It is built on the machine at this place of the list, from 0.
    Remote(usize),
    /// It waits for a slot.
    Wait,
    /// No machine builds it.
    NoBuilder,
}
