//! What a worker keeps of each entry that it made.

use nd_closure::Refs;
use nd_path::PathSet;

/// The kind of an entry that a worker makes.
#[derive(Clone, Copy, Debug, PartialEq, Eq)]
pub enum Kind {
    /// A build started.
    Started,
    /// A lease was given back.
    Down,
    /// A build ended with its outputs.
    Built,
    /// A lease ended without outputs.
    Failed,
}

/// A worker's word on an entry that it made.
#[derive(Drop, Debug)]
pub struct Receipt {
    /// The entry's place in the history, from 0.
    pub index: usize,
    /// The entry's kind.
    pub kind: Kind,
    /// How many calls of the transport were made since the worker's last receipt.
    pub calls: u8,
    /// The paths of a copy among these calls that the entry doesn't hold.
    pub paths: PathSet,
    /// The references that a build among these calls reported and may not have, where the entry is the failure
    /// that says so.
    pub refs: Refs,
    /// Whether the lease was started before the run: the entry is its end then, behind a build that was asked
    /// for again.
    pub again: bool,
}

/// What a worker did for an entry since its last receipt.
#[derive(Drop, Debug)]
pub struct Behind {
    /// How many calls of the transport it made.
    pub calls: u8,
    /// The paths of a copy among these calls that the entry doesn't hold.
    pub paths: PathSet,
    /// Whether the lease was started before the run.
    pub again: bool,
}
