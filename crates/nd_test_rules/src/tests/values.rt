//! What the examples of several crates start from, and what they ask of it.

use nd_bytes::ByteString;
use nd_eligible::{Need, words};
use nd_machines::{FeatureSet, Machine, MachineError, parse_builders};
use std::alloc::{AllocError, Global};
use std::fmt;

/// The machines of a builders list, on an `x86_64-linux` machine.
pub(crate) fn machines_of(alloc: Global, text: &[u8]) -> Result<Vec<Machine>, MachineError> {
    parse_builders(alloc, text, b"x86_64-linux")
}

/// The last machine of a list.
pub(crate) fn last_machine(alloc: Global, text: &[u8]) -> Option<Machine> {
    match machines_of(alloc, text) {
        Ok(mut machines) => {
            let last = machines.pop();
            drop(machines);
            last
        }
        Err(_) => None,
    }
}

/// A need for this platform and these features.
pub(crate) fn need_of(alloc: Global, system: &[u8], features: &[u8]) -> Result<Need, AllocError> {
    let features = words(alloc, features)?;
    match ByteString::from_slice(alloc, system) {
        Ok(system) => Ok(Need {
            system,
            features,
            prefer_local: false,
            builtin: false,
        }),
        Err(refused) => {
            drop(features);
            Err(refused)
        }
    }
}

/// The need of a plain `x86_64-linux` derivation.
pub(crate) fn plain_need(alloc: Global) -> Result<Need, AllocError> {
    need_of(alloc, b"x86_64-linux", b"")
}

/// Whether a set has just the items of a list. Want of memory is a no.
pub(crate) fn is_listed(alloc: Global, set: &FeatureSet, list: &[u8]) -> bool {
    match FeatureSet::from_list(alloc, list) {
        Ok(listed) => {
            let is_so = *set == listed;
            drop(listed);
            is_so
        }
        Err(_) => false,
    }
}

/// Whether a value is printed so. Want of memory is a no.
pub(crate) fn is_printed<T: fmt::Display>(alloc: Global, value: &T, text: &str) -> bool {
    match format!(in alloc; "{value}") {
        Ok(printed) => {
            let is_so = printed.as_str() == text;
            drop(printed);
            is_so
        }
        Err(_) => false,
    }
}
