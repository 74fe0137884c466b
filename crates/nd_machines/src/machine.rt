//! A machine of the builders list.

ghost use Rattle.std.specs.Prelude.{◌≡◌, ◌≤◌, ◌^◌, IfOk};
ghost use Rattle.std.specs.Option.{option_copied};
ghost use Rattle.nd_machines.specs.Builders.{builder_eq, builder_equal, builder_partly_equal};

use crate::feature_set::FeatureSet;
use nd_bytes::ByteString;
use std::alloc::{AllocError, Global};
use std::marker::Model;

/// A machine that derivations can be built on. Contracts see the record of its fields.
#[derive(Debug, Drop)]
pub struct Machine {
    pub(crate) uri: ByteString,
    pub(crate) systems: FeatureSet,
    pub(crate) key: Option<ByteString>,
    pub(crate) jobs: u32,
    pub(crate) speed: u64,
    pub(crate) supported: FeatureSet,
    pub(crate) mandatory: FeatureSet,
    pub(crate) host_key: Option<ByteString>,
}

impl Model for Machine {
    ghost use Rattle.std.specs.Prelude.{◌≤◌, ◌^◌};
    ghost use Rattle.nd_machines.specs.Builders.{Builder};

    ghost Value = { Builder };

    ghost view = { λ m. record {
      uri = m.uri;
      systems = m.systems;
      key = m.key;
      jobs = m.jobs;
      speed = m.speed;
      supported = m.supported;
      mandatory = m.mandatory;
      host_key = m.host_key;
    } };

    ghost invariant = { λ m. (m.jobs ≤ 65535) × (1 ≤ m.speed) × (m.speed ≤ 10 ^ 12) };
}

impl Machine {
    /// The URI of the store that the machine is reached by.
    pub fn uri(&self) -> &[u8]
        ensures { result.now ≡ self.now.uri }
    {
        self.uri.as_slice()
    }

    /// The systems that the machine builds for.
    pub fn systems(&self) -> &FeatureSet
        ensures { result.now ≡ self.now.systems }
    {
        &self.systems
    }

    /// The file of the key to log in with, if one is named.
    pub fn key(&self) -> Option<&[u8]>
        ensures { option_copied result ≡ self.now.key }
    {
        match &self.key {
            Some(key) => Some(key.as_slice()),
            None => None,
        }
    }

    /// How many builds may run on the machine at once, at most 65,535.
    pub fn jobs(&self) -> u32
        ensures value { result ≡ self.now.jobs }
        ensures at_most { result ≤ 65535 }
    {
        self.jobs
    }

    /// The speed factor in millionths: at least 1, and at most 10^12.
    pub fn speed(&self) -> u64
        ensures value { result ≡ self.now.speed }
        ensures at_least { 1 ≤ result }
        ensures at_most { result ≤ 10 ^ 12 }
    {
        self.speed
    }

    /// The features that the machine supports.
    pub fn supported(&self) -> &FeatureSet
        ensures { result.now ≡ self.now.supported }
    {
        &self.supported
    }

    /// The features that a derivation must require to be built on the machine.
    pub fn mandatory(&self) -> &FeatureSet
        ensures { result.now ≡ self.now.mandatory }
    {
        &self.mandatory
    }

    /// The host key of the machine as it stands in the list, if one is named. It is kept unread.
    pub fn host_key(&self) -> Option<&[u8]>
        ensures { option_copied result ≡ self.now.host_key }
    {
        match &self.host_key {
            Some(host_key) => Some(host_key.as_slice()),
            None => None,
        }
    }

    /// A copy that is equal to the original.
    pub fn try_clone(&self, alloc: Global) -> Result<Self, AllocError>
        ensures { IfOk result (λ m. m ≡ self.now) }
    {
        Ok(Machine {
            uri: self.uri.try_clone()?,
            systems: self.systems.try_clone(alloc)?,
            key: copy_of(&self.key)?,
            jobs: self.jobs,
            speed: self.speed,
            supported: self.supported.try_clone(alloc)?,
            mandatory: self.mandatory.try_clone(alloc)?,
            host_key: copy_of(&self.host_key)?,
        })
    }
}

impl PartialEq for Machine {
    ghost eq = { builder_eq };

    ghost laws = { builder_partly_equal };

    fn eq(&self, other: &Machine) -> bool {
        self.uri == other.uri
            && self.systems == other.systems
            && self.key == other.key
            && self.jobs == other.jobs
            && self.speed == other.speed
            && self.supported == other.supported
            && self.mandatory == other.mandatory
            && self.host_key == other.host_key
    }
}

impl Eq for Machine {
    ghost laws = { builder_equal };
}

/// A copy that is equal to the original.
fn copy_of(bytes: &Option<ByteString>) -> Result<Option<ByteString>, AllocError>
    ensures { IfOk result (λ copy. copy ≡ bytes.now) }
{
    match bytes {
        Some(bytes) => Ok(Some(bytes.try_clone()?)),
        None => Ok(None),
    }
}
