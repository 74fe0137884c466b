//! The settings of the local machine.

ghost use Rattle.std.specs.Prelude.{◌≡◌, ◌≤◌, ◌<◌, IfOk, MatchOption};

use nd_bytes::ByteString;
use nd_machines::FeatureSet;
use std::alloc::{AllocError, Global};
use std::marker::Model;

/// The settings of the local machine. Contracts see the record of them.
#[derive(Debug, Drop)]
pub struct Local {
    system: ByteString,
    extra: FeatureSet,
    features: FeatureSet,
    jobs: u32,
}

impl Model for Local {
    ghost use Rattle.std.specs.Prelude.{◌≤◌};
    ghost use Rattle.nd_eligible.specs.Settings.{Settings};

    ghost Value = { Settings };

    ghost view = { λ l. record {
      system = l.system;
      extra = l.extra;
      features = l.features;
      jobs = l.jobs;
    } };

    ghost invariant = { λ l. l.jobs ≤ 65535 };
}

impl Local {
    ghost use Rattle.nd_eligible.specs.Settings.{Settings};

    /// The most builds that a machine may run at once.
    pub const MOST_JOBS: u32 = 65_535;

    /// The settings: the local system, the extra platforms that it builds for, its features, and
    /// how many builds may run at once. `None` where these are more than 65,535. It takes no
    /// memory.
    pub fn new(
        system: ByteString,
        extra: FeatureSet,
        features: FeatureSet,
        jobs: u32,
    ) -> Option<Self>
        ensures { MatchOption result (65535 < jobs) (λ local. (jobs ≤ 65535)
            × (local ≡ record { system = system; extra = extra; features = features; jobs = jobs })) }
    {
        if jobs > Self::MOST_JOBS {
            return None;
        }
        Some(Local {
            system,
            extra,
            features,
            jobs,
        })
    }

    /// The local system.
    pub fn system(&self) -> &[u8]
        ensures { result.now ≡ self.now.system }
    {
        self.system.as_slice()
    }

    /// The platforms beside its own that the machine builds for.
    pub fn extra(&self) -> &FeatureSet
        ensures { result.now ≡ self.now.extra }
    {
        &self.extra
    }

    /// The features of the local machine.
    pub fn features(&self) -> &FeatureSet
        ensures { result.now ≡ self.now.features }
    {
        &self.features
    }

    /// How many builds may run on the local machine at once, at most 65,535.
    pub fn jobs(&self) -> u32
        ensures value { result ≡ self.now.jobs }
        ensures at_most { result ≤ 65535 }
    {
        self.jobs
    }

    /// A copy that is equal to the original.
    pub fn try_clone(&self, alloc: Global) -> Result<Self, AllocError>
        ensures { IfOk result (λ local. local ≡ self.now) }
    {
        Ok(Local {
            system: self.system.try_clone()?,
            extra: self.extra.try_clone(alloc)?,
            features: self.features.try_clone(alloc)?,
            jobs: self.jobs,
        })
    }
}
