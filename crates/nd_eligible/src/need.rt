//! What a derivation needs of the machine that builds it.

ghost use Rattle.std.specs.Prelude.{◌≡◌, IfOk};

use nd_bytes::ByteString;
use nd_machines::FeatureSet;
use std::alloc::{AllocError, Global};

/// What a derivation needs of the machine that builds it.
#[derive(Debug, Drop)]
pub struct Need {
    /// The platform.
    pub system: ByteString,
    /// The required features.
    pub features: FeatureSet,
    /// Whether it is better built on the local machine.
    pub prefer_local: bool,
    /// Whether its builder is one of Nix's own (it begins with `builtin:`).
    pub builtin: bool,
}

impl Need {
    /// A copy that is equal to the original.
    pub fn try_clone(&self, alloc: Global) -> Result<Self, AllocError>
        ensures { IfOk result (λ need. need ≡ self.now) }
    {
        Ok(Need {
            system: self.system.try_clone()?,
            features: self.features.try_clone(alloc)?,
            prefer_local: self.prefer_local,
            builtin: self.builtin,
        })
    }
}
