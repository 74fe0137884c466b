//! The names of outputs, owned and shared.

ghost use Rattle.std.specs.Prelude.{◌≡◌, IfOk};
ghost use Rattle.std.proofs.Common.{rules};
ghost use Rattle.std.specs.Ordering.{as_partial_cmp};
ghost use Rattle.nd_bytes.specs.Compared.{bytes_eq, bytes_cmp, bytes_equal, bytes_partly_equal, bytes_ordered, bytes_partly_ordered, bytes_ties};

use std::alloc::{AllocError, Global};
use std::cmp::Ordering;
use std::marker::Model;
use std::sync::ArcSlice;

/// The name of an output. Contracts see the list of its bytes. Two are equal where their bytes are, and they
/// stand in the order of their bytes. All copies of one share its bytes.
#[derive(Drop)]
pub(crate) struct Name {
    bytes: ArcSlice<u8>,
}

impl Model for Name {
    ghost use Rattle.std.specs.Prelude.{ℕ, List};
    ghost use Rattle.std.specs.Arc.{arc_slice_items};

    ghost Value = { List ℕ };

    ghost view = { λ n. arc_slice_items n.bytes };
}

impl Name {
    /// The name with these bytes.
    pub(crate) fn from_slice(alloc: Global, bytes: &[u8]) -> Result<Name, AllocError>
        ensures { IfOk result (λ name. name ≡ bytes.now) }
    {
        Ok(Name {
            bytes: ArcSlice::from_slice(alloc, bytes)?,
        })
    }

    /// The bytes.
    pub(crate) fn as_slice(&self) -> &[u8]
        ensures { result.now ≡ self.now }
    {
        self.bytes.as_slice()
    }

    /// A copy that is equal to the original. It shares the bytes and takes no memory.
    pub(crate) fn try_clone(&self) -> Result<Name, AllocError>
        ensures { IfOk result (λ copy. copy ≡ self.now) }
    {
        Ok(Name {
            bytes: self.bytes.clone()?,
        })
    }
}

impl PartialEq for Name {
    ghost eq = { bytes_eq };

    ghost laws = { bytes_partly_equal };

    fn eq(&self, other: &Name) -> bool {
        self.as_slice() == other.as_slice()
    }
}

impl Eq for Name {
    ghost laws = { bytes_equal };
}

impl PartialOrd for Name {
    ghost partial_cmp = { as_partial_cmp bytes_cmp };

    ghost laws = { bytes_partly_ordered };

    fn partial_cmp(&self, other: &Name) -> Option<Ordering> {
        Some(self.cmp(other))
    }
}

impl Ord for Name {
    ghost cmp = { bytes_cmp };

    ghost total = { bytes_ordered };

    ghost matches_partial_cmp = { Prim.search rules };

    ghost matches_eq = { bytes_ties };

    fn cmp(&self, other: &Name) -> Ordering {
        self.as_slice().cmp(other.as_slice())
    }
}
