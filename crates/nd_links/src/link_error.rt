//! Why the inputs of a line have no numbers.

ghost use Rattle.nd_links.specs.declared.link_error.LinkError.TheVariants.{Memory};

use crate::fault::GraphError;
use std::alloc::{AllocError, AllocFailed};

/// Why the inputs of a line have no numbers, the causes in the order in which they are looked for.
#[derive(Clone, Copy, Debug, PartialEq, Eq)]
pub(crate) enum LinkError {
    /// 1: an input derivation has no line.
    NoInput,
    /// 2: an input derivation has no output of a name that is wanted of it.
    NoOutput,
    /// No memory was to be had, at any point.
    Memory,
}

impl LinkError {
    ghost use Rattle.std.specs.Prelude.{◌≡◌};
    ghost use Rattle.nd_links.specs.Linking.{link_fault_at};

    /// The refusal of a bundle whose line with this number is refused so.
    pub(crate) fn at(self, line: usize) -> GraphError
        ensures { result ≡ link_fault_at self line }
    {
        match self {
            LinkError::NoInput => GraphError::MissingInput(line),
            LinkError::NoOutput => GraphError::MissingOutput(line),
            LinkError::Memory => GraphError::Memory,
        }
    }
}

impl From<AllocError> for LinkError {
    ghost use Rattle.std.specs.Prelude.{◌≡◌};

    ghost from_gives = { λ _ e. e ≡ Memory };

    fn from(_refused: AllocError) -> LinkError {
        LinkError::Memory
    }
}

impl<T: Drop> From<AllocFailed<T>> for LinkError {
    ghost use Rattle.std.specs.Prelude.{◌≡◌};

    ghost from_gives = { λ _ e. e ≡ Memory };

    fn from(_refused: AllocFailed<T>) -> LinkError {
        LinkError::Memory
    }
}
