//! Why nodes have no order.

use std::alloc::{AllocError, AllocFailed};
use std::error::Error;
use std::fmt::{self, Display, Formatter, Write};

/// Why nodes have no order in which each stands after its inputs.
#[derive(Clone, Copy, Debug, PartialEq, Eq)]
pub enum OrderError {
    /// A node needs itself, directly or through others.
    Cycle,
    /// There was not enough memory.
    Memory,
}

impl From<AllocError> for OrderError {
    ghost use Rattle.std.specs.Prelude.{◌≡◌};
    ghost use Rattle.nd_graph.specs.declared.fault.OrderError.TheVariants.{Memory};

    ghost from_gives = { λ _ e. e ≡ Memory };

    fn from(_refused: AllocError) -> OrderError {
        OrderError::Memory
    }
}

impl<T: Drop> From<AllocFailed<T>> for OrderError {
    ghost use Rattle.std.specs.Prelude.{◌≡◌};
    ghost use Rattle.nd_graph.specs.declared.fault.OrderError.TheVariants.{Memory};

    ghost from_gives = { λ _ e. e ≡ Memory };

    fn from(_refused: AllocFailed<T>) -> OrderError {
        OrderError::Memory
    }
}

impl Display for OrderError {
    ghost use Rattle.std.specs.Prelude.{Some};
    ghost use Rattle.nd_graph.specs.Names.{order_error_name};

    ghost output = { λ e. Some (order_error_name e) };

    fn fmt<W: Write>(&self, f: &mut Formatter<W>) -> fmt::Result {
        f.write_str(match self {
            OrderError::Cycle => "Cycle",
            OrderError::Memory => "Memory",
        })
    }
}

impl Error for OrderError {}
