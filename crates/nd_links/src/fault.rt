//! Why a bundle is no graph.

ghost use Rattle.std.specs.Prelude.{◌≡◌};
ghost use Rattle.nd_links.specs.declared.fault.GraphError.TheVariants.{Memory};

use nd_graph::OrderError;
use nd_line::LineError;
use std::alloc::{AllocError, AllocFailed};
use std::error::Error;
use std::fmt;

/// Why a bundle is no graph (this project's own list, in the order in which the refusals are
/// looked for: those of a single line on the first line that has one, then those over the whole).
/// A number is that of the line, from 1.
#[derive(Clone, Copy, Debug, PartialEq, Eq)]
pub enum GraphError {
    /// 1: the line is empty or has no space.
    BadLine(usize),
    /// 2: what stands before the line's first space is no store path that ends in `.drv`.
    BadPath(usize),
    /// 3: the rest of the line is no derivation text, or a path in it is none of its kind.
    BadDerivation(usize),
    /// 4: an output has the empty path, so it is not known before the build.
    UnknownOutput(usize),
    /// 5: the structured attributes can't be read.
    BadAttribute(usize),
    /// 6: the line's path is not the one that its name and text have.
    WrongPath(usize),
    /// 7: the first line whose path an earlier line has too.
    Duplicate(usize),
    /// 8: the first line with an input derivation that has no line.
    MissingInput(usize),
    /// 9: the first line that names an output that its input derivation doesn't have.
    MissingOutput(usize),
    /// 10: a derivation needs itself, directly or through others.
    Cycle,
    /// 11: there are more than 65,536 lines.
    TooMany,
    /// 12: there was not enough memory.
    Memory,
}

impl GraphError {
    ghost use Rattle.nd_links.specs.Numbered.{fault_at};

    /// The refusal of a bundle whose line with this number is refused so.
    pub fn of_line(refusal: LineError, line: usize) -> GraphError
        ensures { result ≡ fault_at refusal line }
    {
        match refusal {
            LineError::BadLine => GraphError::BadLine(line),
            LineError::BadPath => GraphError::BadPath(line),
            LineError::BadDerivation => GraphError::BadDerivation(line),
            LineError::UnknownOutput => GraphError::UnknownOutput(line),
            LineError::BadAttribute => GraphError::BadAttribute(line),
            LineError::WrongPath => GraphError::WrongPath(line),
            LineError::Memory => GraphError::Memory,
        }
    }
}

impl fmt::Display for GraphError {
    ghost use Rattle.std.specs.Prelude.{Some};
    ghost use Rattle.nd_links.specs.Names.{refusal_text};

    ghost output = { λ e. Some (refusal_text e) };

    fn fmt<W: fmt::Write>(&self, f: &mut fmt::Formatter<W>) -> fmt::Result {
        match self {
            GraphError::BadLine(line) => write!(f, "BadLine {line}"),
            GraphError::BadPath(line) => write!(f, "BadPath {line}"),
            GraphError::BadDerivation(line) => write!(f, "BadDerivation {line}"),
            GraphError::UnknownOutput(line) => write!(f, "UnknownOutput {line}"),
            GraphError::BadAttribute(line) => write!(f, "BadAttribute {line}"),
            GraphError::WrongPath(line) => write!(f, "WrongPath {line}"),
            GraphError::Duplicate(line) => write!(f, "Duplicate {line}"),
            GraphError::MissingInput(line) => write!(f, "MissingInput {line}"),
            GraphError::MissingOutput(line) => write!(f, "MissingOutput {line}"),
            GraphError::Cycle => write!(f, "Cycle"),
            GraphError::TooMany => write!(f, "TooMany"),
            GraphError::Memory => write!(f, "Memory"),
        }
    }
}

impl Error for GraphError {}

impl From<AllocError> for GraphError {
    ghost from_gives = { λ _ e. e ≡ Memory };

    fn from(_e: AllocError) -> GraphError {
        GraphError::Memory
    }
}

impl<T: Drop> From<AllocFailed<T>> for GraphError {
    ghost from_gives = { λ _ e. e ≡ Memory };

    fn from(_e: AllocFailed<T>) -> GraphError {
        GraphError::Memory
    }
}

impl From<OrderError> for GraphError {
    ghost use Rattle.nd_links.specs.Numbered.{of_order};

    ghost from_gives = { λ fault e. e ≡ of_order fault };

    fn from(fault: OrderError) -> GraphError {
        match fault {
            OrderError::Cycle => GraphError::Cycle,
            OrderError::Memory => GraphError::Memory,
        }
    }
}
