//! Refusals of an audit.

ghost use Rattle.std.specs.Prelude.{◌≡◌};

use nd_history::Rule;
use std::alloc::{AllocError, AllocFailed};
use std::error::Error;
use std::fmt;

/// Why a history was not found legal.
#[derive(Clone, Copy, Debug, PartialEq, Eq)]
pub enum AuditError {
    /// 1: the entry at this place, from 0, is not allowed after those before it, and this is the first
    /// rule that refuses it. It is the first such entry.
    Illegal { index: usize, rule: Rule },
    /// 2: an allocation was refused.
    Memory,
}

impl fmt::Display for AuditError {
    ghost use Rattle.std.specs.Prelude.{Some};
    ghost use Rattle.nd_report.specs.Names.{refusal_text};

    ghost output = { λ e. Some (refusal_text e) };

    fn fmt<W: fmt::Write>(&self, f: &mut fmt::Formatter<W>) -> fmt::Result {
        match self {
            AuditError::Illegal { index, rule } => write!(f, "Illegal {index} {rule}"),
            AuditError::Memory => write!(f, "Memory"),
        }
    }
}

impl Error for AuditError {}

impl From<AllocError> for AuditError {
    ghost use Rattle.nd_report.specs.declared.audit_error.AuditError.{AuditError};

    ghost from_gives = { λ _ e. e ≡ AuditError.Memory };

    fn from(_error: AllocError) -> AuditError {
        AuditError::Memory
    }
}

impl<T: Drop> From<AllocFailed<T>> for AuditError {
    ghost use Rattle.nd_report.specs.declared.audit_error.AuditError.{AuditError};

    ghost from_gives = { λ _ e. e ≡ AuditError.Memory };

    fn from(_error: AllocFailed<T>) -> AuditError {
        AuditError::Memory
    }
}
