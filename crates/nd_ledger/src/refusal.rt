//! Refusals of calls.

ghost use Rattle.std.specs.Prelude.{◌≡◌};
ghost use Rattle.nd_ledger.specs.declared.refusal.Refusal.TheVariants.{Memory};
ghost use Rattle.nd_ledger.specs.declared.refusal.AdmitError.TheVariants.{Memory as NoMemory};
ghost use Rattle.nd_ledger.specs.Admitting.{admit_error_for};

use nd_history::Rule;
use std::alloc::AllocError;
use std::error::Error;
use std::fmt;

/// Why a call was refused, in the order in which the causes are looked for.
#[derive(Clone, Copy, Debug, PartialEq, Eq)]
pub enum Refusal {
    /// 1: the ticket is not a live lease's.
    NotLive,
    /// 2: the lease was started already.
    AlreadyStarted,
    /// 3: the lease was not started.
    NotStarted,
    /// 4: a path of the derivation's closure is neither held by the machine nor among those copied.
    Uncovered,
    /// 5: a copied path lies outside of the derivation's closure.
    Extra,
    /// 6: the number of lists is not that of the outputs, or a reference is neither in the closure nor
    /// an output.
    BadReferences,
    /// 7: a stop was asked for before.
    AlreadyStopped,
    /// 8: an allocation was refused.
    Memory,
}

impl fmt::Display for Refusal {
    ghost use Rattle.std.specs.Prelude.{Some};
    ghost use Rattle.nd_ledger.specs.Names.{refusal_name};

    ghost output = { λ e. Some (refusal_name e) };

    fn fmt<W: fmt::Write>(&self, f: &mut fmt::Formatter<W>) -> fmt::Result {
        f.write_str(match self {
            Refusal::NotLive => "NotLive",
            Refusal::AlreadyStarted => "AlreadyStarted",
            Refusal::NotStarted => "NotStarted",
            Refusal::Uncovered => "Uncovered",
            Refusal::Extra => "Extra",
            Refusal::BadReferences => "BadReferences",
            Refusal::AlreadyStopped => "AlreadyStopped",
            Refusal::Memory => "Memory",
        })
    }
}

impl Error for Refusal {}

impl From<AllocError> for Refusal {
    ghost from_gives = { λ _ e. e ≡ Memory };

    fn from(_error: AllocError) -> Refusal {
        Refusal::Memory
    }
}

/// A refusal with what was handed in.
#[derive(Debug, Drop)]
pub struct Refused<T> {
    /// Why the call was refused.
    pub why: Refusal,
    /// What was handed in.
    pub value: T,
}

/// Why an entry was not admitted.
#[derive(Clone, Copy, Debug, PartialEq, Eq)]
pub enum AdmitError {
    /// 1: the entry is not legal there, and this is the first rule that refuses it.
    Illegal(Rule),
    /// 2: an allocation was refused.
    Memory,
}

impl fmt::Display for AdmitError {
    ghost use Rattle.std.specs.Prelude.{Some};
    ghost use Rattle.nd_ledger.specs.Names.{admit_text};

    ghost output = { λ e. Some (admit_text e) };

    fn fmt<W: fmt::Write>(&self, f: &mut fmt::Formatter<W>) -> fmt::Result {
        match self {
            AdmitError::Illegal(rule) => write!(f, "Illegal {rule}"),
            AdmitError::Memory => f.write_str("Memory"),
        }
    }
}

impl Error for AdmitError {}

impl From<AllocError> for AdmitError {
    ghost from_gives = { λ _ e. e ≡ NoMemory };

    fn from(_error: AllocError) -> AdmitError {
        AdmitError::Memory
    }
}

/// The answer to an entry that is legal but for a call's refusal.
pub fn admit_error(refusal: Refusal) -> AdmitError
    ensures { result ≡ admit_error_for refusal }
{
    match refusal {
        Refusal::NotLive => AdmitError::Illegal(Rule::Live),
        Refusal::AlreadyStarted => AdmitError::Illegal(Rule::Started),
        Refusal::NotStarted => AdmitError::Illegal(Rule::Started),
        Refusal::Uncovered => AdmitError::Illegal(Rule::Paths),
        Refusal::Extra => AdmitError::Illegal(Rule::Paths),
        Refusal::BadReferences => AdmitError::Illegal(Rule::References),
        Refusal::AlreadyStopped => AdmitError::Illegal(Rule::Stopped),
        Refusal::Memory => AdmitError::Memory,
    }
}
