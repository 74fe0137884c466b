//! What a text that was not read or not written is refused for.

ghost use Rattle.std.specs.Prelude.{◌≡◌};

use std::alloc::AllocError;
use std::error::Error;
use std::fmt;

/// A device refused a read or a write. It says no more: the device's own error is let go.
#[derive(Clone, Copy, Debug, PartialEq, Eq)]
pub struct Fault;

impl fmt::Display for Fault {
    ghost use Rattle.std.specs.Prelude.{Some, codes};

    ghost output = { λ _. Some (codes "Fault") };

    fn fmt<W: fmt::Write>(&self, f: &mut fmt::Formatter<W>) -> fmt::Result {
        f.write_str("Fault")
    }
}

impl Error for Fault {}

/// Why a whole input wasn't read.
#[derive(Clone, Copy, Debug, PartialEq, Eq)]
pub enum TakeError {
    /// 1: the device refused a read.
    Fault,
    /// 2: there was no memory for the bytes.
    Memory,
}

impl fmt::Display for TakeError {
    ghost use Rattle.std.specs.Prelude.{Some};
    ghost use Rattle.nd_devices.specs.Device.{take_error_name};

    ghost output = { λ e. Some (take_error_name e) };

    fn fmt<W: fmt::Write>(&self, f: &mut fmt::Formatter<W>) -> fmt::Result {
        match self {
            TakeError::Fault => f.write_str("Fault"),
            TakeError::Memory => f.write_str("Memory"),
        }
    }
}

impl Error for TakeError {}

impl From<Fault> for TakeError {
    ghost use Rattle.nd_devices.specs.declared.refusals.TakeError.{TakeError};

    ghost from_gives = { λ _ e. e ≡ TakeError.Fault };

    fn from(_fault: Fault) -> Self {
        TakeError::Fault
    }
}

impl From<AllocError> for TakeError {
    ghost use Rattle.nd_devices.specs.declared.refusals.TakeError.{TakeError};

    ghost from_gives = { λ _ e. e ≡ TakeError.Memory };

    fn from(_refused: AllocError) -> Self {
        TakeError::Memory
    }
}

/// Why a text wasn't written.
#[derive(Clone, Copy, Debug, PartialEq, Eq)]
pub enum WriteError {
    /// 1: the device refused a write. A part of the text may be out.
    Write,
}

impl fmt::Display for WriteError {
    ghost use Rattle.std.specs.Prelude.{Some, codes};

    ghost output = { λ _. Some (codes "Write") };

    fn fmt<W: fmt::Write>(&self, f: &mut fmt::Formatter<W>) -> fmt::Result {
        f.write_str("Write")
    }
}

impl Error for WriteError {}

impl From<Fault> for WriteError {
    ghost use Rattle.nd_devices.specs.declared.refusals.WriteError.{WriteError};

    ghost from_gives = { λ _ e. e ≡ WriteError.Write };

    fn from(_fault: Fault) -> Self {
        WriteError::Write
    }
}
