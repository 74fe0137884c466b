//! Why a command with a journal ends early, and the line that the program then writes on standard error.

ghost use Rattle.std.specs.Prelude.{◌≡◌};
ghost use Rattle.nd_serve_command.specs.Faults.{fault_status, fault_of, fault_of_journal};

use crate::resume_error::ResumeError;
use nd_cli::CliFault;
use nd_desk::SessionFault;
use thiserror::Error;

/// Why `serve`, `report` or a run with a journal gave no status. `Display` writes the fault's line, without its
/// newline.
#[derive(Debug, Drop, Error)]
pub enum ServeFault {
    /// As of the other commands: the bundle or the park is refused, status 3; or the input, the output or a
    /// file failed, or the memory or the run itself, status 5.
    #[error("{0}")]
    Cli(CliFault),
    /// The journal holds something, and isn't to be gone on from. Status 3.
    #[error("nix-dispatch: journal: NotEmpty")]
    NotEmpty,
    /// Another session or run has the journal. Status 3.
    #[error("nix-dispatch: journal: InUse")]
    InUse,
    /// The journal that is to be gone on from is none. Status 3.
    #[error("nix-dispatch: journal: {0}")]
    Journal(ResumeError),
    /// The journal can't be opened, or refused to be read, cut, appended to or made durable, for whatever
    /// cause; or the thread of a run that writes it found no memory or wasn't started. Nothing of the turn that it
    /// ends is answered, and nothing of a run is begun behind it; the entries that it refused may stand in it.
    /// Status 5.
    #[error("nix-dispatch: journal failed")]
    JournalFailed,
}

impl ServeFault {
    /// The exit status: 3 where an input or the journal is refused, 5 where a device or the memory failed.
    pub fn status(&self) -> u8
        ensures { result ≡ fault_status self.now }
    {
        match self {
            ServeFault::Cli(fault) => fault.status(),
            ServeFault::NotEmpty => 3,
            ServeFault::InUse => 3,
            ServeFault::Journal(_) => 3,
            ServeFault::JournalFailed => 5,
        }
    }
}

/// Why the command ends where its session does.
pub(crate) fn session_fault(fault: SessionFault) -> ServeFault
    ensures { result ≡ fault_of fault }
{
    match fault {
        SessionFault::Read => ServeFault::Cli(CliFault::Read),
        SessionFault::Journal => ServeFault::JournalFailed,
        SessionFault::Write => ServeFault::Cli(CliFault::Write),
        SessionFault::Memory => ServeFault::Cli(CliFault::Memory),
    }
}

/// Why the command ends where its journal can't be gone on from.
pub(crate) fn journal_fault(error: ResumeError) -> ServeFault
    ensures { result ≡ fault_of_journal error }
{
    match error {
        ResumeError::Memory => ServeFault::Cli(CliFault::Memory),
        refusal => ServeFault::Journal(refusal),
    }
}
