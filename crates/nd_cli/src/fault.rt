//! Why the program ends without its answer, and the line that it then writes on standard error.
ghost use Rattle.std.specs.Prelude.{◌≡◌};
ghost use Rattle.nd_cli.specs.Statuses.{exit_status};

use nd_bundle::GraphError;
use nd_closure::InfoError;
use nd_machines::MachineError;
use nd_script::ScriptError;
use std::alloc::AllocError;
use std::fmt;
use thiserror::Error;

/// An input of the program, by the word that a fault's line has for it.
#[derive(Clone, Copy, Debug, PartialEq, Eq)]
pub enum Place {
    /// The derivation text that `path` reads.
    Derivation,
    /// The bundle.
    Drvs,
    /// The builders list.
    Builders,
    /// The info text.
    Info,
    /// The script of a simulation.
    Script,
    /// The stand text of a run.
    Stand,
    /// The history text that is audited.
    History,
}

impl fmt::Display for Place {
    ghost use Rattle.std.specs.Prelude.{Some};
    ghost use Rattle.nd_cli.specs.Names.{place_name};

    ghost output = { λ e. Some (place_name e) };

    fn fmt<W: fmt::Write>(&self, f: &mut fmt::Formatter<W>) -> fmt::Result {
        match self {
            Place::Derivation => write!(f, "derivation"),
            Place::Drvs => write!(f, "drvs"),
            Place::Builders => write!(f, "builders"),
            Place::Info => write!(f, "info"),
            Place::Script => write!(f, "script"),
            Place::Stand => write!(f, "stand"),
            Place::History => write!(f, "history"),
        }
    }
}

/// Why a derivation text has no path.
#[derive(Clone, Copy, Debug, PartialEq, Eq)]
pub enum DerivationError {
    /// The name is no store path's, or doesn't end in `.drv`.
    BadPath,
    /// The text is no derivation text, or a path in it is none of its kind.
    BadDerivation,
}

impl fmt::Display for DerivationError {
    ghost use Rattle.std.specs.Prelude.{Some};
    ghost use Rattle.nd_cli.specs.Names.{refusal_name};

    ghost output = { λ e. Some (refusal_name e) };

    fn fmt<W: fmt::Write>(&self, f: &mut fmt::Formatter<W>) -> fmt::Result {
        match self {
            DerivationError::BadPath => write!(f, "BadPath"),
            DerivationError::BadDerivation => write!(f, "BadDerivation"),
        }
    }
}

/// Why a history text is refused.
#[derive(Clone, Copy, Debug, PartialEq, Eq)]
pub enum HistoryTextError {
    /// The text begins with no version's first line and its newline.
    Version,
    /// The line with this number, the first one being 1, is no entry's, or lacks its newline. It is the
    /// first such line.
    BadLine(usize),
}

impl fmt::Display for HistoryTextError {
    ghost use Rattle.std.specs.Prelude.{Some};
    ghost use Rattle.nd_cli.specs.Names.{history_error_text};

    ghost output = { λ e. Some (history_error_text e) };

    fn fmt<W: fmt::Write>(&self, f: &mut fmt::Formatter<W>) -> fmt::Result {
        match self {
            HistoryTextError::Version => write!(f, "Version"),
            HistoryTextError::BadLine(line) => write!(f, "BadLine {line}"),
        }
    }
}

/// Why a command gave no answer. `Display` writes the fault's line, without its newline.
#[derive(Debug, Drop, Error)]
pub enum CliFault {
    /// The derivation text, or the name that it is to have, is refused. Status 3.
    #[error("nix-dispatch: derivation: {0}")]
    Derivation(DerivationError),
    /// The bundle is refused. Status 3.
    #[error("nix-dispatch: drvs: {0}")]
    Drvs(GraphError),
    /// The builders list is refused. Status 3.
    #[error("nix-dispatch: builders: {0}")]
    Builders(MachineError),
    /// The info text is refused. Status 3.
    #[error("nix-dispatch: info: {0}")]
    Info(InfoError),
    /// The script is refused. Status 3.
    #[error("nix-dispatch: script: {0}")]
    Script(ScriptError),
    /// The stand text is refused. Status 3.
    #[error("nix-dispatch: stand: {0}")]
    Stand(ScriptError),
    /// The history text is refused. Status 3.
    #[error("nix-dispatch: history: {0}")]
    History(HistoryTextError),
    /// An input has more than 67,108,864 bytes, or a journal that is gone on from or looked at has more than
    /// 1,073,741,824. Status 3.
    #[error("nix-dispatch: {0}: TooLarge")]
    TooLarge(Place),
    /// The machines have more than 1,024 slots, and a run has a worker for each. Status 3.
    #[error("nix-dispatch: builders: TooManySlots")]
    TooManySlots,
    /// A reader refused a read, or a file can't be opened. Status 5.
    #[error("nix-dispatch: read failed")]
    Read,
    /// A writer refused a write. Status 5.
    #[error("nix-dispatch: write failed")]
    Write,
    /// There was no memory. Status 5.
    #[error("nix-dispatch: out of memory")]
    Memory,
    /// A thread of a run wasn't started. Status 5.
    #[error("nix-dispatch: thread not started")]
    Thread,
    /// It wasn't seen that a run is over and that the entries which its workers say they made are those of
    /// its history. Status 5.
    #[error("nix-dispatch: receipts differ")]
    Receipts,
}

impl CliFault {
    /// The exit status: 3 where an input is refused, 5 where a device or the memory failed, or a run.
    pub fn status(&self) -> u8
        ensures { result ≡ exit_status self.now }
    {
        match self {
            CliFault::Derivation(_)
            | CliFault::Drvs(_)
            | CliFault::Builders(_)
            | CliFault::Info(_)
            | CliFault::Script(_)
            | CliFault::Stand(_)
            | CliFault::History(_)
            | CliFault::TooLarge(_)
            | CliFault::TooManySlots => 3,
            CliFault::Read
            | CliFault::Write
            | CliFault::Memory
            | CliFault::Thread
            | CliFault::Receipts => 5,
        }
    }
}

impl From<AllocError> for CliFault {
    ghost use Rattle.std.specs.Prelude.{◌≡◌};
    ghost use Rattle.nd_cli.specs.declared.fault.CliFault.{CliFault};

    ghost from_gives = { λ _ e. e ≡ CliFault.Memory };

    fn from(_refused: AllocError) -> Self {
        CliFault::Memory
    }
}
