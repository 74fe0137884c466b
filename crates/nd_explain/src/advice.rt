//! What is said of each fault: its cause and its cure.

ghost use Rattle.std.specs.Prelude.{◌≡◌};
ghost use Rattle.nd_explain.specs.AdviceWords.{advice_words, bundle_advice, builders_advice, info_advice, script_advice, stand_advice, history_advice, derivation_advice};

use nd_bundle::GraphError;
use nd_cli::{CliFault, DerivationError, HistoryTextError};
use nd_closure::InfoError;
use nd_machines::MachineError;
use nd_script::ScriptError;

/// What is said of a fault.
#[derive(Clone, Copy, Debug, PartialEq, Eq)]
pub struct Advice {
    /// Why it came.
    pub cause: &'static str,
    /// What can be done about it.
    pub cure: &'static str,
}

/// Of want of memory, at whichever point it struck.
const NO_MEMORY: Advice = Advice {
    cause: "there was no memory",
    cure: "give the program more memory, or less to do",
};

/// Of a line whose path stands on an earlier one.
const TWICE: Advice = Advice {
    cause: "an earlier line has the same path",
    cure: "leave one of the two lines out",
};

/// Of a line with an input that has no line.
const NO_INPUT: Advice = Advice {
    cause: "an input derivation of the line has no line",
    cure: "add a line for each input derivation, as farm/gather does",
};

/// Of a line with an output that its input doesn't have.
const NO_OUTPUT: Advice = Advice {
    cause: "the line names an output that its input derivation doesn't have",
    cure: "take all .drv files from one store",
};

/// Of derivations that need one another.
const CYCLE: Advice = Advice {
    cause: "a derivation needs itself, over others or not",
    cure: "take all .drv files from one store, where none does",
};

/// Of a bundle with too many lines.
const TOO_MANY: Advice = Advice {
    cause: "the bundle has more than 65,536 lines",
    cure: "divide the bundle",
};

/// What is said of a fault, in the words of the table of docs/REFUSALS.md.
pub fn advice_on(fault: &CliFault) -> Advice
    ensures cause { result.cause.now ≡ (advice_words fault.now).0 }
    ensures cure { result.cure.now ≡ (advice_words fault.now).1 }
{
    match fault {
        CliFault::Derivation(refusal) => of_derivation(refusal),
        CliFault::Drvs(refusal) => of_bundle(refusal),
        CliFault::Builders(refusal) => of_builders(refusal),
        CliFault::Info(refusal) => of_info(refusal),
        CliFault::Script(refusal) => of_script(refusal),
        CliFault::Stand(refusal) => of_stand(refusal),
        CliFault::History(refusal) => of_history(refusal),
        CliFault::TooManySlots => Advice {
            cause: "the machines have more than 1,024 slots together, and a run has a worker for each",
            cure: "lower --jobs or the jobs of builders",
        },
        CliFault::TooLarge(_) => Advice {
            cause: "the input has more than 67,108,864 bytes, or a journal more than 1,073,741,824",
            cure: "make the input smaller; a bundle may be divided",
        },
        CliFault::Read => Advice {
            cause: "a file can't be opened, or a read was refused",
            cure: "look at what the system says of it",
        },
        CliFault::Write => Advice {
            cause: "a write to standard output was refused",
            cure: "look at what the system says of it",
        },
        CliFault::Memory => NO_MEMORY,
        CliFault::Thread => Advice {
            cause: "the system started no thread for a slot of the run",
            cure: "allow the program more threads, or give it fewer slots",
        },
        CliFault::Receipts => Advice {
            cause: "the run didn't come to its end, or its history isn't the one that its workers say they made",
            cure: "report it: the program is to blame, and none of its inputs",
        },
    }
}

/// What is said of a refusal of a derivation text, or of its name.
fn of_derivation(refusal: &DerivationError) -> Advice
    ensures cause { result.cause.now ≡ (derivation_advice refusal.now).0 }
    ensures cure { result.cure.now ≡ (derivation_advice refusal.now).1 }
{
    match refusal {
        DerivationError::BadPath => Advice {
            cause: "the name is no name of a store path, or doesn't end in .drv",
            cure: "give the name of the .drv file behind its digest, as hello.drv",
        },
        DerivationError::BadDerivation => Advice {
            cause: "the text is no derivation text, or has a path that is no store path of its kind",
            cure: "take the .drv file as Nix wrote it",
        },
    }
}

/// What is said of a refusal of a bundle.
fn of_bundle(refusal: &GraphError) -> Advice
    ensures cause { result.cause.now ≡ (bundle_advice refusal.now).0 }
    ensures cure { result.cure.now ≡ (bundle_advice refusal.now).1 }
{
    match refusal {
        GraphError::BadLine(_) => Advice {
            cause: "the line is empty or has no space",
            cure: "write the path of the derivation, one space and its text on each line, as farm/gather does",
        },
        GraphError::BadPath(_) => Advice {
            cause: "what stands before the first space of the line is no store path that ends in .drv",
            cure: "begin the line with the path of the .drv file, as /nix/store/DIGEST-NAME.drv",
        },
        GraphError::BadDerivation(_) => Advice {
            cause: "what stands behind the first space of the line is no derivation text, or has a path that is no store path of its kind",
            cure: "take the .drv file as Nix wrote it",
        },
        GraphError::UnknownOutput(_) => Advice {
            cause: "the path of an output is empty, so it isn't known before the build",
            cure: "leave out derivations whose output paths come to light only with the build",
        },
        GraphError::BadAttribute(_) => Advice {
            cause: "the structured attributes of the derivation can't be read",
            cure: "make __json an object in which requiredSystemFeatures is an array of strings and preferLocalBuild a boolean",
        },
        GraphError::WrongPath(_) => Advice {
            cause: "the path of the line isn't the one that its name and its text have",
            cure: "take both from one .drv file, or leave out --check-paths",
        },
        GraphError::Duplicate(_) => TWICE,
        GraphError::MissingInput(_) => NO_INPUT,
        GraphError::MissingOutput(_) => NO_OUTPUT,
        GraphError::Cycle => CYCLE,
        GraphError::TooMany => TOO_MANY,
        GraphError::Memory => NO_MEMORY,
    }
}

/// What is said of a refusal of a builders list.
fn of_builders(refusal: &MachineError) -> Advice
    ensures cause { result.cause.now ≡ (builders_advice refusal.now).0 }
    ensures cure { result.cure.now ≡ (builders_advice refusal.now).1 }
{
    match refusal {
        MachineError::Uri(_) => Advice {
            cause: "the first field of the entry, its URI, is -",
            cure: "begin the entry with the URI of the builder",
        },
        MachineError::Jobs(_) => Advice {
            cause: "the fourth field of the entry, its jobs, is no number from 0 to 65,535",
            cure: "write such a number, or - for 1",
        },
        MachineError::Speed(_) => Advice {
            cause: "the fifth field of the entry, its speed factor, is no number above 0 and up to 1,000,000 with at most 6 digits behind a point",
            cure: "write such a number, or - for 1",
        },
        MachineError::Include(_) => Advice {
            cause: "the entry begins with @, which would name a further file",
            cure: "write the entries of that file in its place",
        },
        MachineError::TooMany(_) => Advice {
            cause: "1,024 entries stand before this one, and no more are taken",
            cure: "leave builders out",
        },
        MachineError::Memory => NO_MEMORY,
    }
}

/// What is said of a refusal of an info text.
fn of_info(refusal: &InfoError) -> Advice
    ensures cause { result.cause.now ≡ (info_advice refusal.now).0 }
    ensures cure { result.cure.now ≡ (info_advice refusal.now).1 }
{
    match refusal {
        InfoError::BadLine(_) => Advice {
            cause: "the line isn't a store path and its references with single spaces between them, or an earlier line has the same path",
            cure: "write one line for each path, as farm/gather does",
        },
        InfoError::Memory => NO_MEMORY,
    }
}

/// What is said of a refusal of a script.
fn of_script(refusal: &ScriptError) -> Advice
    ensures cause { result.cause.now ≡ (script_advice refusal.now).0 }
    ensures cure { result.cure.now ≡ (script_advice refusal.now).1 }
{
    match refusal {
        ScriptError::BadLine(_) => Advice {
            cause: "the line is no command, or names a derivation, a machine or a status that isn't there, or a word that is no store path",
            cure: "write a command of the table \"Script\" in docs/DESIGN.md",
        },
        ScriptError::Memory => NO_MEMORY,
    }
}

/// What is said of a refusal of a stand text.
fn of_stand(refusal: &ScriptError) -> Advice
    ensures cause { result.cause.now ≡ (stand_advice refusal.now).0 }
    ensures cure { result.cure.now ≡ (stand_advice refusal.now).1 }
{
    match refusal {
        ScriptError::BadLine(_) => Advice {
            cause: "the line is no rule, or names a derivation, a machine or a status that isn't there, or a word that is no store path",
            cure: "write a rule of the table \"Stand text\" in docs/DESIGN.md",
        },
        ScriptError::Memory => NO_MEMORY,
    }
}

/// What is said of a refusal of a history text.
fn of_history(refusal: &HistoryTextError) -> Advice
    ensures cause { result.cause.now ≡ (history_advice refusal.now).0 }
    ensures cure { result.cure.now ≡ (history_advice refusal.now).1 }
{
    match refusal {
        HistoryTextError::Version => Advice {
            cause: "the text doesn't begin with the line of a version",
            cure: "begin with the line nix-dispatch-history 1 or nix-dispatch-history 2",
        },
        HistoryTextError::BadLine(_) => Advice {
            cause: "the line is no entry of its version, or has no newline at its end",
            cure: "take the history as it was written, to its last newline",
        },
    }
}
