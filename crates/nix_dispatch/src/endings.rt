//! How a command ends that gives no status, and what is said of it.

ghost use Rattle.std.specs.Prelude.{◌≡◌};
ghost use Rattle.nd_cli.specs.Statuses.{exit_status};
ghost use Rattle.nd_serve_command.specs.Faults.{fault_status};
ghost use Rattle.nix_dispatch.specs.Statuses.{as_ending, exit_of, fault_in};

use crate::commands::{not_understood, say, told};
use nd_explain::Failure;
use nd_serve_command::JournalFailure;

/// Why a command gave no status, with what is known about it.
#[derive(Drop)]
pub(crate) enum Ending<'a> {
    /// An input is refused, or a device, the memory or a run failed.
    Common(Failure<'a>),
    /// The journal is refused, or failed.
    Journal(JournalFailure<'a>),
}

/// The answer of a command that has no journal.
pub(crate) fn common<'a>(answer: Result<u8, Failure<'a>>) -> Result<u8, Ending<'a>>
    ensures { result ≡ as_ending answer.entry }
{
    match answer {
        Ok(status) => Ok(status),
        Err(failure) => Err(Ending::Common(failure)),
    }
}

/// The exit status of a command that answered so, with what is said of it on standard error where it gave none, as
/// where no command was named.
pub(crate) fn exit_by<R: Eprint>(
    rt: &R,
    answer: Option<Result<u8, Ending<'_>>>,
    explain: bool,
) -> u8
    ensures { result ≡ exit_of answer.entry }
{
    match answer {
        Some(Ok(status)) => status,
        Some(Err(ending)) => {
            let status = told_ending(rt, &ending, explain);
            drop(ending);
            status
        }
        None => not_understood(rt, "the command line names no command"),
    }
}

/// Says why a command gave no status, where asked with what is known about it, and answers the exit status.
fn told_ending<R: Eprint>(rt: &R, ending: &Ending, explain: bool) -> u8
    ensures { result ≡ fault_status (fault_in ending.now) }
{
    match ending {
        Ending::Common(failure) => told_why(rt, failure, explain),
        Ending::Journal(failure) => told_of_journal(rt, failure, explain),
    }
}

/// The same, of an input, a device, the memory or a run.
fn told_why<R: Eprint>(rt: &R, failure: &Failure, explain: bool) -> u8
    ensures { result ≡ exit_status failure.now.fault }
{
    let status = told(rt, &failure.fault);
    if explain {
        say(rt, failure);
    }
    status
}

/// The same, of a journal.
fn told_of_journal<R: Eprint>(rt: &R, failure: &JournalFailure, explain: bool) -> u8
    ensures { result ≡ fault_status failure.now.fault }
{
    say(rt, &failure.fault);
    if explain {
        say(rt, failure);
    }
    failure.fault.status()
}
