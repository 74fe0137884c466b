//! The options of a command over a bundle.

ghost use Rattle.std.specs.Prelude.{◌≡◌, IfOk, IfErr, codes};
ghost use Rattle.clap.specs.Matches.{found_of, one_text};
ghost use Rattle.nd_options.specs.Failures.{IsUnread};
ghost use Rattle.nd_options.specs.Options.{AreOptionsIn, IsNumberIn, IsFlagIn, NamesNoParkFile, text_in};

use crate::files::{file_or_nothing, text_or_file};
use clap::ArgMatches;
use nd_bytes::ByteString;
use nd_cli::{CliFault, ParkOptions};
use nd_explain::Failure;
use std::alloc::Global;
use std::rt::Files;

/// The options of a command over a bundle. The files that they name are read here, the builders list
/// before the info text.
///
/// `Read`: a file is named, and it can't be opened, or a read was refused. `Memory`.
pub fn park_options<'a, R: Files>(
    rt: &R,
    alloc: Global,
    options: &ArgMatches<'a>,
) -> Result<ParkOptions, Failure<'a>>
    ensures options { IfOk result (λ park. AreOptionsIn options.now park) }
    ensures unread { IfErr result IsUnread }
    ensures memory { NamesNoParkFile options.now → IfErr result (λ failure. failure.fault ≡ CliFault.Memory) }
{
    let builders = options.get_str("builders").unwrap_or("");
    let builders = text_or_file(rt, alloc, "builders", builders)?;
    let info = file_or_nothing(rt, alloc, "info", options.get_str("info"))?;
    Ok(ParkOptions {
        builders,
        system: text_of(alloc, options, "system")?,
        extra: text_of(alloc, options, "extra")?,
        features: text_of(alloc, options, "features")?,
        jobs: jobs_of(options),
        keep_going: flag_of(options, "keep-going"),
        check_paths: flag_of(options, "check-paths"),
        info,
    })
}

/// The text of the option of this name, and no bytes without it.
///
/// `Memory`: nothing else is told.
fn text_of<'a>(alloc: Global, options: &ArgMatches, name: &str) -> Result<ByteString, Failure<'a>>
    ensures text { IfOk result (λ text. text ≡ text_in options.now name.now) }
    ensures memory { IfErr result (λ failure. failure.fault ≡ CliFault.Memory) }
{
    match ByteString::from_slice(alloc, options.get_str(name).unwrap_or("").as_bytes()) {
        Ok(text) => Ok(text),
        Err(_) => Err(Failure::of(CliFault::Memory)),
    }
}

/// The local jobs, which are 1 without the option.
fn jobs_of(options: &ArgMatches) -> u16
    ensures { IsNumberIn (one_text (found_of options.now) (codes "jobs")) result }
{
    options.get_one::<u16>("jobs").unwrap_or(1)
}

/// Whether the flag of this name was given.
fn flag_of(options: &ArgMatches, name: &str) -> bool
    ensures { IsFlagIn (one_text (found_of options.now) name.now) result }
{
    options.get_flag(name)
}
