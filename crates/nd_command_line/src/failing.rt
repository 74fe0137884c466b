//! What is known of a fault once a command ends with it.

ghost use Rattle.std.specs.Prelude.{◌≡◌, codes};
ghost use Rattle.clap.specs.Matches.{found_of, first_value};
ghost use Rattle.nd_explain.specs.Hearing.{device_of};
ghost use Rattle.nd_command_line.specs.Named.{history_option_for};

use crate::bundles::bundle_source;
use clap::ArgMatches;
use nd_cli::{CliFault, DerivationError, ParkOptions, Place};
use nd_explain::{Failure, Heard, Source, place_of};
use std::alloc::Global;
use std::io::{Read, Write};

/// What a command over a bundle was given besides the bundle.
#[derive(Clone, Copy)]
pub struct Given<'a, 'b> {
    /// Its options.
    pub options: &'b ArgMatches<'a>,
    /// What these say.
    pub park: &'b ParkOptions,
    /// The script, the stand text or the history text, and no bytes without one.
    pub other: &'b [u8],
}

/// The input of a command with these options: a copy is kept where `--explain` is one of them.
pub fn heard<R: Read>(alloc: Global, options: &ArgMatches, reader: R) -> Heard<R>
    ensures { device_of result ≡ reader }
{
    if options.get_flag("explain") {
        Heard::with_copy(alloc, reader)
    } else {
        Heard::new(reader)
    }
}

/// What is known of a fault of a command over a bundle that was read from this input.
pub fn failure<'a, R: Read>(
    alloc: Global,
    fault: CliFault,
    given: Given<'a, '_>,
    input: &Heard<R>,
) -> Failure<'a>
    ensures { result.fault ≡ fault }
{
    let Some(place) = place_of(&fault) else {
        return match fault {
            CliFault::Read => Failure::at(fault, bundle_source(given.options), input.refusal()),
            _ => Failure::of(fault),
        };
    };
    let source = source_of(given.options, place);
    let text = match place {
        Place::Derivation | Place::Drvs => input.copy(),
        Place::Builders => Some(given.park.builders.as_slice()),
        Place::Info => Some(given.park.info.as_slice()),
        Place::Script | Place::Stand | Place::History => Some(given.other),
    };
    match text {
        Some(text) => Failure::of_text(alloc, fault, source, text),
        None => Failure::at(fault, source, None),
    }
}

/// What is known of a fault of `path`, which was given this name.
pub fn path_failure<'a, R: Read>(
    alloc: Global,
    fault: CliFault,
    name: &[u8],
    input: &Heard<R>,
) -> Failure<'a>
    ensures { result.fault ≡ fault }
{
    match fault {
        CliFault::Read => Failure::at(fault, Source::Input, input.refusal()),
        CliFault::Derivation(DerivationError::BadPath) => {
            Failure::of_text(alloc, fault, Source::Name, name)
        }
        CliFault::Derivation(DerivationError::BadDerivation) => match input.copy() {
            Some(text) => Failure::of_text(alloc, fault, Source::Input, text),
            None => Failure::at(fault, Source::Input, None),
        },
        CliFault::TooLarge(_) => Failure::at(fault, Source::Input, None),
        _ => Failure::of(fault),
    }
}

/// What is known of a fault about an input whose text isn't at hand.
pub fn placed<'a>(options: &ArgMatches<'a>, fault: CliFault) -> Failure<'a>
    ensures { result.fault ≡ fault }
{
    match place_of(&fault) {
        Some(place) => Failure::at(fault, source_of(options, place), None),
        None => Failure::of(fault),
    }
}

/// What a place of the inputs is on the command line.
fn source_of<'a>(options: &ArgMatches<'a>, place: Place) -> Source<'a> {
    match place {
        Place::Derivation | Place::Drvs => bundle_source(options),
        Place::Builders => value_or_file("builders", options.get_str("builders").unwrap_or("")),
        Place::Info => file_of(options, "info"),
        Place::Script => file_of(options, "script"),
        Place::Stand => file_of(options, "stand"),
        Place::History => file_of(options, history_option(options)),
    }
}

/// The option that names the history: that of a journal where one is given.
pub fn history_option(options: &ArgMatches) -> &'static str
    ensures { result.now ≡ history_option_for (first_value (found_of options.now) (codes "journal")) }
{
    match options.get_str("journal") {
        Some(_) => "journal",
        None => "history",
    }
}

/// What an option names: a file behind `@`, and else its own value.
fn value_or_file<'a>(option: &'a str, value: &'a str) -> Source<'a> {
    match value.strip_prefix('@') {
        Some(name) => Source::File { option, name },
        None => Source::Value(option),
    }
}

/// The file that an option names.
fn file_of<'a>(options: &ArgMatches<'a>, option: &'a str) -> Source<'a> {
    let name = options.get_str(option).unwrap_or("");
    Source::File { option, name }
}

/// A refused write to this output.
pub fn write_failure<'a, W: Write>(output: &Heard<W>) -> Failure<'a>
    ensures { result.fault ≡ CliFault.Write }
{
    Failure::at(CliFault::Write, Source::Output, output.refusal())
}
