//! Where a bundle is read from.

ghost use Rattle.std.specs.Prelude.{◌≡◌, IfOk, IfErr, OnErr, IsSome};
ghost use Rattle.nd_command_line.specs.Bundles.{left_of, ComesFrom};
ghost use Rattle.nd_command_line.specs.Named.{bundle_name};

use clap::ArgMatches;
use nd_cli::CliFault;
use nd_explain::{Failure, Source};
use std::fs;
use std::io::{self, Read};
use std::rt::Files;

/// What a bundle is read from: standard input, or a file.
#[derive(Drop)]
pub enum Bundle<I, F> {
    /// Standard input.
    Input(I),
    /// A file.
    File(F),
}

impl<I: Read, F: Read> Read for Bundle<I, F> {
    ghost remaining = { left_of I.remaining F.remaining };

    fn read(&mut self, room: &mut [u8]) -> io::Result<usize> {
        match self {
            Bundle::Input(input) => input.read(room),
            Bundle::File(file) => file.read(room),
        }
    }
}

/// The bundle of a command with these options: a file where `--bundle` names one, which is opened, and
/// standard input without the option. That it is the file of that name is only tested.
///
/// `Read`: a file is named, and can't be opened. That it comes then alone is only tested.
pub fn bundle_of<'a, R: Files + Input>(
    rt: &R,
    options: &ArgMatches<'a>,
) -> Result<Bundle<R::Reader, R::File>, Failure<'a>>
    ensures from { IfOk result (ComesFrom (bundle_name options.now)) }
    ensures fault { IfErr result (λ failure. failure.fault ≡ CliFault.Read) }
    ensures named { OnErr result (IsSome (bundle_name options.now)) }
{
    let Some(name) = options.get_str("bundle") else {
        return Ok(Bundle::Input(rt.reader()));
    };
    match fs::open(rt, name) {
        Ok(file) => Ok(Bundle::File(file)),
        Err(error) => Err(Failure::at(CliFault::Read, bundle_source(options), Some(error))),
    }
}

/// What the bundle of a command with these options is on the command line.
pub fn bundle_source<'a>(options: &ArgMatches<'a>) -> Source<'a> {
    match options.get_str("bundle") {
        Some(name) => Source::File {
            option: "bundle",
            name,
        },
        None => Source::Input,
    }
}
