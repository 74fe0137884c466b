//! The command `park`: a line for each slot.

ghost use Rattle.std.specs.Prelude.{◌≡◌, IfErr, IfOk};

use clap::ArgMatches;
use nd_cli::{CliFault, ParkOptions, park_engine};
use nd_command_line::{Given, failure, write_failure};
use nd_devices::Told;
use nd_explain::{Failure, Heard};
use nd_options::park_options;
use std::alloc::Global;
use std::io::{self, Write};
use std::rt::Files;

/// Writes the slots of the park that the options describe. No bundle is read.
pub(crate) fn list_park<'a, R: Files + Print + AllocGlobal>(
    rt: &R,
    alloc: Global,
    options: &ArgMatches<'a>,
) -> Result<u8, Failure<'a>> {
    let park = park_options(rt, alloc, options)?;
    let mut output = Told::new(Heard::new(io::writer(rt)));
    let answer = park_engine(alloc, &park, &mut output);
    listed(alloc, options, park, answer, output.into_inner())
}

/// What the command answers, whose options say this of a park: the status of its engine, and else what is known of
/// the fault that it ended with over this output.
fn listed<'a, W: Write + Drop>(
    alloc: Global,
    options: &ArgMatches<'a>,
    park: ParkOptions,
    answer: Result<u8, CliFault>,
    output: Heard<W>,
) -> Result<u8, Failure<'a>>
    ensures status { IfOk result (λ status. answer ≡ Ok status) }
    ensures fault { IfErr result (λ failure. answer ≡ Err failure.fault) }
{
    match answer {
        Ok(status) => {
            drop(output);
            drop(park);
            Ok(status)
        }
        Err(CliFault::Write) => {
            drop(park);
            let known = write_failure(&output);
            drop(output);
            Err(known)
        }
        Err(fault) => {
            drop(output);
            Err(park_failure(alloc, options, park, fault))
        }
    }
}

/// What is known of a fault over these options, which say this of a park.
fn park_failure<'a>(
    alloc: Global,
    options: &ArgMatches<'a>,
    park: ParkOptions,
    fault: CliFault,
) -> Failure<'a>
    ensures { result.fault ≡ fault }
{
    let given = Given {
        options,
        park: &park,
        other: &[],
    };
    let known = failure(alloc, fault, given, &Heard::new(io::empty()));
    drop(park);
    known
}
