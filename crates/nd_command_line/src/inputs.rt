//! What a command over a bundle reads before it begins, and what it answers in the end.

ghost use Rattle.std.specs.Prelude.{◌≡◌, [], None, false, is_ok, IfErr, IfOk, IsTrue};
ghost use Rattle.nd_command_line.specs.Bundles.{ComesFrom};
ghost use Rattle.nd_command_line.specs.Named.{bundle_name, own_name, NamesNoInput};
ghost use Rattle.nd_explain.specs.Hearing.{device_of};
ghost use Rattle.nd_options.specs.Failures.{IsUnread};
ghost use Rattle.nd_options.specs.Options.{AreOptionsIn};

use crate::bundles::{Bundle, bundle_of};
use crate::failing::{Given, failure, heard, write_failure};
use clap::ArgMatches;
use nd_bytes::ByteString;
use nd_cli::{CliFault, ParkOptions};
use nd_devices::Told;
use nd_explain::{Failure, Heard};
use nd_options::{file_or_nothing, park_options};
use std::alloc::Global;
use std::io::{Read, Write};
use std::rt::Files;

/// What a command over a bundle is given.
#[derive(Drop)]
pub struct Inputs<I, F> {
    /// What its options say of the park.
    pub park: ParkOptions,
    /// The bytes of the file that its own option names, as the script of `sim`; none without one. Which bytes
    /// these are is only tested.
    pub own: ByteString,
    /// The bundle, which has no mark. That nothing was read of it is only tested.
    pub bundle: Told<Heard<Bundle<I, F>>>,
}

/// Reads what the options of a command over a bundle name: the files of the park, then the file of the
/// command's own option, where `own` names one; and opens the bundle.
///
/// `Read`: a file is named, and it can't be opened, or a read was refused. `Memory`. Which files are read, and in
/// which order, is only tested.
pub fn read_inputs<'a, R: Files + Input>(
    rt: &R,
    alloc: Global,
    options: &ArgMatches<'a>,
    own: Option<&'a str>,
) -> Result<Inputs<R::Reader, R::File>, Failure<'a>>
    ensures options { IfOk result (λ inputs. AreOptionsIn options.now inputs.park) }
    ensures nothing { own_name options.now own.entry ≡ None → IfOk result (λ inputs. inputs.own ≡ []) }
    ensures from { IfOk result (λ inputs. ComesFrom (bundle_name options.now) (device_of inputs.bundle.device)) }
    ensures mark { IfOk result (λ inputs. inputs.bundle.is_marked ≡ false) }
    ensures unread { IfErr result IsUnread }
    ensures memory { NamesNoInput options.now own.entry → IfErr result (λ failure. failure.fault ≡ CliFault.Memory) }
{
    let park = park_options(rt, alloc, options)?;
    // For the proof: what was read before a failure is let go by calls, and not in each goal of that exit.
    let own = match own_file(rt, alloc, options, own) {
        Ok(own) => own,
        Err(failure) => {
            drop(park);
            return Err(failure);
        }
    };
    match bundle_of(rt, options) {
        Ok(bundle) => Ok(Inputs {
            park,
            own,
            bundle: Told::new(heard(alloc, options, bundle)),
        }),
        Err(failure) => {
            drop(own);
            drop(park);
            Err(failure)
        }
    }
}

/// The bytes of the file that the option of this name names, and none where there is no such option or it isn't
/// given.
///
/// `Read`: a file is named, and it can't be opened, or a read was refused. `Memory`. Neither without a file.
fn own_file<'a, R: Files>(
    rt: &R,
    alloc: Global,
    options: &ArgMatches<'a>,
    own: Option<&'a str>,
) -> Result<ByteString, Failure<'a>>
    ensures nothing { own_name options.now own.entry ≡ None → IfOk result (λ bytes. bytes ≡ []) }
    ensures neither { own_name options.now own.entry ≡ None → IsTrue (is_ok result) }
    ensures unread { IfErr result IsUnread }
{
    match own {
        Some(option) => file_or_nothing(rt, alloc, option, options.get_str(option)),
        None => Ok(ByteString::new(Vec::new(alloc))),
    }
}

/// What a command over a bundle answers: the status of its engine, and else what is known of the fault that
/// it ended with over these inputs and this output.
pub fn answered<'a, I: Read + Drop, F: Read + Drop, W: Write + Drop>(
    alloc: Global,
    options: &ArgMatches<'a>,
    inputs: Inputs<I, F>,
    answer: Result<u8, CliFault>,
    output: Told<Heard<W>>,
) -> Result<u8, Failure<'a>>
    ensures status { IfOk result (λ status. answer ≡ Ok status) }
    ensures fault { IfErr result (λ failure. answer ≡ Err failure.fault) }
{
    match answer {
        Ok(status) => {
            drop(inputs);
            drop(output);
            Ok(status)
        }
        Err(CliFault::Write) => {
            drop(inputs);
            let output = output.into_inner();
            let failure = write_failure(&output);
            drop(output);
            Err(failure)
        }
        Err(fault) => {
            drop(output);
            Err(inputs.failure(alloc, options, fault))
        }
    }
}

impl<I: Read + Drop, F: Read + Drop> Inputs<I, F> {
    /// What is known of a fault over these inputs.
    pub fn failure<'a>(
        self,
        alloc: Global,
        options: &ArgMatches<'a>,
        fault: CliFault,
    ) -> Failure<'a>
        ensures { result.fault ≡ fault }
    {
        let Inputs { park, own, bundle } = self;
        let bundle = bundle.into_inner();
        let given = Given {
            options,
            park: &park,
            other: own.as_slice(),
        };
        let known = failure(alloc, fault, given, &bundle);
        drop(bundle);
        drop(own);
        drop(park);
        known
    }
}
