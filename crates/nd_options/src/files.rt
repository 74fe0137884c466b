//! The files that the command line names. That what is read of a file is what the file of that name holds is
//! only tested: contracts say nothing of what files hold.

ghost use Rattle.std.specs.Prelude.{◌≡◌, [], None, IfOk, IfErr, IsTrue, is_ok};
ghost use Rattle.nd_options.specs.Failures.{IsUnread};
ghost use Rattle.nd_options.specs.Options.{NamesNoFile, StandsFor};

use nd_bytes::ByteString;
use nd_cli::{CliFault, read_input};
use nd_devices::Told;
use nd_explain::{Failure, Heard, Source};
use std::alloc::Global;
use std::fs;
use std::rt::Files;

/// What the value of an option stands for: the bytes of the file that it names behind `@`, and else
/// its own bytes.
///
/// `Read`: a file is named, and it can't be opened, or a read was refused. `Memory`.
pub fn text_or_file<'a, R: Files>(
    rt: &R,
    alloc: Global,
    option: &'a str,
    value: &'a str,
) -> Result<ByteString, Failure<'a>>
    ensures stands { IfOk result (StandsFor value.now) }
    ensures unread { IfErr result IsUnread }
    ensures memory { NamesNoFile value.now → IfErr result (λ failure. failure.fault ≡ CliFault.Memory) }
{
    match value.strip_prefix('@') {
        Some(name) => read_file(rt, alloc, option, name),
        None => match ByteString::from_slice(alloc, value.as_bytes()) {
            Ok(text) => Ok(text),
            Err(_) => Err(Failure::of(CliFault::Memory)),
        },
    }
}

/// The bytes of the file of an option, and none without the option.
///
/// `Read`: the file can't be opened, or a read was refused. `Memory`. Neither without the option.
pub fn file_or_nothing<'a, R: Files>(
    rt: &R,
    alloc: Global,
    option: &'a str,
    name: Option<&'a str>,
) -> Result<ByteString, Failure<'a>>
    ensures nothing { name.entry ≡ None → IfOk result (λ bytes. bytes ≡ []) }
    ensures neither { name.entry ≡ None → IsTrue (is_ok result) }
    ensures unread { IfErr result IsUnread }
{
    match name {
        Some(name) => read_file(rt, alloc, option, name),
        None => Ok(ByteString::new(Vec::new(alloc))),
    }
}

/// The bytes of the file that an option names, to its end or to one byte past the limit of an input.
///
/// `Read`: it can't be opened, or a read was refused. `Memory`.
pub fn read_file<'a, R: Files>(
    rt: &R,
    alloc: Global,
    option: &'a str,
    name: &'a str,
) -> Result<ByteString, Failure<'a>>
    ensures { IfErr result IsUnread }
{
    let source = Source::File { option, name };
    let file = match fs::open(rt, name) {
        Ok(file) => file,
        Err(error) => return Err(Failure::at(CliFault::Read, source, Some(error))),
    };
    let mut input = Told::new(Heard::new(file));
    let answer = read_input(alloc, &mut input);
    let input = input.into_inner();
    let refusal = input.refusal();
    drop(input);
    match answer {
        Ok(bytes) => Ok(bytes),
        Err(fault) => Err(Failure::at(fault, source, refusal)),
    }
}
