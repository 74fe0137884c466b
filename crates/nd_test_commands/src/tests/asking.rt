//! What the commands answer, for the tests beside this file.

use nd_bytes::ByteString;
use nd_cli::{CliFault, ParkOptions, ask_engine, path_engine};
use nd_devices::Told;
use nd_test_fixtures::bundles::joined;
use nd_test_fixtures::printing::is_printed;
use std::alloc::{AllocError, Global};
use std::thread::Threads;

/// What a command is to answer.
#[derive(Clone, Copy)]
pub enum Want<'a> {
    /// It writes this, and its status is 0.
    Written(&'a [u8]),
    /// It writes nothing, its status is 3, and this is the line of its fault.
    Refused(&'a str),
}

/// The options of `ask` that the tests choose.
#[derive(Clone, Copy)]
pub struct Park<'a> {
    /// The builders list.
    pub builders: &'a [u8],
    /// The number of local jobs.
    pub jobs: u16,
    /// Whether the paths of the bundle are checked.
    pub check_paths: bool,
}

/// These builders and one local job.
pub(crate) fn builders(builders: &[u8]) -> Park<'_> {
    Park {
        builders,
        jobs: 1,
        check_paths: false,
    }
}

/// These builders and no local job.
pub(crate) fn builders_alone(builders: &[u8]) -> Park<'_> {
    Park {
        builders,
        jobs: 0,
        check_paths: false,
    }
}

/// The options of `ask` on a park.
pub(crate) fn options(alloc: Global, park: Park) -> Result<ParkOptions, AllocError> {
    let builders = ByteString::from_slice(alloc, park.builders)?;
    let system = ByteString::from_slice(alloc, b"x86_64-linux")?;
    Ok(ParkOptions {
        builders,
        system,
        extra: ByteString::new(Vec::new(alloc)),
        features: ByteString::new(Vec::new(alloc)),
        jobs: park.jobs,
        keep_going: false,
        check_paths: park.check_paths,
        info: ByteString::new(Vec::new(alloc)),
    })
}
/// The last three digits of a number.
pub(crate) fn three_digits(number: usize) -> [u8; 3] {
    let digits = b"0123456789";
    [
        digits[number / 100 % 10],
        digits[number / 10 % 10],
        digits[number % 10],
    ]
}

/// Whether a command answered as it is to, and wrote this.
pub(crate) fn is_answer(
    alloc: Global,
    answer: Result<u8, CliFault>,
    written: &[u8],
    want: Want,
) -> bool {
    match (&answer, want) {
        (Ok(status), Want::Written(text)) => *status == 0 && written == text,
        (Err(fault), Want::Refused(line)) => {
            written.is_empty() && fault.status() == 3 && is_printed(alloc, fault, line)
        }
        _ => false,
    }
}

/// Whether `ask` answers so with these options.
fn answers<R: Threads + Sync>(
    rt: &R,
    alloc: Global,
    options: &ParkOptions,
    bundle: &[u8],
    want: Want,
) -> bool {
    let mut output = Told::new(Vec::new(alloc));
    let answer = ask_engine(rt, alloc, options, &mut Told::new(bundle), &mut output);
    is_answer(alloc, answer, output.into_inner().as_slice(), want)
}

/// Whether `ask` answers so on a park. Want of memory is a no.
pub(crate) fn asks<R: Threads + Sync>(
    rt: &R,
    alloc: Global,
    park: Park,
    bundle: &[u8],
    want: Want,
) -> bool {
    match options(alloc, park) {
        Ok(options) => answers(rt, alloc, &options, bundle, want),
        Err(_) => false,
    }
}

/// Whether `ask` answers so for the bundle of these parts, on a park with the one builder `m`. Want of
/// memory is a no.
pub(crate) fn asks_of<R: Threads + Sync>(
    rt: &R,
    alloc: Global,
    parts: &[&[u8]],
    want: Want,
) -> bool {
    match joined(alloc, parts) {
        Ok(bundle) => asks(rt, alloc, builders(b"m"), bundle.as_slice(), want),
        Err(_) => false,
    }
}

/// Whether `path` answers so.
pub(crate) fn path_answers(alloc: Global, name: &[u8], text: &[u8], want: Want) -> bool {
    let mut output = Told::new(Vec::new(alloc));
    let answer = path_engine(alloc, name, &mut Told::new(text), &mut output);
    is_answer(alloc, answer, output.into_inner().as_slice(), want)
}

/// What `path` writes, or none where it refuses.
pub(crate) fn path_of(alloc: Global, name: &[u8], text: &[u8]) -> Option<Vec<u8>> {
    let mut output = Told::new(Vec::new(alloc));
    match path_engine(alloc, name, &mut Told::new(text), &mut output) {
        Ok(0) => Some(output.into_inner()),
        _ => None,
    }
}
