//! A session over memory.

use crate::tests::outputs::{Grants, MemoryOutput};
use nd_cli::CliFault;
use nd_commands::sim_engine;
use nd_desk::Desk;
use nd_devices::Told;
use nd_serve_command::{Devices, Opened, ResumeError, ServeFault, open_session, serve_engine};
use nd_test_fixtures::journals::MemoryJournal;
use nd_test_fixtures::places::{Place, options};
use std::alloc::{AllocError, Global};
use std::thread::Threads;

/// How a session ended.
#[derive(Clone, Copy, Debug, PartialEq, Eq)]
pub enum End {
    /// With this status, at the end of its input.
    Status(u8),
    /// The journal is refused so.
    Refused(ResumeError),
    /// The journal holds something, and isn't to be gone on from.
    NotEmpty,
    /// The journal failed.
    JournalFailed,
    /// The input failed.
    InputFailed,
    /// The output failed.
    OutputFailed,
    /// Want of memory, or a refusal of the park.
    Other,
}

/// What became of a session.
#[derive(Drop)]
pub struct Held {
    /// How it ended.
    pub end: End,
    /// What came out of its answers.
    pub text: Vec<u8>,
    /// The journal behind it.
    pub journal: MemoryJournal,
}

/// Which end a fault is.
fn end_by(fault: ServeFault) -> End {
    match fault {
        ServeFault::Cli(CliFault::Read) => End::InputFailed,
        ServeFault::Cli(CliFault::Write) => End::OutputFailed,
        ServeFault::Cli(_) => End::Other,
        ServeFault::NotEmpty => End::NotEmpty,
        ServeFault::InUse => End::Other,
        ServeFault::Journal(refusal) => End::Refused(refusal),
        ServeFault::JournalFailed => End::JournalFailed,
    }
}

/// What `sim` makes of a script.
#[derive(Drop)]
pub struct Simulated {
    /// What it writes.
    pub text: Vec<u8>,
    /// Its status.
    pub status: u8,
}

/// The session that is opened with these bytes of a journal.
fn opened<R: Threads + Sync>(
    rt: &R,
    alloc: Global,
    place: Place<'_>,
    journal: &[u8],
    resumes: bool,
) -> Result<Opened, End> {
    let options = options(alloc, &place);
    let mut input = Told::new(place.bundle.as_bytes());
    let opened = open_session(rt, alloc, &options, journal, resumes, &mut input);
    drop(options);
    match opened {
        Ok(opened) => Ok(opened),
        Err(fault) => Err(end_by(fault)),
    }
}

/// What a session goes on from.
pub(crate) struct Begun {
    /// The session, opened.
    pub(crate) opened: Opened,
    /// The bytes that its journal holds.
    pub(crate) bytes: Vec<u8>,
}

/// Opens a session with these bytes of a journal, and cuts them to their whole lines.
pub(crate) fn begin<R: Threads + Sync>(
    rt: &R,
    alloc: Global,
    place: Place<'_>,
    journal: &[u8],
) -> Option<Begun> {
    let opened = match opened(rt, alloc, place, journal, true) {
        Ok(opened) => opened,
        Err(_end) => return None,
    };
    let (whole, _) = journal.split_at(opened.kept.min(journal.len()));
    match Vec::from_slice(alloc, whole) {
        Ok(bytes) => Some(Begun { opened, bytes }),
        Err(AllocError) => {
            drop(opened);
            None
        }
    }
}

/// How a session over this desk ends.
pub(crate) fn end_of<D: Desk>(alloc: Global, opened: Opened, desk: &mut D) -> End {
    match serve_engine(alloc, opened, desk) {
        Ok(status) => End::Status(status),
        Err(fault) => end_by(fault),
    }
}

/// What became of a session that ended so, by its devices.
pub(crate) fn held_to(end: End, devices: Devices<&[u8], MemoryOutput, MemoryJournal>) -> Held {
    let Devices {
        output,
        journal,
        ..
    } = devices;
    Held {
        end,
        text: output.into_out(),
        journal,
    }
}

/// Holds a session with these lines over a journal that begins with these bytes, cut to its whole lines, and
/// over devices that grant so much.
pub(crate) fn hold<R: Threads + Sync>(
    rt: &R,
    alloc: Global,
    place: Place<'_>,
    journal: &[u8],
    grants: Grants,
    lines: &[u8],
) -> Option<Held> {
    let Begun { opened, bytes } = match begin(rt, alloc, place, journal) {
        Some(begun) => begun,
        None => return None,
    };
    let mut devices = Devices {
        input: lines,
        output: MemoryOutput::granting(alloc, grants),
        journal: MemoryJournal::holding(bytes, grants.calls),
    };
    let end = end_of(alloc, opened, &mut devices);
    Some(held_to(end, devices))
}

/// How the opening of a session ends with these bytes of a journal: with status 0 where it is opened.
pub(crate) fn opening<R: Threads + Sync>(
    rt: &R,
    alloc: Global,
    place: Place<'_>,
    journal: &[u8],
    resumes: bool,
) -> End {
    match opened(rt, alloc, place, journal, resumes) {
        Ok(opened) => {
            drop(opened);
            End::Status(0)
        }
        Err(end) => end,
    }
}

/// What `sim` makes of a script, where it is accepted.
pub(crate) fn simulate<R: Threads + Sync>(
    rt: &R,
    alloc: Global,
    place: Place<'_>,
    script: &[u8],
) -> Option<Simulated> {
    let options = options(alloc, &place);
    let mut input = Told::new(place.bundle.as_bytes());
    let mut output = Told::new(Vec::new(alloc));
    let answer = sim_engine(rt, alloc, &options, script, &mut input, &mut output);
    drop(options);
    match answer {
        Ok(status) => Some(Simulated {
            text: output.into_inner(),
            status,
        }),
        Err(_fault) => None,
    }
}
