//! What `sim` and `audit` answer, for the tests beside this file.

use nd_cli::{CliFault, ParkOptions};
use nd_commands::{audit_engine, sim_engine};
use nd_devices::Told;
use nd_test_fixtures::devices::{CountedReader, CountedWriter};
use nd_test_fixtures::examples::Example;
use nd_test_fixtures::places::{Place, options};
use nd_test_fixtures::printing::{Parts, is_printed};
use nd_test_fixtures::reports::Report;
use std::alloc::Global;
use std::thread::Threads;

/// What the devices of a command grant.
#[derive(Clone, Copy)]
pub struct Grants {
    /// How many reads of 100 bytes at most the input grants before it fails.
    pub reads: usize,
    /// How many writes of 7 bytes at most the output grants before it fails.
    pub writes: usize,
    /// Whether the output refuses to be flushed.
    pub refuses_flush: bool,
}

impl Grants {
    /// Devices that never fail.
    pub const ALL: Grants = Grants {
        reads: usize::MAX,
        writes: usize::MAX,
        refuses_flush: false,
    };
}

/// A command over a bundle, with the text that it is given beside it.
#[derive(Clone, Copy)]
pub enum Call<'a> {
    /// `sim` with this script.
    Sim(&'a [u8]),
    /// `audit` of this history.
    Audit(&'a [u8]),
}

/// What a command is to answer.
#[derive(Clone, Copy)]
pub enum Want<'a> {
    /// It writes this, and ends with this status.
    Written(&'a str, u8),
    /// It writes nothing, its status is 3, and this is the line of its fault.
    Refused(&'a str),
    /// It writes nothing, its status is 5, and its fault is that a read failed.
    Unread,
    /// It writes less than this text, from its beginning, its status is 5, and its fault is that a
    /// write failed.
    Cut(&'a str),
    /// It writes this, which the output holds back, its status is 5, and its fault is that a write
    /// failed.
    Held(&'a str),
}

/// What a command answered, and its output behind it.
#[derive(Drop)]
struct Answered {
    answer: Result<u8, CliFault>,
    writer: CountedWriter,
}

/// What a command answers on these devices.
fn answer_of<R: Threads + Sync>(
    rt: &R,
    alloc: Global,
    options: &ParkOptions,
    call: Call<'_>,
    reader: CountedReader<'_>,
    writer: CountedWriter,
) -> Answered {
    let mut input = Told::new(reader);
    let mut output = Told::new(writer);
    let answer = match call {
        Call::Sim(script) => sim_engine(rt, alloc, options, script, &mut input, &mut output),
        Call::Audit(history) => audit_engine(rt, alloc, options, history, &mut input, &mut output),
    };
    drop(input);
    Answered {
        answer,
        writer: output.into_inner(),
    }
}

/// Whether a command at a place with this bundle answers so on devices that grant so much.
pub(crate) fn answers_on<R: Threads + Sync>(
    rt: &R,
    alloc: Global,
    place: &Place<'_>,
    bundle: &[u8],
    grants: Grants,
    call: Call<'_>,
    want: Want<'_>,
) -> bool {
    let options = options(alloc, place);
    let reader = CountedReader::new(bundle, 100, grants.reads);
    let writer = CountedWriter::new(alloc, 7, grants.writes, grants.refuses_flush);
    let Answered { answer, writer } = answer_of(rt, alloc, &options, call, reader, writer);
    drop(options);
    let is_wanted = is_wanted(alloc, answer, writer.bytes(), writer.is_flushed(), want);
    drop(writer);
    is_wanted
}

/// Whether a command at a place answers so.
pub(crate) fn answers<R: Threads + Sync>(
    rt: &R,
    alloc: Global,
    place: &Place<'_>,
    call: Call<'_>,
    want: Want<'_>,
) -> bool {
    answers_on(
        rt,
        alloc,
        place,
        place.bundle.as_bytes(),
        Grants::ALL,
        call,
        want,
    )
}

/// The status of a command, and its output. `None` for a fault.
pub(crate) fn written<R: Threads + Sync>(
    rt: &R,
    alloc: Global,
    place: &Place<'_>,
    call: Call<'_>,
) -> Option<(u8, CountedWriter)> {
    let options = options(alloc, place);
    let reader = CountedReader::new(place.bundle.as_bytes(), usize::MAX, usize::MAX);
    let writer = CountedWriter::new(alloc, usize::MAX, usize::MAX, false);
    let Answered { answer, writer } = answer_of(rt, alloc, &options, call, reader, writer);
    match answer {
        Ok(status) => Some((status, writer)),
        Err(_) => None,
    }
}

/// A digest, gone on with by what `sim` writes and its status.
pub(crate) fn digest_after<R: Threads + Sync>(
    rt: &R,
    alloc: Global,
    place: &Place<'_>,
    script: &str,
    digest: u64,
) -> u64 {
    let options = options(alloc, place);
    let reader = CountedReader::new(place.bundle.as_bytes(), usize::MAX, usize::MAX);
    let writer = CountedWriter::new(alloc, usize::MAX, usize::MAX, false);
    let call = Call::Sim(script.as_bytes());
    let Answered { answer, writer } = answer_of(rt, alloc, &options, call, reader, writer);
    drop(options);
    let after = folded(digest, writer.bytes());
    drop(writer);
    match answer {
        Ok(0) => folded(after, b"0"),
        Ok(_) => folded(after, b"1"),
        Err(_) => after,
    }
}

/// A digest, gone on with by these bytes: FNV-1a of 64 bits.
fn folded(digest: u64, text: &[u8]) -> u64 {
    let mut after = digest;
    for byte in text {
        after = (after ^ u64::from(*byte)).wrapping_mul(1_099_511_628_211);
    }
    after
}

/// Whether this is the wanted answer, where this was written, and all of it passed on or not.
fn is_wanted(
    alloc: Global,
    answer: Result<u8, CliFault>,
    written: &[u8],
    is_flushed: bool,
    want: Want<'_>,
) -> bool {
    match (answer, want) {
        (Ok(status), Want::Written(text, wanted)) => {
            status == wanted && written == text.as_bytes() && is_flushed
        }
        (Err(fault), Want::Held(text)) => {
            written == text.as_bytes()
                && !is_flushed
                && is_fault(alloc, &fault, 5, "nix-dispatch: write failed")
        }
        (Err(fault), Want::Refused(line)) => {
            written.is_empty() && is_fault(alloc, &fault, 3, line)
        }
        (Err(fault), Want::Unread) => {
            written.is_empty() && is_fault(alloc, &fault, 5, "nix-dispatch: read failed")
        }
        (Err(fault), Want::Cut(text)) => {
            is_front(written, text.as_bytes())
                && is_fault(alloc, &fault, 5, "nix-dispatch: write failed")
        }
        _ => false,
    }
}

/// Whether this is less than a text, from its beginning.
fn is_front(written: &[u8], text: &[u8]) -> bool {
    written.len() < text.len() && text.starts_with(written)
}

/// Whether a fault has this status and this line. Want of memory is a no.
fn is_fault(alloc: Global, fault: &CliFault, status: u8, line: &str) -> bool {
    fault.status() == status && is_printed(alloc, fault, line)
}

/// What `sim` makes of an example.
#[derive(Clone, Copy)]
pub struct Outcome<'a> {
    /// What it writes before the report, in parts.
    pub answers: &'a [&'a str],
    /// What the report says of each machine.
    pub machines: &'a [&'a str],
    /// What it says of each derivation.
    pub drvs: &'a [&'a str],
    /// The status that it ends with.
    pub status: u8,
}

/// Whether `sim` makes this of an example. Want of memory is a no.
pub(crate) fn comes_to<R: Threads + Sync + AllocGlobal>(
    rt: &R,
    example: &Example<'_>,
    outcome: &Outcome<'_>,
) -> bool {
    let alloc = rt.alloc();
    let script = Parts(example.script);
    let Ok(script) = format!(in alloc; "{script}") else {
        return false;
    };
    let answers_before = Parts(outcome.answers);
    let report = Report {
        machines: outcome.machines,
        drvs: outcome.drvs,
    };
    let Ok(text) = format!(in alloc; "{answers_before}{report}") else {
        return false;
    };
    let want = Want::Written(text.as_str(), outcome.status);
    answers(
        rt,
        alloc,
        &example.place,
        Call::Sim(script.as_bytes()),
        want,
    )
}

/// Whether `sim` refuses an input with this line.
pub(crate) fn refuses<R: Threads + Sync + AllocGlobal>(
    rt: &R,
    place: &Place<'_>,
    script: &str,
    line: &str,
) -> bool {
    let call = Call::Sim(script.as_bytes());
    answers(rt, rt.alloc(), place, call, Want::Refused(line))
}

/// Whether `audit` answers so of a history's text, in parts. Want of memory is a no.
pub(crate) fn audits<R: Threads + Sync + AllocGlobal>(
    rt: &R,
    place: &Place<'_>,
    history: &[&str],
    want: Want<'_>,
) -> bool {
    let history = Parts(history);
    match format!(in rt.alloc(); "{history}") {
        Ok(text) => answers(rt, rt.alloc(), place, Call::Audit(text.as_bytes()), want),
        Err(_) => false,
    }
}
