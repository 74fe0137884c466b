//! Replies that have more bytes than a page.

use crate::tests::asking::{builders, options, three_digits};
use nd_cli::{CliFault, ask_engine};
use nd_devices::Told;
use nd_test_fixtures::devices::CountedWriter;
use std::alloc::{AllocError, Global};
use std::thread::Threads;

/// How many derivations the bundle has.
const COUNT: usize = 300;

/// The reply about each of them.
const REPLY: &[u8] = b"# accept\nssh://m\n";

/// How many writes of at most 1,000 bytes all replies take: five for a full page, one for the newline that didn't fit
/// on it, and two for the rest.
const WRITES: usize = 8;

/// Puts the line of the derivation with this number, which has three digits, behind a text.
fn push_line(text: &mut Vec<u8>, number: usize) -> Result<(), AllocError> {
    let number = three_digits(number);
    text.extend_from_slice(b"/nix/store/00000000000000000000000000000")?;
    text.extend_from_slice(&number)?;
    text.extend_from_slice(b"-n.drv Derive([(\"out\",\"/nix/store/aaaaaaaaaaaaaaaaaaaaaaaaaaaaa")?;
    text.extend_from_slice(&number)?;
    text.extend_from_slice(
        b"-n\",\"\",\"\")],[],[],\"x86_64-linux\",\"/bin/sh\",[],[(\"a\",\"b\")])\n",
    )
}

/// The bundle. Want of memory leaves out lines.
fn bundle(alloc: Global) -> Vec<u8> {
    let mut text = Vec::new(alloc);
    for number in 0..COUNT {
        if push_line(&mut text, number).is_err() {
            return text;
        }
    }
    text
}

/// All replies. Want of memory leaves out some.
fn replies(alloc: Global) -> Vec<u8> {
    let mut text = Vec::new(alloc);
    for _ in 0..COUNT {
        if text.extend_from_slice(REPLY).is_err() {
            return text;
        }
    }
    text
}

/// Whether `ask` writes all replies to a writer that takes at most 1,000 bytes at a time and grants this number of
/// writes, or the first of them where it refuses one. Want of memory is a no.
fn is_written<R: Threads + Sync>(
    rt: &R,
    alloc: Global,
    bundle: &[u8],
    all: &[u8],
    good: usize,
) -> bool {
    let Ok(options) = options(alloc, builders(b"m")) else {
        return false;
    };
    let mut output = Told::new(CountedWriter::new(alloc, 1000, good, false));
    let answer = ask_engine(rt, alloc, &options, &mut Told::new(bundle), &mut output);
    let writer = output.into_inner();
    if !all.starts_with(writer.bytes()) {
        return false;
    }
    match answer {
        Ok(status) => status == 0 && writer.is_flushed() && writer.bytes() == all,
        Err(fault) => matches!(fault, CliFault::Write) && good < WRITES,
    }
}

#[test]
fn replies_over_two_pages(rt: HostRuntime) {
    let bundle = bundle(rt.alloc());
    let all = replies(rt.alloc());
    for good in 0..=WRITES {
        assert!(rt; is_written(&rt, rt.alloc(), bundle.as_slice(), all.as_slice(), good));
    }
}
