//! Bundles that are longer than what is read of an input at once.

use crate::tests::asking::{Want, builders, is_answer, options};
use nd_cli::{CliFault, ask_engine};
use nd_devices::Told;
use nd_test_fixtures::bundles::JSON_END;
use nd_test_fixtures::devices::{CountedReader, EndlessReader};
use std::alloc::Global;
use std::io::Read;
use std::thread::Threads;

/// The line of `n0`, up to the value of its one variable.
const LONG: &[u8] =
    b"/nix/store/00000000000000000000000000000000-n0.drv Derive([(\"out\",\"/nix/store/aaaaaaaaaaaaaaaaaaaaaaaaaaaaaaaa-n0\",\"\",\"\")],[],[],\"x86_64-linux\",\"/bin/sh\",[],[(\"long\",\"";

/// What stands behind that value, and a line that is refused.
const AND_FAULTY: &[u8] = b"\")])\nx\n";

/// How many bytes that value has: more than a block.
const MIDDLE: u64 = 5_000_000;

/// What `ask` answers to this input on a park with the one builder `m`, and what it writes. Want of memory is
/// none.
fn asked<R: Threads + Sync, I: Read + Drop>(
    rt: &R,
    alloc: Global,
    input: I,
) -> Option<(Result<u8, CliFault>, Vec<u8>)> {
    let Ok(options) = options(alloc, builders(b"m")) else {
        return None;
    };
    let mut output = Told::new(Vec::new(alloc));
    let answer = ask_engine(rt, alloc, &options, &mut Told::new(input), &mut output);
    Some((answer, output.into_inner()))
}

/// Whether `ask` answers so to a text, so many bytes `x`, and another text, of which it gets few bytes at a time.
fn answers<R: Threads + Sync>(
    rt: &R,
    alloc: Global,
    before: &[u8],
    middle: u64,
    behind: &[u8],
    want: Want,
) -> bool {
    let long = EndlessReader::new(b"", b'x').take(middle);
    let input = before.chain(long).chain(CountedReader::new(behind, 2, 9));
    match asked(rt, alloc, input) {
        Some((answer, written)) => is_answer(alloc, answer, written.as_slice(), want),
        None => false,
    }
}

/// How many bytes the first block of a bundle has.
const FIRST: u64 = 2_097_152;

/// How many the first two have.
const BOTH: u64 = 6_291_456;

/// How many bytes that value has in a bundle of so many bytes whose other text is this.
fn middle_of(size: u64, behind: &[u8]) -> u64 {
    size.saturating_sub(LONG.len() as u64)
        .saturating_sub(behind.len() as u64)
}

/// Whether `ask` answers that its reader failed, behind a faulty line and many bytes, and writes nothing.
fn is_stopped<R: Threads + Sync>(rt: &R, alloc: Global) -> bool {
    let faulty: &[u8] = b"x\n";
    let long = EndlessReader::new(b"", b'x').take(MIDDLE);
    let input = faulty.chain(long).chain(CountedReader::new(b"", 1, 0));
    match asked(rt, alloc, input) {
        Some((Err(CliFault::Read), written)) => written.is_empty(),
        _ => false,
    }
}

#[test]
fn line_over_two_blocks(rt: HostRuntime) {
    let replies = Want::Written(b"# accept\nssh://m\n");
    assert!(rt; answers(&rt, rt.alloc(), LONG, MIDDLE, JSON_END, replies));
}

#[test]
fn faulty_line_behind_a_block(rt: HostRuntime) {
    let refused = Want::Refused("nix-dispatch: drvs: BadLine 2");
    assert!(rt; answers(&rt, rt.alloc(), LONG, MIDDLE, AND_FAULTY, refused));
}

#[test]
fn refused_read_behind_a_faulty_line(rt: HostRuntime) {
    assert!(rt; is_stopped(&rt, rt.alloc()));
}

#[test]
fn bundles_about_as_long_as_the_first_blocks(rt: HostRuntime) {
    for size in [FIRST - 1, FIRST, FIRST + 1, BOTH, BOTH + 1] {
        let replies = Want::Written(b"# accept\nssh://m\n");
        let middle = middle_of(size, JSON_END);
        assert!(rt; answers(&rt, rt.alloc(), LONG, middle, JSON_END, replies));
        let refused = Want::Refused("nix-dispatch: drvs: BadLine 2");
        let middle = middle_of(size, AND_FAULTY);
        assert!(rt; answers(&rt, rt.alloc(), LONG, middle, AND_FAULTY, refused));
    }
}
