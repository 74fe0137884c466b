//! What `run` is given, for the tests beside this file.

use nd_bytes::ByteString;
use nd_cli::{CliFault, ParkOptions};
use nd_devices::Told;
use nd_receipts::ParkPlace;
use nd_run_command::{RunInputs, places, run_inputs};
use nd_script::Rule;
use nd_test_fixtures::printing::is_printed;
use std::alloc::Global;
use std::thread::Threads;

/// What a command line and its files say.
#[derive(Clone, Copy)]
pub struct Words<'a> {
    pub builders: &'a str,
    pub jobs: u16,
    pub info: &'a str,
    pub stand: &'a str,
}

/// What is looked at of what `run` is given.
#[derive(Drop)]
pub struct Seen {
    /// How many derivations, builders and entries there are.
    pub sizes: (usize, usize, usize),
    pub rules: Vec<Rule>,
    pub places: Result<Vec<ParkPlace>, CliFault>,
}

/// A byte string with this text, or an empty one where there is no memory.
fn bytes(alloc: Global, text: &str) -> ByteString {
    match ByteString::from_slice(alloc, text.as_bytes()) {
        Ok(bytes) => bytes,
        Err(_) => ByteString::new(Vec::new(alloc)),
    }
}

fn options(alloc: Global, builders: ByteString, info: ByteString, jobs: u16) -> ParkOptions {
    ParkOptions {
        builders,
        system: bytes(alloc, "x86_64-linux"),
        extra: bytes(alloc, ""),
        features: bytes(alloc, ""),
        jobs,
        keep_going: false,
        check_paths: false,
        info,
    }
}

/// What `run` is given by these words and this bundle.
pub(crate) fn given<R: Threads + Sync>(
    rt: &R,
    alloc: Global,
    words: &Words,
    bundle: &str,
) -> Result<Seen, CliFault> {
    let builders = bytes(alloc, words.builders);
    let options = options(alloc, builders, bytes(alloc, words.info), words.jobs);
    let mut input = Told::new(bundle.as_bytes());
    let given = run_inputs(rt, alloc, &options, words.stand.as_bytes(), &mut input);
    drop(options);
    match given {
        Ok(given) => Ok(look_at(alloc, given)),
        Err(fault) => Err(fault),
    }
}

/// Looks at what `run` is given, and lets it go.
fn look_at(alloc: Global, given: RunInputs) -> Seen {
    let RunInputs { dispatch, rules } = given;
    let sizes = (
        dispatch.graph().len(),
        dispatch.machines().len(),
        dispatch.history().len(),
    );
    let places = places(alloc, &dispatch);
    drop(dispatch);
    Seen {
        sizes,
        rules,
        places,
    }
}

/// Whether this answer is a refusal with status 3 and this line.
pub(crate) fn is_refused<T: Drop>(alloc: Global, answer: Result<T, CliFault>, line: &str) -> bool {
    match answer {
        Ok(_) => false,
        Err(fault) => fault.status() == 3 && is_printed(alloc, &fault, line),
    }
}
