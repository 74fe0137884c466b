//! What stands after a call on a dispatch was refused for want of memory. The tests pass with ample
//! memory too: `checks/allocations.sh` refuses their allocations in turn.

use crate::tests::calls::make;
use nd_history::Why;
use nd_ledger::{Dispatch, Refusal};
use nd_test_fixtures::bundles::FLIGHT;
use nd_test_fixtures::entries::told;
use nd_test_fixtures::parks::{Unmade, builders_alone, close, dispatch_of};
use std::alloc::Global;
use std::test::Fail;

/// Whether each live lease of the two derivations is ended by `failed`, and `stop` succeeds then.
fn ends(dispatch: &mut Dispatch) -> bool {
    for drv in 0..2u32 {
        if let Some(ticket) = dispatch.lease(drv) {
            if dispatch.failed(ticket, Why::Memory).is_err() {
                return false;
            }
        }
    }
    dispatch.lease(0).is_none() && dispatch.lease(1).is_none() && dispatch.stop().is_ok()
}

/// What became of a run of calls.
#[derive(Clone, Copy, Debug, PartialEq, Eq)]
enum Ending {
    /// No call was refused for want of memory.
    Ample,
    /// A call was, and this says whether it left the dispatch as it should.
    Refused(bool),
}

/// Makes one call. Where it is refused for want of memory, the history is to be as before.
fn call(alloc: Global, dispatch: &mut Dispatch, line: &str) -> Result<Ending, Unmade> {
    let before = told(alloc, dispatch.history())?;
    match make(alloc, dispatch, line) {
        Err(Refusal::Memory) => {
            let after = told(alloc, dispatch.history())?;
            let same = after.as_slice() == before.as_slice();
            Ok(Ending::Refused(same && ends(dispatch)))
        }
        _ => Ok(Ending::Ample),
    }
}

/// Pumps. Where this is refused, the steps made are to stand: they are the first of these.
fn pump(alloc: Global, dispatch: &mut Dispatch, steps: &str) -> Result<Ending, Unmade> {
    let before = told(alloc, dispatch.history())?;
    match dispatch.pump() {
        Err(_) => {
            let after = told(alloc, dispatch.history())?;
            let made = after.as_slice().get(before.len()..).unwrap_or(b"");
            let stand = after.as_slice().starts_with(before.as_slice());
            let first = steps.as_bytes().starts_with(made);
            Ok(Ending::Refused(stand && first && ends(dispatch)))
        }
        Ok(_) => Ok(Ending::Ample),
    }
}

/// Asks for the job of a lease. Where this is refused, the history is to be as before.
fn ask_job(alloc: Global, dispatch: &mut Dispatch, drv: u32) -> Result<Ending, Unmade> {
    let before = told(alloc, dispatch.history())?;
    let Some(ticket) = dispatch.lease(drv) else {
        return Err(Unmade::Input);
    };
    if dispatch.job(alloc, &ticket).is_ok() {
        return Ok(Ending::Ample);
    }
    let after = told(alloc, dispatch.history())?;
    let same = after.as_slice() == before.as_slice();
    Ok(Ending::Refused(same && ends(dispatch)))
}

/// The calls of `copies_in_flight`, and then the other ones that take memory.
const CALLS: &str =
    "startwith 1 s3\nstartwith 0 s1 s2\nstartwith 1 s1 s2 s3\nstartwith 1 s1 s3\nstart 1\nbuilt 0 o s1\ndrain 1\nenable 1\nbuilt 1 o s3";

/// Makes these calls until one is refused for want of memory.
fn calls(alloc: Global, dispatch: &mut Dispatch) -> Result<Ending, Unmade> {
    for line in CALLS.split('\n') {
        let ending = call(alloc, dispatch, line)?;
        if ending != Ending::Ample {
            return Ok(ending);
        }
    }
    Ok(Ending::Ample)
}

/// A pump, a job and these calls, until one is refused for want of memory.
fn run(alloc: Global, dispatch: &mut Dispatch) -> Result<Ending, Unmade> {
    let pumped = pump(alloc, dispatch, "chosen 0 1 0\nchosen 1 1 1\n")?;
    if pumped != Ending::Ample {
        return Ok(pumped);
    }
    let asked = ask_job(alloc, dispatch, 0)?;
    if asked != Ending::Ample {
        return Ok(asked);
    }
    calls(alloc, dispatch)
}

/// The same on a new dispatch.
fn copies(alloc: Global) -> Result<Ending, Unmade> {
    match dispatch_of(alloc, &builders_alone(FLIGHT, "m - - 2")) {
        Ok(mut dispatch) => {
            let ending = run(alloc, &mut dispatch);
            close(dispatch);
            ending
        }
        Err(why) => Err(why),
    }
}

#[test]
fn allocations_refused(rt: HostRuntime) -> Result<(), Fail> {
    let ending = copies(rt.alloc());
    assert_ne!(rt; ending, Ok(Ending::Refused(false)));
    assert_ne!(rt; ending, Err(Unmade::Input));
    if ending == Ok(Ending::Refused(true)) {
        println!(rt; "a call was refused")?;
    }
    Ok(())
}
