//! The worked examples of runs.

use crate::tests::parks::{close_refused, close_run, dispatch, ran, stand_at, stand_in, stands};
use nd_closure::Refs;
use nd_ledger::Dispatch;
use nd_path::{PathSet, StorePath};
use nd_receipts::{ParkPlace, Receipt};
use nd_run_desk::abandon;
use nd_script::Rule;
use nd_test_fixtures::bundles::{CHAIN, PLAIN_1, PLAIN_2, S3};
use nd_test_fixtures::entries::told;
use nd_test_fixtures::parks::close;
use nd_transports::{StandIn, Transport};
use nd_workers::{NotRun, Ran, RunError, Seat};
use std::alloc::Global;
use std::sync::Wait;
use std::test::Fail;
use std::thread::Threads;

/// Whether these are the history's lines.
pub(crate) fn has_lines(alloc: Global, dispatch: &Dispatch, lines: &str) -> bool {
    match told(alloc, dispatch.history()) {
        Ok(found) => found.as_slice() == lines.as_bytes(),
        Err(_) => false,
    }
}

/// Whether these are the numbers of the entries and of the calls of a worker's receipts.
fn has_receipts(receipts: &[Receipt], numbers: &[(usize, u8)]) -> bool {
    if receipts.len() != numbers.len() {
        return false;
    }
    for place in 0..receipts.len() {
        if receipts[place].index != numbers[place].0 || receipts[place].calls != numbers[place].1 {
            return false;
        }
    }
    true
}

/// What the stand-ins of an example do beside connecting, copying and building.
#[derive(Clone, Copy)]
pub(crate) enum Stand {
    /// Nothing else.
    Plain,
    /// Each connect on this machine is refused.
    NoConnect(u32),
    /// Each copy on this machine is refused.
    NoCopy(u32),
    /// The transport is lost in the build of derivation 0.
    Lose,
    /// Derivation 0 reports so many empty lists.
    Lists(u8),
    /// Derivation 0 reports a source of no node.
    Stranger,
    /// So many calls pass.
    Fuse(u32),
}

/// The set of a source of no node.
fn stranger(alloc: Global) -> Option<PathSet> {
    let path = StorePath::parse(alloc, S3.as_bytes()).ok()?;
    let mut paths = Vec::new(alloc);
    paths.push(path).ok()?;
    PathSet::from_vec(paths).ok()
}

/// So many empty lists of references.
fn empty_lists(alloc: Global, lists: u8) -> Option<Refs> {
    let mut sets = Vec::new(alloc);
    for _ in 0..lists {
        sets.push(PathSet::new(alloc)).ok()?;
    }
    Some(Refs::new(sets))
}

/// The list of a source of no node.
fn strange_lists(alloc: Global) -> Option<Refs> {
    let mut sets = Vec::new(alloc);
    sets.push(stranger(alloc)?).ok()?;
    Some(Refs::new(sets))
}

/// The rule of a stand-in.
fn rule_of(alloc: Global, stand: Stand) -> Option<Rule> {
    match stand {
        Stand::Plain | Stand::Fuse(_) => Some(Rule::NoConnect(9)),
        Stand::NoConnect(machine) => Some(Rule::NoConnect(machine)),
        Stand::NoCopy(machine) => Some(Rule::NoCopy(machine)),
        Stand::Lose => Some(Rule::Lose(0)),
        Stand::Lists(lists) => Some(Rule::Built(0, empty_lists(alloc, lists)?)),
        Stand::Stranger => Some(Rule::Built(0, strange_lists(alloc)?)),
    }
}

/// Puts a worker on this place, whose stand-in does so.
fn push_worker(
    alloc: Global,
    seats: &mut Vec<Seat<StandIn>>,
    place: ParkPlace,
    stand: Stand,
) -> Option<()> {
    let passes = match stand {
        Stand::Fuse(passes) => Some(passes),
        _ => None,
    };
    let rule = rule_of(alloc, stand)?;
    seats.push(stand_at(alloc, place, rule, passes)?).ok()
}

/// Workers on these places, whose stand-ins do so; fewer where memory is wanting.
pub(crate) fn workers(alloc: Global, places: &[ParkPlace], stand: Stand) -> Vec<Seat<StandIn>> {
    let mut seats = Vec::new(alloc);
    for place in places {
        push_worker(alloc, &mut seats, *place, stand);
    }
    seats
}

/// The first slot of machine 1.
pub(crate) const FIRST: ParkPlace = ParkPlace {
    machine: 1,
    slot: 0,
};

/// The first slot of machine 2.
pub(crate) const SECOND: ParkPlace = ParkPlace {
    machine: 2,
    slot: 0,
};

/// The one place of a park with one slot.
const ONE: [ParkPlace; 1] = [FIRST];

/// The places of two machines with a slot each.
pub(crate) const TWO: [ParkPlace; 2] = [FIRST, SECOND];

/// Whether a run ended without a fault and with these lines.
fn is_end(alloc: Global, end: Ran<StandIn>, lines: &str) -> bool {
    let right = end.fault.is_none() && has_lines(alloc, &end.dispatch, lines);
    close_run(end);
    right
}

/// Whether a run of this dispatch ends without a fault and with these lines.
fn gives<R: Threads + Wait + Sync>(
    rt: &R,
    alloc: Global,
    opened: Option<Dispatch>,
    places: &[ParkPlace],
    stand: Stand,
    lines: &str,
) -> bool {
    let Some(opened) = opened else {
        return false;
    };
    match ran(rt, opened, workers(alloc, places, stand)) {
        Ok(end) => is_end(alloc, end, lines),
        Err(refused) => {
            close_refused(refused);
            false
        }
    }
}

/// A run over a bundle and these builders alone, by workers whose stand-ins do so, and the lines of its history.
#[derive(Clone, Copy)]
struct Example {
    bundle: &'static str,
    builders: &'static str,
    stand: Stand,
    lines: &'static str,
}

/// Whether the runs of these examples by workers on these places end without a fault and with their lines.
fn are_given<R: Threads + Wait + Sync>(
    rt: &R,
    alloc: Global,
    places: &[ParkPlace],
    examples: &[Example],
) -> bool {
    for example in examples {
        let opened = dispatch(alloc, example.bundle, example.builders);
        if !gives(rt, alloc, opened, places, example.stand, example.lines) {
            return false;
        }
    }
    true
}

/// Whether these are the receipts of the two workers of a run.
fn are_receipts(receipts: &[Vec<Receipt>], first: &[(usize, u8)], second: &[(usize, u8)]) -> bool {
    match (receipts.get(0), receipts.get(1)) {
        (Some(one), Some(two)) => {
            has_receipts(one.as_slice(), first) && has_receipts(two.as_slice(), second)
        }
        _ => false,
    }
}

/// Whether these are the receipts of the two workers of a run of this dispatch.
fn gives_receipts<R: Threads + Wait + Sync>(
    rt: &R,
    opened: Option<Dispatch>,
    seats: Vec<Seat<StandIn>>,
    first: &[(usize, u8)],
    second: &[(usize, u8)],
) -> bool {
    let Some(opened) = opened else {
        return false;
    };
    match ran(rt, opened, seats) {
        Ok(end) => {
            let right = are_receipts(end.receipts.as_slice(), first, second);
            close_run(end);
            right
        }
        Err(refused) => {
            close_refused(refused);
            false
        }
    }
}

/// Whether these are the receipts of the workers of two machines of a run over a plain node, of which the second one's are
/// those of a build.
fn builds_elsewhere<R: Threads + Wait + Sync>(
    rt: &R,
    alloc: Global,
    stand: Stand,
    first: &[(usize, u8)],
) -> bool {
    let plain = dispatch(alloc, PLAIN_1, "m;n");
    gives_receipts(
        rt,
        plain,
        workers(alloc, &TWO, stand),
        first,
        &[(3, 2), (4, 1)],
    )
}

/// Whether the worker of machine 1 has a receipt of its one call or its two where these are refused.
fn gives_refused_receipts<R: Threads + Wait + Sync>(rt: &R, alloc: Global) -> bool {
    builds_elsewhere(rt, alloc, Stand::NoConnect(1), &[(1, 1)])
        && builds_elsewhere(rt, alloc, Stand::NoCopy(1), &[(1, 2)])
}

/// The history of the stored run.
const STORED: &str =
    "chosen 0 1 0\nstarted 0 s1\nbuilt 0 o\nchosen 1 1 0\nstarted 1\nbuilt 1 o\nchosen 2 1 0\nstarted 2\nbuilt 2 o\n";

/// A transport of whatever type.
type AnyTransport = Box<dyn Transport + Send>;

/// Whether a run ended with the stored run's history, and with the receipts that belong to it.
fn is_stored(alloc: Global, end: Ran<AnyTransport>) -> bool {
    let Ran {
        dispatch,
        workers: _,
        receipts,
        evidence: _,
        fault,
    } = end;
    let told = has_lines(alloc, &dispatch, STORED);
    close(dispatch);
    let noted = match receipts.get(0) {
        Some(receipts) => has_receipts(
            receipts.as_slice(),
            &[(1, 2), (2, 1), (4, 2), (5, 1), (7, 2), (8, 1)],
        ),
        None => false,
    };
    told && noted && fault.is_none()
}

/// Whether the stored run by this worker gives its history, and the receipts that belong to it.
fn gives_stored<R: Threads + Wait + Sync>(
    rt: &R,
    alloc: Global,
    workers: Vec<Seat<AnyTransport>>,
) -> bool {
    let Some(opened) = dispatch(alloc, CHAIN, "m") else {
        return false;
    };
    match ran(rt, opened, workers) {
        Ok(end) => is_stored(alloc, end),
        Err(refused) => {
            close(refused.dispatch);
            false
        }
    }
}

/// The worker of the stored run.
fn stored_worker(alloc: Global) -> Result<Vec<Seat<AnyTransport>>, Fail> {
    let stand = stand_in(alloc, 1, Vec::new(alloc))?;
    let transport: AnyTransport = Box::new(alloc, stand)?;
    let worker = Seat {
        place: FIRST,
        transport,
    };
    Ok(vec![in alloc; worker]?)
}

#[test]
fn stored_run(rt: HostRuntime) -> Result<(), Fail> {
    let workers = stored_worker(rt.alloc())?;
    assert!(rt; gives_stored(&rt, rt.alloc(), workers));
    Ok(())
}

/// The history where machine 1 isn't reached, and machine 2 is.
const ELSEWHERE: &str = "chosen 0 1 0\ndown 0\nchosen 0 2 0\nstarted 0\nbuilt 0 o\n";

/// A connect, and a copy, that machine 1 refuses.
const REFUSED: [Example; 2] = [
    Example {
        bundle: PLAIN_1,
        builders: "m;n",
        stand: Stand::NoConnect(1),
        lines: ELSEWHERE,
    },
    Example {
        bundle: PLAIN_1,
        builders: "m;n",
        stand: Stand::NoCopy(1),
        lines: ELSEWHERE,
    },
];

/// A build that is lost, and one that reports what it may not have.
const LOST: [Example; 2] = [
    Example {
        bundle: PLAIN_1,
        builders: "m",
        stand: Stand::Lose,
        lines: "chosen 0 1 0\nstarted 0\nfailed 0 lost\n",
    },
    Example {
        bundle: PLAIN_1,
        builders: "m",
        stand: Stand::Stranger,
        lines: "chosen 0 1 0\nstarted 0\nfailed 0 references\n",
    },
];

/// A run over no derivation.
const EMPTY: [Example; 1] = [Example {
    bundle: "",
    builders: "m",
    stand: Stand::Plain,
    lines: "",
}];

/// A run without a machine.
const UNMANNED: [Example; 1] = [Example {
    bundle: PLAIN_1,
    builders: "",
    stand: Stand::Plain,
    lines: "nobuilder 0\n",
}];

#[test]
fn refused_connect(rt: HostRuntime) {
    let alloc = rt.alloc();
    assert!(rt; are_given(&rt, alloc, &TWO, &REFUSED));
    assert!(rt; gives_refused_receipts(&rt, alloc));
}

#[test]
fn lost_build(rt: HostRuntime) {
    assert!(rt; are_given(&rt, rt.alloc(), &ONE, &LOST));
}

#[test]
fn empty_run(rt: HostRuntime) {
    let alloc = rt.alloc();
    assert!(rt; are_given(&rt, alloc, &ONE, &EMPTY));
    assert!(rt; are_given(&rt, alloc, &[], &UNMANNED));
}

/// Whether a refused run hands back so many workers and a dispatch without entries, and this cause.
fn is_refused(alloc: Global, refused: NotRun<StandIn>, count: usize, why: RunError) -> bool {
    let right = refused.why == why
        && refused.workers.len() == count
        && has_lines(alloc, &refused.dispatch, "");
    close_refused(refused);
    right
}

/// Whether a run is refused so, and hands back the dispatch and so many workers.
fn refuses<R: Threads + Wait + Sync>(
    rt: &R,
    alloc: Global,
    builders: &str,
    seats: Vec<Seat<StandIn>>,
    why: RunError,
) -> bool {
    let Some(opened) = dispatch(alloc, PLAIN_1, builders) else {
        return false;
    };
    let count = seats.len();
    match ran(rt, opened, seats) {
        Ok(end) => {
            close_run(end);
            false
        }
        Err(refused) => is_refused(alloc, refused, count, why),
    }
}

/// Whether a run without a worker, one by two workers on one place and one by more than 1,024 workers are refused.
fn refuses_workers<R: Threads + Wait + Sync>(rt: &R, alloc: Global) -> bool {
    let none = workers(alloc, &[], Stand::Plain);
    let twice = workers(alloc, &[FIRST, FIRST], Stand::Plain);
    refuses(rt, alloc, "m", none, RunError::Slots)
        && refuses(rt, alloc, "m", twice, RunError::Slots)
        && refuses(
            rt,
            alloc,
            "m - - 1025",
            stands(alloc, 1025),
            RunError::TooManySlots,
        )
}

#[test]
fn refused_run(rt: HostRuntime) {
    assert!(rt; refuses_workers(&rt, rt.alloc()));
}

/// Whether two calls of `abandon` leave these lines after a pump.
fn abandons(alloc: Global, mut opened: Dispatch, lines: &str) -> bool {
    let pumped = opened.pump().is_ok();
    abandon(&mut opened, &ONE);
    let once = has_lines(alloc, &opened, lines);
    abandon(&mut opened, &ONE);
    let twice = has_lines(alloc, &opened, lines);
    close(opened);
    pumped && once && twice
}

#[test]
fn abandoned(rt: HostRuntime) {
    let alloc = rt.alloc();
    let lines = "chosen 0 1 0\nchosen 1 1 1\nstop\nfailed 1 noworker\n";
    let held = match dispatch(alloc, PLAIN_2, "m - - 2") {
        Some(opened) => abandons(alloc, opened, lines),
        None => false,
    };
    assert!(rt; held);
}

/// Drains machine 1.
fn drain_first(opened: &mut Dispatch) -> bool {
    if opened.machines().is_empty() {
        return false;
    }
    opened.drain(1).is_ok()
}

/// The dispatch of one plain node and two machines, of which the first is drained.
fn drained(alloc: Global) -> Option<Dispatch> {
    let mut opened = dispatch(alloc, PLAIN_1, "m;n")?;
    if !drain_first(&mut opened) {
        close(opened);
        return None;
    }
    Some(opened)
}

/// The history where machine 1 is drained before the run.
const DRAINED: &str = "drain 1\nchosen 0 2 0\nstarted 0\nbuilt 0 o\n";

#[test]
fn drained_run(rt: HostRuntime) {
    let alloc = rt.alloc();
    assert!(rt; gives(&rt, alloc, drained(alloc), &TWO, Stand::Plain, DRAINED));
}

/// Leases the one node of a dispatch on slot 0 of machine 1, and starts the lease where asked to.
fn lease_first(alloc: Global, opened: &mut Dispatch, started: bool) -> bool {
    if opened.pump().is_err() {
        return false;
    }
    let Some(ticket) = opened.current(1, 0) else {
        return false;
    };
    if !started {
        return true;
    }
    opened.started(alloc, ticket, PathSet::new(alloc)).is_ok()
}

/// The dispatch of one plain node whose lease is live, and started where asked.
fn leased(alloc: Global, started: bool) -> Option<Dispatch> {
    let mut opened = dispatch(alloc, PLAIN_1, "m")?;
    if !lease_first(alloc, &mut opened, started) {
        close(opened);
        return None;
    }
    Some(opened)
}

/// Whether a run ended with these lines, and its one receipt is that of the third entry, the end of a lease that
/// was started before, behind so many calls.
fn is_taken_up(alloc: Global, end: Ran<StandIn>, calls: u8, lines: &str) -> bool {
    let noted = match end.receipts.get(0) {
        Some(row) => {
            has_receipts(row.as_slice(), &[(2, calls)]) && row.iter().all(|receipt| receipt.again)
        }
        None => false,
    };
    is_end(alloc, end, lines) && noted
}

/// Whether a run that goes on from a started lease ends so.
fn takes_up<R: Threads + Wait + Sync>(
    rt: &R,
    alloc: Global,
    stand: Stand,
    calls: u8,
    lines: &str,
) -> bool {
    let Some(opened) = leased(alloc, true) else {
        return false;
    };
    match ran(rt, opened, workers(alloc, &ONE, stand)) {
        Ok(end) => is_taken_up(alloc, end, calls, lines),
        Err(refused) => {
            close_refused(refused);
            false
        }
    }
}

/// Whether a lease that was started is taken up: its build is asked for again, and it is lost where its machine isn't
/// reached.
fn takes_up_started<R: Threads + Wait + Sync>(rt: &R, alloc: Global) -> bool {
    let lost = "chosen 0 1 0\nstarted 0\nfailed 0 lost\n";
    takes_up(rt, alloc, Stand::Plain, 3, BUILT)
        && takes_up(rt, alloc, Stand::Lose, 3, lost)
        && takes_up(rt, alloc, Stand::NoCopy(1), 2, lost)
        && takes_up(rt, alloc, Stand::NoConnect(1), 1, lost)
}

/// The history of one derivation that is built on machine 1.
const BUILT: &str = "chosen 0 1 0\nstarted 0\nbuilt 0 o\n";

/// A lease that is live when a run begins is taken up.
#[test]
fn taken_up(rt: HostRuntime) {
    let alloc = rt.alloc();
    let live = leased(alloc, false);
    assert!(rt; gives(&rt, alloc, live, &ONE, Stand::Plain, BUILT));
    assert!(rt; takes_up_started(&rt, alloc));
}

/// The history of the stored run where so many calls pass.
pub(crate) fn blown(passes: u32) -> &'static str {
    match passes {
        0 | 1 => "chosen 0 1 0\ndown 0\nnobuilder 0\n",
        2 => "chosen 0 1 0\nstarted 0 s1\nfailed 0 lost\n",
        3 | 4 => "chosen 0 1 0\nstarted 0 s1\nbuilt 0 o\nchosen 1 1 0\ndown 1\nnobuilder 1\n",
        5 => { "chosen 0 1 0\nstarted 0 s1\nbuilt 0 o\nchosen 1 1 0\nstarted 1\nfailed 1 lost\n" }
        6 | 7 => {
            "chosen 0 1 0\nstarted 0 s1\nbuilt 0 o\nchosen 1 1 0\nstarted 1\nbuilt 1 o\nchosen 2 1 0\ndown 2\nnobuilder 2\n"
        }
        8 => {
            "chosen 0 1 0\nstarted 0 s1\nbuilt 0 o\nchosen 1 1 0\nstarted 1\nbuilt 1 o\nchosen 2 1 0\nstarted 2\nfailed 2 lost\n"
        }
        _ => STORED,
    }
}

/// Whether a run of the chain on one slot gives what belongs to each fuse, up to one that isn't blown.
fn blows<R: Threads + Wait + Sync>(rt: &R, alloc: Global) -> bool {
    for passes in 0..10u32 {
        let chain = dispatch(alloc, CHAIN, "m");
        if !gives(rt, alloc, chain, &ONE, Stand::Fuse(passes), blown(passes)) {
            return false;
        }
    }
    true
}

#[test]
fn blown_fuse(rt: HostRuntime) {
    assert!(rt; blows(&rt, rt.alloc()));
}

/// The history of the chain where its first build reports what it may not have.
const MISREPORTED: &str = "chosen 0 1 0\nstarted 0 s1\nfailed 0 references\n";

/// The run of the chain on one slot whose first build reports so.
fn misreporting(stand: Stand) -> Example {
    Example {
        bundle: CHAIN,
        builders: "m",
        stand,
        lines: MISREPORTED,
    }
}

/// No list for the one output, two lists, and a list with a source of no node.
fn dishonest() -> [Example; 3] {
    [
        misreporting(Stand::Lists(0)),
        misreporting(Stand::Lists(2)),
        misreporting(Stand::Stranger),
    ]
}

#[test]
fn dishonest_transports(rt: HostRuntime) {
    assert!(rt; are_given(&rt, rt.alloc(), &ONE, &dishonest()));
}

/// What a run by one worker has of the references of its one build: how many lists were refused, and how many its
/// receipt has. None where none were refused, and where another entry, another worker or a missing thread is told.
fn refused_lists(end: &Ran<StandIn>) -> Option<(usize, usize)> {
    let evidence = &end.evidence;
    if end.fault.is_some() || evidence.refused || evidence.threads != 1 {
        return None;
    }
    let kept = evidence.misreports.at(2)?;
    let receipt = end.receipts.get(0)?.get(1)?;
    if receipt.index != 2 || evidence.misreports.at(1).is_some() {
        return None;
    }
    Some((kept.lists().len(), receipt.refs.lists().len()))
}

/// The refused lists of a run over the chain, whose worker does so.
fn judged<R: Threads + Wait + Sync>(rt: &R, alloc: Global, stand: Stand) -> Option<(usize, usize)> {
    let opened = dispatch(alloc, CHAIN, "m")?;
    match ran(rt, opened, workers(alloc, &ONE, stand)) {
        Ok(end) => {
            let lists = refused_lists(&end);
            close_run(end);
            lists
        }
        Err(refused) => {
            close_refused(refused);
            None
        }
    }
}

/// Whether references that a build may not have are handed back, as they were reported, and no other ones are.
fn judges<R: Threads + Wait + Sync>(rt: &R, alloc: Global) -> bool {
    judged(rt, alloc, Stand::Stranger) == Some((1, 1))
        && judged(rt, alloc, Stand::Lists(0)) == Some((0, 0))
        && judged(rt, alloc, Stand::Lists(2)) == Some((2, 2))
        && judged(rt, alloc, Stand::Plain).is_none()
        && judged(rt, alloc, Stand::Lose).is_none()
}

#[test]
fn judged_references(rt: HostRuntime) {
    assert!(rt; judges(&rt, rt.alloc()));
}
