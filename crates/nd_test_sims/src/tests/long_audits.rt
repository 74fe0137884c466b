//! Long histories of random worlds, audited by one thread and by two: what a simulation made, with a line of it left
//! out, doubled or moved, behind so many entries that it begins in one batch of entries and ends in the next one.

ghost use Rattle.std.specs.Prelude.{◌≤◌, length, IfSome};

use crate::tests::drawing::Scribe;
use crate::tests::running::{Call, written};
use crate::tests::worlds::{Texts, draw, place_of};
use nd_bytes::Items;
use nd_cli::{Park, take_park};
use nd_devices::Told;
use nd_history::{Entry, Inputs};
use nd_history_text::read_history;
use nd_report::{AuditError, audit, audit_side_by_side};
use nd_test_fixtures::histories::VERSION_2;
use nd_test_fixtures::places::{Place, options};
use std::alloc::{AllocError, Global};
use std::thread::Threads;

/// How many worlds are audited.
const WORLDS: usize = 96;

/// How often the local machine is drained and enabled before the entries of a world. A batch has 4,096 entries.
const DRAINS: usize = 2_042;

/// The first words of the lines that are entries.
const WORDS: [&[u8]; 9] = [
    b"chosen",
    b"nobuilder",
    b"started",
    b"down",
    b"built",
    b"failed",
    b"stop",
    b"drain",
    b"enable",
];

/// Whether this line of a simulation is an entry.
fn is_entry(line: &[u8]) -> bool {
    let word = line.split(|byte| *byte == b' ').next();
    WORDS.iter().any(|known| word == Some(*known))
}

/// The entries of what a simulation writes. A report stands behind them, which begins with the total.
fn entries_of(alloc: Global, text: &[u8]) -> Result<Vec<&[u8]>, AllocError> {
    let mut entries = Vec::new(alloc);
    for line in text.split(|byte| *byte == b'\n') {
        if line.starts_with(b"total ") {
            break;
        }
        if is_entry(line) {
            entries.push(line)?;
        }
    }
    Ok(entries)
}

/// What is done to a history.
#[derive(Clone, Copy)]
enum Change {
    /// Nothing.
    None,
    /// The line at this place is left out.
    Without(usize),
    /// It stands twice.
    Twice(usize),
    /// It is the last one.
    Last(usize),
}

/// What is done to a history of so many entries.
fn change_of(scribe: &mut Scribe, entries: usize) -> Change {
    let place = scribe.below(entries);
    match scribe.below(4) {
        0 => Change::None,
        1 => Change::Without(place),
        2 => Change::Twice(place),
        _ => Change::Last(place),
    }
}

/// How often the line at a place stands there after a change.
fn times(change: Change, place: usize) -> usize {
    match change {
        Change::Without(at) | Change::Last(at) if at == place => 0,
        Change::Twice(at) if at == place => 2,
        _ => 1,
    }
}

/// The text of a history with these entries, one of them changed.
fn history_of(alloc: Global, entries: &[&[u8]], change: Change) -> Result<Vec<u8>, AllocError> {
    let mut text = Vec::from_slice(alloc, VERSION_2.as_bytes())?;
    for (place, line) in entries.iter().enumerate() {
        for _time in 0..times(change, place) {
            put_line(&mut text, line)?;
        }
    }
    if let Change::Last(at) = change {
        if let Some(line) = entries.get(at) {
            put_line(&mut text, line)?;
        }
    }
    Ok(text)
}

/// Writes a line.
fn put_line(text: &mut Vec<u8>, line: &[u8]) -> Result<(), AllocError> {
    text.extend_from_slice(line)?;
    text.push(b'\n')?;
    Ok(())
}

/// The entries of a history behind the drains. `None` also where memory is wanting.
fn long_history(alloc: Global, text: &[u8]) -> Option<Vec<Entry>> {
    let mut long = Vec::new(alloc);
    for _time in 0..DRAINS {
        long.push(Entry::Drain { machine: 0 }).ok()?;
        long.push(Entry::Enable { machine: 0 }).ok()?;
    }
    for entry in read_history(alloc, text).ok()? {
        long.push(entry).ok()?;
    }
    Some(long)
}

/// The park of a world. `None` where memory is wanting.
fn park_of<R: Threads + Sync>(rt: &R, alloc: Global, place: &Place<'_>) -> Option<Park>
    ensures { IfSome result (λ park. length park.machines.items ≤ 1024) }
{
    let mut bundle = Told::new(place.bundle.as_bytes());
    take_park(rt, alloc, &options(alloc, place), &mut bundle).ok()
}

/// What an audit by one thread says of the history of this text. `None` where there is none.
fn answer_alone<R: Threads + Sync>(
    rt: &R,
    alloc: Global,
    place: &Place<'_>,
    text: &[u8],
) -> Option<Result<(), AuditError>> {
    let entries = long_history(alloc, text)?;
    let park = park_of(rt, alloc, place)?;
    Some(audit(
        alloc,
        park.graph,
        park.machines,
        park.local,
        park.info,
        place.keep_going,
        entries,
    ))
}

/// What an audit by two says of it.
fn answer_beside<R: Threads + Sync>(
    rt: &R,
    alloc: Global,
    place: &Place<'_>,
    text: &[u8],
) -> Option<Result<(), AuditError>> {
    let entries = long_history(alloc, text)?;
    let park = park_of(rt, alloc, place)?;
    let inputs = Inputs {
        graph: park.graph,
        machines: Items::new(park.machines),
        local: park.local,
        info: park.info,
        keep_going: place.keep_going,
    };
    match audit_side_by_side(rt, alloc, &inputs, entries) {
        Ok(_audited) => Some(Ok(())),
        Err(error) => Some(Err(error)),
    }
}

/// What both say of a world's history, changed so. `None` where they don't say the same, or memory is wanting.
fn said_of<R: Threads + Sync>(
    rt: &R,
    alloc: Global,
    world: usize,
) -> Option<Result<(), AuditError>> {
    let texts: Texts = draw(alloc, world);
    let place = place_of(alloc, world, &texts);
    let (_status, writer) = written(rt, alloc, &place, Call::Sim(texts.script().as_bytes()))?;
    let entries = entries_of(alloc, writer.bytes()).ok()?;
    let mut scribe = Scribe::new(alloc, world, 5);
    let change = change_of(&mut scribe, entries.len());
    let text = history_of(alloc, &entries, change).ok()?;
    let alone = answer_alone(rt, alloc, &place, &text)?;
    let beside = answer_beside(rt, alloc, &place, &text)?;
    if alone == beside { Some(alone) } else { None }
}

#[test]
fn two_threads_say_what_one_says(rt: HostRuntime) {
    let mut legal: usize = 0;
    for world in 0..WORLDS {
        let said = said_of(&rt, rt.alloc(), world);
        assert!(rt; said.is_some(), "world {world}");
        if said == Some(Ok(())) {
            legal = legal.wrapping_add(1);
        }
    }
    assert!(rt; legal > 20 && legal < 80, "{legal} of {WORLDS} are legal");
}
