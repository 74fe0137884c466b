//! The scribe of a run, over a journal that refuses its calls.

ghost use Rattle.std.specs.Prelude.{◌≡◌, []};
ghost use Rattle.std.specs.Bool.{OnTrue};
ghost use Rattle.nd_history.specs.Sameness.{BeginsWith};

use nd_history::{Entry, Why};
use nd_keeping::Scribe;
use nd_test_fixtures::journals::MemoryJournal;
use std::alloc::Global;

/// The text of three entries in a journal.
const WHOLE: &[u8] = b"nix-dispatch-history 2\nchosen 0 0 0\nfailed 0 lost\nstop\n";

/// The text of the first two of them.
const PART: &[u8] = b"nix-dispatch-history 2\nchosen 0 0 0\nfailed 0 lost\n";

/// Three entries.
fn entries(alloc: Global) -> Option<Vec<Entry>> {
    let mut entries = Vec::new(alloc);
    let chosen = Entry::Chosen {
        drv: 0,
        machine: 0,
        slot: 0,
    };
    let failed = Entry::Failed {
        drv: 0,
        why: Why::Lost,
    };
    entries.push(chosen).ok()?;
    entries.push(failed).ok()?;
    entries.push(Entry::Stop).ok()?;
    Some(entries)
}

/// Hands these entries over, which are all so far. It says whether they were taken, and whether they are kept then.
fn hand_over(scribe: &mut Scribe<MemoryJournal>, entries: &[Entry]) -> (bool, bool)
    requires begins { BeginsWith entries.now scribe.old.handed.entries }
    ensures handed { OnTrue result.0 (scribe.new.handed.entries ≡ entries.now) }
{
    match scribe.take(entries) {
        Ok(()) => {}
        Err(_) => return (false, false),
    }
    (true, scribe.keep().is_ok())
}

/// Hands the first two entries over, and then all. It says whether each time they are kept.
fn hand_both(scribe: &mut Scribe<MemoryJournal>, entries: &[Entry]) -> Option<(bool, bool)>
    requires none { scribe.old.handed.entries ≡ [] }
{
    if entries.len() < 2 {
        return None;
    }
    let (first, _) = entries.split_at(2);
    let (taken, first_kept) = hand_over(scribe, first);
    if !taken {
        return None;
    }
    let (taken, all_kept) = hand_over(scribe, entries);
    if !taken {
        return None;
    }
    Some((first_kept, all_kept))
}

/// What a journal that grants so many calls comes to: how many entries are kept in the end, and whether just this
/// text of them is durable.
fn comes_to(alloc: Global, grants: usize, kept: usize, durable: &[u8]) -> bool {
    let Some(entries) = entries(alloc) else {
        return false;
    };
    let journal = MemoryJournal::holding(Vec::new(alloc), grants);
    let mut scribe = match Scribe::new(alloc, journal, false, &[]) {
        Ok(scribe) => scribe,
        Err(_) => return false,
    };
    let answers = hand_both(&mut scribe, entries.as_slice());
    let count = scribe.kept().len();
    let journal = scribe.into_journal();
    answers == Some((kept >= 2, kept >= 3)) && count == kept && journal.left(0) == durable
}

/// Each call of a journal is refused in turn. What is kept is what was synced, and the first line is written once.
#[test]
fn refusals_of_a_scribes_journal(rt: HostRuntime) {
    let alloc = rt.alloc();
    assert!(rt; comes_to(alloc, 0, 0, b""));
    assert!(rt; comes_to(alloc, 1, 0, b""));
    assert!(rt; comes_to(alloc, 2, 2, PART));
    assert!(rt; comes_to(alloc, 3, 2, PART));
    assert!(rt; comes_to(alloc, 4, 3, WHOLE));
}
