//! What each entry of a program is, learnt by looking at it.

ghost use Rattle.std.specs.Prelude.{◌≡◌, ◌≤◌};
ghost use Rattle.std.specs.List.{All};
ghost use Rattle.nd_path.specs.Refusals.{IsPath};
ghost use Rattle.nd_history_text.specs.Sound.{greatest, IsPathSet, IsSound, IsSoundCause};

use nd_history::{Entry, Why};
use nd_path::{PathSet, StorePath};

/// Looks at these entries. Each reads back from its line, since its numbers and its paths are what their types
/// say.
// For the proof: what a type says of a value behind a reference is known once that is read.
pub fn look_at(entries: &[Entry])
    ensures { All IsSound entries.now }
{
    for entry in entries {
        look_at_entry(entry);
    }
}

/// Looks at an entry.
fn look_at_entry(entry: &Entry)
    ensures { IsSound entry.now }
{
    match entry {
        Entry::Chosen { drv, machine, slot } => {
            look_at_number(drv);
            look_at_number(machine);
            look_at_number(slot);
        }
        Entry::NoBuilder { drv } => look_at_number(drv),
        Entry::Started { drv, paths } => {
            look_at_number(drv);
            look_at_set(paths);
        }
        Entry::Down { drv } => look_at_number(drv),
        Entry::Built { drv, refs } => {
            look_at_number(drv);
            look_at_sets(refs.lists());
        }
        Entry::Failed { drv, why } => {
            look_at_number(drv);
            look_at_cause(*why);
        }
        Entry::Stop => {}
        Entry::Drain { machine } => look_at_number(machine),
        Entry::Enable { machine } => look_at_number(machine),
    }
}

/// Looks at a number.
fn look_at_number(number: &u32)
    ensures { number.now ≤ greatest }
{
    let _number = *number;
}

/// Looks at why a lease ended.
fn look_at_cause(why: Why)
    ensures { IsSoundCause why }
{
    match why {
        Why::Status(_status) => {}
        Why::Lost => {}
        Why::BadReferences => {}
        Why::NoWorker => {}
        Why::Memory => {}
    }
}

/// Looks at sets of paths.
fn look_at_sets(sets: &[PathSet])
    ensures { All IsPathSet sets.now }
{
    for set in sets {
        look_at_set(set);
    }
}

/// Looks at a set of paths.
#[tactic(auto, using(crate::proofs::Looked::looks))]
fn look_at_set(set: &PathSet)
    ensures { IsPathSet set.now }
{
    look_at_paths(set.as_slice());
}

/// Looks at paths.
fn look_at_paths(paths: &[StorePath])
    ensures { All IsPath paths.now }
{
    for path in paths {
        let _bytes = path.bytes();
    }
}
