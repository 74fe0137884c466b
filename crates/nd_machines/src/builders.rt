//! Reading a builders list.

ghost use Rattle.std.specs.Prelude.{◌≡◌, ◌≤◌, ◌∷◌, [], ℕ, List, IfOk, OnOk, IfErr};
ghost use Rattle.std.specs.Vec.{vec_len};
ghost use Rattle.nd_machines.specs.Fields.{fields};
ghost use Rattle.nd_machines.specs.Entries.{IsEntry};
ghost use Rattle.nd_machines.specs.BuildersList.{line_entries, machine, builders};
ghost use Rattle.nd_machines.specs.Adding.{Refuses, add_all};

use crate::fields::Entry;
use crate::machine::Machine;
use crate::machine_error::MachineError;
use crate::reading::{
    is_left_out, names_file, read_features, read_jobs, read_name, read_speed, read_systems,
    read_uri,
};
use nd_bytes::cut;
use std::alloc::Global;

/// The most machines that a list may name.
const MOST_MACHINES: usize = 1024;

/// The machines of a builders list, in the order of their entries, or why it is refused.
///
/// The text is cut into lines at newlines. What begins at a `#` is dropped from a line, and the rest
/// is cut into entries at `;`. The fields of an entry stand between spaces, tabs and returns: URI,
/// systems, key file, max jobs, speed factor, supported features, mandatory features and host key.
/// A field that is missing or `-` has its default, but for the URI, which is needed. An entry without
/// a field isn't counted (Nix Reference Manual, setting `builders`).
///
/// The first entry at fault is refused by its number, counted from 1: 1 `Uri`, 2 `Jobs`, 3 `Speed`,
/// 4 `Include`, 5 `TooMany` (entry 1,025); within an entry 5 comes first, then 4, 1, 2 and 3.
/// 6 `Memory` may come at any point.
#[tactic(auto, using(crate::proofs::Added::steps))]
pub fn parse_builders(
    alloc: Global,
    text: &[u8],
    this_system: &[u8],
) -> Result<Vec<Machine>, MachineError>
    ensures parsed { IfOk result (λ machines. builders this_system.now text.now ≡ Ok machines.items) }
    ensures refused { IfErr result (Refuses (builders this_system.now text.now)) }
    ensures at_most { IfOk result (λ machines. vec_len machines ≤ 1024) }
{
    let mut machines = Vec::new(alloc);
    let mut left = Some(text);
    while let Some(lines) = left {
        let (line, rest) = cut(lines, b'\n');
        add_line(alloc, &mut machines, line, this_system)?;
        left = rest;
    }
    Ok(machines)
}

/// Adds the machines of a line.
#[tactic(auto, using(crate::proofs::Added::steps))]
fn add_line(
    alloc: Global,
    machines: &mut Vec<Machine>,
    line: &[u8],
    this_system: &[u8],
) -> Result<(), MachineError>
    requires { vec_len machines.old ≤ 1024 }
    ensures added { OnOk result (add_all this_system.now machines.old.items (line_entries line.now) ≡ Ok machines.new.items) }
    ensures refused { IfErr result (Refuses (add_all this_system.now machines.old.items (line_entries line.now))) }
    ensures at_most { OnOk result (vec_len machines.new ≤ 1024) }
{
    let (described, _comment) = cut(line, b'#');
    let mut left = Some(described);
    while let Some(entries) = left {
        let (entry, rest) = cut(entries, b';');
        add_entry(alloc, machines, entry, this_system)?;
        left = rest;
    }
    Ok(())
}

/// Adds the machine of an entry, or nothing where the entry has no field.
#[tactic(auto, unfolding(crate::specs::Adding::add_all))]
fn add_entry(
    alloc: Global,
    machines: &mut Vec<Machine>,
    entry: &[u8],
    this_system: &[u8],
) -> Result<(), MachineError>
    requires { vec_len machines.old ≤ 1024 }
    ensures added { OnOk result (add_all this_system.now machines.old.items (fields entry.now ∷ []) ≡ Ok machines.new.items) }
    ensures refused { IfErr result (Refuses (add_all this_system.now machines.old.items (fields entry.now ∷ []))) }
    ensures at_most { OnOk result (vec_len machines.new ≤ 1024) }
{
    let Some(entry) = Entry::read(entry) else {
        return Ok(());
    };
    let machine = machine_of(alloc, &entry, machines.len() + 1, this_system)?;
    machines.push(machine)?;
    Ok(())
}

/// The machine of the entry with this number.
#[tactic(auto, unfolding(crate::specs::BuildersList::machine))]
fn machine_of(
    alloc: Global,
    entry: &Entry,
    number: usize,
    this_system: &[u8],
) -> Result<Machine, MachineError>
    ensures read { (fs : List (List ℕ)) → IsEntry entry.now fs → IfOk result (λ m. machine this_system.now number fs ≡ Ok m) }
    ensures refused { (fs : List (List ℕ)) → IsEntry entry.now fs → IfErr result (Refuses (machine this_system.now number fs)) }
    ensures at_most { OnOk result (number ≤ 1024) }
{
    if number > MOST_MACHINES {
        return Err(MachineError::TooMany(number));
    }
    if names_file(entry.uri) {
        return Err(MachineError::Include(number));
    }
    if is_left_out(entry.uri) {
        return Err(MachineError::Uri(number));
    }
    let Some(jobs) = read_jobs(entry.jobs) else {
        return Err(MachineError::Jobs(number));
    };
    let Some(speed) = read_speed(entry.speed) else {
        return Err(MachineError::Speed(number));
    };
    Ok(Machine {
        uri: read_uri(alloc, entry.uri)?,
        systems: read_systems(alloc, entry.systems, this_system)?,
        key: read_name(alloc, entry.key)?,
        jobs,
        speed,
        supported: read_features(alloc, entry.supported)?,
        mandatory: read_features(alloc, entry.mandatory)?,
        host_key: read_name(alloc, entry.host_key)?,
    })
}
