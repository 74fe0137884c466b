//! The text of a park.

ghost use Rattle.std.specs.Prelude.{◌≡◌, ◌++◌, ◌≤◌, ◌<◌, length, IfOk, IfErr, OnOk};
ghost use Rattle.nd_cli.specs.SlotLines.{reached_by, builder_end, machine_lines, park_lines, slot_line, slots_in};
ghost use Rattle.nd_cli.specs.Limits.{AreTooMany};

use crate::fault::CliFault;
use nd_eligible::Local;
use nd_machines::Machine;
use std::alloc::{AllocError, Global};

/// The most slots that a run serves.
const MOST: usize = 1024;

/// A line for each slot of these machines, the local one first.
///
/// `TooManySlots`: they have more than 1,024. `Memory`.
pub(crate) fn park_text(
    alloc: Global,
    local: &Local,
    machines: &[Machine],
) -> Result<Vec<u8>, CliFault>
    requires { length machines.now ≤ 1024 }
    ensures written { IfOk result (λ text. text.items ≡ park_lines local.now machines.now) }
    ensures few { OnOk result (slots_in local.now machines.now ≤ 1024) }
    ensures refused { IfErr result (AreTooMany local.now machines.now) }
{
    if slots(local, machines) > MOST {
        return Err(CliFault::TooManySlots);
    }
    match all_lines(alloc, local, machines) {
        Ok(text) => Ok(text),
        Err(_) => Err(CliFault::Memory),
    }
}

/// How many slots these machines have together.
fn slots(local: &Local, machines: &[Machine]) -> usize
    requires { length machines.now ≤ 1024 }
    ensures { result ≡ slots_in local.now machines.now }
{
    let mut slots = local.jobs() as usize;
    for machine in machines {
        slots += machine.jobs() as usize;
    }
    slots
}

/// A line for each slot of these machines, the local one first.
#[tactic(auto, using(crate::proofs::Slots::builder_added))]
fn all_lines(alloc: Global, local: &Local, machines: &[Machine]) -> Result<Vec<u8>, AllocError>
    requires { length machines.now ≤ 1024 }
    ensures { IfOk result (λ text. text.items ≡ park_lines local.now machines.now) }
{
    let mut text = Vec::new(alloc);
    add_machine(alloc, 0, b" local - -\n", local.jobs(), &mut text)?;
    for (place, machine) in machines.iter().enumerate() {
        let end = line_end(alloc, machine)?;
        add_machine(alloc, place + 1, end.as_slice(), machine.jobs(), &mut text)?;
    }
    Ok(text)
}

/// What each line of a builder ends with: its URI, its key and its host key, `-` for what isn't given, and a
/// newline.
fn line_end(alloc: Global, machine: &Machine) -> Result<Vec<u8>, AllocError>
    ensures { IfOk result (λ end. end.items ≡ builder_end machine.now) }
{
    let mut end = Vec::new(alloc);
    end.push(b' ')?;
    end.extend_from_slice(machine.uri())?;
    end.push(b' ')?;
    end.extend_from_slice(machine.key().unwrap_or(b"-"))?;
    end.push(b' ')?;
    end.extend_from_slice(machine.host_key().unwrap_or(b"-"))?;
    end.push(b'\n')?;
    Ok(end)
}

/// Puts a line for each slot of the machine with this number behind the text.
fn add_machine(
    alloc: Global,
    number: usize,
    end: &[u8],
    jobs: u32,
    text: &mut Vec<u8>,
) -> Result<(), AllocError>
    ensures { OnOk result (text.new.items ≡ text.old.items ++ machine_lines number end.now jobs) }
{
    for slot in 0..jobs {
        let line = slot_line(alloc, number, end, slot)?;
        text.extend_from_slice(line.as_slice())?;
    }
    Ok(())
}

/// The line of a slot.
fn slot_line(alloc: Global, number: usize, end: &[u8], slot: u32) -> Result<Vec<u8>, AllocError>
    ensures { IfOk result (λ line. line.items ≡ slot_line number end.now slot) }
{
    let place = format!(in alloc; "{number} {slot}")?;
    let mut line = Vec::from_slice(alloc, place.as_bytes())?;
    line.extend_from_slice(end)?;
    Ok(line)
}
