//! The worked examples of builders lists. Want of memory is a no.

use crate::tests::values::{is_listed, is_printed, last_machine, machines_of};
use nd_machines::{FeatureSet, Machine, MachineError};
use std::alloc::{AllocError, Global};

/// Whether a list is refused so.
fn is_refused(alloc: Global, text: &[u8], refusal: MachineError) -> bool {
    match machines_of(alloc, text) {
        Ok(machines) => {
            drop(machines);
            false
        }
        Err(why) => why == refusal,
    }
}

/// Whether a list is taken, as one of this many machines.
fn is_taken(alloc: Global, text: &[u8], count: usize) -> bool {
    match machines_of(alloc, text) {
        Ok(machines) => {
            let is_so = machines.len() == count;
            drop(machines);
            is_so
        }
        Err(_) => false,
    }
}

/// Whether the last machine of a list has this URI.
fn has_uri(alloc: Global, text: &[u8], uri: &[u8]) -> bool {
    match last_machine(alloc, text) {
        Some(machine) => {
            let is_so = machine.uri() == uri;
            drop(machine);
            is_so
        }
        None => false,
    }
}

/// Whether each field of the last machine of a list but the URI is the default, with the local system.
fn is_plain(alloc: Global, text: &[u8]) -> bool {
    match last_machine(alloc, text) {
        Some(machine) => {
            let is_so = machine.key().is_none()
                && machine.jobs() == 1
                && machine.speed() == 1_000_000
                && machine.supported().is_empty()
                && machine.mandatory().is_empty()
                && machine.host_key().is_none()
                && is_listed(alloc, machine.systems(), b"x86_64-linux");
            drop(machine);
            is_so
        }
        None => false,
    }
}

#[test]
fn builder_defaults(rt: HostRuntime) {
    let alloc = rt.alloc();
    assert!(rt; is_plain(alloc, b"mac"));
    assert!(rt; has_uri(alloc, b"mac", b"ssh://mac"));
    assert!(rt; has_uri(alloc, b"u@h", b"ssh://u@h"));
    assert!(rt; has_uri(alloc, b"auto?x=1", b"auto?x=1"));
    assert!(rt; has_uri(alloc, b"/a/b/s", b"/a/b/s"));
}

#[test]
fn builder_refusals(rt: HostRuntime) {
    let alloc = rt.alloc();
    assert!(rt; is_refused(alloc, b"- x86_64-linux", MachineError::Uri(1)));
    assert!(rt; is_refused(alloc, b"a;;b - - x", MachineError::Jobs(2)));
    assert!(rt; is_refused(alloc, b"@/etc/x", MachineError::Include(1)));
    assert!(rt; is_taken(alloc, b"a - - 65535", 1));
    assert!(rt; is_refused(alloc, b"a - - 65536", MachineError::Jobs(1)));
}

/// Whether the last machine of a list is the second one of the example of fields.
fn is_second(alloc: Global, text: &[u8]) -> bool {
    match last_machine(alloc, text) {
        Some(machine) => {
            let is_so = machine.uri() == b"ssh://b".as_slice()
                && machine.jobs() == 2
                && machine.speed() == 500_000
                && is_listed(alloc, machine.supported(), b"kvm")
                && is_listed(alloc, machine.mandatory(), b"kvm");
            drop(machine);
            is_so
        }
        None => false,
    }
}

#[test]
fn builder_fields(rt: HostRuntime) {
    let text = b"a ; b - - 2 0.5 kvm kvm # c ; d";
    assert!(rt; is_taken(rt.alloc(), text, 2));
    assert!(rt; is_second(rt.alloc(), text));
}

#[test]
fn builder_speeds(rt: HostRuntime) {
    let alloc = rt.alloc();
    assert!(rt; is_taken(alloc, b"a - - 1 1000000", 1));
    for text in [
        b"a - - 1 1000000.000001".as_slice(),
        b"a - - 1 0".as_slice(),
        b"a - - 1 .5".as_slice(),
        b"a - - 1 2.".as_slice(),
        b"a - - 1 0.0000001".as_slice(),
    ] {
        assert!(rt; is_refused(alloc, text, MachineError::Speed(1)));
    }
}

/// Writes a list of this many machines.
fn push_machines(text: &mut Vec<u8>, count: usize) -> Result<(), AllocError> {
    for _ in 0..count {
        text.extend_from_slice(b"m;")?;
    }
    Ok(())
}

/// Whether a list of 1,024 machines is taken, and one of 1,025 is refused.
fn is_limited(alloc: Global) -> bool {
    let mut text = Vec::new(alloc);
    let is_so = push_machines(&mut text, 1_024).is_ok()
        && is_taken(alloc, &text, 1_024)
        && push_machines(&mut text, 1).is_ok()
        && is_refused(alloc, &text, MachineError::TooMany(1_025));
    drop(text);
    is_so
}

#[test]
fn builder_limit(rt: HostRuntime) {
    assert!(rt; is_limited(rt.alloc()));
}

/// Whether a machine is equal to its copy.
fn is_copied(alloc: Global, machine: &Machine) -> bool {
    match machine.try_clone(alloc) {
        Ok(copy) => {
            let is_so = copy == *machine;
            drop(copy);
            is_so
        }
        Err(_) => false,
    }
}

/// Whether a set is equal to its copy.
fn is_set_copied(alloc: Global, set: &FeatureSet) -> bool {
    match set.try_clone(alloc) {
        Ok(copy) => {
            let is_so = copy == *set;
            drop(copy);
            is_so
        }
        Err(_) => false,
    }
}

/// Whether the fields of the last machine of a list that the other examples leave out are those of the
/// list below, and it is copied.
fn is_last_copied(alloc: Global, text: &[u8]) -> bool {
    match last_machine(alloc, text) {
        Some(machine) => {
            let is_so = machine.key() == Some(b"/etc/nix".as_slice())
                && machine.speed() == 1_500_000
                && machine.supported().len() == 2
                && machine.supported().contains(b"a")
                && !machine.mandatory().contains(b"b")
                && machine.host_key() == Some(b"aGk=".as_slice())
                && is_copied(alloc, &machine)
                && is_set_copied(alloc, machine.systems());
            drop(machine);
            is_so
        }
        None => false,
    }
}

#[test]
fn copies(rt: HostRuntime) {
    let text = b"h i686-linux,,x86_64-linux /etc/nix 3 1.5 b,a,b a aGk=";
    assert!(rt; is_last_copied(rt.alloc(), text));
}

#[test]
fn names(rt: HostRuntime) {
    for (error, name) in [
        (MachineError::Uri(1), "Uri 1"),
        (MachineError::Jobs(2), "Jobs 2"),
        (MachineError::Speed(3), "Speed 3"),
        (MachineError::Include(4), "Include 4"),
        (MachineError::TooMany(1_025), "TooMany 1025"),
        (MachineError::Memory, "Memory"),
    ] {
        assert!(rt; is_printed(rt.alloc(), &error, name));
    }
}
