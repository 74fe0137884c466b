//! The worked examples of eligibility. Want of memory is a no.

use crate::tests::values::{is_listed, last_machine, machines_of, need_of};
use nd_bytes::ByteString;
use nd_eligible::{Classes, Local, Need, eligible, local_ok, words};
use nd_machines::{FeatureSet, Machine};
use std::alloc::{AllocError, Global};

/// The settings of an `x86_64-linux` machine that builds for `i686-linux` too and has the feature
/// `kvm`.
fn local_of(alloc: Global, jobs: u32) -> Result<Option<Local>, AllocError> {
    let system = ByteString::from_slice(alloc, b"x86_64-linux")?;
    match two_sets(alloc) {
        Ok((extra, features)) => Ok(Local::new(system, extra, features, jobs)),
        Err(refused) => {
            drop(system);
            Err(refused)
        }
    }
}

/// The further system and the feature of that machine.
fn two_sets(alloc: Global) -> Result<(FeatureSet, FeatureSet), AllocError> {
    let extra = words(alloc, b"i686-linux")?;
    match words(alloc, b"kvm") {
        Ok(features) => Ok((extra, features)),
        Err(refused) => {
            drop(extra);
            Err(refused)
        }
    }
}

/// Whether settings with this many jobs are taken, or not.
fn are_jobs(alloc: Global, jobs: u32, taken: bool) -> bool {
    match local_of(alloc, jobs) {
        Ok(settings) => {
            let is_so = settings.is_some() == taken;
            drop(settings);
            is_so
        }
        Err(_) => false,
    }
}

#[test]
fn local_jobs_limit(rt: HostRuntime) {
    let alloc = rt.alloc();
    assert!(rt; are_jobs(alloc, 0, true));
    assert!(rt; are_jobs(alloc, 65_535, true));
    assert!(rt; are_jobs(alloc, 65_536, false));
}

/// Whether the machine of a list of one is, or is not, eligible for this platform and these features.
fn is_eligible(alloc: Global, list: &[u8], system: &[u8], features: &[u8], want: bool) -> bool {
    match last_machine(alloc, list) {
        Some(machine) => {
            let is_so = is_for(alloc, &machine, system, features, want);
            drop(machine);
            is_so
        }
        None => false,
    }
}

/// The same of this machine.
fn is_for(alloc: Global, machine: &Machine, system: &[u8], features: &[u8], want: bool) -> bool {
    match need_of(alloc, system, features) {
        Ok(need) => {
            let is_so = eligible(machine, &need) == want;
            drop(need);
            is_so
        }
        Err(_) => false,
    }
}

#[test]
fn mandatory_features(rt: HostRuntime) {
    let alloc = rt.alloc();
    let list = b"m - - 1 1 - kvm";
    assert!(rt; is_eligible(alloc, list, b"x86_64-linux", b"kvm", true));
    assert!(rt; is_eligible(alloc, list, b"x86_64-linux", b"", false));
}

#[test]
fn platforms(rt: HostRuntime) {
    let alloc = rt.alloc();
    let list = b"m aarch64-linux";
    assert!(rt; is_eligible(alloc, list, b"builtin", b"", true));
    assert!(rt; is_eligible(alloc, list, b"x86_64-linux", b"", false));
}

/// Four needs without features.
fn four_needs(alloc: Global) -> Result<Vec<Need>, AllocError> {
    let mut needs = Vec::new(alloc);
    match push_four(alloc, &mut needs) {
        Ok(()) => Ok(needs),
        Err(refused) => {
            drop(needs);
            Err(refused)
        }
    }
}

/// Adds four needs without features.
fn push_four(alloc: Global, needs: &mut Vec<Need>) -> Result<(), AllocError> {
    let systems: [&[u8]; 4] = [
        b"x86_64-linux",
        b"aarch64-linux",
        b"x86_64-linux",
        b"builtin",
    ];
    for system in systems {
        let need = need_of(alloc, system, b"")?;
        needs.push(need)?;
    }
    Ok(())
}

/// The classes of these needs over three machines.
fn four_classes(alloc: Global) -> Option<Classes> {
    let list = b"a x86_64-linux;b aarch64-linux;c";
    let needs = four_needs(alloc).ok()?;
    let classes = match machines_of(alloc, list) {
        Ok(machines) => {
            let classes = Classes::new(alloc, &machines, &needs).ok();
            drop(machines);
            classes
        }
        Err(_) => None,
    };
    drop(needs);
    classes
}

/// Whether these are the machines of a need.
fn has_machines(classes: &Classes, need: usize, want: &[usize]) -> bool {
    need < classes.len() && classes.machines_of(need) == want
}

/// Whether a copy of these classes is that of the example.
fn are_copied(alloc: Global, classes: &Classes) -> bool {
    match classes.try_clone(alloc) {
        Ok(copy) => {
            let is_so = copy.len() == 4
                && has_machines(&copy, 0, &[0, 2])
                && has_machines(&copy, 1, &[1])
                && has_machines(&copy, 2, &[0, 2])
                && has_machines(&copy, 3, &[0, 1, 2]);
            drop(copy);
            is_so
        }
        Err(_) => false,
    }
}

/// Whether the classes are those of the example.
fn are_classes(alloc: Global) -> bool {
    match four_classes(alloc) {
        Some(classes) => {
            let is_so = are_copied(alloc, &classes);
            drop(classes);
            is_so
        }
        None => false,
    }
}

#[test]
fn machine_classes(rt: HostRuntime) {
    assert!(rt; are_classes(rt.alloc()));
}

/// A copy of settings with one job.
fn copied_settings(alloc: Global) -> Option<Local> {
    match local_of(alloc, 1) {
        Ok(Some(settings)) => {
            let copy = settings.try_clone(alloc).ok();
            drop(settings);
            copy
        }
        _ => None,
    }
}

/// Whether the settings pass, or don't pass, the local test for this platform and these features.
fn passes(local: &Local, alloc: Global, system: &[u8], features: &[u8], want: bool) -> bool {
    match need_of(alloc, system, features) {
        Ok(need) => {
            let is_so = local_ok(local, &need) == want;
            drop(need);
            is_so
        }
        Err(_) => false,
    }
}

/// Whether these settings have one job, pass the local test for their own platforms, and for no other
/// platform and no other feature.
fn is_on_its_own(alloc: Global) -> bool {
    match copied_settings(alloc) {
        Some(local) => {
            let is_so = local.jobs() == 1
                && passes(&local, alloc, b"x86_64-linux", b"kvm", true)
                && passes(&local, alloc, b"i686-linux", b"", true)
                && passes(&local, alloc, b"aarch64-linux", b"", false)
                && passes(&local, alloc, b"builtin", b"", false)
                && passes(&local, alloc, b"x86_64-linux", b"big-parallel", false);
            drop(local);
            is_so
        }
        None => false,
    }
}

#[test]
fn local_platforms(rt: HostRuntime) {
    assert!(rt; is_on_its_own(rt.alloc()));
}

/// A copy of a need for the platform `builtin`, of a builtin derivation.
fn builtin_need(alloc: Global) -> Result<Need, AllocError> {
    let need = need_of(alloc, b"builtin", b"")?;
    let copy = need.try_clone(alloc);
    drop(need);
    match copy {
        Ok(mut copy) => {
            copy.builtin = true;
            Ok(copy)
        }
        Err(refused) => Err(refused),
    }
}

/// Whether these settings pass the local test for it.
fn is_builtin_taken(alloc: Global) -> bool {
    match copied_settings(alloc) {
        Some(local) => {
            let is_so = takes_builtin(alloc, &local);
            drop(local);
            is_so
        }
        None => false,
    }
}

/// Whether these do.
fn takes_builtin(alloc: Global, local: &Local) -> bool {
    match builtin_need(alloc) {
        Ok(need) => {
            let is_so = local_ok(local, &need);
            drop(need);
            is_so
        }
        Err(_) => false,
    }
}

#[test]
fn builtin_derivations(rt: HostRuntime) {
    assert!(rt; is_builtin_taken(rt.alloc()));
}

/// Whether the words of a text are the items of a list.
fn has_words(alloc: Global, text: &[u8], list: &[u8]) -> bool {
    match words(alloc, text) {
        Ok(set) => {
            let is_so = is_listed(alloc, &set, list);
            drop(set);
            is_so
        }
        Err(_) => false,
    }
}

/// Whether a text has no word.
fn has_none(alloc: Global, text: &[u8]) -> bool {
    match words(alloc, text) {
        Ok(set) => {
            let is_so = set.is_empty();
            drop(set);
            is_so
        }
        Err(_) => false,
    }
}

#[test]
fn feature_words(rt: HostRuntime) {
    let alloc = rt.alloc();
    assert!(rt; has_words(alloc, b" c a\tb\nkvm\r\ra  ", b"a,b,c,kvm"));
    assert!(rt; has_none(alloc, b" \t\n\r"));
}
