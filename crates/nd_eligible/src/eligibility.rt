//! Eligibility, and the local test.

ghost use Rattle.std.specs.Prelude.{◌≡◌, ◌↔◌, ◌++◌, Contains, IsTrue};
ghost use Rattle.nd_eligible.specs.Eligibility.{Eligible, LocalOk, BuildsFor, BuildsLocally, IsSubset};

use crate::local::Local;
use crate::need::Need;
use nd_machines::{FeatureSet, Machine};

/// Whether the machine may build a derivation with this need: it has at least one job, it builds
/// for the platform (every machine does for `builtin`), each required feature is a supported or a
/// mandatory one of it, and each mandatory one is required. It takes no memory.
pub fn eligible(machine: &Machine, need: &Need) -> bool
    ensures { IsTrue result ↔ Eligible machine.now need.now }
{
    if machine.jobs() == 0 {
        return false;
    }
    if !builds_for(machine, need.system.as_slice()) {
        return false;
    }
    if !lies_in_either(&need.features, machine.supported(), machine.mandatory()) {
        return false;
    }
    lies_in(machine.mandatory(), &need.features)
}

/// Whether the local machine may build a derivation with this need: the platform is the local
/// system or an extra one, or the derivation is a builtin one; and each required feature is a
/// local one. It takes no memory.
pub fn local_ok(local: &Local, need: &Need) -> bool
    ensures { IsTrue result ↔ LocalOk local.now need.now }
{
    if !builds_locally(local, need) {
        return false;
    }
    lies_in(&need.features, local.features())
}

/// Whether the machine builds for the platform.
fn builds_for(machine: &Machine, system: &[u8]) -> bool
    ensures { IsTrue result ↔ BuildsFor machine.now system.now }
{
    system == b"builtin".as_slice() || machine.systems().contains(system)
}

/// Whether the local machine builds for the platform of the need.
fn builds_locally(local: &Local, need: &Need) -> bool
    ensures { IsTrue result ↔ BuildsLocally local.now need.now }
{
    let system = need.system.as_slice();
    need.builtin || system == local.system() || local.extra().contains(system)
}

/// Whether each item of the first set is in the second.
#[tactic(auto, using(crate::proofs::Subsets::steps))]
fn lies_in(items: &FeatureSet, others: &FeatureSet) -> bool
    ensures { IsTrue result ↔ IsSubset items.now others.now }
{
    for item in items.as_slice() {
        if !others.contains(item.as_slice()) {
            return false;
        }
    }
    true
}

/// Whether each item of the first set is in one of the two others.
#[tactic(auto, using(crate::proofs::Subsets::steps))]
fn lies_in_either(items: &FeatureSet, ones: &FeatureSet, others: &FeatureSet) -> bool
    ensures { IsTrue result ↔ IsSubset items.now (ones.now ++ others.now) }
{
    for item in items.as_slice() {
        if !is_in_either(item.as_slice(), ones, others) {
            return false;
        }
    }
    true
}

/// Whether the item is in one of the two sets.
fn is_in_either(item: &[u8], ones: &FeatureSet, others: &FeatureSet) -> bool
    ensures { IsTrue result ↔ Contains (ones.now ++ others.now) item.now }
{
    ones.contains(item) || others.contains(item)
}
