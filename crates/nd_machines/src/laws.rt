//! Laws over the sets of machines. A function does nothing, and its contract is the law.

ghost use Rattle.nd_machines.specs.FeatureSets.{HasOneSet};

/// A list of items has one set: the list that rises and has the same members. The function by which
/// other definitions compute it gives it.
pub fn has_one_set()
    ensures { HasOneSet }
{}
