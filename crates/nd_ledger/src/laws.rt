//! Laws over all legal histories. Each function does nothing, and its contract is the law.

ghost use Rattle.nd_history.specs.Closing.{ClosureStays, OutputsAlone};

/// Once the inputs of a derivation are built, its input closure is the same in every legal extension
/// of the history.
#[tactic(auto, using(nd_history::proofs::Closing::closure_stays))]
pub fn closure_stays()
    ensures { ClosureStays }
{}

/// A build, on whatever machine, adds its outputs alone to what the local machine holds: what the
/// build may refer to lies there already.
#[tactic(auto, using(nd_history::proofs::Provisions::outputs_alone))]
pub fn outputs_alone()
    ensures { OutputsAlone }
{}
