//! Laws over all simulations. Each function does nothing, and its contract is the law.

ghost use Rattle.nd_sim.specs.OneText.{OneOutcome, OneRun, RunsAreLegal, OneSimulation};

/// After one history a command has one outcome. An entry that is allowed, a refusal that has a cause
/// and a reply exclude one another, and there is one entry, one refusal and one reply at most.
pub fn one_outcome()
    ensures { OneOutcome }
{}

/// A list of commands, with the steps of the pump before them and between, leads to one history and
/// one text.
pub fn one_run()
    ensures { OneRun }
{}

/// .. and this history is legal.
pub fn runs_are_legal()
    ensures { RunsAreLegal }
{}

/// A script has one text and one status over the same inputs.
pub fn one_simulation()
    ensures { OneSimulation }
{}
