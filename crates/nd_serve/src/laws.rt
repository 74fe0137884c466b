//! Laws over all sessions. Each function does nothing, and its contract is the law.

ghost use Rattle.nd_serve.specs.SessionLaws.{SessionsAreRuns, SessionsAreLegal};

/// The commands of a session that began with the empty history are a run of the simulation, and what was
/// answered is its text, with a line `ready` behind that of the opening and of each turn, and with the
/// answers to questions.
pub fn sessions_are_runs()
    ensures { SessionsAreRuns }
{}

/// A session goes on from a legal history to a legal one.
pub fn sessions_are_legal()
    ensures { SessionsAreLegal }
{}
