//! What holds of the decisions about kinds.

ghost use Rattle.nd_pump.specs.Waiting.{WaitingGoesOn};
ghost use Rattle.nd_pump.specs.Decided.{DecidesForAll};

/// What is decided about a kind is decided about each of its derivations.
pub fn decides_for_all()
    ensures { DecidesForAll }
{}

/// A kind that is to wait goes on waiting while each machine that it may use stays up or down and gets no
/// slot back.
pub fn waiting_goes_on()
    ensures { WaitingGoesOn }
{}
