//! Laws over the definitions.

ghost use Rattle.nd_choose.specs.SameChoice.{SameChoice};

/// Among the places of the machines that are eligible for a need, [`choose_in`](crate::choose_in)
/// answers as [`choose`](crate::choose) does for that need: two such choices are equal. The
/// function does nothing; its contract is the law.
pub fn same_choice()
    ensures { SameChoice }
{}
