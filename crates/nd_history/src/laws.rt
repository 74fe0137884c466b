//! Laws over all histories. Each function does nothing, and its contract is the law.

ghost use Rattle.nd_history.specs.Audit.{RulesDecide};
ghost use Rattle.nd_history.specs.FirstReplies.{FirstReplyIsIdle};

/// An entry is allowed after a history exactly where it passes each of the rules by which it is
/// audited, and an entry that isn't has one first rule at most that refuses it.
#[tactic(auto, using(crate::proofs::Rules::rules_decide))]
pub fn rules_decide()
    ensures { RulesDecide }
{}

/// After the empty history the hook replies about a derivation just what it replies about the
/// derivation's need on an idle park, where no slot is taken and every machine is up.
pub fn first_reply_is_idle()
    ensures { FirstReplyIsIdle }
{}
