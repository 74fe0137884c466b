//! Laws over the definitions.

ghost use Rattle.nd_hook.specs.SameAnswers.{SameReply, SameDecision};

/// Among the places of the machines that are eligible for a need, [`reply_in`](crate::reply_in)
/// answers as [`reply`](crate::reply) does for that need: two such replies are equal. The function
/// does nothing; its contract is the law.
pub fn same_reply()
    ensures { SameReply }
{}

/// Among the places of the machines that are eligible for a need, [`decide_in`](crate::decide_in)
/// answers as [`decide`](crate::decide) does for that need and its preference: two such decisions
/// are equal. The function does nothing; its contract is the law.
pub fn same_decision()
    ensures { SameDecision }
{}
