//! Laws over journals that are gone on from, and over what they hold after a crash. Each function does nothing, and
//! its contract is the law.

ghost use Rattle.nd_serve_command.specs.CrashLaws.{SessionsSurvive, PartsSurvive, JournalsBegin, RunsSurvive};
ghost use Rattle.nd_serve_command.specs.ResumeLaws.{ResumesHaveOneAnswer};

/// A journal's bytes over the same inputs have one answer: one history to go on from, or one refusal, and not both.
pub fn resumes_have_one_answer()
    ensures { ResumesHaveOneAnswer }
{}

/// After a crash at any moment of a session that began with a durable journal, if the crash leaves what was made
/// durable and a beginning of the rest: the journal is gone on from with a legal history, which begins with every
/// entry that was answered by a whole answer.
pub fn sessions_survive()
    ensures { SessionsSurvive }
{}

/// .. and of one that ended early.
pub fn parts_survive()
    ensures { PartsSurvive }
{}

/// What can be gone on from, cut to its whole lines, is what such a session begins with, once it is durable.
pub fn journals_begin()
    ensures { JournalsBegin }
{}

/// After a crash at any moment of a run, if the crash leaves the text of what is durable and a beginning of the rest
/// of what was handed to the journal: the journal is gone on from with a legal history, which is a beginning of the
/// run's and has every entry that is durable, so every one that something outside acted on.
pub fn runs_survive()
    ensures { RunsSurvive }
{}
