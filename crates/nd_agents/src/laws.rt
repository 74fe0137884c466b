//! What holds over an agent's whole life: as long as it is there, what was written to it is the text of the
//! calls that are recorded, and what was read of it is what they are recorded as answered with, but that for what
//! a line says of a build there may have been no memory. Of one that is gone this holds of the calls before the
//! one in which it broke off. A new agent is so, and each call leaves it so, by what the clauses of
//! [`Agent`](crate::Agent) say of that call. So the k-th line that is read answers the k-th call.
//!
//! And what one call comes to by what is left to be read: what is an answer is told as it is, or there was no
//! memory for it, and what is none is answered no, or the build is lost, or there was no memory for it. Each
//! function does nothing, and its contract is the law.

ghost use Rattle.nd_agents.specs.Spoken.{NewLives, PrepareLives, RefusedLives, ConnectLives, CopyLives, BuildLives, LifeIsWritten};
ghost use Rattle.nd_agents.specs.Rightly.{WordsAreTold, OthersAreRefused, AnswersAreTold, OthersAreLost, NoLineIsLost, EndIsLost, LinesAnswerInTurn};

use std::io::{Read, Write};

/// Nothing was spoken with a new agent.
#[tactic(auto, using(crate::proofs::Lives::new_lives))]
pub fn new_lives<R: Read, W: Write>()
    ensures { NewLives R.remaining W.contents }
{}

/// A prepared job leaves it so, if it has the path and the outputs that the derivation is called by.
#[tactic(auto, using(crate::proofs::Lives::prepare_lives))]
pub fn prepare_lives<R: Read, W: Write>()
    ensures { PrepareLives R.remaining W.contents }
{}

/// A job for which there was no memory leaves it so.
#[tactic(auto, using(crate::proofs::Lives::refused_lives))]
pub fn refused_lives<R: Read, W: Write>()
    ensures { RefusedLives R.remaining W.contents }
{}

/// A connect leaves it so.
#[tactic(auto, using(crate::proofs::Lives::connect_lives))]
pub fn connect_lives<R: Read, W: Write>()
    ensures { ConnectLives R.remaining W.contents }
{}

/// A copy leaves it so.
#[tactic(auto, using(crate::proofs::Lives::copy_lives))]
pub fn copy_lives<R: Read, W: Write>()
    ensures { CopyLives R.remaining W.contents }
{}

/// A build leaves it so.
pub fn build_lives<R: Read, W: Write>()
    ensures { BuildLives R.remaining W.contents }
{}

/// What was written is a beginning of the text of the calls.
#[tactic(auto, using(crate::proofs::Lives::life_is_written))]
pub fn life_is_written<R: Read, W: Write>()
    ensures { LifeIsWritten R.remaining W.contents }
{}

/// As long as an agent is there, each line that stood before its reader answers the call at its place.
#[tactic(auto, using(crate::proofs::Rightly::lines_answer_in_turn))]
pub fn lines_answer_in_turn<R: Read, W: Write>()
    ensures { LinesAnswerInTurn R.remaining W.contents }
{}

/// A connect or a copy that a line answers with yes or no is answered so, and the next line is left.
#[tactic(auto, using(crate::proofs::Rightly::words_are_told))]
pub fn words_are_told<R: Read, W: Write>()
    ensures { WordsAreTold R.remaining W.contents }
{}

/// One that is answered with neither is answered no, and the agent is gone.
#[tactic(auto, using(crate::proofs::Rightly::others_are_refused))]
pub fn others_are_refused<R: Read, W: Write>()
    ensures { OthersAreRefused R.remaining W.contents }
{}

/// A build that a line answers ends as that line says, with the next line left, or there was no memory.
pub fn answers_are_told<R: Read, W: Write>()
    ensures { AnswersAreTold R.remaining W.contents }
{}

/// A build whose line answers none is lost, and the agent is gone; or there was no memory.
#[tactic(auto, using(crate::proofs::Rightly::others_are_lost))]
pub fn others_are_lost<R: Read, W: Write>()
    ensures { OthersAreLost R.remaining W.contents }
{}

/// Where there is no line within the limit the agent is gone, and the build lost, or there was no memory.
#[tactic(auto, using(crate::proofs::Rightly::no_line_is_lost))]
pub fn no_line_is_lost<R: Read, W: Write>()
    ensures { NoLineIsLost R.remaining W.contents }
{}

/// .. and lost where there is nothing at all.
#[tactic(auto, using(crate::proofs::Rightly::end_is_lost))]
pub fn end_is_lost<R: Read, W: Write>()
    ensures { EndIsLost R.remaining W.contents }
{}
