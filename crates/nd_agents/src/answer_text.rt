//! Reading the answer to a build.

ghost use Rattle.std.specs.Prelude.{◌≡◌, ◌++◌, List, Some, None, Err, true, false, codes, IfOk, IfErr};
ghost use Rattle.nd_closure.specs.Info.{words_of};
ghost use Rattle.nd_script.specs.Words.{words_left, AreLists};
ghost use Rattle.nd_script.specs.Faults.{RulesOut};
ghost use Rattle.nd_transports.specs.declared.kinds.Answer.{Answer};
ghost use Rattle.nd_agents.specs.AnswerTexts.{IsAnswer, IsAnswerFor, HasLists, IsEnding, IsBuilt, IsListing, OkUnlessMemory};
ghost use Rattle.nd_agents.specs.Relayed.{refs_in};

use crate::ending::{Ending, ending_named};
use nd_bytes::cut;
use nd_closure::Refs;
use nd_script::{Command, LineError, only_operand, read_line};
use nd_transports::Answer;
use std::alloc::{AllocError, Global};

/// What this line, without its newline, answers to a build of so many outputs. Its words are separated by
/// single spaces:
///
/// `built o PATH .. o ..`, `failed C`, `lost`
///
/// with a status C of 0 to 255, written without needless zeros, and a word `o` with the references of an
/// output, for each output in the order of their names. References may come in any order and may repeat:
/// they are made sets. `built` alone reports no list at all. The form is this project's own; lists have the
/// form that they have in a script ([`nd_script::parse_script`]).
///
/// `Bad`: the line is none of these, or has another number of lists. `Memory`: an allocation was refused; the
/// line begins with `built`, and for no other one memory is wanted.
pub fn read_answer(alloc: Global, line: &[u8], outputs: usize) -> Result<Answer, LineError>
    ensures found { IfOk result (IsAnswerFor outputs line.now) }
    ensures refused { IfErr result (RulesOut (IsAnswerFor outputs line.now)) }
    ensures short { result ≡ Err LineError.Memory → IsListing line.now }
    ensures exactly { (answer : Answer) → IsAnswerFor outputs line.now answer → OkUnlessMemory result (λ read. read ≡ answer) }
{
    match line_answer(alloc, line) {
        Ok(answer) => {
            if has_lists(&answer, outputs) {
                return Ok(answer);
            }
            Err(LineError::Bad)
        }
        Err(fault) => Err(fault),
    }
}

/// Whether an answer that reports lists has so many of them.
fn has_lists(answer: &Answer, outputs: usize) -> bool
    ensures yes { result ≡ true → HasLists outputs answer.now }
    ensures no { result ≡ false → HasLists outputs answer.now → ⊥ }
{
    match answer {
        Answer::Built(refs) => refs.lists().len() == outputs,
        Answer::Status(_) => true,
        Answer::Lost => true,
        Answer::Memory => true,
    }
}

/// What this line says of a build, with whatever number of lists.
fn line_answer(alloc: Global, line: &[u8]) -> Result<Answer, LineError>
    ensures found { IfOk result (IsAnswer line.now) }
    ensures refused { IfErr result (RulesOut (IsAnswer line.now)) }
    ensures short { result ≡ Err LineError.Memory → IsListing line.now }
{
    let (first, words) = cut(line, b' ');
    let Some(ending) = ending_named(first) else {
        return Err(LineError::Bad);
    };
    ended(alloc, ending, words)
}

/// How a build ended, by these words behind the first one.
#[tactic(auto, using(nd_script::proofs::Operands::called, nd_script::proofs::Operands::uncalled))]
fn ended(alloc: Global, ending: Ending, words: Option<&[u8]>) -> Result<Answer, LineError>
    ensures found { IfOk result (IsEnding ending (words_left words.entry)) }
    ensures refused { IfErr result (RulesOut (IsEnding ending (words_left words.entry))) }
    ensures short { result ≡ Err LineError.Memory → ending ≡ Ending.Built }
{
    match ending {
        Ending::Built => built(alloc, words),
        Ending::Failed => match only_operand(words, 256) {
            Some(code) => Ok(Answer::Status(code as u8)),
            None => Err(LineError::Bad),
        },
        Ending::Lost => match words {
            Some(_) => Err(LineError::Bad),
            None => Ok(Answer::Lost),
        },
    }
}

/// `built`: a list of references for each output, or none at all.
fn built(alloc: Global, words: Option<&[u8]>) -> Result<Answer, LineError>
    ensures found { IfOk result (IsBuilt (words_left words.entry)) }
    ensures refused { IfErr result (RulesOut (IsBuilt (words_left words.entry))) }
{
    match words {
        None => Ok(Answer::Built(Refs::new(Vec::new(alloc)))),
        Some(bytes) => match lists(alloc, bytes) {
            Ok(refs) => Ok(Answer::Built(refs)),
            Err(fault) => Err(fault),
        },
    }
}

/// The lists of references that the words of this text are. They have the form of a script's line, so
/// they are read as those of the line `built 0` with these words behind it.
#[tactic(auto, using(crate::proofs::Relays::lists_said, crate::proofs::Relays::none_listed, crate::proofs::Relays::none_said))]
fn lists(alloc: Global, words: &[u8]) -> Result<Refs, LineError>
    ensures found { IfOk result (AreLists (words_of words.now)) }
    ensures refused { IfErr result (RulesOut (AreLists (words_of words.now))) }
{
    let Ok(line) = script_line(alloc, words) else {
        return Err(LineError::Memory);
    };
    match read_line(alloc, line.as_slice(), 1, 1) {
        Ok(command) => match into_refs(command) {
            Some(refs) => Ok(refs),
            None => Err(LineError::Bad),
        },
        Err(fault) => Err(fault),
    }
}

/// The script's line of a build of derivation 0 with these words.
fn script_line(alloc: Global, words: &[u8]) -> Result<Vec<u8>, AllocError>
    ensures { IfOk result (λ line. line.items ≡ codes "built 0 " ++ words.now) }
{
    let mut line = Vec::from_slice(alloc, b"built 0 ")?;
    line.extend_from_slice(words)?;
    Ok(line)
}

/// The references that a command reports, if it is one that does.
fn into_refs(command: Command) -> Option<Refs>
    ensures { result ≡ refs_in command }
{
    match command {
        Command::BuiltWith { drv: _, refs } => Some(refs),
        _ => None,
    }
}
