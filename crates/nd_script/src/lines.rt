//! One line of a script.

ghost use Rattle.std.specs.Prelude.{◌≡◌, IfOk, IfErr};
ghost use Rattle.nd_script.specs.Script.{IsFail, IsStartWith, IsBuilt, IsSaid, IsLine};
ghost use Rattle.nd_script.specs.Faults.{RulesOut};
ghost use Rattle.nd_script.specs.Words.{words_left};

use crate::command::Command;
use crate::line_error::LineError;
use crate::reading::Said;
use crate::verb::{Verb, verb_named};
use crate::words::{only_operand, operand, path_set, reference_lists, status};
use nd_bytes::cut;
use std::alloc::Global;

impl Said for Command {
    ghost says = { IsLine };

    fn read(alloc: Global, line: &[u8], drvs: usize, machines: usize) -> Result<Self, LineError> {
        read_line(alloc, line, drvs, machines)
    }
}

/// The command of one line of a script, without its newline, for a graph of `drvs` derivations and a park
/// of `machines` machines, the local one among them.
///
/// `Bad`: the line is none of those that [`parse_script`](crate::parse_script) lists. `Memory`: an
/// allocation was refused.
pub fn read_line(
    alloc: Global,
    line: &[u8],
    drvs: usize,
    machines: usize,
) -> Result<Command, LineError>
    ensures found { IfOk result (IsLine drvs machines line.now) }
    ensures refused { IfErr result (RulesOut (IsLine drvs machines line.now)) }
{
    let (first, words) = cut(line, b' ');
    let Some(verb) = verb_named(first) else {
        return Err(LineError::Bad);
    };
    said(alloc, verb, words, drvs, machines)
}

/// What a verb asks for with these words.
#[tactic(auto, using(crate::proofs::Operands::called, crate::proofs::Operands::uncalled))]
fn said(
    alloc: Global,
    verb: Verb,
    words: Option<&[u8]>,
    drvs: usize,
    machines: usize,
) -> Result<Command, LineError>
    ensures found { IfOk result (IsSaid drvs machines verb (words_left words.entry)) }
    ensures refused { IfErr result (RulesOut (IsSaid drvs machines verb (words_left words.entry))) }
{
    match verb {
        Verb::Start => match only_operand(words, drvs) {
            Some(drv) => Ok(Command::Start { drv }),
            None => Err(LineError::Bad),
        },
        Verb::StartWith => start_with(alloc, words, drvs),
        Verb::Built => built(alloc, words, drvs),
        Verb::Fail => fail(words, drvs),
        Verb::Lose => match only_operand(words, drvs) {
            Some(drv) => Ok(Command::Lose { drv }),
            None => Err(LineError::Bad),
        },
        Verb::Down => match only_operand(words, drvs) {
            Some(drv) => Ok(Command::Down { drv }),
            None => Err(LineError::Bad),
        },
        Verb::Stop => match words {
            Some(_) => Err(LineError::Bad),
            None => Ok(Command::Stop),
        },
        Verb::Drain => match only_operand(words, machines) {
            Some(machine) => Ok(Command::Drain { machine }),
            None => Err(LineError::Bad),
        },
        Verb::Enable => match only_operand(words, machines) {
            Some(machine) => Ok(Command::Enable { machine }),
            None => Err(LineError::Bad),
        },
        Verb::Ask => match only_operand(words, drvs) {
            Some(drv) => Ok(Command::Ask { drv }),
            None => Err(LineError::Bad),
        },
    }
}

/// `startwith`: a derivation, and the paths that were copied.
#[tactic(auto, using(crate::proofs::Operands::no_start))]
fn start_with(alloc: Global, words: Option<&[u8]>, drvs: usize) -> Result<Command, LineError>
    ensures found { IfOk result (IsStartWith drvs (words_left words.entry)) }
    ensures refused { IfErr result (RulesOut (IsStartWith drvs (words_left words.entry))) }
{
    let (drv, rest) = match operand(words, drvs) {
        Some(found) => found,
        None => return Err(LineError::Bad),
    };
    match path_set(alloc, rest) {
        Ok(paths) => Ok(Command::StartWith { drv, paths }),
        Err(fault) => Err(fault),
    }
}

/// `built`: a derivation, and a list of references for each output, or none at all.
fn built(alloc: Global, words: Option<&[u8]>, drvs: usize) -> Result<Command, LineError>
    ensures found { IfOk result (IsBuilt drvs (words_left words.entry)) }
    ensures refused { IfErr result (RulesOut (IsBuilt drvs (words_left words.entry))) }
{
    let (drv, rest) = match operand(words, drvs) {
        Some(found) => found,
        None => return Err(LineError::Bad),
    };
    match rest {
        None => Ok(Command::Built { drv }),
        Some(_) => match reference_lists(alloc, rest) {
            Ok(refs) => Ok(Command::BuiltWith { drv, refs }),
            Err(fault) => Err(fault),
        },
    }
}

/// `fail`: a derivation and a status.
fn fail(words: Option<&[u8]>, drvs: usize) -> Result<Command, LineError>
    ensures found { IfOk result (IsFail drvs (words_left words.entry)) }
    ensures refused { IfErr result (RulesOut (IsFail drvs (words_left words.entry))) }
{
    let (drv, rest) = match operand(words, drvs) {
        Some(found) => found,
        None => return Err(LineError::Bad),
    };
    match status(rest) {
        Some(status) => Ok(Command::Fail { drv, status }),
        None => Err(LineError::Bad),
    }
}
