//! One line of a stand text.

ghost use Rattle.std.specs.Prelude.{◌≡◌, IfOk, IfErr};
ghost use Rattle.nd_script.specs.Stand.{IsFailRule, IsBuiltRule, IsRuled, IsRuleLine};
ghost use Rattle.nd_script.specs.Faults.{RulesOut};
ghost use Rattle.nd_script.specs.Words.{words_left};

use crate::line_error::LineError;
use crate::reading::Said;
use crate::rule::Rule;
use crate::topic::{Topic, topic_named};
use crate::words::{only_operand, operand, reference_lists, status};
use nd_bytes::cut;
use nd_closure::Refs;
use std::alloc::Global;

impl Said for Rule {
    ghost says = { IsRuleLine };

    fn read(alloc: Global, line: &[u8], drvs: usize, machines: usize) -> Result<Self, LineError> {
        read_rule(alloc, line, drvs, machines)
    }
}

/// The rule of a line, for a graph of `drvs` derivations and a park of `machines` machines.
fn read_rule(alloc: Global, line: &[u8], drvs: usize, machines: usize) -> Result<Rule, LineError>
    ensures found { IfOk result (IsRuleLine drvs machines line.now) }
    ensures refused { IfErr result (RulesOut (IsRuleLine drvs machines line.now)) }
{
    let (first, words) = cut(line, b' ');
    let Some(topic) = topic_named(first) else {
        return Err(LineError::Bad);
    };
    ruled(alloc, topic, words, drvs, machines)
}

/// The rule about a topic with these words.
#[tactic(auto, using(crate::proofs::Operands::called, crate::proofs::Operands::uncalled))]
fn ruled(
    alloc: Global,
    topic: Topic,
    words: Option<&[u8]>,
    drvs: usize,
    machines: usize,
) -> Result<Rule, LineError>
    ensures found { IfOk result (IsRuled drvs machines topic (words_left words.entry)) }
    ensures refused { IfErr result (RulesOut (IsRuled drvs machines topic (words_left words.entry))) }
{
    match topic {
        Topic::NoConnect => match only_operand(words, machines) {
            Some(machine) => Ok(Rule::NoConnect(machine)),
            None => Err(LineError::Bad),
        },
        Topic::NoCopy => match only_operand(words, machines) {
            Some(machine) => Ok(Rule::NoCopy(machine)),
            None => Err(LineError::Bad),
        },
        Topic::Fail => fail_rule(words, drvs),
        Topic::Lose => match only_operand(words, drvs) {
            Some(drv) => Ok(Rule::Lose(drv)),
            None => Err(LineError::Bad),
        },
        Topic::Built => built_rule(alloc, words, drvs),
    }
}

/// `fail`: a derivation and a status.
fn fail_rule(words: Option<&[u8]>, drvs: usize) -> Result<Rule, LineError>
    ensures found { IfOk result (IsFailRule drvs (words_left words.entry)) }
    ensures refused { IfErr result (RulesOut (IsFailRule drvs (words_left words.entry))) }
{
    let (drv, rest) = match operand(words, drvs) {
        Some(found) => found,
        None => return Err(LineError::Bad),
    };
    match status(rest) {
        Some(status) => Ok(Rule::Fail(drv, status)),
        None => Err(LineError::Bad),
    }
}

/// `built`: a derivation, and a list of references for each output, or none at all.
fn built_rule(alloc: Global, words: Option<&[u8]>, drvs: usize) -> Result<Rule, LineError>
    ensures found { IfOk result (IsBuiltRule drvs (words_left words.entry)) }
    ensures refused { IfErr result (RulesOut (IsBuiltRule drvs (words_left words.entry))) }
{
    let (drv, rest) = match operand(words, drvs) {
        Some(found) => found,
        None => return Err(LineError::Bad),
    };
    match rest {
        None => Ok(Rule::Built(drv, Refs::new(Vec::new(alloc)))),
        Some(_) => match reference_lists(alloc, rest) {
            Ok(refs) => Ok(Rule::Built(drv, refs)),
            Err(fault) => Err(fault),
        },
    }
}
