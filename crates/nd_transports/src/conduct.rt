//! What a stand-in goes by: the rules about its machine and its fuse.

ghost use Rattle.std.specs.Prelude.{◌≡◌, ◌&&◌, List, [], Option, Some, None, IfOk, OnErr, replicate, not};
ghost use Rattle.std.specs.List.{find, list_any};
ghost use Rattle.nd_script.specs.Rules.{is_no_connect, is_no_copy, is_about};
ghost use Rattle.nd_transports.specs.StandIns.{answer_by, lets_pass, burnt, NeedsLists, IsTold};

use crate::kinds::Answer;
use crate::rule_book::RuleBook;
use nd_closure::Refs;
use nd_path::PathSet;
use nd_script::Rule;
use std::alloc::{AllocError, Global};
use std::marker::Model;

/// What a stand-in goes by: its machine, the rules, its fuse, and the number of outputs of the job that was
/// prepared last.
#[derive(Drop, Debug)]
pub(crate) struct Conduct {
    alloc: Global,
    machine: u32,
    outputs: usize,
    rules: RuleBook,
    refuses_connect: bool,
    refuses_copy: bool,
    passes: Option<u32>,
}

impl Model for Conduct {
    ghost use Rattle.nd_transports.specs.Conducts.{Conducted};

    ghost Value = { Conducted };

    ghost use Rattle.nd_transports.specs.Standing.{conducted, HasLooked};

    ghost view = { conducted };

    ghost invariant = { HasLooked };
}

impl Conduct {
    /// That of a stand-in for this machine, without a fuse. It takes no memory. The rules about machines are
    /// looked through here, and not again in each call.
    pub(crate) fn new(alloc: Global, machine: u32, rules: RuleBook) -> Conduct
        ensures { result ≡ record { machine = machine; outputs = 0; rules = rules; fuse = None } }
    {
        Conduct {
            alloc,
            machine,
            outputs: 0,
            refuses_connect: rules.refuses_connect(machine),
            refuses_copy: rules.refuses_copy(machine),
            rules,
            passes: None,
        }
    }

    /// Sets the fuse.
    pub(crate) fn fuse(&mut self, passes: u32)
        ensures { self.new ≡ record self.old { fuse = Some passes } }
    {
        self.passes = Some(passes);
    }

    /// A job with so many outputs is prepared.
    pub(crate) fn expect(&mut self, outputs: usize)
        ensures { self.new ≡ record self.old { outputs = outputs } }
    {
        self.outputs = outputs;
    }

    /// Whether a connect is answered with yes.
    pub(crate) fn connects(&mut self) -> bool
        ensures answer { result ≡ lets_pass self.old.fuse && not (list_any (is_no_connect self.old.machine) self.old.rules) }
        ensures after { self.new ≡ record self.old { fuse = burnt self.old.fuse } }
    {
        let passes = burn(&mut self.passes);
        passes && !self.refuses_connect
    }

    /// Whether a copy works.
    pub(crate) fn copies(&mut self) -> bool
        ensures answer { result ≡ lets_pass self.old.fuse && not (list_any (is_no_copy self.old.machine) self.old.rules) }
        ensures after { self.new ≡ record self.old { fuse = burnt self.old.fuse } }
    {
        let passes = burn(&mut self.passes);
        passes && !self.refuses_copy
    }

    /// How the build of derivation `drv` ends.
    pub(crate) fn builds(&mut self, drv: u32) -> Answer
        ensures answer { IsTold (lets_pass self.old.fuse) (answer_by self.old.outputs (find (is_about drv) self.old.rules)) result }
        ensures after { self.new ≡ record self.old { fuse = burnt self.old.fuse } }
    {
        let passes = burn(&mut self.passes);
        told(self.alloc, &self.rules, drv, self.outputs, passes)
    }
}

/// Whether the fuse lets one more call pass, which burns it down by one.
fn burn(fuse: &mut Option<u32>) -> bool
    ensures passes { result ≡ lets_pass fuse.old }
    ensures burnt { fuse.new ≡ burnt fuse.old }
{
    match *fuse {
        None => true,
        Some(0) => false,
        Some(passes) => {
            *fuse = Some(passes - 1);
            true
        }
    }
}

/// How the build of derivation `drv` ends: it is lost where the fuse doesn't let it pass, or where it ends
/// with its outputs and no memory is found for their references.
fn told(alloc: Global, rules: &RuleBook, drv: u32, outputs: usize, passes: bool) -> Answer
    ensures { IsTold passes (answer_by outputs (find (is_about drv) rules.now)) result }
{
    if !passes {
        return Answer::Lost;
    }
    match answer(alloc, rules, drv, outputs) {
        Ok(answer) => answer,
        Err(_) => Answer::Lost,
    }
}

/// How the build of derivation `drv` ends by the first of these rules about it. Memory is refused for the
/// references of outputs alone.
fn answer(alloc: Global, rules: &RuleBook, drv: u32, outputs: usize) -> Result<Answer, AllocError>
    ensures ok { IfOk result (λ answer. answer ≡ answer_by outputs (find (is_about drv) rules.now)) }
    ensures err { OnErr result (NeedsLists (answer_by outputs (find (is_about drv) rules.now))) }
{
    match rules.about(drv) {
        Some(rule) => answer_by(alloc, rule, outputs),
        None => Ok(Answer::Built(empty_lists(alloc, outputs)?)),
    }
}

/// How a build ends by this rule. Memory is refused for the references of outputs alone.
fn answer_by(alloc: Global, rule: &Rule, outputs: usize) -> Result<Answer, AllocError>
    ensures ok { IfOk result (λ answer. answer ≡ answer_by outputs (Some rule.now)) }
    ensures err { OnErr result (NeedsLists (answer_by outputs (Some rule.now))) }
{
    match rule {
        Rule::Fail(_, code) => Ok(Answer::Status(*code)),
        Rule::Lose(_) => Ok(Answer::Lost),
        Rule::Built(_, refs) => Ok(Answer::Built(refs.try_clone()?)),
        Rule::NoConnect(_) | Rule::NoCopy(_) => Ok(Answer::Built(empty_lists(alloc, outputs)?)),
    }
}

/// An empty list for each output.
fn empty_lists(alloc: Global, outputs: usize) -> Result<Refs, AllocError>
    ensures { IfOk result (λ refs. refs ≡ replicate outputs []) }
{
    Ok(Refs::new(vec![in alloc; PathSet::new(alloc); outputs]?))
}
