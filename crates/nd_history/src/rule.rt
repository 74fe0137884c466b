//! The rules by which an entry is audited.

ghost use Rattle.std.specs.Prelude.{◌≡◌};

use std::fmt;

/// What may be wrong with an entry after a legal history, in the order in which it is looked for. A
/// rule that doesn't speak of an entry's kind doesn't refuse it. The rules are this project's own
/// choice.
#[derive(Clone, Copy, Debug, PartialEq, Eq)]
pub enum Rule {
    /// 1: a derivation that isn't in the graph, a machine that isn't in the park, or a slot that isn't
    /// one of its machine's.
    Range,
    /// 2: a choice, or the word that nothing can build it, for a derivation that isn't ready.
    Ready,
    /// 3: the decision is another one: a choice of machine 0 where it isn't to build locally, a choice
    /// of a builder where it isn't to build on one, or the word that nothing can build a derivation
    /// where something can.
    Decision,
    /// 4: a choice of a builder that isn't the best one.
    Best,
    /// 5: a choice of a slot that isn't the machine's least free one.
    Slot,
    /// 6: a start, a lease given back, a build or a failure of a derivation without a live lease.
    Live,
    /// 7: a start or a giving back of a lease that was started, or a build of one that wasn't.
    Started,
    /// 8: a start with copied paths that aren't within the derivation's input closure, or that leave a
    /// path of it unheld.
    Paths,
    /// 9: a build with a wrong number of lists of references, or with a reference that is neither in the
    /// input closure nor an output.
    References,
    /// 10: a stop after a stop.
    Stopped,
}

impl fmt::Display for Rule {
    ghost use Rattle.std.specs.Prelude.{Some};
    ghost use Rattle.nd_history.specs.Audit.{rule_name};

    ghost output = { λ r. Some (rule_name r) };

    fn fmt<W: fmt::Write>(&self, f: &mut fmt::Formatter<W>) -> fmt::Result {
        match self {
            Rule::Range => f.write_str("Range"),
            Rule::Ready => f.write_str("Ready"),
            Rule::Decision => f.write_str("Decision"),
            Rule::Best => f.write_str("Best"),
            Rule::Slot => f.write_str("Slot"),
            Rule::Live => f.write_str("Live"),
            Rule::Started => f.write_str("Started"),
            Rule::Paths => f.write_str("Paths"),
            Rule::References => f.write_str("References"),
            Rule::Stopped => f.write_str("Stopped"),
        }
    }
}
