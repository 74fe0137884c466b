//! How a failure spreads over the nodes that depend on it.
ghost use Rattle.std.specs.Prelude.{◌≡◌, ◌<◌, ◌≤◌, ◌+◌, [], All, length, vec_len, vec_capacity};
ghost use Rattle.nd_failure.specs.Spread.{size_of, Visited, IsClosed, SpreadsFrom};

use crate::edges::Edges;
use nd_flags::NodeSet;

/// Puts the nodes that aren't there yet into the set and on the work list, and counts them.
fn visit(doomed: &mut NodeSet, work: &mut Vec<usize>, nodes: &[usize]) -> usize
    requires in_range { All (λ d. d < length doomed.old) nodes.now }
    requires room { vec_len work.old + length doomed.old ≤ vec_capacity work.old + size_of doomed.old }
    ensures visited { Visited nodes.now doomed.old doomed.new work.old.items work.new.items }
    ensures counted { result + size_of doomed.old ≡ size_of doomed.new }
    ensures len { vec_len work.new ≡ vec_len work.old + result }
    ensures capacity { vec_capacity work.new ≡ vec_capacity work.old }
{
    let mut found = 0;
    for node in nodes {
        if !doomed.contains(*node) {
            doomed.insert(*node);
            work.push_reserved(*node);
            found += 1;
        }
    }
    found
}

/// Puts all nodes that depend on the root into the set, and counts those that were not there.
///
/// The work list is empty before and after, and has room for each node once.
pub(crate) fn spread(
    edges: &Edges,
    doomed: &mut NodeSet,
    work: &mut Vec<usize>,
    root: usize,
) -> usize
    requires root { root < length edges.now }
    requires sized { length doomed.old ≡ length edges.now }
    requires closed { IsClosed edges.now doomed.old }
    requires idle { work.old.items ≡ [] }
    requires room { length edges.now < vec_capacity work.old }
    ensures spreads { SpreadsFrom edges.now root doomed.old doomed.new }
    ensures counted { result + size_of doomed.old ≡ size_of doomed.new }
    ensures idle { work.new.items ≡ [] }
    ensures room { vec_capacity work.new ≡ vec_capacity work.old }
{
    let mut found = 0;
    work.push_reserved(root);
    while let Some(node) = work.pop() {
        found += visit(doomed, work, edges.dependants(node));
    }
    found
}
