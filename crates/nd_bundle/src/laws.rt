//! What follows from the definition of a bundle alone.

ghost use Rattle.nd_bundle.specs.OneBundle.{NeverBoth, OneBundle, OneGraph};

/// A bundle has one reading: its refusals exclude one another and a graph, and it has one graph. So
/// readers that keep to the definition, as `read_bundle` and `plain::read_bundle`, answer alike,
/// unless one of them wants memory.
pub fn one_bundle()
    ensures { OneBundle }
{}

/// A text is the bundle of one graph.
pub fn one_graph()
    ensures { OneGraph }
{}

/// No text is a bundle and has a cause to be refused, want of memory being none.
pub fn never_both()
    ensures { NeverBoth }
{}
