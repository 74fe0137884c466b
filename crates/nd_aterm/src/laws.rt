//! What follows from the definition of a derivation text alone.

ghost use Rattle.nd_aterm.specs.Derivations.{NoPrefix};

/// No spelling of a derivation is a proper prefix of another, and no text spells two derivations,
/// whatever the order of their lists. So texts can be told apart with nothing between them.
pub fn no_prefix()
    ensures { NoPrefix }
{}
