//! A derivation, whose lists stand in order.

ghost use Rattle.std.specs.Prelude.{◌≡◌, true};
ghost use Rattle.nd_aterm.specs.Derivations.{in_order};

use crate::fault::AtermError;
use crate::orders::is_in_order;
use crate::records::Parts;

/// A store derivation: its outputs (by name), input derivations (by path), the output names of each
/// of these, its input sources and its environment (by key) stand in strictly rising byte order.
#[derive(Debug, Drop)]
pub struct Derivation {
    /// What it is made of.
    pub parts: Parts,
    pub ghost ordered: { in_order parts ≡ true },
}

impl Derivation {
    ghost use Rattle.std.specs.Prelude.{false, MatchResult};

    /// The derivation of these parts. They are refused as `Order` (3) exactly where one of the five
    /// kinds of list doesn't strictly rise, and are then dropped. It takes no memory, so `Memory`
    /// doesn't come.
    pub fn new(parts: Parts) -> Result<Self, AtermError>
        ensures { MatchResult result
            (λ d. (in_order parts ≡ true) × (d.parts ≡ parts))
            (λ e. (in_order parts ≡ false) × (e ≡ AtermError.Order)) }
    {
        if !is_in_order(&parts) {
            return Err(AtermError::Order);
        }
        Ok(Derivation { parts })
    }
}
