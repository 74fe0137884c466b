//! Which machines may build a derivation: the needs of derivations, the settings of the local
//! machine, and the test of the one against the other.
#![tactic(auto)]

mod classes;
mod eligibility;
mod feature_words;
mod local;
mod need;

pub use classes::{Classes, eligible_places};
pub use eligibility::{eligible, local_ok};
pub use feature_words::words;
pub use local::Local;
pub use need::Need;
