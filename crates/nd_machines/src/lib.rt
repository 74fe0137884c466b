//! The builders list: the machines that derivations are handed to, as a function of the text that
//! names them.
#![tactic(auto)]

mod builders;
mod feature_set;
mod fields;
pub mod laws;
mod machine;
mod machine_error;
mod reading;

pub use builders::parse_builders;
pub use feature_set::FeatureSet;
pub use machine::Machine;
pub use machine_error::MachineError;
