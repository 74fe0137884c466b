//! What workers note of the entries that they make: receipts, which calls of a transport stand behind
//! each, and whether the receipts are the entries of a history that workers made.
#![tactic(auto)]

mod comparing;
mod dealing;
mod judging;
pub mod laws;
mod notes;
mod place;
mod receipt;
mod rows;
mod standing;
mod tables;

pub use comparing::{are_as_noted, count_made, has_stop, is_quiet, is_started};
pub use dealing::are_dealt;
pub use judging::{Misreports, are_as_judged};
pub use notes::Notes;
pub use place::ParkPlace;
pub use receipt::{Behind, Kind, Receipt};
pub use rows::{are_rows_judged, are_rows_noted};
pub use standing::Standing;
pub use tables::Tables;
