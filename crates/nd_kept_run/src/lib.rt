//! Runs with a journal: the run and what is written of it, and the report and the audit of the history that a journal tells.
#![tactic(auto)]

mod auditing;
mod engine;
mod kept_end;
mod reporting;

pub use auditing::audit_journal_engine;
pub use engine::{run_kept_engine, scribe_of};
pub use kept_end::KeptEnd;
pub use reporting::report_engine;
