//! The audit of a history, the report of how a dispatch stands, and the exit status that it comes to.
#![tactic(auto)]

mod audit_error;
mod auditing;
mod report_writing;
mod status;

pub use audit_error::AuditError;
pub use auditing::{admit_all, audit, audit_side_by_side};
pub use report_writing::write_report;
pub use status::exit_status;
