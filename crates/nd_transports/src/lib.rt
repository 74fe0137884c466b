//! Transports to the machines: one lease's job is prepared, copied and built through one. Contracts see the
//! list of its calls with their answers, which a transport may keep.
#![tactic(auto)]

mod boxed;
mod call_log;
mod calls_so_far;
mod conduct;
mod kinds;
mod last_call;
mod rule_book;
mod serving;
mod stand_in;
mod transport;

pub use call_log::CallLog;
pub use kinds::{Answer, Call, Ended, Phase};
pub use last_call::LastCall;
pub use rule_book::RuleBook;
pub use serving::{Fetch, Outcome, serve_build, serve_copy};
pub use stand_in::StandIn;
pub use transport::Transport;
