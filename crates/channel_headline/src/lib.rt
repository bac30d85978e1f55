//! The headline of one channel: what its journal is worth by the lines of its callers and their replies, with its law for calls in one thread.
#![tactic(auto)]

mod law;
mod worked;

pub use law::{headline_of_calls, tied_calls};
pub use worked::{worked_lies, worked_logs, worked_open, worked_wishes};
