//! The headline of one channel whose words both ends step through: what its journal is worth by its calls and its trace.
#![tactic(auto)]

mod law;
mod worked;

pub use law::headline_of_weave;
pub use worked::{worked_lies, worked_logs};
