//! The headline of a channel of a controller of processor performance (Collaborative Processor Performance Control, ACPI 6.5, 8.4.6): no request
//! leaves a range, and none changes another field than those of its wish.
#![tactic(auto)]

mod law;
mod worked;

pub use law::{headline_of_performance, new_performance, request_laws};
pub use worked::worked_journals;
