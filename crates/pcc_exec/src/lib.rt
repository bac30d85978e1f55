//! Devices that execute commands on the communication space of a channel (ACPI 6.5, chapter 14): what one is, with its
//! meaning as a function of its state, and the simplest, a Bank that keeps one space.
#![tactic(auto)]

mod bank;
mod executor;

pub use bank::Bank;
pub use executor::{ExecStatus, Executor};
