//! Requests of processor performance, as an operating system makes them (Collaborative Processor Performance Control, ACPI 6.5, 8.4.6).
#![tactic(auto)]

mod checks;
mod wish;
mod worked;

pub use wish::{SetRefusal, Wish, put_wish, wish_laws};
pub use worked::worked_wishes;
