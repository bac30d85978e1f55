//! Whether a subspace can be opened, and how it is wired then (ACPI 6.5, chapter 14).
#![tactic(auto)]

mod fault;
mod overlap;
mod place;
mod register;
mod roles;
mod wiring;
mod worked;

pub use fault::{Asks, Role, WiringFault};
pub use overlap::{Overlap, opened_apart, overlap_laws};
pub use place::{place_laws, place_of};
pub use wiring::{asks_of, right_wirings, wiring_of};
pub use worked::worked_cases;
