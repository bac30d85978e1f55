//! Generic addresses, bit fields and masked writes: what registers are described by (ACPI 6.5, 5.2.3.2).
#![tactic(auto)]

mod address;
mod change;
mod field;
mod mask;
mod worked;

pub use address::{Gas, Register, gas_from, gas_to, register_laws};
pub use change::{Change, field_laws};
pub use field::{Field, field_get, field_put, fields_apart};
pub use mask::{Masks, masked};
pub use worked::{worked_addresses, worked_changes, worked_fields};
