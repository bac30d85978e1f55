//! A controller of processor performance (Collaborative Processor Performance Control, ACPI 6.5, 8.4.6): a device whose registers the
//! packages of processors describe, and whether what they ask lies in the range that they advertise.
#![tactic(auto)]

mod cap;
mod device;
mod range;
mod registers;
mod values;
mod worked;

pub use cap::Cap;
pub use device::{CppcDevice, DeviceFault, device_laws, opening};
pub use range::{StartOutside, field_in, start_inside};
pub use values::{Values, values_of};
pub use worked::{worked_commands, worked_ranges, worked_states};
