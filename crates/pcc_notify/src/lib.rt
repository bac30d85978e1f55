//! Type 4: the platform posts commands, and the operating system handles each of them whole, once and in order (ACPI 6.5, 14.1.6).
#![tactic(auto)]

mod notice;
mod notify;
mod weaving;
mod worked;

pub use notice::Notice;
pub use notify::NotifyPlain;
pub use pcc_wiring::asks_of;
pub use weaving::weave_lines;
pub use worked::{worked_lies, worked_notices};
