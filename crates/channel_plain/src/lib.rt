//! A channel whose two ends take turns on a plain list of words, one word step a pick: the core with nothing shared (ACPI 6.5, chapter 14).
#![tactic(auto)]

mod call_log;
mod ends;
mod lines;
mod pick;
mod plain;
mod step;
mod text;
mod trace;
mod weaving;
mod worked;

pub use plain::Plain;
pub use text::trace_lines;
pub use trace::{Asked, Side, Trace, TraceEnd, TraceLine};
pub use weaving::{weave, weave_lines};
pub use worked::{lost_ends, worked_picks};
