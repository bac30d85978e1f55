//! The text of a journal, read exactly: the journal that the front of a text tells, or the first line that is wrong.
#![tactic(auto)]

mod cases;
mod laws;
mod lines;
mod reading;
mod told;
mod words;

pub use cases::{limits_are, worked_journals};
pub use laws::text_laws;
pub use reading::told_from;
pub use told::{AuditError, AuditKind, Records, Told};
