//! Judges the journal of a channel: whether it is one legal history of its device within the limits of its subspace.
#![tactic(auto)]

mod audit;
mod fields;
mod laws;
mod verdict;
mod worked;

pub use audit::audit_board;
pub use journal_reading::{AuditError, AuditKind, Records, Told, told_from};
pub use laws::verdict_laws;
pub use verdict::{Flaw, Verdict};
pub use worked::{worked_flaws, worked_verdicts};
