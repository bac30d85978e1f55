//! Audits journals: cuts an input into its script part and its journals, reads the journals, and judges each by the subspace that the script opens.
#![tactic(auto)]

mod cut;
mod journals;
mod judge;
mod laws;
mod worked;

pub use cut::cut_journals;
pub use judge::{Audited, audit};
pub use laws::{audit_laws, cut_laws, journals_laws};
pub use worked::{worked_cuts, worked_journals};
