//! What the program printed for a script is audited as yes.
#![tactic(auto)]

mod laws;

pub use laws::audited;
