//! Both ends of a channel on a plain list of words, called in turn by one thread: whole posts, looks and answers, poll budgets and holds, and the
//! call of a script's line over them (ACPI 6.5, chapter 14).
#![tactic(auto)]

mod ends;
mod link;
mod outcome;
mod runs;
mod turns;

pub use channel_core::{CallRefusal, Look, Ready, Turn};
pub use ends::PlainEnds;
pub use outcome::Outcome;
pub use turns::TurnChannel;
