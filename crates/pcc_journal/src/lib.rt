//! The journal of a subspace: a record for each command that was answered, the notes beside them, and the text that the program prints of
//! them.
#![tactic(auto)]

mod cases;
mod command;
mod events;
mod journal;
mod note;
mod record;
mod reserved;
mod text;

pub use cases::{limits_are, worked_cases};
pub use command::{Command, Commands};
pub use events::{events_grow, notes_pair};
pub use journal::Journal;
pub use note::{Note, Notes};
pub use record::{Pending, Record};
pub use reserved::{MAX_ITEMS, ReserveRefusal, Reserved};
pub use text::{JournalHead, journal_lines, put_journal};
