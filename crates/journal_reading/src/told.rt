//! What the text of a journal tells, and what may be wrong with it.
ghost use Rattle.std.specs.Prelude.{◌≡◌};

use pcc_io::{Items, NoMemory};
use pcc_journal::{JournalHead, Pending, Record};

/// Records, in their order.
pub type Records = Items<Record>;

/// A journal that a text tells.
#[derive(Debug, Drop)]
pub struct Told {
    pub head: JournalHead,
    pub records: Records,
    /// The command that was posted and isn't complete.
    pub pending: Option<Pending>,
}

/// What is wrong with a line of a journal's text.
#[derive(Clone, Copy, Debug, PartialEq, Eq)]
pub enum AuditKind {
    /// It is no line of a journal in its place, or has no line feed, or there is none.
    Text,
    /// It is the line of a record, after those of 4,096.
    Many,
}

/// Why the front of a text is no journal's.
#[derive(Clone, Copy, Debug, PartialEq, Eq)]
pub enum AuditError {
    /// The first line that is wrong.
    Fault { line: u32, kind: AuditKind },
    NoMemory,
}

impl From<NoMemory> for AuditError {
    ghost use Rattle.std.specs.Prelude.{◌≡◌};
    ghost use Rattle.journal_reading.specs.declared.told.AuditError.TheVariants.{NoMemory as Exhausted};

    ghost from_gives = { λ _ error. error ≡ Exhausted };

    fn from(_: NoMemory) -> AuditError {
        AuditError::NoMemory
    }
}
