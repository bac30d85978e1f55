//! What the calls of both ends report.

/// Why a call has no reply of its own.
#[derive(Clone, Copy, Debug, PartialEq, Eq)]
pub enum CallRefusal {
    /// The code doesn't fit one byte (types 0 to 2).
    BadCode { code: u32 },
    /// More bytes than the communication space has.
    TooLong { len: usize, room: u32 },
    /// The journal has no place left.
    JournalFull,
    /// Memory ran out.
    NoMemory,
    /// An earlier command was not complete at any of these looks.
    StillPending { looks: u32 },
    /// The reading of its post is below the earliest that the limits allow, both in microseconds.
    TooSoon { now: u64, earliest: u128 },
    /// Posted, and not complete at any of these looks.
    TimedOut { looks: u32 },
}

/// What a look of the asking end saw.
#[derive(Clone, Copy, Debug, PartialEq, Eq)]
pub enum Look {
    /// The command isn't complete, after this many looks of the budget.
    Clear { looks: u32 },
    /// The reply was taken. Its record is at this place of the journal, from 0; `late` where the command had been given up.
    Drained { place: u32, late: bool },
}

/// What a turn of the answering end did.
#[derive(Clone, Copy, Debug, PartialEq, Eq)]
pub enum Turn {
    /// It executed a command and stored the reply.
    Served,
    /// The doorbell line was down.
    Idle,
    /// It touched no word: the next command is held for this many turns more.
    Held { left: u32 },
    /// It has executed as many commands as a journal has places.
    JournalFull,
    /// Memory ran out, and it touched no word.
    NoMemory,
}
