//! What became of a call.
ghost use Rattle.channel_turns.specs.Calls.{IsRefused};

use channel_core::CallRefusal;
use pcc_io::NoMemory;

/// What became of a call.
#[derive(Clone, Copy, Debug, PartialEq, Eq)]
pub enum Outcome {
    /// Executed in its call; its record is at this place of the journal, from 0.
    Done { place: usize },
    /// The code doesn't fit one byte (types 0 to 2).
    BadCode { code: u32 },
    /// More bytes than the communication space has.
    TooLong { len: usize, room: u32 },
    /// The journal has no place left.
    JournalFull,
    /// An earlier command was not complete at any of N looks.
    StillPending { looks: u32 },
    /// The reading of its post is below the earliest that the limits allow, both in microseconds.
    TooSoon { now: u64, earliest: u128 },
    /// Posted, and not complete at any of N looks.
    TimedOut { looks: u32 },
}

impl Outcome {
    /// The outcome of a call whose command is refused.
    pub fn of_refusal(refusal: CallRefusal) -> Result<Outcome, NoMemory>
        ensures { IsRefused refusal result }
    {
        match refusal {
            CallRefusal::BadCode { code } => Ok(Outcome::BadCode { code }),
            CallRefusal::TooLong { len, room } => Ok(Outcome::TooLong { len, room }),
            CallRefusal::JournalFull => Ok(Outcome::JournalFull),
            CallRefusal::NoMemory => Err(NoMemory),
            CallRefusal::StillPending { looks } => Ok(Outcome::StillPending { looks }),
            CallRefusal::TooSoon { now, earliest } => Ok(Outcome::TooSoon { now, earliest }),
            CallRefusal::TimedOut { looks } => Ok(Outcome::TimedOut { looks }),
        }
    }
}
