//! What a pick of an end did, and the calls that the picks serve.

use pcc_io::{Bytes, Items};
use pcc_steps::Action;

/// An end of a channel: the operating system's, or the platform's. The platform asks on type 4, the system on the other types.
#[derive(Clone, Copy, Debug, PartialEq, Eq)]
pub enum Side {
    System,
    Platform,
}

/// A call: a command of this code with the bytes that are laid over the front of the space. It is given up after N looks, from 1 to
/// 1,000,000.
#[derive(Debug, Drop)]
pub struct Asked {
    /// The number of the caller.
    pub caller: u32,
    pub code: u32,
    pub bytes: Bytes,
    pub polls: u32,
}

/// What ended with a pick.
#[derive(Clone, Copy, Debug, PartialEq, Eq)]
pub enum TraceEnd {
    /// Nothing.
    Open,
    /// The run that posts a command: it is in flight.
    Posted,
    /// A look that saw the command incomplete. The call may look again.
    Clear { looks: u32 },
    /// A call: its reply was taken.
    Done { error: bool },
    /// The look that took the reply of a command that was given up. The call goes on.
    Late { error: bool },
    /// A call: its last look saw its own command incomplete.
    TimedOut { looks: u32 },
    /// A call: its last look saw an earlier command incomplete.
    StillPending { looks: u32 },
    /// A call: its reading was below the earliest that the limits allow, in microseconds.
    TooSoon { now: u64, earliest: u128 },
    /// A call: the header of types 0 to 2 has one byte for the code.
    BadCode { code: u32 },
    /// A call: the space has fewer bytes.
    TooLong { len: usize, room: u32 },
    /// A call: there are 4,096 records, with the command in flight.
    JournalFull,
    /// An answering run that executed a command.
    Served,
    /// An answering run that found none.
    Idle,
}

/// One pick: which end took it, its word step, and what ended with it.
#[derive(Clone, Copy, Debug, PartialEq, Eq)]
pub struct TraceLine {
    pub side: Side,
    pub action: Action,
    /// The value that was loaded or found, and 0 for a store and a rest.
    pub value: u64,
    pub end: TraceEnd,
}

/// The picks of a run, in order.
pub type Trace = Items<TraceLine>;
