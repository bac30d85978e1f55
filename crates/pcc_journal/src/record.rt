//! What is kept of each command.

use pcc_io::Bytes;

/// A command that was answered.
#[derive(Debug, Drop)]
pub struct Record {
    /// The number of the caller.
    pub caller: u32,
    /// The command's code.
    pub code: u32,
    /// The whole communication space as it was sent.
    pub input: Bytes,
    /// Whether the responder reported an error.
    pub error: bool,
    /// The whole communication space as it came back.
    pub output: Bytes,
    /// The reading at which it was posted, in microseconds.
    pub post: u64,
    /// The reading at which its completion was seen, in microseconds.
    pub done: u64,
    /// Whether the caller had given the command up before it was complete.
    pub late: bool,
}

/// A command that was posted and isn't complete.
#[derive(Debug, Drop)]
pub struct Pending {
    /// The number of the caller.
    pub caller: u32,
    /// The command's code.
    pub code: u32,
    /// The whole communication space as it was sent.
    pub input: Bytes,
    /// The reading at which it was posted, in microseconds.
    pub post: u64,
}
