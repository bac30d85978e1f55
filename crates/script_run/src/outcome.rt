//! What becomes of a line that asks something of a channel.
use channel_turns::Outcome;
use cppc_calls::SetRefusal;
use cppc_device::Values;

/// The answer to a line that asks something of a channel.
#[derive(Clone, Copy, Debug, PartialEq, Eq)]
pub enum LineAnswer {
    /// What became of its call.
    Called(Outcome),
    /// The numbers of a processor in the space that came back.
    Read(Values),
    /// The wish can't be put.
    Refused(SetRefusal),
}

/// The outcome of a line.
#[derive(Clone, Copy, Debug, PartialEq, Eq)]
pub struct LineOutcome {
    /// The place of its channel among those that are opened, from 0.
    pub place: usize,
    pub answer: LineAnswer,
}
