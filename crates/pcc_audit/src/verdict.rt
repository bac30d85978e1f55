//! What a journal is worth.

/// What is wrong with a command of a journal, in the order of the tests.
#[derive(Clone, Copy, Debug, PartialEq, Eq)]
pub enum Flaw {
    /// The head isn't that of the subspace. It is told of command 0.
    Head,
    /// The input, or a record's output, isn't as long as the communication space.
    Size,
    /// It was posted too soon.
    Limits,
    /// The input of a controller's command has a bit changed that its code may not change.
    Touched,
    /// The input of a controller's command that writes has a processor outside its range.
    Range,
    /// The error or the output isn't the device's.
    Legal,
}

/// The verdict on a journal.
#[derive(Clone, Copy, Debug, PartialEq, Eq)]
pub enum Verdict {
    /// Nothing is wrong.
    Yes,
    /// The first command that is wrong, by its number, and its first flaw. A pending command has the number of records.
    No { number: u32, flaw: Flaw },
}
