//! A command as the answering side knows it.

use crate::Reserved;
use pcc_io::Bytes;

/// A command that was executed.
#[derive(Debug, Drop)]
pub struct Command {
    /// The command's code.
    pub code: u32,
    /// The whole communication space as it was sent.
    pub input: Bytes,
    /// Whether the responder reported an error.
    pub error: bool,
    /// The whole communication space as it came back.
    pub output: Bytes,
}

/// The commands that were executed, in their order.
pub type Commands = Reserved<Command>;
