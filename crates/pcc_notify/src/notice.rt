//! A command of the platform.

use pcc_io::Bytes;

/// A command of the platform as the operating system handles it.
#[derive(Debug, Drop)]
pub struct Notice {
    /// The command's code.
    pub code: u32,
    /// The whole communication space as it was sent.
    pub input: Bytes,
}
