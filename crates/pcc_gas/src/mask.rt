//! Writes of a register that keep some of its bits.

ghost use Rattle.std.specs.Prelude.{◌≡◌, bit_and, bit_or};

/// The masks of a register that is written, as of a doorbell (ACPI 6.5, 14.1.3).
#[derive(Clone, Copy, Debug, PartialEq, Eq)]
pub struct Masks {
    /// Bits that stay as they were read.
    pub preserve: u64,
    /// Bits that are set besides.
    pub set: u64,
}

/// What is written to a register that was read: the bits to preserve as they were, with the bits to set.
pub fn masked(read: u64, preserve: u64, set: u64) -> u64
    ensures { result ≡ bit_or (bit_and read preserve) set }
{
    (read & preserve) | set
}
