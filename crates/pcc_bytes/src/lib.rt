//! Definitions and laws: bytes, numbers in bytes, and the fields and lines of a text. One function says that a slice of bytes holds bytes.
#![tactic(auto)]

ghost use Rattle.pcc_bytes.specs.Bytes.{IsBytes};

/// Every element of a slice of bytes is below 256. The slice's type says so, but a contract sees a list of numbers, so a function that
/// owes the fact for a slice of its own calls this one. It does nothing.
pub fn are_bytes(bytes: &[u8])
    ensures { IsBytes bytes.now }
{
    let _ = bytes;
}
