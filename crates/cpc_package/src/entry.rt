//! What an entry of a package says.
use pcc_gas::Register;

/// What an entry says.
#[derive(Clone, Copy, Debug, PartialEq, Eq)]
pub enum Entry {
    Integer(u64),
    Register(Register),
    /// A register whose address is twelve zero bytes: there is none.
    Absent { checksum: u8 },
}
