//! Generic address structures: where a register lies.

ghost use Rattle.std.specs.Prelude.{◌≡◌, List, ℕ};
ghost use Rattle.pcc_bytes.specs.Bytes.{IsBytes};
ghost use Rattle.pcc_gas.specs.Addresses.{AddressBytes, RegisterBytes, address_bytes, address_in};

use byteorder::{ByteOrder, LittleEndian};

/// A generic address structure (ACPI 6.5, 5.2.3.2). Any twelve bytes are one; all zero where there is no register.
#[derive(Clone, Copy, Debug, PartialEq, Eq)]
pub struct Gas {
    /// The address space: 0 System Memory, 1 System I/O, 0x0a PCC, 0x7f Functional Fixed Hardware.
    pub space: u8,
    /// Bits of the register.
    pub width: u8,
    /// The register's first bit, counted from the address.
    pub offset: u8,
    /// The size of one access: 0 undefined, 1 to 4 a byte, word, dword or qword. In the PCC space, the subspace.
    pub access: u8,
    /// The register's address in its space, in bytes.
    pub address: u64,
}

/// A register of a `_CPC` package: the descriptor that holds its address (ACPI 6.5, 6.4.3.7), and the checksum
/// of the end tag after it (6.4.2.9).
#[derive(Clone, Copy, Debug, PartialEq, Eq)]
pub struct Register {
    /// Where the register lies.
    pub gas: Gas,
    /// The checksum of the bytes; 0 where no checksum is given.
    pub checksum: u8,
}

/// The address that twelve bytes spell.
#[tactic(auto, unfolding(crate::specs::Addresses::address_in, pcc_bytes::specs::Bytes::number_at))]
pub fn gas_from(bytes: &[u8; 12]) -> Gas
    ensures spelled { AddressBytes bytes.now result }
    ensures only { (gas : Gas) → AddressBytes bytes.now gas → gas ≡ result }
{
    Gas {
        space: bytes[0],
        width: bytes[1],
        offset: bytes[2],
        access: bytes[3],
        address: LittleEndian::read_u64(&bytes[4..]),
    }
}

/// The twelve bytes of an address.
#[tactic(auto, unfolding(crate::specs::Addresses::address_bytes))]
pub fn gas_to(gas: &Gas) -> [u8; 12]
    ensures spelled { AddressBytes result gas.now }
    ensures only { (bytes : List ℕ) → IsBytes bytes → AddressBytes bytes gas.now → bytes ≡ result }
    ensures bytes { result ≡ address_bytes gas.now }
{
    let address = gas.address;
    let mut bytes = [
        gas.space, gas.width, gas.offset, gas.access, 0, 0, 0, 0, 0, 0, 0, 0,
    ];
    LittleEndian::write_u64(&mut bytes[4..], address);
    bytes
}

/// Seventeen bytes are one register at most, and a register has one spelling. It does nothing.
pub fn register_laws()
    ensures one_register { (bytes : List ℕ) (a b : Register) → RegisterBytes bytes a → RegisterBytes bytes b → a ≡ b }
    ensures one_spelling { (register : Register) (a b : List ℕ) → IsBytes a → IsBytes b
        → RegisterBytes a register → RegisterBytes b register → a ≡ b }
{}
