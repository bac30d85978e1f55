//! What the elements of a package say.
ghost use Rattle.std.specs.Prelude.{◌≡◌, length};
ghost use Rattle.cpc_package.specs.Entries.{entry_in, entry_of, is_absent_in, register_in};
ghost use Rattle.cpc_package.specs.Packages.{HasSeventeen};

use crate::entry::Entry;
use aml_pkg::Element;
use pcc_gas::{Register, gas_from};

/// How many bytes a register has (ACPI 6.5, 6.4.3.7 and 6.4.2.9).
pub const REGISTER_LEN: usize = 17;

/// The register that the bytes spell, if they spell one.
#[tactic(auto, unfolding(crate::specs::Entries::register_in))]
fn register_in(bytes: &[u8]) -> Register
    requires { length bytes.now ≡ 17 }
    ensures { result ≡ register_in bytes.now }
{
    let mut address = [0; 12];
    address.copy_from_slice(&bytes[3..15]);
    Register {
        gas: gas_from(&address),
        checksum: bytes[16],
    }
}

/// Whether the address is twelve zero bytes.
#[tactic(auto, unfolding(crate::specs::Entries::is_absent_in))]
fn is_absent_in(bytes: &[u8]) -> bool
    requires { length bytes.now ≡ 17 }
    ensures { result ≡ is_absent_in bytes.now }
{
    bytes[3..15].iter().all(|byte| *byte == 0)
}

/// What the bytes of a register say.
pub fn entry_in(bytes: &[u8]) -> Entry
    requires { length bytes.now ≡ 17 }
    ensures { result ≡ entry_in bytes.now }
{
    if is_absent_in(bytes) {
        return Entry::Absent {
            checksum: bytes[16],
        };
    }
    Entry::Register(register_in(bytes))
}

/// What an element says.
pub fn entry_of(element: &Element) -> Entry
    requires { HasSeventeen element.now }
    ensures { result ≡ entry_of element.now }
{
    match element {
        Element::Int(int) => Entry::Integer(int.value),
        Element::Buffer(buffer) => entry_in(buffer.bytes.as_slice()),
    }
}
