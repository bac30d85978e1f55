//! What is at a place of some bytes.
ghost use Rattle.std.specs.Prelude.{◌≡◌, ◌+◌, ◌<◌, ◌≤◌, length};
ghost use Rattle.pcc_bytes.specs.Bytes.{number_at};
ghost use Rattle.pcct_table.specs.Values.{address_at, bytes_at};

use byteorder::{ByteOrder, LittleEndian};
use pcc_gas::{Gas, gas_from};

#[tactic(auto, unfolding(crate::specs::Values::bytes_at))]
pub fn array_at<const N: usize>(bytes: &[u8], at: usize) -> [u8; N]
    requires { at + N ≤ length bytes.now }
    ensures { result ≡ bytes_at N at bytes.now }
{
    let mut array = [0; N];
    array.copy_from_slice(&bytes[at..at + N]);
    array
}

#[tactic(auto, unfolding(pcc_bytes::specs::Bytes::number_at))]
pub fn u8_at(bytes: &[u8], at: usize) -> u8
    requires { at < length bytes.now }
    ensures { result ≡ number_at 1 at bytes.now }
{
    bytes[at]
}

#[tactic(auto, unfolding(pcc_bytes::specs::Bytes::number_at))]
pub fn u16_at(bytes: &[u8], at: usize) -> u16
    requires { at + 2 ≤ length bytes.now }
    ensures { result ≡ number_at 2 at bytes.now }
{
    LittleEndian::read_u16(&bytes[at..])
}

#[tactic(auto, unfolding(pcc_bytes::specs::Bytes::number_at))]
pub fn u32_at(bytes: &[u8], at: usize) -> u32
    requires { at + 4 ≤ length bytes.now }
    ensures { result ≡ number_at 4 at bytes.now }
{
    LittleEndian::read_u32(&bytes[at..])
}

#[tactic(auto, unfolding(pcc_bytes::specs::Bytes::number_at))]
pub fn u64_at(bytes: &[u8], at: usize) -> u64
    requires { at + 8 ≤ length bytes.now }
    ensures { result ≡ number_at 8 at bytes.now }
{
    LittleEndian::read_u64(&bytes[at..])
}

/// The generic address at a place.
#[tactic(auto, unfolding(crate::specs::Values::address_at, crate::specs::Values::bytes_at))]
pub fn gas_at(bytes: &[u8], at: usize) -> Gas
    requires { at + 12 ≤ length bytes.now }
    ensures { result ≡ address_at at bytes.now }
{
    gas_from(&array_at(bytes, at))
}
