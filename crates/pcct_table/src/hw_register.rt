//! The communications subspace structure that is based on hardware registers, of type 5.
ghost use Rattle.std.specs.Prelude.{◌≡◌, ◌++◌, length, OnOk};
ghost use Rattle.pcct_table.specs.Rows.{hw_register_fields};
ghost use Rattle.pcct_table.specs.Values.{values_in};
ghost use Rattle.pcct_table.specs.Structures.{spelled, values5};

use crate::pieces::{put_all, u16_bytes, u32_bytes, u64_bytes};
use crate::places::{gas_at, u16_at, u32_at, u64_at};
use pcc_gas::{Gas, gas_to};
use pcc_io::NoMemory;

/// A communications subspace based on hardware registers, of type 5 (14.1.7). The length of its memory is in bytes, its
/// latency and its turnaround in microseconds.
#[derive(Clone, Copy, Debug, PartialEq, Eq)]
pub struct Type5 {
    pub version: u16,
    pub base: u64,
    pub length: u64,
    pub doorbell: Gas,
    pub preserve: u64,
    pub write: u64,
    pub check: Gas,
    pub check_mask: u64,
    pub error: Gas,
    pub error_mask: u64,
    pub latency: u32,
    pub turnaround: u32,
}

impl Type5 {
    pub(crate) fn from_bytes(bytes: &[u8]) -> Type5
        requires { length bytes.now ≡ 96 }
        ensures { values_in bytes.now hw_register_fields ≡ values5 result }
    {
        Type5 {
            version: u16_at(bytes, 2),
            base: u64_at(bytes, 4),
            length: u64_at(bytes, 12),
            doorbell: gas_at(bytes, 20),
            preserve: u64_at(bytes, 32),
            write: u64_at(bytes, 40),
            check: gas_at(bytes, 48),
            check_mask: u64_at(bytes, 60),
            error: gas_at(bytes, 68),
            error_mask: u64_at(bytes, 80),
            latency: u32_at(bytes, 88),
            turnaround: u32_at(bytes, 92),
        }
    }

    pub(crate) fn put(self, out: &mut Vec<u8>) -> Result<(), NoMemory>
        ensures { OnOk result (out.new.items ≡ out.old.items ++ spelled 5 96 hw_register_fields (values5 self)) }
    {
        put_all(
            out,
            &[
                &[5, 96],
                &u16_bytes(self.version),
                &u64_bytes(self.base),
                &u64_bytes(self.length),
                &gas_to(&self.doorbell),
                &u64_bytes(self.preserve),
                &u64_bytes(self.write),
                &gas_to(&self.check),
                &u64_bytes(self.check_mask),
                &gas_to(&self.error),
                &u64_bytes(self.error_mask),
                &u32_bytes(self.latency),
                &u32_bytes(self.turnaround),
            ],
        )
    }
}
