//! The generic communications subspace structure, of type 0.
ghost use Rattle.std.specs.Prelude.{◌≡◌, ◌++◌, length, OnOk};
ghost use Rattle.pcct_table.specs.Rows.{generic_fields};
ghost use Rattle.pcct_table.specs.Values.{values_in};
ghost use Rattle.pcct_table.specs.Structures.{spelled, values0};

use crate::pieces::{put_all, u16_bytes, u32_bytes, u64_bytes};
use crate::places::{array_at, gas_at, u16_at, u32_at, u64_at};
use pcc_gas::{Gas, gas_to};
use pcc_io::NoMemory;

/// A generic communications subspace, of type 0 (14.1.3). The length of its memory is in bytes, its latency and its
/// turnaround in microseconds.
#[derive(Clone, Copy, Debug, PartialEq, Eq)]
pub struct Type0 {
    pub reserved: [u8; 6],
    pub base: u64,
    pub length: u64,
    pub doorbell: Gas,
    pub preserve: u64,
    pub write: u64,
    pub latency: u32,
    pub rate: u32,
    pub turnaround: u16,
}

impl Type0 {
    pub(crate) fn from_bytes(bytes: &[u8]) -> Type0
        requires { length bytes.now ≡ 62 }
        ensures { values_in bytes.now generic_fields ≡ values0 result }
    {
        Type0 {
            reserved: array_at(bytes, 2),
            base: u64_at(bytes, 8),
            length: u64_at(bytes, 16),
            doorbell: gas_at(bytes, 24),
            preserve: u64_at(bytes, 36),
            write: u64_at(bytes, 44),
            latency: u32_at(bytes, 52),
            rate: u32_at(bytes, 56),
            turnaround: u16_at(bytes, 60),
        }
    }

    pub(crate) fn put(self, out: &mut Vec<u8>) -> Result<(), NoMemory>
        ensures { OnOk result (out.new.items ≡ out.old.items ++ spelled 0 62 generic_fields (values0 self)) }
    {
        put_all(
            out,
            &[
                &[0, 62],
                &self.reserved,
                &u64_bytes(self.base),
                &u64_bytes(self.length),
                &gas_to(&self.doorbell),
                &u64_bytes(self.preserve),
                &u64_bytes(self.write),
                &u32_bytes(self.latency),
                &u32_bytes(self.rate),
                &u16_bytes(self.turnaround),
            ],
        )
    }
}
