//! The extended communications subspace structure, of types 3 and 4.
ghost use Rattle.std.specs.Prelude.{◌≡◌, ◌++◌, length, OnOk};
ghost use Rattle.pcct_table.specs.Rows.{extended_fields};
ghost use Rattle.pcct_table.specs.Values.{values_in};
ghost use Rattle.pcct_table.specs.Structures.{spelled, values34};

use crate::pieces::{put_all, u8_bytes, u32_bytes, u64_bytes};
use crate::places::{array_at, gas_at, u8_at, u32_at, u64_at};
use pcc_gas::{Gas, gas_to};
use pcc_io::NoMemory;

/// An extended communications subspace, of type 3 or 4 (14.1.6). The length of its memory is in bytes, its latency and
/// its turnaround in microseconds.
#[derive(Clone, Copy, Debug, PartialEq, Eq)]
pub struct Type34 {
    pub interrupt: u32,
    pub interrupt_flags: u8,
    pub reserved: [u8; 1],
    pub base: u64,
    pub length: u32,
    pub doorbell: Gas,
    pub preserve: u64,
    pub write: u64,
    pub latency: u32,
    pub rate: u32,
    pub turnaround: u32,
    pub ack: Gas,
    pub ack_preserve: u64,
    pub ack_set: u64,
    pub reserved2: [u8; 8],
    pub check: Gas,
    pub check_mask: u64,
    pub update: Gas,
    pub update_preserve: u64,
    pub update_set: u64,
    pub error: Gas,
    pub error_mask: u64,
}

impl Type34 {
    pub(crate) fn from_bytes(bytes: &[u8]) -> Type34
        requires { length bytes.now ≡ 164 }
        ensures { values_in bytes.now extended_fields ≡ values34 result }
    {
        Type34 {
            interrupt: u32_at(bytes, 2),
            interrupt_flags: u8_at(bytes, 6),
            reserved: array_at(bytes, 7),
            base: u64_at(bytes, 8),
            length: u32_at(bytes, 16),
            doorbell: gas_at(bytes, 20),
            preserve: u64_at(bytes, 32),
            write: u64_at(bytes, 40),
            latency: u32_at(bytes, 48),
            rate: u32_at(bytes, 52),
            turnaround: u32_at(bytes, 56),
            ack: gas_at(bytes, 60),
            ack_preserve: u64_at(bytes, 72),
            ack_set: u64_at(bytes, 80),
            reserved2: array_at(bytes, 88),
            check: gas_at(bytes, 96),
            check_mask: u64_at(bytes, 108),
            update: gas_at(bytes, 116),
            update_preserve: u64_at(bytes, 128),
            update_set: u64_at(bytes, 136),
            error: gas_at(bytes, 144),
            error_mask: u64_at(bytes, 156),
        }
    }

    pub(crate) fn put(self, kind: u8, out: &mut Vec<u8>) -> Result<(), NoMemory>
        ensures { OnOk result (out.new.items ≡ out.old.items ++ spelled kind 164 extended_fields (values34 self)) }
    {
        put_all(
            out,
            &[
                &[kind, 164],
                &u32_bytes(self.interrupt),
                &u8_bytes(self.interrupt_flags),
                &self.reserved,
                &u64_bytes(self.base),
                &u32_bytes(self.length),
                &gas_to(&self.doorbell),
                &u64_bytes(self.preserve),
                &u64_bytes(self.write),
                &u32_bytes(self.latency),
                &u32_bytes(self.rate),
                &u32_bytes(self.turnaround),
                &gas_to(&self.ack),
                &u64_bytes(self.ack_preserve),
                &u64_bytes(self.ack_set),
                &self.reserved2,
                &gas_to(&self.check),
                &u64_bytes(self.check_mask),
                &gas_to(&self.update),
                &u64_bytes(self.update_preserve),
                &u64_bytes(self.update_set),
                &gas_to(&self.error),
                &u64_bytes(self.error_mask),
            ],
        )
    }
}
