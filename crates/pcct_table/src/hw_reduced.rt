//! The hardware-reduced communications subspace structures, of types 1 and 2.
ghost use Rattle.std.specs.Prelude.{◌≡◌, ◌++◌, length, OnOk};
ghost use Rattle.pcct_table.specs.Rows.{hw_reduced1_fields, hw_reduced2_fields};
ghost use Rattle.pcct_table.specs.Values.{values_in};
ghost use Rattle.pcct_table.specs.Structures.{spelled, values1, values2};

use crate::pieces::{put_all, u8_bytes, u16_bytes, u32_bytes, u64_bytes};
use crate::places::{array_at, gas_at, u8_at, u16_at, u32_at, u64_at};
use pcc_gas::{Gas, gas_to};
use pcc_io::NoMemory;

/// A hardware-reduced communications subspace, of type 1 (14.1.4). The length of its memory is in bytes, its latency
/// and its turnaround in microseconds.
#[derive(Clone, Copy, Debug, PartialEq, Eq)]
pub struct Type1 {
    pub interrupt: u32,
    pub interrupt_flags: u8,
    pub reserved: [u8; 1],
    pub base: u64,
    pub length: u64,
    pub doorbell: Gas,
    pub preserve: u64,
    pub write: u64,
    pub latency: u32,
    pub rate: u32,
    pub turnaround: u16,
}

impl Type1 {
    pub(crate) fn from_bytes(bytes: &[u8]) -> Type1
        requires { length bytes.now ≡ 62 }
        ensures { values_in bytes.now hw_reduced1_fields ≡ values1 result }
    {
        Type1 {
            interrupt: u32_at(bytes, 2),
            interrupt_flags: u8_at(bytes, 6),
            reserved: array_at(bytes, 7),
            base: u64_at(bytes, 8),
            length: u64_at(bytes, 16),
            doorbell: gas_at(bytes, 24),
            preserve: u64_at(bytes, 36),
            write: u64_at(bytes, 44),
            latency: u32_at(bytes, 52),
            rate: u32_at(bytes, 56),
            turnaround: u16_at(bytes, 60),
        }
    }

    pub(crate) fn put(self, out: &mut Vec<u8>) -> Result<(), NoMemory>
        ensures { OnOk result (out.new.items ≡ out.old.items ++ spelled 1 62 hw_reduced1_fields (values1 self)) }
    {
        put_all(
            out,
            &[
                &[1, 62],
                &u32_bytes(self.interrupt),
                &u8_bytes(self.interrupt_flags),
                &self.reserved,
                &u64_bytes(self.base),
                &u64_bytes(self.length),
                &gas_to(&self.doorbell),
                &u64_bytes(self.preserve),
                &u64_bytes(self.write),
                &u32_bytes(self.latency),
                &u32_bytes(self.rate),
                &u16_bytes(self.turnaround),
            ],
        )
    }
}

/// A hardware-reduced communications subspace whose interrupt is acknowledged by a register, of type 2 (14.1.5). The
/// length of its memory is in bytes, its latency and its turnaround in microseconds.
#[derive(Clone, Copy, Debug, PartialEq, Eq)]
pub struct Type2 {
    pub interrupt: u32,
    pub interrupt_flags: u8,
    pub reserved: [u8; 1],
    pub base: u64,
    pub length: u64,
    pub doorbell: Gas,
    pub preserve: u64,
    pub write: u64,
    pub latency: u32,
    pub rate: u32,
    pub turnaround: u16,
    pub ack: Gas,
    pub ack_preserve: u64,
    pub ack_write: u64,
}

impl Type2 {
    pub(crate) fn from_bytes(bytes: &[u8]) -> Type2
        requires { length bytes.now ≡ 90 }
        ensures { values_in bytes.now hw_reduced2_fields ≡ values2 result }
    {
        Type2 {
            interrupt: u32_at(bytes, 2),
            interrupt_flags: u8_at(bytes, 6),
            reserved: array_at(bytes, 7),
            base: u64_at(bytes, 8),
            length: u64_at(bytes, 16),
            doorbell: gas_at(bytes, 24),
            preserve: u64_at(bytes, 36),
            write: u64_at(bytes, 44),
            latency: u32_at(bytes, 52),
            rate: u32_at(bytes, 56),
            turnaround: u16_at(bytes, 60),
            ack: gas_at(bytes, 62),
            ack_preserve: u64_at(bytes, 74),
            ack_write: u64_at(bytes, 82),
        }
    }

    pub(crate) fn put(self, out: &mut Vec<u8>) -> Result<(), NoMemory>
        ensures { OnOk result (out.new.items ≡ out.old.items ++ spelled 2 90 hw_reduced2_fields (values2 self)) }
    {
        put_all(
            out,
            &[
                &[2, 90],
                &u32_bytes(self.interrupt),
                &u8_bytes(self.interrupt_flags),
                &self.reserved,
                &u64_bytes(self.base),
                &u64_bytes(self.length),
                &gas_to(&self.doorbell),
                &u64_bytes(self.preserve),
                &u64_bytes(self.write),
                &u32_bytes(self.latency),
                &u32_bytes(self.rate),
                &u16_bytes(self.turnaround),
                &gas_to(&self.ack),
                &u64_bytes(self.ack_preserve),
                &u64_bytes(self.ack_write),
            ],
        )
    }
}
