//! The fields of each type of structure, after its type and its size (ACPI 6.5, 14.1).
ghost use Rattle.std.specs.Prelude.{◌≡◌};
ghost use Rattle.pcct_table.specs.Rows.{bytes_fields, fields_of, known_fields};

use Kind::{Address, Array, Byte, Dword, Qword, Word};

/// What a field holds: a number of 1, 2, 4 or 8 bytes, lowest first, a generic address of 12, or bytes of a fixed number.
#[derive(Clone, Copy, Debug, PartialEq, Eq)]
pub enum Kind {
    Byte,
    Word,
    Dword,
    Qword,
    Address,
    Array(usize),
}

/// A field: its name, the place of its first byte in the structure, and what it holds.
#[derive(Clone, Copy, Debug)]
pub struct Row(pub &'static [u8], pub usize, pub Kind);

const GENERIC: [Row; 9] = [
    Row(b"reserved", 2, Array(6)),
    Row(b"base", 8, Qword),
    Row(b"length", 16, Qword),
    Row(b"doorbell", 24, Address),
    Row(b"preserve", 36, Qword),
    Row(b"write", 44, Qword),
    Row(b"latency", 52, Dword),
    Row(b"rate", 56, Dword),
    Row(b"turnaround", 60, Word),
];

const HW_REDUCED1: [Row; 11] = [
    Row(b"interrupt", 2, Dword),
    Row(b"interrupt_flags", 6, Byte),
    Row(b"reserved", 7, Array(1)),
    Row(b"base", 8, Qword),
    Row(b"length", 16, Qword),
    Row(b"doorbell", 24, Address),
    Row(b"preserve", 36, Qword),
    Row(b"write", 44, Qword),
    Row(b"latency", 52, Dword),
    Row(b"rate", 56, Dword),
    Row(b"turnaround", 60, Word),
];

const HW_REDUCED2: [Row; 14] = [
    Row(b"interrupt", 2, Dword),
    Row(b"interrupt_flags", 6, Byte),
    Row(b"reserved", 7, Array(1)),
    Row(b"base", 8, Qword),
    Row(b"length", 16, Qword),
    Row(b"doorbell", 24, Address),
    Row(b"preserve", 36, Qword),
    Row(b"write", 44, Qword),
    Row(b"latency", 52, Dword),
    Row(b"rate", 56, Dword),
    Row(b"turnaround", 60, Word),
    Row(b"ack", 62, Address),
    Row(b"ack_preserve", 74, Qword),
    Row(b"ack_write", 82, Qword),
];

const EXTENDED: [Row; 22] = [
    Row(b"interrupt", 2, Dword),
    Row(b"interrupt_flags", 6, Byte),
    Row(b"reserved", 7, Array(1)),
    Row(b"base", 8, Qword),
    Row(b"length", 16, Dword),
    Row(b"doorbell", 20, Address),
    Row(b"preserve", 32, Qword),
    Row(b"write", 40, Qword),
    Row(b"latency", 48, Dword),
    Row(b"rate", 52, Dword),
    Row(b"turnaround", 56, Dword),
    Row(b"ack", 60, Address),
    Row(b"ack_preserve", 72, Qword),
    Row(b"ack_set", 80, Qword),
    Row(b"reserved2", 88, Array(8)),
    Row(b"check", 96, Address),
    Row(b"check_mask", 108, Qword),
    Row(b"update", 116, Address),
    Row(b"update_preserve", 128, Qword),
    Row(b"update_set", 136, Qword),
    Row(b"error", 144, Address),
    Row(b"error_mask", 156, Qword),
];

const HW_REGISTER: [Row; 12] = [
    Row(b"version", 2, Word),
    Row(b"base", 4, Qword),
    Row(b"length", 12, Qword),
    Row(b"doorbell", 20, Address),
    Row(b"preserve", 32, Qword),
    Row(b"write", 40, Qword),
    Row(b"check", 48, Address),
    Row(b"check_mask", 60, Qword),
    Row(b"error", 68, Address),
    Row(b"error_mask", 80, Qword),
    Row(b"latency", 88, Dword),
    Row(b"turnaround", 92, Dword),
];

/// The fields of a known type's structures, in the order of their places.
pub fn rows_of_kind(kind: u8) -> &'static [Row]
    ensures { fields_of result.now ≡ known_fields kind }
{
    match kind {
        0 => &GENERIC,
        1 => &HW_REDUCED1,
        2 => &HW_REDUCED2,
        3 | 4 => &EXTENDED,
        5 => &HW_REGISTER,
        _ => &[],
    }
}

/// The one field of a structure of an unknown type: the N bytes after its head.
pub fn bytes_row(n: usize) -> [Row; 1]
    ensures { fields_of result ≡ bytes_fields n }
{
    [Row(b"bytes", 2, Array(n))]
}
