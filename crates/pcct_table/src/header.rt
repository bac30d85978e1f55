//! The fields of a header that a table's value has (ACPI 6.5, 5.2.6 and 14.1).
ghost use Rattle.std.specs.Prelude.{◌≡◌, ◌≤◌, length};
ghost use Rattle.pcct_table.specs.Rows.{fields_of};
ghost use Rattle.pcct_table.specs.Values.{values_in};
ghost use Rattle.pcct_table.specs.ShowText.{later_fields, shown_fields, shown_values};
ghost use Rattle.pcct_table.specs.ShowReading.{head_bytes};

use crate::places::{array_at, u8_at, u32_at};
use crate::rows::Kind::{Array, Dword};
use crate::rows::Row;
use crate::subspaces::Subspaces;
use crate::table::Table;

const LATER: [Row; 7] = [
    Row(b"oem_id", 10, Array(6)),
    Row(b"oem_table", 16, Array(8)),
    Row(b"oem_revision", 24, Dword),
    Row(b"creator", 28, Array(4)),
    Row(b"creator_revision", 32, Dword),
    Row(b"flags", 36, Dword),
    Row(b"reserved", 40, Array(8)),
];

/// The fields after the checksum, in the order of their places.
pub fn later_rows() -> &'static [Row]
    ensures { fields_of result.now ≡ later_fields }
{
    &LATER
}

/// The bytes of a header up to its checksum, 0 where a table's value says nothing.
pub fn head_bytes(revision: u8) -> [u8; 10]
    ensures { result ≡ head_bytes revision }
{
    [0, 0, 0, 0, 0, 0, 0, 0, revision, 0]
}

/// The table that the bytes of a header and structures make.
pub fn table_with(header: &[u8], subspaces: Subspaces) -> Table
    requires { 48 ≤ length header.now }
    ensures fields { values_in header.now shown_fields ≡ shown_values result }
    ensures subspaces { result.subspaces ≡ subspaces }
{
    Table {
        revision: u8_at(header, 8),
        oem_id: array_at(header, 10),
        oem_table: array_at(header, 16),
        oem_revision: u32_at(header, 24),
        creator: array_at(header, 28),
        creator_revision: u32_at(header, 32),
        flags: u32_at(header, 36),
        reserved: array_at(header, 40),
        subspaces,
    }
}
