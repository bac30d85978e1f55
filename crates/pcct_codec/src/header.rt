//! A table's header.
ghost use Rattle.std.specs.Prelude.{◌≡◌, ◌≤◌, ◌+◌, ◌*◌, ◌++◌, length, OnOk, codes};
ghost use Rattle.pcc_bytes.specs.Bytes.{number_at};
ghost use Rattle.pcct_table.specs.Rows.{header_fields, header_size};
ghost use Rattle.pcct_table.specs.Values.{bytes_at, fields_bytes, values_in};
ghost use Rattle.pcct_codec.specs.Tables.{header_values, most_bytes, most_structures};
ghost use Rattle.pcct_codec.specs.declared.header.TheConstants.{HEADER_BYTES, MAX_TABLE_BYTES};
ghost use Rattle.pcct_codec.specs.Faults.{told_length};

use crate::fault::TableFault;
use pcc_io::NoMemory;
use pcct_table::pieces::{put_all, u8_bytes, u32_bytes};
use pcct_table::places::{array_at, u8_at, u32_at};
use pcct_table::{Subspaces, Table};

/// The bytes of a table's header (ACPI 6.5, 5.2.6 and 14.1).
pub const HEADER_BYTES: usize = 48;

/// The most bytes of a table: its header, and `MAX_SUBSPACES` structures of 255 bytes.
pub const MAX_TABLE_BYTES: u32 = 65_328;

/// The number of bytes that the header states, or the first of its checks that fails.
#[tactic(auto, unfolding(crate::specs::Faults::told_length))]
pub(crate) fn told_length(header: &[u8]) -> Result<usize, TableFault>
    requires { 48 ≤ length header.now }
    ensures { result ≡ told_length header.now }
{
    if !header.starts_with(b"PCCT") {
        return Err(TableFault::Signature);
    }
    let len = u32_at(header, 4);
    if len < HEADER_BYTES as u32 || len > MAX_TABLE_BYTES {
        return Err(TableFault::LengthOutside { len });
    }
    let found = u8_at(header, 8);
    if !(found == 1 || found == 2) {
        return Err(TableFault::Revision { found });
    }
    Ok(len as usize)
}

/// The table that a header and structures make.
pub(crate) fn table_with(header: &[u8], subspaces: Subspaces) -> Table
    requires { 48 ≤ length header.now }
    ensures fields { values_in header.now header_fields
        ≡ header_values (bytes_at 4 0 header.now) (number_at 4 4 header.now) (number_at 1 9 header.now) result }
    ensures subspaces { result.subspaces ≡ subspaces }
{
    Table {
        revision: u8_at(header, 8),
        oem_id: array_at(header, 10),
        oem_table: array_at(header, 16),
        oem_revision: u32_at(header, 24),
        creator: array_at(header, 28),
        creator_revision: u32_at(header, 32),
        flags: u32_at(header, 36),
        reserved: array_at(header, 40),
        subspaces,
    }
}

/// Puts the bytes of a header at the end. If memory runs out some of them may have been put.
pub(crate) fn put_header(
    out: &mut Vec<u8>,
    table: &Table,
    len: u32,
    check: u8,
) -> Result<(), NoMemory>
    ensures { OnOk result (out.new.items ≡ out.old.items ++ fields_bytes header_fields (header_values (codes "PCCT") len check table.now)) }
{
    put_all(
        out,
        &[
            b"PCCT",
            &u32_bytes(len),
            &u8_bytes(table.revision),
            &u8_bytes(check),
            &table.oem_id,
            &table.oem_table,
            &u32_bytes(table.oem_revision),
            &table.creator,
            &u32_bytes(table.creator_revision),
            &u32_bytes(table.flags),
            &table.reserved,
        ],
    )
}

/// The limits as numbers, so that none changes unseen. It does nothing.
pub fn limits_are()
    ensures header { HEADER_BYTES ≡ 48 }
    ensures table { MAX_TABLE_BYTES ≡ 65328 }
    ensures structures { most_structures ≡ 256 }
    ensures all { most_bytes ≡ header_size + most_structures * 255 }
{}
