//! A table as text. A structure's words are written from its bytes, by the table of its fields.
ghost use Rattle.std.specs.Prelude.{◌≡◌, ◌+◌, ◌≤◌, ◌++◌, ◌∷◌, [], All, IfOk, length, OnOk};
ghost use Rattle.std.specs.List.{flat_map};
ghost use Rattle.pcc_bytes.specs.Fields.{line_text};
ghost use Rattle.pcct_table.specs.Rows.{fields_of, width};
ghost use Rattle.pcct_table.specs.Values.{value_at, values_in};
ghost use Rattle.pcct_table.specs.Subspaces.{IsSubspace, subspace_bytes, values_of};
ghost use Rattle.pcct_table.specs.ShowText.{HasText, address_text, fields_shown, header_line, show_line, show_text, value_text, words};
ghost use Rattle.pcct_table.specs.ShowReading.{shown_bytes};

use crate::header::{head_bytes, later_rows};
use crate::pieces::{put_all, u32_bytes};
use crate::places::{gas_at, u8_at, u16_at, u32_at, u64_at};
use crate::rows::{Kind, Row, bytes_row, rows_of_kind};
use crate::subspace::{Subspace, put_subspace};
use crate::table::Table;
use pcc_gas::Gas;
use pcc_io::NoMemory;
use pcc_text::{Piece, put, put_hex, put_number, put_pieces};
use std::alloc::Global;

#[tactic(auto, using(crate::proofs::Shown::address_pieces))]
fn put_address(out: &mut Vec<u8>, gas: Gas) -> Result<(), NoMemory>
    ensures { OnOk result (out.new.items ≡ out.old.items ++ address_text gas) }
{
    put_pieces(
        out,
        &[
            Piece::Number(gas.space as u64),
            Piece::Text(b":"),
            Piece::Number(gas.width as u64),
            Piece::Text(b":"),
            Piece::Number(gas.offset as u64),
            Piece::Text(b":"),
            Piece::Number(gas.access as u64),
            Piece::Text(b":"),
            Piece::Number(gas.address),
        ],
    )
}

#[tactic(auto, unfolding(crate::specs::Values::bytes_at))]
fn put_value(out: &mut Vec<u8>, kind: Kind, at: usize, bytes: &[u8]) -> Result<(), NoMemory>
    requires { at + width kind ≤ length bytes.now }
    ensures { OnOk result (out.new.items ≡ out.old.items ++ value_text (value_at kind at bytes.now)) }
{
    match kind {
        Kind::Byte => put_number(out, u64::from(u8_at(bytes, at))),
        Kind::Word => put_number(out, u64::from(u16_at(bytes, at))),
        Kind::Dword => put_number(out, u64::from(u32_at(bytes, at))),
        Kind::Qword => put_number(out, u64_at(bytes, at)),
        Kind::Address => put_address(out, gas_at(bytes, at)),
        Kind::Array(n) => put_hex(out, &bytes[at..at + n]),
    }
}

/// Puts a space and `name=value` for each field.
fn put_words(out: &mut Vec<u8>, rows: &[Row], bytes: &[u8]) -> Result<(), NoMemory>
    requires { All (λ r. r.1 + width r.2 ≤ length bytes.now) rows.now }
    ensures { OnOk result (out.new.items ≡ out.old.items ++ flat_map (λ w. 32 ∷ w) (words (fields_of rows.now) (values_in bytes.now (fields_of rows.now)))) }
{
    for row in rows {
        let Row(name, at, kind) = *row;
        put(out, b" ")?;
        put(out, name)?;
        put(out, b"=")?;
        put_value(out, kind, at, bytes)?;
    }
    Ok(())
}

/// The bytes of a header, 0 where a table's value says nothing.
fn shown_bytes(alloc: Global, table: &Table) -> Result<Vec<u8>, NoMemory>
    ensures { IfOk result (λ v. v.items ≡ shown_bytes table.now) }
{
    let mut bytes = Vec::new(alloc);
    put_all(
        &mut bytes,
        &[
            &head_bytes(table.revision),
            &table.oem_id,
            &table.oem_table,
            &u32_bytes(table.oem_revision),
            &table.creator,
            &u32_bytes(table.creator_revision),
            &u32_bytes(table.flags),
            &table.reserved,
        ],
    )?;
    Ok(bytes)
}

fn put_header_line(alloc: Global, out: &mut Vec<u8>, table: &Table) -> Result<(), NoMemory>
    requires { HasText table.now }
    ensures { OnOk result (out.new.items ≡ out.old.items ++ line_text (header_line table.now)) }
{
    let bytes = shown_bytes(alloc, table)?;
    put_pieces(
        out,
        &[
            Piece::Text(b"pcct revision="),
            Piece::Number(table.revision as u64),
        ],
    )?;
    put_words(out, later_rows(), &bytes)?;
    put(out, b"\n")
}

/// Puts a space and `name=value` for each field of a structure, from its bytes.
fn put_fields(out: &mut Vec<u8>, subspace: &Subspace, bytes: &[u8]) -> Result<(), NoMemory>
    requires right { IsSubspace subspace.now }
    requires spelled { bytes.now ≡ subspace_bytes subspace.now }
    ensures { OnOk result (out.new.items ≡ out.old.items ++ flat_map (λ w. 32 ∷ w) (words (fields_shown subspace.now) (values_of subspace.now))) }
{
    match subspace {
        Subspace::Other(other) => put_words(out, &bytes_row(other.bytes.len()), bytes),
        _ => put_words(out, rows_of_kind(subspace.kind()), bytes),
    }
}

fn put_show_line(
    alloc: Global,
    out: &mut Vec<u8>,
    place: u32,
    subspace: &Subspace,
) -> Result<(), NoMemory>
    requires { IsSubspace subspace.now }
    ensures { OnOk result (out.new.items ≡ out.old.items ++ line_text (show_line place subspace.now)) }
{
    let mut bytes = Vec::new(alloc);
    put_subspace(&mut bytes, subspace)?;
    put_pieces(
        out,
        &[
            Piece::Text(b"subspace "),
            Piece::Number(place as u64),
            Piece::Text(b" type "),
            Piece::Number(subspace.kind() as u64),
        ],
    )?;
    put_fields(out, subspace, &bytes)?;
    put(out, b"\n")
}

/// The text of a table: the line `pcct revision=R oem_id=HEX oem_table=HEX oem_revision=N creator=HEX creator_revision=N flags=N reserved=HEX`,
/// and for each structure the line `subspace PLACE type KIND` with ` name=value` for each of its fields, ` bytes=HEX` of an unknown type. Numbers are decimal, bytes
/// hexadecimal, an address is `space:width:offset:access:address` in decimal.
#[tactic(auto, using(crate::proofs::Shown::shown_start, crate::proofs::Shown::shown_more, crate::proofs::Shown::shown_end))]
pub fn show_lines(alloc: Global, table: &Table) -> Result<Vec<u8>, NoMemory>
    requires { HasText table.now }
    ensures { IfOk result (λ text. text.items ≡ show_text table.now) }
{
    let mut out = Vec::new(alloc);
    put_header_line(alloc, &mut out, table)?;
    let subspaces = table.subspaces.as_slice();
    for place in 0..subspaces.len() {
        put_show_line(alloc, &mut out, place as u32, &subspaces[place])?;
    }
    Ok(out)
}
