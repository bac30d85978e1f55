//! Writers, which put texts, numbers and bytes at the end of a text. If memory runs out they may have put a part.
ghost use Rattle.std.specs.Prelude.{◌≡◌, ◌++◌, OnOk, decimal, map};
ghost use Rattle.pcc_bytes.specs.Fields.{hex_text};
ghost use Rattle.pcc_text.specs.Pieces.{spell, spelled, spelled_of};

use crate::digits::write_hex;
use itoa::Buffer;
use pcc_io::{Bytes, NoMemory};

/// A piece of a text.
#[derive(Clone, Copy)]
pub enum Piece<'a> {
    /// A text as it is.
    Text(&'a [u8]),
    /// A number in decimal.
    Number(u64),
    /// A number of up to 128 bits in decimal.
    Wide(u128),
    /// Bytes in hexadecimal, `-` for none.
    Hex(&'a [u8]),
    /// The same of a list of bytes.
    Bytes(&'a Bytes),
    /// The first text if the test holds, and else the second.
    Either(bool, &'a [u8], &'a [u8]),
}

/// Puts a text at the end.
pub fn put(out: &mut Vec<u8>, text: &[u8]) -> Result<(), NoMemory>
    ensures { OnOk result (out.new.items ≡ out.old.items ++ text.now) }
{
    out.extend_from_slice(text)?;
    Ok(())
}

/// Puts a number at the end, in decimal.
pub fn put_number(out: &mut Vec<u8>, n: u64) -> Result<(), NoMemory>
    ensures { OnOk result (out.new.items ≡ out.old.items ++ decimal n) }
{
    let mut buffer = Buffer::new();
    put(out, buffer.format(n).as_bytes())
}

/// Puts bytes at the end, as two lower-case hexadecimal digits each, or `-` for none.
pub fn put_hex(out: &mut Vec<u8>, bytes: &[u8]) -> Result<(), NoMemory>
    ensures { OnOk result (out.new.items ≡ out.old.items ++ hex_text bytes.now) }
{
    if bytes.is_empty() {
        return put(out, b"-");
    }
    let start = out.len();
    let end = start.checked_add(bytes.len() * 2).ok_or(NoMemory)?;
    out.resize(end, 0)?;
    write_hex(bytes, &mut out[start..]);
    Ok(())
}

fn put_piece(out: &mut Vec<u8>, piece: &Piece) -> Result<(), NoMemory>
    ensures { OnOk result (out.new.items ≡ out.old.items ++ spell (spelled_of piece.now)) }
{
    match *piece {
        Piece::Text(text) => put(out, text),
        Piece::Number(n) => put_number(out, n),
        Piece::Wide(n) => put(out, Buffer::new().format(n).as_bytes()),
        Piece::Hex(bytes) => put_hex(out, bytes),
        Piece::Bytes(bytes) => put_hex(out, bytes.as_slice()),
        Piece::Either(true, text, _) => put(out, text),
        Piece::Either(false, _, text) => put(out, text),
    }
}

/// Puts pieces at the end, one after the other. A caller is proved with no file of its own where its pieces are made without calls
/// (`n as u64`, `&record.input`, `Either`), or are eight at most.
#[tactic(auto, unfolding(crate::specs::Pieces::spelled), using(crate::proofs::Appending::appending_start, crate::proofs::Appending::appending_more, crate::proofs::Appending::appending_end, crate::proofs::Appending::pieces_text))]
pub fn put_pieces(out: &mut Vec<u8>, pieces: &[Piece]) -> Result<(), NoMemory>
    ensures { OnOk result (out.new.items ≡ out.old.items ++ spelled (map spelled_of pieces.now)) }
{
    for piece in pieces {
        put_piece(out, piece)?;
    }
    Ok(())
}
