//! Words `name=value` of a text, read to the bytes of their fields. What is read of a word is added at the end of the bytes; where the word is
//! wrong some bytes may be added.
ghost use Rattle.std.specs.Prelude.{◌≡◌, ◌≤◌, IfOk, map, option_map};
ghost use Rattle.pcct_table.specs.Rows.{field, fields_of};
ghost use Rattle.pcct_table.specs.ShowReading.{Adds, behind_name, read_address, read_array, read_number, read_parts, read_value, read_word, read_words};

use crate::rows::{Kind, Row};
use pcc_io::NoMemory;
use pcc_text::{bytes_of, number, part, put, split};
use std::alloc::Global;

/// What follows `name=`.
#[tactic(auto, unfolding(crate::specs::ShowReading::behind_name))]
pub fn behind_name<'a>(name: &[u8], word: &'a [u8]) -> Option<&'a [u8]>
    ensures { option_map (λ x. x.now) result ≡ behind_name name.now word.now }
{
    match word.strip_prefix(name)? {
        [b'=', text @ ..] => Some(text),
        _ => None,
    }
}

#[tactic(auto, unfolding(crate::specs::ShowReading::read_number, crate::specs::Values::number_bytes))]
fn read_number(text: &[u8], width: usize, limit: u64, out: &mut Vec<u8>) -> Result<bool, NoMemory>
    requires { width ≤ 8 }
    ensures { IfOk result (λ ok. Adds (read_number width limit text.now) ok out.old.items out.new.items) }
{
    let Some(n) = number(text, limit) else {
        return Ok(false);
    };
    put(out, &n.to_le_bytes()[..width])?;
    Ok(true)
}

#[tactic(auto, unfolding(crate::specs::ShowReading::read_array))]
fn read_array(alloc: Global, text: &[u8], n: usize, out: &mut Vec<u8>) -> Result<bool, NoMemory>
    ensures { IfOk result (λ ok. Adds (read_array n text.now) ok out.old.items out.new.items) }
{
    let Some(bytes) = bytes_of(alloc, text)? else {
        return Ok(false);
    };
    if bytes.len() != n {
        return Ok(false);
    }
    put(out, bytes.as_slice())?;
    Ok(true)
}

#[tactic(auto, using(crate::proofs::Adding::adds_then, crate::proofs::Adding::adds_stop, crate::proofs::Adding::adds_last))]
fn read_parts(parts: &[&[u8]], out: &mut Vec<u8>) -> Result<bool, NoMemory>
    ensures { IfOk result (λ ok. Adds (read_parts (map (λ x. x.now) parts.now)) ok out.old.items out.new.items) }
{
    if parts.len() != 5 {
        return Ok(false);
    }
    if !read_number(part(parts, 0), 1, 255, out)? {
        return Ok(false);
    }
    if !read_number(part(parts, 1), 1, 255, out)? {
        return Ok(false);
    }
    if !read_number(part(parts, 2), 1, 255, out)? {
        return Ok(false);
    }
    if !read_number(part(parts, 3), 1, 255, out)? {
        return Ok(false);
    }
    read_number(part(parts, 4), 8, u64::MAX, out)
}

#[tactic(auto, unfolding(crate::specs::ShowReading::read_address))]
fn read_address(alloc: Global, text: &[u8], out: &mut Vec<u8>) -> Result<bool, NoMemory>
    ensures { IfOk result (λ ok. Adds (read_address text.now) ok out.old.items out.new.items) }
{
    read_parts(&split(alloc, text, b':')?, out)
}

fn read_value(alloc: Global, kind: Kind, text: &[u8], out: &mut Vec<u8>) -> Result<bool, NoMemory>
    ensures { IfOk result (λ ok. Adds (read_value kind text.now) ok out.old.items out.new.items) }
{
    match kind {
        Kind::Byte => read_number(text, 1, 255, out),
        Kind::Word => read_number(text, 2, 65535, out),
        Kind::Dword => read_number(text, 4, 4_294_967_295, out),
        Kind::Qword => read_number(text, 8, u64::MAX, out),
        Kind::Address => read_address(alloc, text, out),
        Kind::Array(n) => read_array(alloc, text, n, out),
    }
}

#[tactic(auto, unfolding(crate::specs::ShowReading::read_word))]
fn read_word(alloc: Global, row: &Row, word: &[u8], out: &mut Vec<u8>) -> Result<bool, NoMemory>
    ensures { IfOk result (λ ok. Adds (read_word (field row.now.0.now row.now.1 row.now.2) word.now) ok out.old.items out.new.items) }
{
    let Some(text) = behind_name(row.0, word) else {
        return Ok(false);
    };
    read_value(alloc, row.2, text, out)
}

/// Adds the bytes of the fields whose words these are, or says that they aren't.
#[tactic(auto, unfolding(crate::specs::ShowReading::read_words), using(crate::proofs::Adding::adds_then, crate::proofs::Adding::adds_stop))]
pub fn read_words(
    alloc: Global,
    rows: &[Row],
    words: &[&[u8]],
    out: &mut Vec<u8>,
) -> Result<bool, NoMemory>
    ensures { IfOk result (λ ok. Adds (read_words (fields_of rows.now) (map (λ x. x.now) words.now)) ok out.old.items out.new.items) }
{
    let [row, rows @ ..] = rows else {
        return Ok(words.is_empty());
    };
    let [word, words @ ..] = words else {
        return Ok(false);
    };
    if !read_word(alloc, row, word, out)? {
        return Ok(false);
    }
    read_words(alloc, rows, words, out)
}
