//! Readers of the fields of a line: numbers, bytes and letters, each with the fault of a field that isn't right.
ghost use Rattle.std.specs.Prelude.{◌≡◌, ◌<◌, ◌≤◌, IfOk, length, map};
ghost use Rattle.pcc_text.specs.Reading.{hex_of, number_of};
ghost use Rattle.pcc_script.specs.Rows.{field_at, LetterText, OfBytes, OfLetters, OfNumber, OfOptional, Optional};
ghost use Rattle.pcc_script.specs.Reading.{bytes_value, Gives, letters_of, letters_value, number_value, positive_value, read_field};

use crate::fault::{ScriptKind, Stop};
use crate::scenario::{Letter, Picks};
use pcc_io::{Bytes, NoMemory};
use pcc_text::{bytes_of, is_text, number, part};
use std::alloc::Global;

/// The first field.
pub fn first_field<'a>(fields: &[&'a [u8]]) -> &'a [u8]
    ensures { result.now ≡ field_at (map (λ field. field.now) fields.now) 0 }
{
    if fields.is_empty() {
        b""
    } else {
        part(fields, 0)
    }
}

/// A number up to a limit.
pub fn number_field(fields: &[&[u8]], place: usize, limit: u64) -> Result<u64, Stop>
    requires { place < length fields.now }
    ensures value { Gives OfNumber result (number_value (number_of limit (field_at (map (λ field. field.now) fields.now) place))) }
    ensures bound { IfOk result (λ n. n ≤ limit) }
{
    match number(part(fields, place), limit) {
        Some(n) => Ok(n),
        None => Err(Stop::Wrong(ScriptKind::Number)),
    }
}

/// A number from 1 up to a limit.
pub fn positive_field(fields: &[&[u8]], place: usize, limit: u64) -> Result<u64, Stop>
    requires { place < length fields.now }
    ensures value { Gives OfNumber result (positive_value (number_of limit (field_at (map (λ field. field.now) fields.now) place))) }
    ensures bound { IfOk result (λ n. n ≤ limit) }
{
    match number(part(fields, place), limit) {
        Some(0) | None => Err(Stop::Wrong(ScriptKind::Number)),
        Some(n) => Ok(n),
    }
}

/// A number, or `-` for none.
#[tactic(auto, unfolding(crate::specs::Reading::read_field))]
pub fn optional_field(fields: &[&[u8]], place: usize) -> Result<Option<u64>, Stop>
    requires { place < length fields.now }
    ensures { Gives OfOptional result (read_field Optional (field_at (map (λ field. field.now) fields.now) place)) }
{
    let field = part(fields, place);
    if is_text(field, b"-") {
        return Ok(None);
    }
    match number(field, u64::MAX) {
        Some(n) => Ok(Some(n)),
        None => Err(Stop::Wrong(ScriptKind::Number)),
    }
}

/// Bytes in hexadecimal, or `-` for none.
pub fn bytes_field(alloc: Global, fields: &[&[u8]], place: usize) -> Result<Bytes, Stop>
    requires { place < length fields.now }
    ensures { Gives OfBytes result (bytes_value (hex_of (field_at (map (λ field. field.now) fields.now) place))) }
{
    match bytes_of(alloc, part(fields, place))? {
        Some(bytes) => Ok(bytes),
        None => Err(Stop::Wrong(ScriptKind::Hex)),
    }
}

/// The letters that a field spells.
#[tactic(auto, using(crate::proofs::Each::each_more, crate::proofs::Each::each_none, crate::proofs::Each::each_end))]
fn letters(alloc: Global, field: &[u8]) -> Result<Option<Picks>, NoMemory>
    ensures { IfOk result (λ o. o ≡ letters_of field.now) }
{
    let mut letters = Picks::new(alloc);
    for i in 0..field.len() {
        match field[i] {
            b'o' => letters.push(Letter::O)?,
            b'p' => letters.push(Letter::P)?,
            _ => return Ok(None),
        }
    }
    Ok(Some(letters))
}

/// Letters, at least one.
pub fn letters_field(alloc: Global, fields: &[&[u8]], place: usize) -> Result<Picks, Stop>
    requires { place < length fields.now }
    ensures { Gives OfLetters result (letters_value (letters_of (field_at (map (λ field. field.now) fields.now) place))) }
{
    match letters(alloc, part(fields, place))? {
        Some(letters) if letters.len() > 0 => Ok(letters),
        _ => Err(Stop::Wrong(ScriptKind::Name)),
    }
}
