//! Readers of fields. A field is read only if it is spelled as the writers spell it.
ghost use Rattle.std.specs.Prelude.{◌≡◌, ◌≤◌, ◌<◌, ◌^◌, ◌-◌, ◌%◌, [], List, ℕ, None, IfOk, IfSome};
ghost use Rattle.std.specs.Prelude.{slice_index_or, length, map, option_map, decimal, bytes_eq};
ghost use Rattle.std.specs.List.{list_all};
ghost use Rattle.std.specs.Char.{is_ascii_digit};
ghost use Rattle.hex.specs.Hex.{encode_lower};
ghost use Rattle.pcc_bytes.specs.Bytes.{IsBytes};
ghost use Rattle.pcc_bytes.specs.Fields.{hex_text, split_at};
ghost use Rattle.pcc_text.specs.Reading.{hex_of, number_after, number_of};

use crate::digits::read_hex;
use memchr::memchr_iter;
use pcc_bytes::are_bytes;
use pcc_io::{Bytes, NoMemory};
use std::alloc::Global;

// Room for the words of most lines, so that their list seldom grows.
const USUAL_PARTS: usize = 32;

/// The parts of a text between the bytes `at`. There is one part more than such bytes.
#[tactic(auto, using(crate::proofs::Splitting::split_start, crate::proofs::Splitting::cut_from, crate::proofs::Splitting::cut_within, crate::proofs::Splitting::split_end, std::proofs::lemmas::List::map_push))]
pub fn split<'a>(alloc: Global, text: &'a [u8], at: u8) -> Result<Vec<&'a [u8]>, NoMemory>
    ensures { IfOk result (λ v. map (λ x. x.now) v.items ≡ split_at at text.now) }
{
    let mut parts = Vec::with_capacity(alloc, USUAL_PARTS)?;
    let mut start = 0;
    for cut in memchr_iter(at, text) {
        parts.push(&text[start..cut])?;
        start = cut + 1;
    }
    parts.push(&text[start..])?;
    Ok(parts)
}

/// The part at a place.
pub fn part<'a>(parts: &[&'a [u8]], place: usize) -> &'a [u8]
    requires { place < length parts.now }
    ensures { result.now ≡ slice_index_or (map (λ x. x.now) parts.now) place [] }
{
    parts[place]
}

/// Whether a field is this text.
pub fn is_text(field: &[u8], text: &[u8]) -> bool
    ensures { result ≡ bytes_eq field.now text.now }
{
    field == text
}

// The number that digits write, if it fits in 64 bits.
#[tactic(auto, using(crate::proofs::Numerals::more, crate::proofs::Numerals::no_digit, crate::proofs::Numerals::over, crate::proofs::Numerals::done, std::proofs::lemmas::List::drop_more))]
fn digits_number(digits: &[u8]) -> Option<u64>
    ensures { result ≡ number_after (2 ^ 64 - 1) 0 digits.now }
{
    let mut n = 0u64;
    for digit in digits.iter() {
        if !digit.is_ascii_digit() {
            return None;
        }
        n = n.checked_mul(10)?.checked_add(u64::from(*digit - b'0'))?;
    }
    Some(n)
}

// The number that a field spells, if it fits in 64 bits.
#[tactic(auto, using(crate::proofs::Numerals::empty, crate::proofs::Numerals::leading_zero, crate::proofs::Numerals::digits_alone))]
fn any_number(field: &[u8]) -> Option<u64>
    ensures { result ≡ number_of (2 ^ 64 - 1) field.now }
{
    if field.is_empty() {
        return None;
    }
    if field.len() > 1 && field[0] == b'0' {
        return None;
    }
    digits_number(field)
}

/// The number that a field spells in decimal, with no leading zero, if it is at most a limit.
#[tactic(auto, using(crate::proofs::Laws::number_none, crate::proofs::Laws::number_reads, crate::proofs::Laws::number_again))]
pub fn number(field: &[u8], limit: u64) -> Option<u64>
    ensures value { result ≡ number_of limit field.now }
    ensures bound { IfSome result (λ n. n ≤ limit) }

    // It is read exactly when it is the text of a number up to the limit.
    ensures spelled { IfSome result (λ n. field.now ≡ decimal n) }
    ensures only { (n : ℕ) → n ≤ limit → field.now ≡ decimal n → result ≡ Some n }
{
    let n = any_number(field)?;
    if n <= limit { Some(n) } else { None }
}

// The bytes that a field spells by two digits each.
fn read_back(alloc: Global, text: &[u8]) -> Result<Option<Vec<u8>>, NoMemory>
    requires { length text.now % 2 ≡ 0 }
    ensures some { IfOk result (λ o. IfSome o (λ v. IsBytes v.items × (text.now ≡ encode_lower v.items))) }
    ensures none { IfOk result (λ o. o ≡ None → (bytes : List ℕ) → IsBytes bytes → text.now ≡ encode_lower bytes → ⊥) }
{
    let mut bytes = vec![in alloc; 0u8; text.len() / 2]?;
    if !read_hex(text, &mut bytes) {
        return Ok(None);
    }
    are_bytes(&bytes);
    Ok(Some(bytes))
}

// The bytes that a field spells.
#[tactic(auto, using(crate::proofs::HexReading::dash_read, crate::proofs::HexReading::empty_unread, crate::proofs::HexReading::odd_unread, crate::proofs::HexReading::bytes_read, crate::proofs::HexReading::other_unread))]
fn decoded(alloc: Global, field: &[u8]) -> Result<Option<Vec<u8>>, NoMemory>
    ensures { IfOk result (λ o. option_map (λ v. v.items) o ≡ hex_of field.now) }
{
    if is_text(field, b"-") {
        return Ok(Some(Vec::new(alloc)));
    }
    if field.is_empty() {
        return Ok(None);
    }
    if field.len() % 2 != 0 {
        return Ok(None);
    }
    match read_back(alloc, field)? {
        Some(bytes) => Ok(Some(bytes)),
        None => Ok(None),
    }
}

/// The bytes that a field spells: `-` for none, and else two hexadecimal digits for each. Upper-case digits aren't read.
#[tactic(auto, using(crate::proofs::Laws::hex_fits, crate::proofs::Laws::hex_reads, crate::proofs::Laws::hex_again))]
pub fn bytes_of(alloc: Global, field: &[u8]) -> Result<Option<Bytes>, NoMemory>
    ensures value { IfOk result (λ o. o ≡ hex_of field.now) }
    ensures bytes { IfOk result (λ o. IfSome o IsBytes) }

    // They are read exactly when the field is the text of bytes.
    ensures spelled { IfOk result (λ o. IfSome o (λ b. field.now ≡ hex_text b)) }
    ensures only { IfOk result (λ o. (b : List ℕ) → IsBytes b → field.now ≡ hex_text b → o ≡ Some b) }
{
    match decoded(alloc, field)? {
        Some(bytes) => Ok(Some(Bytes::from_vec(bytes))),
        None => Ok(None),
    }
}
