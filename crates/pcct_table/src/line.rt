//! A line of a table's text.
ghost use Rattle.std.specs.Prelude.{◌≡◌, ◌<◌, ◌≤◌, IfOk, Some, drop, length, map, option_map};
ghost use Rattle.pcc_bytes.specs.Fields.{split_at};
ghost use Rattle.pcct_table.specs.ShowReading.{ReadsStructure, read_bytes, read_header, read_kind, read_known, read_line, read_revision, read_unknown};

use crate::header::{head_bytes, later_rows};
use crate::rows::rows_of_kind;
use crate::subspace::{Subspace, size_of_kind, subspace_from};
use crate::words::{behind_name, read_words};
use pcc_io::NoMemory;
use pcc_text::{bytes_of, is_text, number, part, put, split};
use std::alloc::Global;

/// The types from this one on are those of later releases.
const UNKNOWN_KINDS: u8 = 6;

/// How many bytes follow the head of a structure of an unknown type at most.
const MOST_BYTES: usize = 253;

/// The parts from a place on.
#[tactic(auto, using(crate::proofs::Slices::slices))]
pub fn behind<'a, 'b>(parts: &'b [&'a [u8]], from: usize) -> &'b [&'a [u8]]
    requires { from ≤ length parts.now }
    ensures { map (λ x. x.now) result.now ≡ drop from (map (λ x. x.now) parts.now) }
{
    parts.split_at(from).1
}

fn read_revision(word: &[u8]) -> Option<u8>
    ensures { result ≡ read_revision word.now }
{
    if is_text(word, b"revision=1") {
        return Some(1);
    }
    if is_text(word, b"revision=2") {
        return Some(2);
    }
    None
}

// The bytes of a header, from the words of its line.
#[tactic(auto, unfolding(crate::specs::ShowReading::read_header))]
fn header_bytes(alloc: Global, words: &[&[u8]]) -> Result<Option<Vec<u8>>, NoMemory>
    ensures { IfOk result (λ o. option_map (λ v. v.items) o ≡ read_header (map (λ x. x.now) words.now)) }
{
    if words.len() < 2 {
        return Ok(None);
    }
    if !is_text(part(words, 0), b"pcct") {
        return Ok(None);
    }
    let Some(revision) = read_revision(part(words, 1)) else {
        return Ok(None);
    };
    let mut bytes = Vec::new(alloc);
    put(&mut bytes, &head_bytes(revision))?;
    if !read_words(alloc, later_rows(), behind(words, 2), &mut bytes)? {
        return Ok(None);
    }
    Ok(Some(bytes))
}

/// The bytes of the header whose line, without its line feed, this is; 0 where a table's value says nothing.
pub fn header_of_line(alloc: Global, line: &[u8]) -> Result<Option<Vec<u8>>, NoMemory>
    ensures { IfOk result (λ o. option_map (λ v. v.items) o ≡ read_header (split_at 32 line.now)) }
{
    header_bytes(alloc, &split(alloc, line, b' ')?)
}

// The bytes of a structure of a known type, from the words of its fields.
fn known_bytes(alloc: Global, kind: u8, words: &[&[u8]]) -> Result<Option<Vec<u8>>, NoMemory>
    requires { kind < 6 }
    ensures { IfOk result (λ o. option_map (λ v. v.items) o ≡ read_known kind (map (λ x. x.now) words.now)) }
{
    let Some(size) = size_of_kind(kind, 0) else {
        return Ok(None);
    };
    let mut bytes = Vec::new(alloc);
    put(&mut bytes, &[kind, size])?;
    if !read_words(alloc, rows_of_kind(kind), words, &mut bytes)? {
        return Ok(None);
    }
    Ok(Some(bytes))
}

// The bytes of a structure of an unknown type, from its one word.
#[tactic(auto, unfolding(crate::specs::ShowReading::read_bytes))]
fn unknown_bytes(alloc: Global, kind: u8, word: &[u8]) -> Result<Option<Vec<u8>>, NoMemory>
    ensures { IfOk result (λ o. option_map (λ v. v.items) o ≡ read_bytes kind word.now) }
{
    let Some(text) = behind_name(b"bytes", word) else {
        return Ok(None);
    };
    let Some(bytes) = bytes_of(alloc, text)? else {
        return Ok(None);
    };
    if bytes.len() > MOST_BYTES {
        return Ok(None);
    }
    let mut whole = Vec::new(alloc);
    put(&mut whole, &[kind, 2 + bytes.len() as u8])?;
    put(&mut whole, bytes.as_slice())?;
    Ok(Some(whole))
}

// The bytes of a structure of a type, from the words of its fields.
fn kind_bytes(alloc: Global, kind: u8, words: &[&[u8]]) -> Result<Option<Vec<u8>>, NoMemory>
    ensures { IfOk result (λ o. option_map (λ v. v.items) o ≡ read_kind (Some kind) (map (λ x. x.now) words.now)) }
{
    if kind < UNKNOWN_KINDS {
        return known_bytes(alloc, kind, words);
    }
    match words {
        [word] => unknown_bytes(alloc, kind, word),
        _ => Ok(None),
    }
}

// The bytes of a structure, from the words of its line.
#[tactic(auto, unfolding(crate::specs::ShowReading::read_line))]
fn structure_bytes(alloc: Global, place: u32, words: &[&[u8]]) -> Result<Option<Vec<u8>>, NoMemory>
    ensures { IfOk result (λ o. option_map (λ v. v.items) o ≡ read_line place (map (λ x. x.now) words.now)) }
{
    if words.len() < 4 {
        return Ok(None);
    }
    if !is_text(part(words, 0), b"subspace") {
        return Ok(None);
    }
    let id = place.to_string(alloc)?;
    if !is_text(part(words, 1), id.as_bytes()) {
        return Ok(None);
    }
    if !is_text(part(words, 2), b"type") {
        return Ok(None);
    }
    let Some(kind) = number(part(words, 3), 255) else {
        return Ok(None);
    };
    kind_bytes(alloc, kind as u8, behind(words, 4))
}

/// The structure whose line, without its line feed, this is, where it is in this place.
pub fn subspace_of_line(
    alloc: Global,
    place: u32,
    line: &[u8],
) -> Result<Option<Subspace>, NoMemory>
    ensures { IfOk result (λ o. ReadsStructure (read_line place (split_at 32 line.now)) o) }
{
    let words = split(alloc, line, b' ')?;
    match structure_bytes(alloc, place, &words)? {
        None => Ok(None),
        Some(bytes) => Ok(Some(subspace_from(alloc, &bytes)?)),
    }
}
