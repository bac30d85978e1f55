//! The words of a journal's lines.
ghost use Rattle.std.specs.Prelude.{◌≡◌, ◌∷◌, [], IfOk, Some, None, bytes_eq, decimal, false, length, map, option_map, true};
ghost use Rattle.pcc_bytes.specs.Fields.{split_at};
ghost use Rattle.journal_reading.specs.Rows.{end_row, exchange_row, exchange_values, flag_of, head_row, head_values, pending_row, pending_values};
ghost use Rattle.journal_reading.specs.Rows.{read_at, read_row, record_row, record_values};

use itoa::Buffer;
use pcc_io::{Bytes, NoMemory};
use pcc_journal::{JournalHead, Pending, Record};
use pcc_text::{bytes_of, is_text, number, part, split};
use rate_limit::Limits;
use std::alloc::Global;

const MOST_8: u64 = 255;

const MOST_32: u64 = 4_294_967_295;

// Whether a word is this number.
fn is_number(word: &[u8], n: u64) -> bool
    ensures { result ≡ bytes_eq word.now (decimal n) }
{
    is_text(word, Buffer::new().format(n).as_bytes())
}

// Whether a word is the first of two, if it is one of them.
#[tactic(auto, unfolding(crate::specs::Rows::flag_of))]
fn flag(word: &[u8], first: &[u8], second: &[u8]) -> Option<bool>
    ensures { result ≡ flag_of first.now second.now word.now }
{
    if is_text(word, first) {
        return Some(true);
    }
    if is_text(word, second) {
        return Some(false);
    }
    None
}

// The head whose line has these words.
#[tactic(auto, unfolding(crate::specs::Rows::read_row, crate::specs::Rows::read_at))]
fn head_words(words: &[&[u8]]) -> Option<JournalHead>
    ensures { option_map head_values result ≡ read_row 13 head_row (map (λ x. x.now) words.now) }
{
    if words.len() != 13 {
        return None;
    }
    if !is_text(part(words, 0), b"journal") {
        return None;
    }
    let id = number(part(words, 1), MOST_8)?;
    if !is_text(part(words, 2), b"type") {
        return None;
    }
    let kind = number(part(words, 3), MOST_8)?;
    let cppc = flag(part(words, 4), b"cppc", b"bank")?;
    if !is_text(part(words, 5), b"room") {
        return None;
    }
    let room = number(part(words, 6), MOST_32)?;
    if !is_text(part(words, 7), b"turnaround") {
        return None;
    }
    let turnaround = number(part(words, 8), MOST_32)?;
    if !is_text(part(words, 9), b"rate") {
        return None;
    }
    let per_minute = number(part(words, 10), MOST_32)?;
    if !is_text(part(words, 11), b"errors") {
        return None;
    }
    let reports = flag(part(words, 12), b"yes", b"no")?;
    Some(JournalHead {
        id: id as u8,
        kind: kind as u8,
        cppc,
        room: room as u32,
        limits: Limits {
            turnaround: turnaround as u32,
            per_minute: per_minute as u32,
        },
        reports,
    })
}

// The input and the output that the line of a record tells.
#[tactic(auto, unfolding(crate::specs::Rows::read_at, crate::specs::Rows::exchange_row))]
fn exchange_of(alloc: Global, words: &[&[u8]]) -> Result<Option<(Bytes, Bytes)>, NoMemory>
    requires { length words.now ≡ 16 }
    ensures { IfOk result (λ o. option_map exchange_values o ≡ read_at 12 exchange_row (map (λ x. x.now) words.now)) }
{
    if !is_text(part(words, 12), b"in") {
        return Ok(None);
    }
    let Some(input) = bytes_of(alloc, part(words, 13))? else {
        return Ok(None);
    };
    if !is_text(part(words, 14), b"out") {
        return Ok(None);
    }
    let Some(output) = bytes_of(alloc, part(words, 15))? else {
        return Ok(None);
    };
    Ok(Some((input, output)))
}

// The record whose line has these words, where it is in this place.
#[tactic(auto, unfolding(crate::specs::Rows::read_row, crate::specs::Rows::read_at))]
fn record_words(alloc: Global, place: usize, words: &[&[u8]]) -> Result<Option<Record>, NoMemory>
    ensures { IfOk result (λ o. option_map record_values o ≡ read_row 16 (record_row place) (map (λ x. x.now) words.now)) }
{
    if words.len() != 16 {
        return Ok(None);
    }
    if !is_text(part(words, 0), b"record") {
        return Ok(None);
    }
    if !is_number(part(words, 1), place as u64) {
        return Ok(None);
    }
    if !is_text(part(words, 2), b"caller") {
        return Ok(None);
    }
    let Some(caller) = number(part(words, 3), MOST_32) else {
        return Ok(None);
    };
    if !is_text(part(words, 4), b"code") {
        return Ok(None);
    }
    let Some(code) = number(part(words, 5), MOST_32) else {
        return Ok(None);
    };
    let Some(error) = flag(part(words, 6), b"error", b"ok") else {
        return Ok(None);
    };
    if !is_text(part(words, 7), b"post") {
        return Ok(None);
    }
    let Some(post) = number(part(words, 8), u64::MAX) else {
        return Ok(None);
    };
    if !is_text(part(words, 9), b"done") {
        return Ok(None);
    }
    let Some(done) = number(part(words, 10), u64::MAX) else {
        return Ok(None);
    };
    let Some(late) = flag(part(words, 11), b"late", b"timely") else {
        return Ok(None);
    };
    let Some(exchange) = exchange_of(alloc, words)? else {
        return Ok(None);
    };
    Ok(Some(Record {
        caller: caller as u32,
        code: code as u32,
        input: exchange.0,
        error,
        output: exchange.1,
        post,
        done,
        late,
    }))
}

// The pending command whose line has these words.
#[tactic(auto, unfolding(crate::specs::Rows::read_row, crate::specs::Rows::read_at))]
fn pending_words(alloc: Global, words: &[&[u8]]) -> Result<Option<Pending>, NoMemory>
    ensures { IfOk result (λ o. option_map pending_values o ≡ read_row 9 pending_row (map (λ x. x.now) words.now)) }
{
    if words.len() != 9 {
        return Ok(None);
    }
    if !is_text(part(words, 0), b"pending") {
        return Ok(None);
    }
    if !is_text(part(words, 1), b"caller") {
        return Ok(None);
    }
    let Some(caller) = number(part(words, 2), MOST_32) else {
        return Ok(None);
    };
    if !is_text(part(words, 3), b"code") {
        return Ok(None);
    }
    let Some(code) = number(part(words, 4), MOST_32) else {
        return Ok(None);
    };
    if !is_text(part(words, 5), b"post") {
        return Ok(None);
    }
    let Some(post) = number(part(words, 6), u64::MAX) else {
        return Ok(None);
    };
    if !is_text(part(words, 7), b"in") {
        return Ok(None);
    }
    let Some(input) = bytes_of(alloc, part(words, 8))? else {
        return Ok(None);
    };
    Ok(Some(Pending {
        caller: caller as u32,
        code: code as u32,
        input,
        post,
    }))
}

// Whether these are the words of the last line of a journal.
#[tactic(auto, unfolding(crate::specs::Rows::read_row, crate::specs::Rows::read_at))]
fn are_end(id: u8, words: &[&[u8]]) -> bool
    ensures yes { result ≡ true → read_row 2 (end_row id) (map (λ x. x.now) words.now) ≡ Some [] }
    ensures no { result ≡ false → read_row 2 (end_row id) (map (λ x. x.now) words.now) ≡ None }
{
    if words.len() != 2 {
        return false;
    }
    if !is_text(part(words, 0), b"end") {
        return false;
    }
    if !is_number(part(words, 1), id as u64) {
        return false;
    }
    true
}

/// The head whose line, without its line feed, this is.
pub fn head_of(alloc: Global, line: &[u8]) -> Result<Option<JournalHead>, NoMemory>
    ensures { IfOk result (λ o. option_map head_values o ≡ read_row 13 head_row (split_at 32 line.now)) }
{
    Ok(head_words(&split(alloc, line, b' ')?))
}

/// The record whose line, without its line feed, this is, where it is in this place.
pub fn record_of(alloc: Global, place: usize, line: &[u8]) -> Result<Option<Record>, NoMemory>
    ensures { IfOk result (λ o. option_map record_values o ≡ read_row 16 (record_row place) (split_at 32 line.now)) }
{
    record_words(alloc, place, &split(alloc, line, b' ')?)
}

/// The pending command whose line, without its line feed, this is.
pub fn pending_of(alloc: Global, line: &[u8]) -> Result<Option<Pending>, NoMemory>
    ensures { IfOk result (λ o. option_map pending_values o ≡ read_row 9 pending_row (split_at 32 line.now)) }
{
    pending_words(alloc, &split(alloc, line, b' ')?)
}

/// Whether a line, without its line feed, is the last of a journal.
pub fn is_end(alloc: Global, id: u8, line: &[u8]) -> Result<bool, NoMemory>
    ensures yes { IfOk result (λ b. b ≡ true → read_row 2 (end_row id) (split_at 32 line.now) ≡ Some []) }
    ensures no { IfOk result (λ b. b ≡ false → read_row 2 (end_row id) (split_at 32 line.now) ≡ None) }
{
    Ok(are_end(id, &split(alloc, line, b' ')?))
}
