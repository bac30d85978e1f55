//! What the tests of commands share: a table, and a command on an input.
ghost use Rattle.std.specs.Prelude.{◌<◌};

use pcc_io::{MemSink, MemSource, NoMemory};
use pcc_text::put;
use pccrun_core::run;
use std::alloc::Global;

/// The first line of a script, with a table of one generic subspace.
pub const TABLE: &[u8] =
    b"table 504343546e000000026e50434352554e4558414d504c4531010000005445535401000000000000000000000000000000003e0000000000\
0000000080000000001800000000000000002000030000d0fe00000000feffffff000000000100000000000000e8030000000000000000\n";

/// The words between spaces.
pub fn words_of(alloc: Global, text: &str) -> Result<Vec<String>, NoMemory> {
    let mut words = Vec::new(alloc);
    for word in text.split(' ') {
        words.push(String::from_str(alloc, word)?)?;
    }
    Ok(words)
}

/// The bytes, of which each named place has another value.
pub fn changed(alloc: Global, bytes: &[u8], changes: &[(usize, u8)]) -> Result<Vec<u8>, NoMemory> {
    let mut bytes = Vec::from_slice(alloc, bytes)?;
    for (place, value) in changes {
        if let Some(byte) = bytes.get_mut(*place) {
            *byte = *value;
        }
    }
    Ok(bytes)
}

/// The parts one after the other.
pub fn joined(alloc: Global, parts: &[&[u8]]) -> Result<Vec<u8>, NoMemory> {
    let mut text = Vec::new(alloc);
    for part in parts {
        put(&mut text, part)?;
    }
    Ok(text)
}

// The status of a command on an input, if it reads all of it, in pieces of this many bytes, and writes this text.
fn status_in_pieces(
    alloc: Global,
    piece: usize,
    words: &str,
    input: &[u8],
    text: &[u8],
) -> Result<Option<u8>, NoMemory>
    requires { 0 < piece }
{
    let words = words_of(alloc, words)?;
    let mut source = MemSource::new(alloc, input, piece, &[])?;
    let mut sink = MemSink::new(alloc, 1_000_000, piece, &[])?;
    let finished = run(alloc, &words, &mut source, &mut sink);
    let whole = sink.bytes_held() == text && source.bytes_left().is_empty();
    Ok(if whole { Some(finished.status) } else { None })
}

/// The status of a command on an input, if it reads all of it and writes this text, both in pieces of 100 bytes.
pub fn status_of(
    alloc: Global,
    words: &str,
    input: &[u8],
    text: &[u8],
) -> Result<Option<u8>, NoMemory> {
    status_in_pieces(alloc, 100, words, input, text)
}

/// The same in long pieces, for long inputs and texts.
pub fn status_of_long(
    alloc: Global,
    words: &str,
    input: &[u8],
    text: &[u8],
) -> Result<Option<u8>, NoMemory> {
    status_in_pieces(alloc, 65_536, words, input, text)
}
