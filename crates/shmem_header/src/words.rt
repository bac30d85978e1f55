//! A communication space as words of eight bytes, and back. No call takes memory.

ghost use Rattle.std.specs.Prelude.{◌≡◌, ◌≤◌, ◌<◌, ◌+◌, ◌*◌, ◌++◌, ℕ, List, length, take, drop, slice_index, slice_set};
ghost use Rattle.pcc_bytes.specs.Bytes.{IsBytes, number_at};
ghost use Rattle.shmem_header.specs.Spelling.{IsWords, bytes_of, word_bytes, words_of};

use byteorder::{ByteOrder, LittleEndian};

/// The word at a place, counted in words.
pub fn word_at(bytes: &[u8], place: usize) -> u64
    requires { 8 * place + 8 ≤ length bytes.now }
    ensures number { result ≡ number_at 8 (8 * place) bytes.now }
    ensures word { result ≡ slice_index (words_of bytes.now) place }
{
    LittleEndian::read_u64(&bytes[8 * place..])
}

/// Puts a word at a place, counted in words. No other byte changes.
pub fn put_word(bytes: &mut [u8], place: usize, word: u64)
    requires { 8 * place + 8 ≤ length bytes.old }
    ensures bytes { bytes.new ≡ take (8 * place) bytes.old ++ (word_bytes word ++ drop (8 * place + 8) bytes.old) }
    ensures words { words_of bytes.new ≡ slice_set (words_of bytes.old) place word }
{
    LittleEndian::write_u64(&mut bytes[8 * place..], word);
}

/// Makes the words of some bytes, of which there are eight for each word.
pub fn words_into(bytes: &[u8], words: &mut [u64])
    requires { length bytes.now ≡ 8 * length words.old }
    ensures { words.new ≡ words_of bytes.now }
{
    LittleEndian::read_u64_into(bytes, words);
}

/// Makes the bytes of some words, eight for each word.
#[tactic(auto, unfolding(crate::specs::Spelling::word_bytes))]
pub fn bytes_into(words: &[u64], bytes: &mut [u8])
    requires { length bytes.old ≡ 8 * length words.now }
    ensures { bytes.new ≡ bytes_of words.now }
{
    LittleEndian::write_u64_into(words, bytes);
}

/// Bytes are their words, where eight of them are left for each word, and words are their bytes. It does nothing.
pub fn word_laws()
    ensures bytes { (bytes : List ℕ) (k : ℕ) → IsBytes bytes → length bytes ≡ 8 * k
        → (length (words_of bytes) ≡ k) × IsWords (words_of bytes) × (bytes_of (words_of bytes) ≡ bytes) }
    ensures words { (words : List ℕ) → IsWords words
        → (length (bytes_of words) ≡ 8 * length words) × IsBytes (bytes_of words) × (words_of (bytes_of words) ≡ words) }
{}
