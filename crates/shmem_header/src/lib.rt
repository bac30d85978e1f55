//! Shared memory as words of eight bytes: the headers in it, their bits, and the bytes of a communication
//! space (ACPI 6.5, 14.2 to 14.4). A word is the little-endian number of its eight bytes.
#![tactic(auto)]

mod bits;
mod header;
mod words;
mod worked;

pub use bits::{
    COMPLETE_BIT, ERROR_BIT, EXTENDED_NOTIFY_BIT, NOTIFY_BIT, bit_laws, code_in, command_in,
    command_laws, header_word, is_set, with_status,
};
pub use header::{
    Extended, Generic, Reduced, extended_from, extended_to, generic_from, generic_to, header_laws,
    reduced_from, reduced_to, signature_of,
};
pub use words::{bytes_into, put_word, word_at, word_laws, words_into};
pub use worked::worked_headers;
