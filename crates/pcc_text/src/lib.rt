//! The fields of a text, read and written: numbers in decimal, bytes in hexadecimal, and texts made of pieces.
//! All texts of the program are read and written with it: scripts, tables shown as text, replies, journals and traces.
#![tactic(auto)]

mod cutting;
mod digits;
mod reading;
mod writing;

pub use cutting::cut;
pub use reading::{bytes_of, is_text, number, part, split};
pub use writing::{Piece, put, put_hex, put_number, put_pieces};
