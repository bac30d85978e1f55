//! Bytes of a Platform Communications Channel Table (PCCT, ACPI 6.5, 14.1), both ways.
#![tactic(auto)]

mod fault;
mod header;
mod read;
mod reader;
mod source;
mod structures;
mod sum;
mod worked;
mod write;

pub use fault::{TableFault, TableWriteFault};
pub use header::{HEADER_BYTES, MAX_TABLE_BYTES, limits_are};
pub use read::{decision_laws, table_of_bytes};
pub use reader::{Piece, TableReader, cutting_laws};
pub use source::table_from;
pub use worked::{
    NO_SUBSPACES, ONE_GENERIC_SUBSPACE, worked_faults, worked_many, worked_pieces, worked_tables,
};
pub use write::{show_laws, table_bytes, table_laws, table_to, texts_of_tables};
