//! The Platform Communications Channel Table (PCCT, ACPI 6.5, 14.1) as a value, with its structures' bytes both ways and its text both ways.
//! The fields of each structure are in one table, by which its bytes and its words are read and written.
#![tactic(auto)]

mod build;
mod extended;
mod generic;
mod header;
mod hw_reduced;
mod hw_register;
mod line;
mod other;
pub mod pieces;
pub mod places;
mod rows;
mod show;
mod subspace;
mod subspaces;
mod table;
mod words;
mod worked;

pub use build::{BuildError, BuildKind, table_of_lines, text_laws};
pub use extended::Type34;
pub use generic::Type0;
pub use hw_reduced::{Type1, Type2};
pub use hw_register::Type5;
pub use other::Other;
pub use rows::{Kind, Row, bytes_row, rows_of_kind};
pub use show::show_lines;
pub use subspace::{
    Subspace, one_spelling, one_subspace, put_subspace, size_of_kind, subspace_from,
};
pub use subspaces::{MAX_SUBSPACES, Subspaces, limits_are};
pub use table::Table;
pub use worked::worked_structures;
