//! A table from its text.
ghost use Rattle.std.specs.Prelude.{◌≡◌, ◌≤◌, ◌+◌, ◌⊎◌, ℕ, List, IfOk};
ghost use Rattle.pcc_bytes.specs.Fields.{last_in, lines_of};
ghost use Rattle.pcct_table.specs.declared.build.BuildError.TheVariants as error;
ghost use Rattle.pcct_table.specs.declared.table.Table.{Table};
ghost use Rattle.pcct_table.specs.declared.build.BuildKind.{BuildKind};
ghost use Rattle.pcct_table.specs.ShowText.{HasText, show_text};
ghost use Rattle.pcct_table.specs.ShowFaults.{HasFault, HasTable, IfFault, IsReadAs, IsRefusedAt, TextWrong};
ghost use Rattle.pcct_table.specs.ShowReading.{TellsStructures, TellsText};

use crate::header::table_with;
use crate::line::{header_of_line, subspace_of_line};
use crate::subspaces::{MAX_SUBSPACES, Subspaces};
use crate::table::Table;
use pcc_io::NoMemory;
use pcc_text::cut;
use std::alloc::Global;

/// What is wrong with a line of a table's text.
#[derive(Clone, Copy, Debug, PartialEq, Eq)]
pub enum BuildKind {
    /// It is no line of a table's text in its place, or has no line feed, or there is none.
    Text,
    /// It is the line of a structure, after those of `MAX_SUBSPACES`.
    Many,
}

/// Why a text gives no table.
#[derive(Clone, Copy, Debug, PartialEq, Eq)]
pub enum BuildError {
    /// The first line that is wrong, counted from 1.
    Fault { line: u32, kind: BuildKind },
    NoMemory,
}

impl From<NoMemory> for BuildError {
    ghost use Rattle.std.specs.Prelude.{◌≡◌};
    ghost use Rattle.pcct_table.specs.declared.build.BuildError.TheVariants.{NoMemory as Exhausted};

    ghost from_gives = { λ _ error. error ≡ Exhausted };

    fn from(_: NoMemory) -> BuildError {
        BuildError::NoMemory
    }
}

/// What is wrong with the line of a structure with this place.
fn wrong_line(place: usize, kind: BuildKind) -> BuildError
    requires { place ≤ 256 }
    ensures { result ≡ error.Fault (place + 2) kind }
{
    BuildError::Fault {
        line: place as u32 + 2,
        kind,
    }
}

/// The structures of the lines of a text after the header's.
#[tactic(auto, using(crate::proofs::Building::reading_start, crate::proofs::Building::reading_more, crate::proofs::Building::reading_wrong, crate::proofs::Building::reading_many, crate::proofs::Building::reading_unended, crate::proofs::Building::reading_end))]
fn subspaces_of(alloc: Global, text: &[u8]) -> Result<Subspaces, BuildError>
    ensures { TellsStructures result (lines_of text.now) (last_in text.now) }
{
    let mut subspaces = Subspaces::new(alloc);
    let mut rest = text;
    while let Some((line, behind)) = cut(rest, b'\n') {
        let place = subspaces.len();
        let Some(subspace) = subspace_of_line(alloc, place as u32, line)? else {
            return Err(wrong_line(place, BuildKind::Text));
        };
        if place == MAX_SUBSPACES {
            return Err(wrong_line(place, BuildKind::Many));
        }
        subspaces.push(subspace)?;
        rest = behind;
    }
    if !rest.is_empty() {
        return Err(wrong_line(subspaces.len(), BuildKind::Text));
    }
    Ok(subspaces)
}

/// The table that a text spells, or its first fault, as reading finds them.
#[tactic(auto, using(crate::proofs::Built::no_lines, crate::proofs::Built::no_header, crate::proofs::Built::table_err, crate::proofs::Built::table_ok, crate::proofs::ShowHeader::header_len))]
fn read(alloc: Global, text: &[u8]) -> Result<Table, BuildError>
    ensures { TellsText result text.now }
{
    let wrong = BuildError::Fault {
        line: 1,
        kind: BuildKind::Text,
    };
    let Some((line, rest)) = cut(text, b'\n') else {
        return Err(wrong);
    };
    let Some(header) = header_of_line(alloc, line)? else {
        return Err(wrong);
    };
    match subspaces_of(alloc, rest) {
        Ok(subspaces) => Ok(table_with(&header, subspaces)),
        Err(error) => Err(error),
    }
}

/// The table that a text spells. A text spells at most one, and each table that bytes spell has one text, that of `show_lines`.
///
/// A first line that is no table's header, a line that is no structure in its place, bytes with no line feed after them, and an empty text are
/// `Text`. The right line of a 257th structure is `Many`.
#[tactic(auto, using(crate::proofs::Built::is_found, crate::proofs::Built::is_only, crate::proofs::Built::is_wrong, crate::proofs::Built::is_first))]
pub fn table_of_lines(alloc: Global, text: &[u8]) -> Result<Table, BuildError>
    // The text is that of what is read.
    ensures found { IfOk result (λ t. HasText t × (text.now ≡ show_text t)) }
    // A table whose text this is is read, unless memory runs out.
    ensures only { (t : Table) → HasText t → text.now ≡ show_text t → IsReadAs t result }

    // A fault that is reported is the first of the text.
    ensures fault { IfFault result (TextWrong text.now) }
    // The first fault of the text is reported, unless memory runs out.
    ensures first { (line : ℕ) (kind : BuildKind) → TextWrong text.now line kind → IsRefusedAt line kind result }
{
    read(alloc, text)
}

/// A text is that of a table or has a fault, never both; it has one first fault at most, and two tables have two texts. With the clauses of
/// `show_lines` and `table_of_lines`, a text gives the table whose text it is, and a table its text. It does nothing.
pub fn text_laws()
    ensures some { (text : List ℕ) → HasTable text ⊎ HasFault text }
    ensures not_both { (text : List ℕ) → HasTable text → HasFault text → ⊥ }
    ensures one_fault { (text : List ℕ) (line other : ℕ) (kind another : BuildKind) → TextWrong text line kind → TextWrong text other another
        → (line ≡ other) × (kind ≡ another) }
    ensures one_table { (t u : Table) → HasText t → HasText u → show_text t ≡ show_text u → t ≡ u }
{}
