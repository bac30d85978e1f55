//! Tables from bytes that come in pieces.
ghost use Rattle.std.specs.Prelude.{◌≡◌, ◌<◌, ◌≤◌, ◌++◌, ◌+◌, List, [], ℕ, true, false, length, take, Ok, IfOk, OnErr, IsErrOf};
ghost use Rattle.std.specs.List.{concat};
ghost use Rattle.pcct_table.specs.declared.table.Table.{Table};
ghost use Rattle.pcct_codec.specs.declared.fault.TableFault.TheVariants.{Short};
ghost use Rattle.pcct_codec.specs.Tables.{IsTableValue, TableBytes};
ghost use Rattle.pcct_codec.specs.Faults.{Faulty, Undecided, decision, told_length};
ghost use Rattle.pcct_codec.specs.Pieces.{EndsIn, Grown, IfWhole, Kept, PieceIs, Tried, WholeIs, pieces_decision};

use crate::fault::TableFault;
use crate::header::{HEADER_BYTES, told_length};
use crate::read::table_in;
use pcct_table::Table;
use std::alloc::{AllocError, Global};
use std::marker::Model;

/// What a piece of a table's bytes brings.
#[derive(Debug, Drop)]
pub enum Piece {
    /// The bytes so far decide nothing.
    More,
    /// The table, and how many bytes of this piece belong to it.
    Whole { used: usize, table: Table },
}

/// The bytes so far of a table that comes in pieces (ACPI 6.5, 14.1). The header is checked when its 48 bytes are there, and the rest
/// when all bytes that it states are, so that each byte is copied once and each structure is read once.
#[derive(Debug, Drop)]
pub struct TableReader {
    bytes: Vec<u8>,
}

impl Model for TableReader {
    ghost use Rattle.std.specs.Prelude.{List, ℕ};

    ghost Value = { List ℕ };

    ghost view = { λ it. it.bytes.items };
}

/// Puts bytes of a piece at the end until there are this many or the piece has ended, and answers how many it put.
fn put_front(bytes: &mut Vec<u8>, piece: &[u8], want: usize) -> Result<usize, AllocError>
    ensures ok { IfOk result (λ used. Grown bytes.old.items piece.now want used bytes.new.items) }
    ensures err { OnErr result (bytes.new.items ≡ bytes.old.items) }
{
    let used = want.saturating_sub(bytes.len()).min(piece.len());
    bytes.extend_from_slice(&piece[..used])?;
    Ok(used)
}

/// Puts the bytes of a piece at the end, as far as they belong to the table. If memory runs out some of them may have been put.
fn put_piece(bytes: &mut Vec<u8>, piece: &[u8]) -> Result<Piece, TableFault>
    requires { decision false bytes.old.items ≡ Undecided }
    ensures { Tried bytes.old.items piece.now result bytes.new.items }
{
    let used = put_front(bytes, piece, HEADER_BYTES)?;
    if bytes.len() < HEADER_BYTES {
        return Ok(Piece::More);
    }
    let len = told_length(bytes)?;
    let used = used + put_front(bytes, &piece[used..], len)?;
    if bytes.len() < len {
        return Ok(Piece::More);
    }
    let table = table_in(*bytes.allocator(), bytes)?;
    Ok(Piece::Whole { used, table })
}

impl TableReader {
    /// No bytes. Takes no memory.
    #[tactic(auto, using(crate::proofs::Cutting::nothing_undecided))]
    pub fn new(alloc: Global) -> TableReader
        ensures none { result ≡ [] }
        ensures undecided { decision false result ≡ Undecided }
    {
        TableReader {
            bytes: Vec::new(alloc),
        }
    }

    /// How many bytes are wanted for the next decision: those of the header, or of the table after it.
    pub fn wants(&self) -> usize
        requires { decision false self.now ≡ Undecided }
        ensures some { 0 < result }
        ensures header { length self.now < 48 → result + length self.now ≡ 48 }
        ensures table { 48 ≤ length self.now → told_length self.now ≡ Ok (result + length self.now) }
    {
        let taken = self.bytes.len();
        if taken < HEADER_BYTES {
            return HEADER_BYTES - taken;
        }
        match told_length(&self.bytes) {
            Ok(len) => len - taken,
            Err(_) => unreachable!(),
        }
    }

    /// Takes the next bytes, and answers what those so far decide. A fault of the header is reported with the header's last byte, one of a
    /// structure or of the sum with the table's last byte. The faults are those of `table_from`, without `Short` and `ReadFault`. A
    /// refused piece leaves the reader as it was; after `NoMemory` it may be pushed again.
    #[tactic(auto, using(crate::proofs::Cutting::whole_value))]
    pub fn push(&mut self, piece: &[u8]) -> Result<Piece, TableFault>
        // So far nothing was decided.
        requires { decision false self.old ≡ Undecided }
        // It is `More` exactly while the bytes so far decide nothing, and a fault is the one that they decide, unless memory runs out.
        ensures answer { PieceIs result (decision false (self.old ++ piece.now)) }
        // A table is the one that the bytes so far and the used ones of this piece spell.
        ensures whole { IfOk result (WholeIs self.old piece.now) }
        ensures value { IfOk result (λ p. IfWhole p IsTableValue) }
        ensures kept { Kept self.old piece.now result self.new }
        ensures in_memory { IsErrOf result TableFault.ReadFault → ⊥ }
    {
        let taken = self.bytes.len();
        match put_piece(&mut self.bytes, piece) {
            Err(fault) => {
                self.bytes.truncate(taken);
                Err(fault)
            }
            answer => answer,
        }
    }

    /// What is wrong if no more bytes come: they are too few.
    #[tactic(auto, using(crate::proofs::Cutting::undecided_most, crate::proofs::Cutting::undecided_ended))]
    pub fn finish(self) -> TableFault
        requires { decision false self ≡ Undecided }
        ensures short { result ≡ Short (length self) }
        ensures decided { decision true self ≡ Faulty result }
    {
        TableFault::Short {
            at: self.bytes.len() as u32,
        }
    }
}

/// However bytes are cut, the pieces' answers are what the bytes decide as a whole. It does nothing.
pub fn cutting_laws()
    ensures cut { (pieces : List (List ℕ)) → pieces_decision [] pieces ≡ decision true (concat pieces) }
    // A table that ends in a piece is the one with which all bytes begin.
    ensures same { (old piece more front rest : List ℕ) (used : ℕ) (t u : Table) → EndsIn old piece used t → TableBytes front u
        → (old ++ piece) ++ more ≡ front ++ rest → (t ≡ u) × (old ++ take used piece ≡ front) }
{}
