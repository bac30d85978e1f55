//! Tables from a source of bytes.
ghost use Rattle.std.specs.Prelude.{◌≡◌, ◌++◌, ◌≤◌, List, ℕ, Some, true, IfOk, IfErr, IsErrOf, MatchResult};
ghost use Rattle.std.specs.Io.KnownBytes.{Consumes};
ghost use Rattle.pcc_bytes.specs.Bytes.{IsBytes};
ghost use Rattle.pcc_causes.specs.Causes.{Rose};
ghost use Rattle.pcct_table.specs.declared.table.Table.{Table};
ghost use Rattle.pcct_codec.specs.Tables.{IsTableValue, TableBytes};
ghost use Rattle.pcct_codec.specs.Faults.{AnswerIs, Gone, IsExcused, decision};

use crate::fault::TableFault;
use crate::reader::{Piece, TableReader};
use pcc_io::{Failed, Source};
use pcct_table::Table;
use std::alloc::Global;

/// How many bytes one read asks for at most.
const CHUNK: usize = 1024;

/// The table with whose bytes the source begins, which are then gone. The header's 48 bytes are taken first, then as many as it states.
/// After a fault of the header 48 bytes are gone, after one of the structures or of the sum all of the table's, and at `Short` the
/// source is at its end.
#[tactic(auto, using(crate::proofs::Pulling::pull_start, crate::proofs::Pulling::pull_more, crate::proofs::Pulling::pull_kept))]
pub fn table_from<S: Source>(alloc: Global, source: &mut S) -> Result<Table, TableFault>
    // A table is one that the taken bytes spell.
    ensures found { IfOk result (λ t. (bytes : List ℕ) × IsBytes bytes × TableBytes bytes t
        × Consumes (S.left source.old) (S.left source.new) bytes) }
    ensures value { IfOk result IsTableValue }
    // What the source begins with is read, unless it fails or memory runs out.
    ensures only { (bytes rest : List ℕ) (t : Table) → TableBytes bytes t → S.left source.old ≡ Some (bytes ++ rest)
        → MatchResult result (λ v. v ≡ t) IsExcused }
    // A fault is that of the first check that fails on what the source has.
    ensures exact { (all : List ℕ) → S.left source.old ≡ Some all → AnswerIs result (decision true all) }
    ensures gone { IfErr result (λ f. Gone f (S.left source.old) (S.left source.new)) }
    ensures fault { IsErrOf result TableFault.ReadFault → Rose (S.faults source.old) (S.faults source.new) }
    ensures later { S.faults source.old ≤ S.faults source.new }
{
    let mut reader = TableReader::new(alloc);
    let mut buf = [0; CHUNK];
    loop {
        let most = CHUNK.min(reader.wants());
        match source.read(&mut buf[..most]) {
            Err(Failed) => return Err(TableFault::ReadFault),
            Ok(0) => return Err(reader.finish()),
            Ok(n) => {
                if let Piece::Whole { table, .. } = reader.push(&buf[..n])? {
                    return Ok(table);
                }
            }
        }
    }
}
