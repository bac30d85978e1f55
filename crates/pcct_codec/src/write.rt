//! Tables into bytes, and into a sink of them.
ghost use Rattle.std.specs.Prelude.{◌≡◌, ◌≤◌, ◌↔◌, List, ℕ, IfOk, IsErrOf, OnOk};
ghost use Rattle.std.specs.Io.KnownBytes.{Appends};
ghost use Rattle.pcc_bytes.specs.Bytes.{IsBytes};
ghost use Rattle.pcc_causes.specs.Causes.{AppendsPrefix, Rose};
ghost use Rattle.pcct_table.specs.declared.table.Table.{Table};
ghost use Rattle.pcct_table.specs.ShowText.{HasText, show_text};
ghost use Rattle.pcct_table.specs.ShowFaults.{HasTable};
ghost use Rattle.pcct_codec.specs.Tables.{IsTableValue, TableBytes};
ghost use Rattle.pcct_codec.specs.Texts.{Shows};

use crate::fault::TableWriteFault;
use crate::header::{HEADER_BYTES, put_header};
use crate::structures::put_structures;
use crate::sum::byte_sum;
use pcc_io::{NoMemory, Sink, write_whole};
use pcct_table::Table;
use std::alloc::Global;

/// The place of the byte that makes the sum right.
const CHECKSUM: usize = 9;

/// The bytes that spell the table.
#[tactic(auto, using(crate::proofs::Texts::each_spelled))]
pub fn table_bytes(alloc: Global, table: &Table) -> Result<Vec<u8>, NoMemory>
    requires { IsTableValue table.now }
    ensures { IfOk result (λ v. IsBytes v.items × TableBytes v.items table.now) }
{
    let mut body = Vec::new(alloc);
    put_structures(&mut body, table.subspaces.as_slice())?;
    let len = HEADER_BYTES + body.len();
    let mut bytes = Vec::new(alloc);
    put_header(&mut bytes, table, len as u32, 0)?;
    bytes.extend_from_slice(&body)?;
    bytes[CHECKSUM] = ((byte_sum(&bytes) % 256) as u8).wrapping_neg();
    Ok(bytes)
}

/// Writes the bytes that spell the table.
#[tactic(auto, using(crate::proofs::Writing::one_table_spelling))]
pub fn table_to<W: Sink>(alloc: Global, table: &Table, sink: &mut W) -> Result<(), TableWriteFault>
    requires { IsTableValue table.now }
    ensures ok { (bytes : List ℕ) → IsBytes bytes → TableBytes bytes table.now → OnOk result (Appends (W.held sink.old) (W.held sink.new) bytes) }

    // Only the sink can make it a fault, and its count never falls.
    ensures fault { IsErrOf result TableWriteFault.WriteFault → Rose (W.faults sink.old) (W.faults sink.new) }
    ensures prefix { IsErrOf result TableWriteFault.WriteFault → (bytes : List ℕ) → IsBytes bytes → TableBytes bytes table.now
        → AppendsPrefix (W.held sink.old) (W.held sink.new) bytes }
    ensures memory { IsErrOf result TableWriteFault.NoMemory → sink.new ≡ sink.old }
    ensures later { W.faults sink.old ≤ W.faults sink.new }
{
    let bytes = table_bytes(alloc, table)?;
    write_whole(sink, &bytes)?;
    Ok(())
}

/// The tables that have a text are those that some bytes spell. It does nothing.
pub fn texts_of_tables()
    ensures { (t : Table) → HasText t ↔ IsTableValue t }
{}

/// Bytes of tables and texts of tables correspond, one to one: a table's text is built to the bytes that it was shown from, and the bytes
/// that were built from a text are shown as that text. It does nothing.
pub fn show_laws()
    ensures build_of_show { (bytes other text : List ℕ) → Shows bytes text → Shows other text → bytes ≡ other }
    ensures show_of_build { (bytes text other : List ℕ) → Shows bytes text → Shows bytes other → text ≡ other }
    ensures every_table { (bytes : List ℕ) (t : Table) → IsBytes bytes → TableBytes bytes t → Shows bytes (show_text t) }
    ensures every_text { (text : List ℕ) → HasTable text → (bytes : List ℕ) × Shows bytes text }
{}

/// A table has one spelling, and bytes spell one table at most. It does nothing.
pub fn table_laws()
    ensures one_spelling { (a b : List ℕ) (t : Table) → IsBytes a → IsBytes b → TableBytes a t → TableBytes b t → a ≡ b }
    ensures one_table { (bytes : List ℕ) (t u : Table) → TableBytes bytes t → TableBytes bytes u → t ≡ u }
{}
