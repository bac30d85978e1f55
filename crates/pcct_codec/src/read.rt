//! Tables from bytes.
ghost use Rattle.std.specs.Prelude.{◌≡◌, ◌↔◌, ◌⊎◌, ◌++◌, ◌≤◌, Bool, List, ℕ, Ok, length, take, true, false, IfOk, IsErrOf, MatchResult};
ghost use Rattle.pcc_bytes.specs.Bytes.{IsBytes};
ghost use Rattle.pcct_table.specs.declared.table.Table.{Table};
ghost use Rattle.pcct_codec.specs.declared.fault.TableFault.TheVariants.{NoMemory};
ghost use Rattle.pcct_codec.specs.Tables.{BeginsTable, IsTableValue, TableBytes};
ghost use Rattle.pcct_codec.specs.Faults.{FaultIs, HasFault, Right, Undecided, decision, table_decision, told_length};

use crate::fault::TableFault;
use crate::header::{HEADER_BYTES, table_with, told_length};
use crate::structures::structures_from;
use crate::sum::byte_sum;
use pcct_table::Table;
use std::alloc::Global;

/// The table that the bytes spell, which a right header states to be all.
pub(crate) fn table_in(alloc: Global, bytes: &[u8]) -> Result<Table, TableFault>
    requires { told_length bytes.now ≡ Ok (length bytes.now) }
    ensures table { MatchResult result
        (λ t. TableBytes bytes.now t × (table_decision bytes.now ≡ Right))
        (λ f. FaultIs f (table_decision bytes.now)) }
    ensures fit { IsBytes bytes.now }
{
    let subspaces = structures_from(alloc, bytes)?;
    let sum = byte_sum(bytes) % 256;
    if sum != 0 {
        return Err(TableFault::Checksum { sum: sum as u8 });
    }
    Ok(table_with(bytes, subspaces))
}

/// The table with which the bytes begin (ACPI 6.5, 14.1), and how many bytes it has. The bytes after it are not looked at.
///
/// The faults are those of `table_from`, without `ReadFault`.
pub fn table_of_bytes(alloc: Global, bytes: &[u8]) -> Result<(Table, usize), TableFault>
    // A table is one that the first bytes spell.
    ensures found { IfOk result (λ x. (x.1 ≤ length bytes.now) × TableBytes (take x.1 bytes.now) x.0) }
    ensures fit { IsBytes bytes.now }
    ensures value { IfOk result (λ x. IsTableValue x.0) }
    // What the bytes begin with is read, unless memory runs out.
    ensures only { (front rest : List ℕ) (t : Table) → TableBytes front t → bytes.now ≡ front ++ rest
        → MatchResult result (λ x. (x.0 ≡ t) × (x.1 ≡ length front)) (λ f. f ≡ NoMemory) }
    // A fault is that of the first check that fails on the bytes.
    ensures exact { MatchResult result (λ _. decision true bytes.now ≡ Right) (λ f. FaultIs f (decision true bytes.now)) }
    ensures in_memory { IsErrOf result TableFault.ReadFault → ⊥ }
{
    if bytes.len() < HEADER_BYTES {
        return Err(TableFault::Short {
            at: bytes.len() as u32,
        });
    }
    let len = told_length(bytes)?;
    let Some(front) = bytes.get(..len) else {
        return Err(TableFault::Short {
            at: bytes.len() as u32,
        });
    };
    let table = table_in(alloc, front)?;
    Ok((table, len))
}

/// What some bytes decide stays, whatever follows, where they are enough to decide. It does nothing.
pub fn decision_laws()
    ensures settled { (ended : Bool) (bytes more : List ℕ) → (decision false bytes ≡ Undecided → ⊥)
        → decision ended (bytes ++ more) ≡ decision false bytes }
    // They are decided to be right exactly when they begin with a table, and else, where no more follow, they have a fault.
    ensures right { (bytes : List ℕ) → (decision true bytes ≡ Right) ↔ BeginsTable bytes }
    ensures begun { (ended : Bool) (bytes : List ℕ) → BeginsTable bytes → decision ended bytes ≡ Right }
    ensures some { (bytes : List ℕ) → BeginsTable bytes ⊎ HasFault bytes }
    ensures not_both { (bytes : List ℕ) → BeginsTable bytes → HasFault bytes → ⊥ }
{}
