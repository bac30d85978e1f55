//! The table of a script, or of the program's whole input.
ghost use Rattle.std.specs.Prelude.{◌≡◌, ◌⊎◌, ℕ, List, MatchResult};
ghost use Rattle.pcct_codec.specs.Tables.{TableBytes};
ghost use Rattle.pcc_setup.specs.RefusalText.{IsRefusedFor};
ghost use Rattle.pcc_setup.specs.SetUps.{HasTableRefusal, IsWholeTable, TableRefused};
ghost use Rattle.pcc_setup.specs.declared.refusal.Refusal.{Refusal};

use crate::refusal::{InputError, Refusal};
use pcct_codec::{TableFault, table_of_bytes};
use pcct_table::Table;
use std::alloc::Global;

/// The table that all bytes spell.
pub fn whole_table(alloc: Global, bytes: &[u8]) -> Result<Table, InputError>
    ensures { MatchResult result (TableBytes bytes.now) (IsRefusedFor (TableRefused bytes.now)) }
{
    match table_of_bytes(alloc, bytes) {
        Ok((table, len)) => {
            if len < bytes.len() {
                Err(InputError::Refused(Refusal::Trailing { at: len }))
            } else {
                Ok(table)
            }
        }
        Err(fault) => {
            if fault == TableFault::NoMemory {
                Err(InputError::NoMemory)
            } else {
                Err(InputError::Refused(Refusal::Table(fault)))
            }
        }
    }
}

/// Bytes are those of a table and nothing else, or are refused, by one line. It does nothing.
pub fn whole_table_laws()
    ensures some { (bytes : List ℕ) → IsWholeTable bytes ⊎ HasTableRefusal bytes }
    ensures not_both { (bytes : List ℕ) → IsWholeTable bytes → HasTableRefusal bytes → ⊥ }
    ensures one_refusal { (bytes : List ℕ) (r q : Refusal) → TableRefused bytes r → TableRefused bytes q → r ≡ q }
{}
