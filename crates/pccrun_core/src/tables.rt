//! The commands on tables: `show` prints the text of a table, `build` makes the bytes of a table from its text.
ghost use Rattle.std.specs.Prelude.{◌<◌, ◌-◌, ◌^◌, MatchResult, length};
ghost use Rattle.pccrun_core.specs.Answers.{Makes};
ghost use Rattle.pccrun_core.specs.CommandErrors.{IsRefusedBy};
ghost use Rattle.pccrun_core.specs.Refusals.{Refuses};

use crate::command::Command;
use crate::error::CommandError;
use pcc_setup::{InputError, Refusal, whole_table};
use pcct_codec::{table_bytes, texts_of_tables};
use pcct_table::{BuildError, show_lines, table_of_lines};
use std::alloc::Global;

/// The text of the table that all bytes spell.
pub fn show(alloc: Global, bytes: &[u8]) -> Result<Vec<u8>, CommandError>
    ensures { MatchResult result (λ v. Makes Command.Show bytes.now v.items) (IsRefusedBy (Refuses Command.Show bytes.now)) }
{
    texts_of_tables();
    match whole_table(alloc, bytes) {
        Ok(table) => Ok(show_lines(alloc, &table)?),
        Err(error) => Err(CommandError::Input(error)),
    }
}

/// The bytes of the table that has this text.
pub fn build(alloc: Global, text: &[u8]) -> Result<Vec<u8>, CommandError>
    requires { length text.now < 2 ^ 32 - 1 }
    ensures { MatchResult result (λ v. Makes Command.Build text.now v.items) (IsRefusedBy (Refuses Command.Build text.now)) }
{
    texts_of_tables();
    match table_of_lines(alloc, text) {
        Ok(table) => Ok(table_bytes(alloc, &table)?),
        Err(BuildError::Fault { line, kind }) => {
            let line = line as u64;
            let refusal = Refusal::TableText { line, kind };
            Err(CommandError::Input(InputError::Refused(refusal)))
        }
        Err(BuildError::NoMemory) => Err(CommandError::Input(InputError::NoMemory)),
    }
}
