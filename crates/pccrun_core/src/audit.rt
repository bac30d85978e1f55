//! The command `audit`: the journals of an input are judged by what its script part opens.
ghost use Rattle.std.specs.Prelude.{◌≡◌, ◌≤◌, ◌<◌, ◌^◌, ℕ, List, MatchResult, length};
ghost use Rattle.pcc_bytes.specs.Fields.{lines_of};
ghost use Rattle.journal_reading.specs.Faults.{HoldsOf};
ghost use Rattle.pcc_setup.specs.declared.refusal.Refusal.TheVariants.{JournalText};
ghost use Rattle.pccrun_core.specs.Answers.{AuditGives, input_limit};
ghost use Rattle.pccrun_core.specs.CommandErrors.{IsRefusedBy};
ghost use Rattle.pccrun_core.specs.Refusals.{AuditRefused, Refuses};

use crate::command::Command;
use crate::error::CommandError;
use crate::script::served_script;
use audit_run::{Audited, audit, audit_laws, cut_journals};
use journal_reading::AuditError;
use pcc_setup::{InputError, Refusal};
use pcc_text::cut;
use std::alloc::Global;

// How many lines a text has.
#[tactic(auto, using(crate::proofs::Counting::counting))]
fn lines_in(text: &[u8]) -> u32
    requires { length text.now < 2 ^ 32 }
    ensures { result ≡ length (lines_of text.now) }
{
    let mut count = 0;
    let mut rest = text;
    while let Some((_, next)) = cut(rest, b'\n') {
        count += 1;
        rest = next;
    }
    count
}

// Journals with this first fault are refused for it.
fn refused_journals(error: AuditError) -> CommandError
    ensures { (input : List ℕ) → HoldsOf error (λ line kind. AuditRefused input (JournalText line kind)) → IsRefusedBy (AuditRefused input) result }
{
    match error {
        AuditError::Fault { line, kind } => {
            let line = line as u64;
            CommandError::Input(InputError::Refused(Refusal::JournalText { line, kind }))
        }
        AuditError::NoMemory => CommandError::Input(InputError::NoMemory),
    }
}

/// What is written of the journals of an input, which follow the script that opens their subspaces. The condition is an input of at most 4,194,304 bytes.
#[tactic(auto, using(crate::proofs::Counting::part_short, crate::proofs::Counting::numbers_fit))]
pub fn audited(alloc: Global, input: &[u8]) -> Result<Audited, CommandError>
    requires { length input.now ≤ input_limit }
    ensures { MatchResult result (λ a. AuditGives input.now a.flawed a.text) (IsRefusedBy (Refuses Command.Audit input.now)) }
{
    audit_laws();
    let (script, journals) = cut_journals(input);
    match served_script(alloc, Command::Audit, script) {
        Ok(served) => match audit(alloc, &served.set_up.opened, journals, lines_in(script) + 1) {
            Ok(audited) => Ok(audited),
            Err(error) => Err(refused_journals(error)),
        },
        Err(error) => Err(error),
    }
}
