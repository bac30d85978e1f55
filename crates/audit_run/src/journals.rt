//! The journals of a text, one after the other.
ghost use Rattle.std.specs.Prelude.{◌≡◌, ◌<◌, ◌+◌, ◌^◌, MatchResult, length};
ghost use Rattle.pcc_bytes.specs.Fields.{lines_of};
ghost use Rattle.journal_reading.specs.Faults.{HoldsOf};
ghost use Rattle.journal_reading.specs.Told.{IsTold, told_text};
ghost use Rattle.audit_run.specs.Journals.{AreJournals, JournalsWrong};

use journal_reading::{AuditError, AuditKind, Told, told_from};
use pcc_io::Items;
use std::alloc::Global;

/// Journals, in the order of their texts.
pub type Journals = Items<Told>;

// How many lines the text of a journal has: its head, its records, a pending command, and its end.
#[tactic(auto, using(crate::proofs::JournalLines::counted))]
fn lines_of_journal(told: &Told) -> u32
    requires { IsTold told.now }
    ensures { result ≡ length (lines_of (told_text told.now)) }
{
    let pending = if told.pending.is_some() { 1 } else { 0 };
    2 + told.records.len() as u32 + pending
}

/// So many journals, which the text spells with nothing behind them, or the first fault. The first line of the text has the number `first_line`.
#[tactic(auto, using(crate::proofs::InTurn::in_turn, std::proofs::lemmas::List::take_rest))]
pub fn journals_from(
    alloc: Global,
    text: &[u8],
    count: usize,
    first_line: u32,
) -> Result<Journals, AuditError>
    requires { first_line + length (lines_of text.now) < 2 ^ 32 }
    ensures { MatchResult result (AreJournals count text.now) (λ e. HoldsOf e (JournalsWrong first_line count text.now)) }
{
    let mut journals = Journals::new(alloc);
    let mut rest = text;
    let mut line = first_line;
    for _ in 0..count {
        let (told, long) = told_from(alloc, rest, line)?;
        line += lines_of_journal(&told);
        rest = &rest[long..];
        journals.push(told)?;
    }
    if !rest.is_empty() {
        return Err(AuditError::Fault {
            line,
            kind: AuditKind::Text,
        });
    }
    Ok(journals)
}
