//! A journal from its text.
ghost use Rattle.std.specs.Prelude.{◌≡◌, ◌<◌, ◌+◌, ◌^◌, ℕ, IfOk, length};
ghost use Rattle.pcc_bytes.specs.Fields.{lines_of};
ghost use Rattle.journal_reading.specs.declared.told.AuditKind.{AuditKind};
ghost use Rattle.journal_reading.specs.declared.told.Told.{Told};
ghost use Rattle.journal_reading.specs.Faults.{IfFault, IsReadAs, IsRefusedAt, JournalWrong, Tells, pending_lines};
ghost use Rattle.journal_reading.specs.Parts.{AllRecords, AnyPending, IsFront, TooMany};

use crate::lines::{end_at, head_at, pending_at, record_at};
use crate::told::{AuditError, AuditKind, Records, Told};
use pcc_io::NoMemory;
use pcc_journal::{MAX_ITEMS, Pending};
use std::alloc::Global;

/// The records whose lines are at the front of a text, and what follows them. The first line of the text has the number `first`.
#[tactic(auto, using(crate::proofs::Walking::walks))]
fn records_at<'a>(
    alloc: Global,
    text: &'a [u8],
    first: u32,
) -> Result<(Records, &'a [u8]), AuditError>
    requires { first + length (lines_of text.now) < 2 ^ 32 }
    ensures some { IfOk result (λ x. AllRecords text.now x.0 x.1.now) }
    ensures many { IfFault result (TooMany first text.now) }
{
    let mut records = Records::new(alloc);
    let mut rest = text;
    loop {
        let place = records.len();
        let Some(next) = record_at(alloc, place, rest)? else {
            return Ok((records, rest));
        };
        if place == MAX_ITEMS {
            return Err(AuditError::Fault {
                line: first + place as u32,
                kind: AuditKind::Many,
            });
        }
        records.push(next.0)?;
        rest = next.1;
    }
}

/// The pending command whose line is at the front of a text, if there is one, and what follows it.
#[tactic(auto, using(crate::proofs::Walking::no_pending, crate::proofs::Walking::some_pending))]
fn any_pending<'a>(alloc: Global, text: &'a [u8]) -> Result<(Option<Pending>, &'a [u8]), NoMemory>
    ensures some { IfOk result (λ x. AnyPending text.now x.0 x.1.now) }
    ensures lines { IfOk result (λ x. length (lines_of text.now) ≡ pending_lines x.0 + length (lines_of x.1.now)) }
{
    match pending_at(alloc, text)? {
        None => Ok((None, text)),
        Some(next) => Ok((Some(next.0), next.1)),
    }
}

/// How many lines a pending command has.
fn lines_of_pending(pending: &Option<Pending>) -> u32
    ensures { result ≡ pending_lines pending.now }
{
    match pending {
        None => 0,
        Some(_) => 1,
    }
}

/// The journal at the front of a text and what follows it, or the first fault.
#[tactic(auto, using(crate::proofs::Walking::no_head, crate::proofs::Walking::too_many, crate::proofs::Walking::no_line))]
fn read<'a>(alloc: Global, text: &'a [u8], first_line: u32) -> Result<(Told, &'a [u8]), AuditError>
    requires { first_line + length (lines_of text.now) < 2 ^ 32 }
    ensures told { IfOk result (λ x. IsFront text.now x.0 x.1.now) }
    ensures wrong { IfFault result (JournalWrong first_line text.now) }
{
    let Some(head) = head_at(alloc, text)? else {
        return Err(AuditError::Fault {
            line: first_line,
            kind: AuditKind::Text,
        });
    };
    let records = match records_at(alloc, head.1, first_line + 1) {
        Ok(records) => records,
        Err(error) => return Err(error),
    };
    let pending = any_pending(alloc, records.1)?;
    let Some(rest) = end_at(alloc, &head.0, pending.1)? else {
        return Err(AuditError::Fault {
            line: first_line + 1 + records.0.len() as u32 + lines_of_pending(&pending.0),
            kind: AuditKind::Text,
        });
    };
    let told = Told {
        head: head.0,
        records: records.0,
        pending: pending.0,
    };
    Ok((told, rest))
}

/// The journal whose text is the front of a text, and the length of its text. A text begins with one journal at most. A journal's text is that of
/// `put_journal`, and each number in it is in the range of its field.
///
/// A first line that is no journal's, a line that is right nowhere or not there, and bytes with no line feed after them are `Text`, as is a line
/// that is missing. The right line of a 4,097th record is `Many`. The first line of the text has the number `first_line`.
#[tactic(auto, using(crate::proofs::Public::reported))]
pub fn told_from(alloc: Global, text: &[u8], first_line: u32) -> Result<(Told, usize), AuditError>
    requires { first_line + length (lines_of text.now) < 2 ^ 32 }
    // The front of the text is the text of what is read.
    ensures found { IfOk result (λ x. Tells text.now x.0 x.1) }
    // A journal whose text is the front of the text is read, unless memory runs out.
    ensures only { (t : Told) (long : ℕ) → Tells text.now t long → IsReadAs t long result }

    // A fault that is reported is the first of the text.
    ensures fault { IfFault result (JournalWrong first_line text.now) }
    // The first fault of the text is reported, unless memory runs out.
    ensures first { (line : ℕ) (kind : AuditKind) → JournalWrong first_line text.now line kind → IsRefusedAt line kind result }
{
    match read(alloc, text, first_line) {
        Ok(front) => Ok((front.0, text.len() - front.1.len())),
        Err(error) => Err(error),
    }
}
