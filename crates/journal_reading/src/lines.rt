//! The first line of a text, as a line of a journal.
ghost use Rattle.std.specs.Prelude.{◌≡◌, IfOk, IfSome, None};
ghost use Rattle.journal_reading.specs.Faults.{HeadAt, IsEndLine, IsHeadLine, IsPendingLine, IsRecordLine, PendingAt, RecordAt};
ghost use Rattle.journal_reading.specs.Told.{IsHead};
ghost use Rattle.journal_reading.specs.Parts.{EndAt, OneLess};

use crate::words::{head_of, is_end, pending_of, record_of};
use pcc_io::NoMemory;
use pcc_journal::{JournalHead, Pending, Record};
use pcc_text::cut;
use std::alloc::Global;

/// The head whose line is the first of a text, and what follows the line.
#[tactic(auto, using(crate::proofs::Found::head_refused, crate::proofs::Found::head_missing, crate::proofs::Cuts::one_less))]
pub fn head_at<'a>(
    alloc: Global,
    text: &'a [u8],
) -> Result<Option<(JournalHead, &'a [u8])>, NoMemory>
    ensures some { IfOk result (λ o. IfSome o (λ x. HeadAt text.now x.0 x.1.now)) }
    ensures none { IfOk result (λ o. o ≡ None → IsHeadLine text.now → ⊥) }
    ensures less { IfOk result (λ o. IfSome o (λ x. OneLess text.now x.1.now)) }
{
    let Some((line, rest)) = cut(text, b'\n') else {
        return Ok(None);
    };
    match head_of(alloc, line)? {
        None => Ok(None),
        Some(head) => Ok(Some((head, rest))),
    }
}

/// The record whose line is the first of a text and has this place, and what follows the line.
#[tactic(auto, using(crate::proofs::Found::record_refused, crate::proofs::Cuts::one_less))]
pub fn record_at<'a>(
    alloc: Global,
    place: usize,
    text: &'a [u8],
) -> Result<Option<(Record, &'a [u8])>, NoMemory>
    ensures some { IfOk result (λ o. IfSome o (λ x. RecordAt place text.now x.0 x.1.now)) }
    ensures none { IfOk result (λ o. o ≡ None → IsRecordLine place text.now → ⊥) }
    ensures less { IfOk result (λ o. IfSome o (λ x. OneLess text.now x.1.now)) }
{
    let Some((line, rest)) = cut(text, b'\n') else {
        return Ok(None);
    };
    match record_of(alloc, place, line)? {
        None => Ok(None),
        Some(record) => Ok(Some((record, rest))),
    }
}

/// The pending command whose line is the first of a text, and what follows the line.
#[tactic(auto, using(crate::proofs::Found::pending_refused, crate::proofs::Found::pending_missing, crate::proofs::Cuts::one_less))]
pub fn pending_at<'a>(
    alloc: Global,
    text: &'a [u8],
) -> Result<Option<(Pending, &'a [u8])>, NoMemory>
    ensures some { IfOk result (λ o. IfSome o (λ x. PendingAt text.now x.0 x.1.now)) }
    ensures none { IfOk result (λ o. o ≡ None → IsPendingLine text.now → ⊥) }
    ensures less { IfOk result (λ o. IfSome o (λ x. OneLess text.now x.1.now)) }
{
    let Some((line, rest)) = cut(text, b'\n') else {
        return Ok(None);
    };
    match pending_of(alloc, line)? {
        None => Ok(None),
        Some(pending) => Ok(Some((pending, rest))),
    }
}

/// What follows the last line of the journal with this head, where that line is the first of a text.
#[tactic(auto, using(crate::proofs::Found::end_found, crate::proofs::Found::end_refused, crate::proofs::Found::end_missing))]
pub fn end_at<'a>(
    alloc: Global,
    head: &JournalHead,
    text: &'a [u8],
) -> Result<Option<&'a [u8]>, NoMemory>
    requires { IsHead head.now }
    ensures some { IfOk result (λ o. IfSome o (λ x. EndAt text.now head.now x.now)) }
    ensures none { IfOk result (λ o. o ≡ None → IsEndLine head.now text.now → ⊥) }
{
    let Some((line, rest)) = cut(text, b'\n') else {
        return Ok(None);
    };
    if !is_end(alloc, head.id, line)? {
        return Ok(None);
    }
    Ok(Some(rest))
}
