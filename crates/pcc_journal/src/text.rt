//! The text of a journal.
ghost use Rattle.std.specs.Prelude.{◌≡◌, ◌++◌, IfOk, OnOk};
ghost use Rattle.std.specs.Option.{option_copied};
ghost use Rattle.pcc_text.specs.Pieces.{spelled};
ghost use Rattle.pcc_journal.specs.JournalText.{end_line, head_line, journal_text, pending_line, pending_text, record_line, records_text};

use crate::{Journal, Pending, Record};
use pcc_io::NoMemory;
use pcc_text::{Piece, put_pieces};
use rate_limit::Limits;
use std::alloc::Global;

/// What the first line of a journal says of its subspace.
#[derive(Clone, Copy, Debug, PartialEq, Eq)]
pub struct JournalHead {
    /// The subspace's index in the table.
    pub id: u8,
    /// Its type.
    pub kind: u8,
    /// Whether a controller of performance (CPPC) is its device, or else a Bank.
    pub cppc: bool,
    /// The bytes of its communication space.
    pub room: u32,
    /// The limits on its posts.
    pub limits: Limits,
    /// Whether its responder reports errors.
    pub reports: bool,
}

fn put_head(out: &mut Vec<u8>, head: &JournalHead) -> Result<(), NoMemory>
    ensures { OnOk result (out.new.items ≡ out.old.items ++ spelled (head_line head.now)) }
{
    put_pieces(
        out,
        &[
            Piece::Text(b"journal "),
            Piece::Number(head.id as u64),
            Piece::Text(b" type "),
            Piece::Number(head.kind as u64),
            Piece::Either(head.cppc, b" cppc room ", b" bank room "),
            Piece::Number(head.room as u64),
            Piece::Text(b" turnaround "),
            Piece::Number(head.limits.turnaround as u64),
            Piece::Text(b" rate "),
            Piece::Number(head.limits.per_minute as u64),
            Piece::Either(head.reports, b" errors yes\n", b" errors no\n"),
        ],
    )
}

fn put_record(out: &mut Vec<u8>, place: usize, entry: &Record) -> Result<(), NoMemory>
    ensures { OnOk result (out.new.items ≡ out.old.items ++ spelled (record_line place entry.now)) }
{
    put_pieces(
        out,
        &[
            Piece::Text(b"record "),
            Piece::Number(place as u64),
            Piece::Text(b" caller "),
            Piece::Number(entry.caller as u64),
            Piece::Text(b" code "),
            Piece::Number(entry.code as u64),
            Piece::Either(entry.error, b" error post ", b" ok post "),
            Piece::Number(entry.post),
            Piece::Text(b" done "),
            Piece::Number(entry.done),
            Piece::Either(entry.late, b" late in ", b" timely in "),
            Piece::Bytes(&entry.input),
            Piece::Text(b" out "),
            Piece::Bytes(&entry.output),
            Piece::Text(b"\n"),
        ],
    )
}

#[tactic(auto, using(crate::proofs::Written::written_start, crate::proofs::Written::written_end))]
fn put_records(out: &mut Vec<u8>, records: &[Record]) -> Result<(), NoMemory>
    ensures { OnOk result (out.new.items ≡ out.old.items ++ records_text 0 records.now) }
{
    for (place, record) in records.iter().enumerate() {
        put_record(out, place, record)?;
    }
    Ok(())
}

fn put_pending(out: &mut Vec<u8>, pending: &Pending) -> Result<(), NoMemory>
    ensures { OnOk result (out.new.items ≡ out.old.items ++ spelled (pending_line pending.now)) }
{
    put_pieces(
        out,
        &[
            Piece::Text(b"pending caller "),
            Piece::Number(pending.caller as u64),
            Piece::Text(b" code "),
            Piece::Number(pending.code as u64),
            Piece::Text(b" post "),
            Piece::Number(pending.post),
            Piece::Text(b" in "),
            Piece::Bytes(&pending.input),
            Piece::Text(b"\n"),
        ],
    )
}

fn put_any_pending(out: &mut Vec<u8>, pending: Option<&Pending>) -> Result<(), NoMemory>
    ensures { OnOk result (out.new.items ≡ out.old.items ++ pending_text (option_copied pending.entry)) }
{
    match pending {
        None => Ok(()),
        Some(pending) => put_pending(out, pending),
    }
}

/// Puts the text of a journal at the end: its head, a line for each record, one for a pending command, and its end.
/// If memory runs out it may have put a part.
#[tactic(auto, unfolding(crate::specs::JournalText::journal_text), using(std::proofs::lemmas::List::append_assoc))]
pub fn put_journal(
    out: &mut Vec<u8>,
    head: &JournalHead,
    records: &[Record],
    pending: Option<&Pending>,
) -> Result<(), NoMemory>
    ensures { OnOk result (out.new.items ≡ out.old.items ++ journal_text head.now records.now (option_copied pending.entry)) }
{
    put_head(out, head)?;
    put_records(out, records)?;
    put_any_pending(out, pending)?;
    put_pieces(
        out,
        &[
            Piece::Text(b"end "),
            Piece::Number(head.id as u64),
            Piece::Text(b"\n"),
        ],
    )
}

/// The text of a journal.
pub fn journal_lines(
    alloc: Global,
    head: &JournalHead,
    journal: &Journal,
    pending: Option<&Pending>,
) -> Result<Vec<u8>, NoMemory>
    ensures { IfOk result (λ lines. lines.items ≡ journal_text head.now journal.now.items (option_copied pending.entry)) }
{
    let mut lines = Vec::new(alloc);
    put_journal(&mut lines, head, journal.as_slice(), pending)?;
    Ok(lines)
}
