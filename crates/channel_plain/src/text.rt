//! The text of a trace.

ghost use Rattle.std.specs.Prelude.{◌≡◌, ◌++◌, IfOk, OnOk};
ghost use Rattle.pcc_text.specs.Pieces.{spelled};
ghost use Rattle.channel_plain.specs.TraceText.{action_words, end_words, letter, step_words, trace_line_text, trace_text};

use crate::trace::{Side, Trace, TraceEnd, TraceLine};
use pcc_io::NoMemory;
use pcc_steps::Action;
use pcc_text::{Piece, put, put_pieces};
use std::alloc::Global;

fn letter(side: Side) -> &'static [u8]
    ensures { result.now ≡ letter side }
{
    match side {
        Side::System => b"o",
        Side::Platform => b"p",
    }
}

fn put_action(out: &mut Vec<u8>, action: Action, value: u64) -> Result<(), NoMemory>
    ensures { OnOk result (out.new.items ≡ out.old.items ++ spelled (action_words action value)) }
{
    match action {
        Action::Load(place) => put_pieces(
            out,
            &[
                Piece::Text(b" load "),
                Piece::Number(place as u64),
                Piece::Text(b" "),
                Piece::Hex(&value.to_be_bytes()),
            ],
        ),
        Action::Store(place, word) => put_pieces(
            out,
            &[
                Piece::Text(b" store "),
                Piece::Number(place as u64),
                Piece::Text(b" "),
                Piece::Hex(&word.to_be_bytes()),
            ],
        ),
        Action::Swap(place, word) => put_pieces(
            out,
            &[
                Piece::Text(b" swap "),
                Piece::Number(place as u64),
                Piece::Text(b" "),
                Piece::Hex(&word.to_be_bytes()),
                Piece::Text(b" "),
                Piece::Hex(&value.to_be_bytes()),
            ],
        ),
        Action::Execute { .. } => put_pieces(out, &[]),
        Action::Rest => put_pieces(out, &[Piece::Text(b" rest")]),
    }
}

// A call that ends without a word step is reported in place of one.
fn put_step(out: &mut Vec<u8>, line: &TraceLine) -> Result<(), NoMemory>
    ensures { OnOk result (out.new.items ≡ out.old.items ++ spelled (step_words line.now)) }
{
    match line.end {
        TraceEnd::TooSoon { .. }
        | TraceEnd::BadCode { .. }
        | TraceEnd::TooLong { .. }
        | TraceEnd::JournalFull => put_pieces(out, &[]),
        _ => put_action(out, line.action, line.value),
    }
}

fn put_end(out: &mut Vec<u8>, end: TraceEnd) -> Result<(), NoMemory>
    ensures { OnOk result (out.new.items ≡ out.old.items ++ spelled (end_words end)) }
{
    match end {
        TraceEnd::Open => put_pieces(out, &[]),
        TraceEnd::Posted => put_pieces(out, &[Piece::Text(b" -> posted")]),
        TraceEnd::Clear { looks } => put_pieces(
            out,
            &[Piece::Text(b" -> clear "), Piece::Number(looks as u64)],
        ),
        TraceEnd::Done { error: true } => put_pieces(out, &[Piece::Text(b" -> done error")]),
        TraceEnd::Done { error: false } => put_pieces(out, &[Piece::Text(b" -> done ok")]),
        TraceEnd::Late { error: true } => put_pieces(out, &[Piece::Text(b" -> late error")]),
        TraceEnd::Late { error: false } => put_pieces(out, &[Piece::Text(b" -> late ok")]),
        TraceEnd::TimedOut { looks } => put_pieces(
            out,
            &[Piece::Text(b" -> timed out "), Piece::Number(looks as u64)],
        ),
        TraceEnd::StillPending { looks } => {
            put_pieces(
                out,
                &[
                    Piece::Text(b" -> still pending "),
                    Piece::Number(looks as u64),
                ],
            )
        }
        TraceEnd::TooSoon { now, earliest } => put_pieces(
            out,
            &[
                Piece::Text(b" too soon "),
                Piece::Number(now),
                Piece::Text(b" "),
                Piece::Wide(earliest),
            ],
        ),
        TraceEnd::BadCode { code } => put_pieces(
            out,
            &[Piece::Text(b" bad code "), Piece::Number(code as u64)],
        ),
        TraceEnd::TooLong { len, room } => put_pieces(
            out,
            &[
                Piece::Text(b" too long "),
                Piece::Number(len as u64),
                Piece::Text(b" "),
                Piece::Number(room as u64),
            ],
        ),
        TraceEnd::JournalFull => put_pieces(out, &[Piece::Text(b" journal full")]),
        TraceEnd::Served => put_pieces(out, &[Piece::Text(b" -> served")]),
        TraceEnd::Idle => put_pieces(out, &[Piece::Text(b" -> idle")]),
    }
}

/// Puts the line of a pick at the end.
#[tactic(auto, unfolding(crate::specs::TraceText::trace_line_text), using(std::proofs::lemmas::List::append_assoc))]
pub(crate) fn put_line(out: &mut Vec<u8>, line: &TraceLine) -> Result<(), NoMemory>
    ensures { OnOk result (out.new.items ≡ out.old.items ++ trace_line_text line.now) }
{
    put(out, letter(line.side))?;
    put_step(out, line)?;
    put_end(out, line.end)?;
    put(out, b"\n")
}

#[tactic(auto, using(crate::proofs::Written::written_start, crate::proofs::Written::written_end))]
fn put_trace(out: &mut Vec<u8>, lines: &[TraceLine]) -> Result<(), NoMemory>
    ensures { OnOk result (out.new.items ≡ out.old.items ++ trace_text lines.now) }
{
    for place in 0..lines.len() {
        put_line(out, &lines[place])?;
    }
    Ok(())
}

/// The text of a trace, a line for each pick. A call that ends without a word step is reported in place of one.
pub fn trace_lines(alloc: Global, trace: &Trace) -> Result<Vec<u8>, NoMemory>
    ensures { IfOk result (λ text. text.items ≡ trace_text trace.now) }
{
    let mut text = Vec::new(alloc);
    put_trace(&mut text, trace.as_slice())?;
    Ok(text)
}
