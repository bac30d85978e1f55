//! The text of a reply.
ghost use Rattle.std.specs.Prelude.{◌≡◌, ◌++◌, [], ◌∷◌, Option, drop, length, OnOk};
ghost use Rattle.channel_turns.specs.Outcomes.{IsPlaced, StandsFor};
ghost use Rattle.channel_turns.specs.Replies.{Done, JournalFull, Reply, TooLong, TooSoon};
ghost use Rattle.pcc_text.specs.Pieces.{spelled};
ghost use Rattle.script_run.specs.ReplyText.{
  entry_pieces,
  first_entry,
  number_after,
  numbers_after,
  refusal_text,
  replies_text,
  reply_text,
  shown_text,
  values_text,
};
ghost use Rattle.script_run.specs.LineOutcomes.{HasReply, IsOutcomeOf, IsPlacedIn, IsShownAs};
ghost use Rattle.script_run.specs.StepRun.{ShownReply};

use crate::channel::DeviceChannel;
use crate::outcome::{LineAnswer, LineOutcome};
use channel_turns::Outcome;
use cppc_calls::SetRefusal;
use cppc_device::Values;
use pcc_io::NoMemory;
use pcc_journal::Record;
use pcc_text::{Piece, put, put_pieces};

/// The first entry of a package that is a number of its processor: the two before it are the number of entries and the revision.
const FIRST_ENTRY: usize = 2;

/// Puts the reply of a line, if it has one, whose number in the script counts from 1.
pub fn put_outcome(
    out: &mut Vec<u8>,
    line: u64,
    channels: &[DeviceChannel],
    outcome: Option<LineOutcome>,
) -> Result<(), NoMemory>
    requires { HasReply channels.now outcome }
    ensures { OnOk result ((reply : Option ShownReply) → IsOutcomeOf reply channels.now outcome
        → out.new.items ≡ out.old.items ++ replies_text line (reply ∷ [])) }
{
    match outcome {
        None => Ok(()),
        Some(LineOutcome { place, answer }) => put_answer(
            out,
            line,
            answer,
            channels[place].records(),
        ),
    }
}

// Puts the reply that an answer stands for.
fn put_answer(
    out: &mut Vec<u8>,
    line: u64,
    answer: LineAnswer,
    records: &[Record],
) -> Result<(), NoMemory>
    requires { IsPlacedIn (length records.now) answer }
    ensures { OnOk result ((reply : ShownReply) → IsShownAs records.now answer reply → out.new.items ≡ out.old.items ++ shown_text line reply) }
{
    match answer {
        LineAnswer::Called(outcome) => put_reply(out, line, outcome, records),
        LineAnswer::Read(values) => put_values(out, line, &values),
        LineAnswer::Refused(why) => put_refusal(out, line, why),
    }
}

// Puts the reply that an outcome stands for.
#[tactic(auto, unfolding(crate::specs::ReplyText::reply_text), using(crate::proofs::Replies::done_reply))]
fn put_reply(
    out: &mut Vec<u8>,
    line: u64,
    outcome: Outcome,
    records: &[Record],
) -> Result<(), NoMemory>
    requires { IsPlaced (length records.now) outcome }
    ensures { OnOk result ((reply : Reply) → StandsFor records.now outcome reply → out.new.items ≡ out.old.items ++ reply_text line reply) }
{
    match outcome {
        Outcome::Done { place } => put_done(out, line, &records[place]),
        Outcome::BadCode { code } => put_number_after(out, line, b" bad code ", code),
        Outcome::TooLong { len, room } => put_too_long(out, line, len, room),
        Outcome::JournalFull => put_journal_full(out, line),
        Outcome::StillPending { looks } => {
            put_number_after(out, line, b" still pending ", looks)
        }
        Outcome::TooSoon { now, earliest } => put_too_soon(out, line, now, earliest),
        Outcome::TimedOut { looks } => put_number_after(out, line, b" timed out ", looks),
    }
}

#[tactic(auto, unfolding(crate::specs::ReplyText::reply_text))]
fn put_done(out: &mut Vec<u8>, line: u64, entry: &Record) -> Result<(), NoMemory>
    ensures { OnOk result (out.new.items ≡ out.old.items ++ reply_text line (Done entry.now.error entry.now.output)) }
{
    put_pieces(
        out,
        &[
            Piece::Number(line),
            Piece::Either(entry.error, b" error ", b" ok "),
            Piece::Bytes(&entry.output),
            Piece::Text(b"\n"),
        ],
    )
}

// Puts a reply that is some words and one number.
fn put_number_after(out: &mut Vec<u8>, line: u64, words: &[u8], n: u32) -> Result<(), NoMemory>
    ensures { OnOk result (out.new.items ≡ out.old.items ++ spelled (number_after line words.now n)) }
{
    put_pieces(
        out,
        &[
            Piece::Number(line),
            Piece::Text(words),
            Piece::Number(n as u64),
            Piece::Text(b"\n"),
        ],
    )
}

#[tactic(auto, unfolding(crate::specs::ReplyText::reply_text))]
fn put_too_long(out: &mut Vec<u8>, line: u64, len: usize, room: u32) -> Result<(), NoMemory>
    ensures { OnOk result (out.new.items ≡ out.old.items ++ reply_text line (TooLong len room)) }
{
    put_pieces(
        out,
        &[
            Piece::Number(line),
            Piece::Text(b" too long "),
            Piece::Number(len as u64),
            Piece::Text(b" "),
            Piece::Number(room as u64),
            Piece::Text(b"\n"),
        ],
    )
}

#[tactic(auto, unfolding(crate::specs::ReplyText::reply_text))]
fn put_journal_full(out: &mut Vec<u8>, line: u64) -> Result<(), NoMemory>
    ensures { OnOk result (out.new.items ≡ out.old.items ++ reply_text line JournalFull) }
{
    put_pieces(out, &[Piece::Number(line), Piece::Text(b" journal full\n")])
}

#[tactic(auto, unfolding(crate::specs::ReplyText::reply_text))]
fn put_too_soon(out: &mut Vec<u8>, line: u64, now: u64, earliest: u128) -> Result<(), NoMemory>
    ensures { OnOk result (out.new.items ≡ out.old.items ++ reply_text line (TooSoon now earliest)) }
{
    put_pieces(
        out,
        &[
            Piece::Number(line),
            Piece::Text(b" too soon "),
            Piece::Number(now),
            Piece::Text(b" "),
            Piece::Wide(earliest),
            Piece::Text(b"\n"),
        ],
    )
}

// Puts the numbers of a processor: those of the entries that have one.
#[tactic(auto, unfolding(crate::specs::ReplyText::values_text), using(std::proofs::lemmas::List::append_assoc))]
fn put_values(out: &mut Vec<u8>, line: u64, values: &Values) -> Result<(), NoMemory>
    ensures { OnOk result (out.new.items ≡ out.old.items ++ values_text line values.now.entries) }
{
    put_pieces(out, &[Piece::Number(line), Piece::Text(b" values")])?;
    put_entries(out, &values.entries)?;
    put(out, b"\n")
}

// Puts the numbers of all entries that have one.
#[tactic(auto, using(crate::proofs::Values::entries_start, crate::proofs::Values::entries_end))]
fn put_entries(out: &mut Vec<u8>, entries: &[Option<u64>]) -> Result<(), NoMemory>
    ensures { OnOk result (out.new.items ≡ out.old.items ++ spelled (entry_pieces first_entry (drop first_entry entries.now))) }
{
    for entry in FIRST_ENTRY..entries.len() {
        put_entry(out, entry, entries[entry])?;
    }
    Ok(())
}

// Puts the number of an entry, if it has one.
#[tactic(auto)]
fn put_entry(out: &mut Vec<u8>, entry: usize, value: Option<u64>) -> Result<(), NoMemory>
    ensures { OnOk result (out.new.items ≡ out.old.items ++ spelled (entry_pieces entry (value ∷ []))) }
{
    match value {
        None => Ok(()),
        Some(value) => put_pieces(
            out,
            &[
                Piece::Text(b" "),
                Piece::Number(entry as u64),
                Piece::Text(b"="),
                Piece::Number(value),
            ],
        ),
    }
}

// Puts why a wish is refused.
#[tactic(auto, unfolding(crate::specs::ReplyText::refusal_text))]
fn put_refusal(out: &mut Vec<u8>, line: u64, why: SetRefusal) -> Result<(), NoMemory>
    ensures { OnOk result (out.new.items ≡ out.old.items ++ refusal_text line why) }
{
    match why {
        SetRefusal::NoRegister { entry } => {
            put_number_after(out, line, b" no register ", u32::from(entry))
        }
        SetRefusal::TooWide { entry } => {
            put_number_after(out, line, b" too wide ", u32::from(entry))
        }
        SetRefusal::BelowLowest { value, lowest } => {
            put_numbers_after(out, line, b" below lowest ", value, lowest)
        }
        SetRefusal::AboveHighest { value, highest } => {
            put_numbers_after(out, line, b" above highest ", value, highest)
        }
        SetRefusal::MinAboveDesired { min, desired } => {
            put_numbers_after(out, line, b" min above desired ", min, desired)
        }
        SetRefusal::DesiredAboveMax { desired, max } => {
            put_numbers_after(out, line, b" desired above max ", desired, max)
        }
    }
}

// Puts a reply that is some words and two numbers.
fn put_numbers_after(
    out: &mut Vec<u8>,
    line: u64,
    words: &[u8],
    m: u64,
    n: u64,
) -> Result<(), NoMemory>
    ensures { OnOk result (out.new.items ≡ out.old.items ++ spelled (numbers_after line words.now m n)) }
{
    put_pieces(
        out,
        &[
            Piece::Number(line),
            Piece::Text(words),
            Piece::Number(m),
            Piece::Text(b" "),
            Piece::Number(n),
            Piece::Text(b"\n"),
        ],
    )
}
