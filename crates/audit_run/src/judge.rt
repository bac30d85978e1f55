//! Judges the journals of the opened subspaces.
ghost use Rattle.std.specs.Prelude.{◌≡◌, ◌<◌, ◌+◌, ◌^◌, ◌++◌, true, false, IfOk, MatchResult, OnOk, length};
ghost use Rattle.std.specs.List.{AllByRecursion};
ghost use Rattle.pcc_bytes.specs.Fields.{lines_of};
ghost use Rattle.pcc_text.specs.Pieces.{spelled};
ghost use Rattle.journal_reading.specs.Faults.{HoldsOf};
ghost use Rattle.pcc_audit.specs.Verdicts.{IsVerdict};
ghost use Rattle.audit_run.specs.Audits.{IsAuditOf, IsJudged, flaw_word, no_line, yes_line};
ghost use Rattle.audit_run.specs.Boards.{CanJudge, bank_board, board_of, controller_board};
ghost use Rattle.audit_run.specs.Journals.{JournalsWrong};

use crate::journals::{Journals, journals_from};
use cppc_device::{CppcDevice, opening};
use journal_reading::{AuditError, Told};
use pcc_audit::{Flaw, Verdict, audit_board};
use pcc_exec::Bank;
use pcc_io::{Bytes, NoMemory};
use pcc_setup::{Opened, OpenedList};
use pcc_text::{Piece, put_pieces};
use std::alloc::Global;

/// What is written of journals, and whether it tells a flaw.
#[derive(Debug, Drop)]
pub struct Audited {
    pub flawed: bool,
    pub text: Bytes,
}

// The verdict on the journal of a Bank, which begins with zeros in its device and its space.
fn bank_verdict(alloc: Global, opened: &Opened, told: &Told) -> Result<Verdict, NoMemory>
    requires judge { CanJudge opened.now }
    requires few { length told.now.records < 2 ^ 32 }
    ensures { IfOk result (IsVerdict (bank_board opened.now) told.now) }
{
    let room = opened.head.room;
    let mut device = Bank::new(alloc, room)?;
    let space = vec![in alloc; 0; room as usize]?;
    audit_board(alloc, &opened.head, &mut device, &space, &[], told)
}

// The verdict on the journal of a controller, which begins with its image in its registers and in its space.
fn controller_verdict(alloc: Global, opened: &Opened, told: &Told) -> Result<Verdict, NoMemory>
    requires judge { CanJudge opened.now }
    requires few { length told.now.records < 2 ^ 32 }
    ensures { IfOk result (IsVerdict (controller_board opened.now) told.now) }
{
    let room = opened.wiring.room;
    let image = opened.image.as_slice();
    let cpus = opened.cpus.as_slice();
    let mut device = match CppcDevice::new(alloc, room, image, cpus, opened.caps.as_slice()) {
        Ok(device) => device,
        Err(_) => return Err(NoMemory),
    };
    let space = opening(alloc, room, image)?;
    audit_board(alloc, &opened.head, &mut device, &space, cpus, told)
}

// The verdict on the journal of an opened subspace.
fn verdict_on(alloc: Global, opened: &Opened, told: &Told) -> Result<Verdict, NoMemory>
    requires judge { CanJudge opened.now }
    requires few { length told.now.records < 2 ^ 32 }
    ensures { IfOk result (IsVerdict (board_of opened.now) told.now) }
{
    if opened.head.cppc {
        controller_verdict(alloc, opened, told)
    } else {
        bank_verdict(alloc, opened, told)
    }
}

fn flaw_word(flaw: Flaw) -> &'static [u8]
    ensures { result.now ≡ flaw_word flaw }
{
    match flaw {
        Flaw::Head => b" head\n",
        Flaw::Size => b" size\n",
        Flaw::Limits => b" limits\n",
        Flaw::Touched => b" touched\n",
        Flaw::Range => b" range\n",
        Flaw::Legal => b" legal\n",
    }
}

fn put_yes(out: &mut Vec<u8>, opened: &Opened, told: &Told) -> Result<(), NoMemory>
    ensures { OnOk result (out.new.items ≡ out.old.items ++ spelled (yes_line opened.now told.now)) }
{
    put_pieces(
        out,
        &[
            Piece::Text(b"yes "),
            Piece::Number(opened.head.id as u64),
            Piece::Text(b" "),
            Piece::Number(told.records.len() as u64),
            Piece::Text(b"\n"),
        ],
    )
}

fn put_no(out: &mut Vec<u8>, opened: &Opened, number: u32, flaw: Flaw) -> Result<(), NoMemory>
    ensures { OnOk result (out.new.items ≡ out.old.items ++ spelled (no_line opened.now number flaw)) }
{
    put_pieces(
        out,
        &[
            Piece::Text(b"no "),
            Piece::Number(opened.head.id as u64),
            Piece::Text(b" "),
            Piece::Number(number as u64),
            Piece::Text(flaw_word(flaw)),
        ],
    )
}

// Judges as many journals as there are opened subspaces, each by its own.
#[tactic(auto, using(crate::proofs::Judging::judged_start, crate::proofs::Judging::judged_end))]
fn judged(alloc: Global, opened: &OpenedList, journals: &Journals) -> Result<Audited, NoMemory>
    requires judge { AllByRecursion CanJudge opened.now }
    requires few { AllByRecursion (λ t. length t.records < 2 ^ 32) journals.now }
    requires count { length journals.now ≡ length opened.now }
    ensures { IfOk result (λ a. IsJudged opened.now journals.now a.flawed a.text) }
{
    let mut out = Vec::new(alloc);
    for place in 0..opened.len() {
        let subspace = opened.at(place);
        let told = journals.at(place);
        match verdict_on(alloc, subspace, told)? {
            Verdict::Yes => put_yes(&mut out, subspace, told)?,
            Verdict::No { number, flaw } => {
                let mut line = Vec::new(alloc);
                put_no(&mut line, subspace, number, flaw)?;
                return Ok(Audited {
                    flawed: true,
                    text: Bytes::from_vec(line),
                });
            }
        }
    }
    Ok(Audited {
        flawed: false,
        text: Bytes::from_vec(out),
    })
}

/// Reads one journal for each opened subspace, in their order, and judges each by its own subspace. All journals are read before the first one is
/// judged. Where all are right, one line is written for each; else one line tells the first flaw of the first one that is wrong. The first line of
/// the text has the number `first_line`.
#[tactic(auto, using(crate::proofs::Judging::journals_few))]
pub fn audit(
    alloc: Global,
    opened: &OpenedList,
    text: &[u8],
    first_line: u32,
) -> Result<Audited, AuditError>
    requires judge { AllByRecursion CanJudge opened.now }
    requires lines { first_line + length (lines_of text.now) < 2 ^ 32 }
    ensures { MatchResult result (λ a. IsAuditOf opened.now text.now a.flawed a.text)
        (λ e. HoldsOf e (JournalsWrong first_line (length opened.now) text.now)) }
{
    let journals = journals_from(alloc, text, opened.len(), first_line)?;
    Ok(judged(alloc, opened, &journals)?)
}
