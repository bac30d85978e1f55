//! Judges a journal, one command after another.
ghost use Rattle.std.specs.Prelude.{◌≡◌, ◌<◌, ◌≤◌, ◌^◌, ◌↔◌, [], ◌∷◌, All, IfOk, IsTrue, None, length, take, true};
ghost use Rattle.pcc_history.specs.Histories.{Legal, space_after};
ghost use Rattle.rate_limit.specs.RateLimits.{earliest_of};
ghost use Rattle.pcc_journal.specs.Records.{exchange_of_record, exchanges_of};
ghost use Rattle.cppc_device.specs.Ranges.{Fits};
ghost use Rattle.cppc_headline.specs.Journals.{AreInRange, IsUntouched};
ghost use Rattle.pcc_audit.specs.Verdicts.{FirstFlaw, IsVerdict};
ghost use Rattle.pcc_audit.specs.Judged.{Judged, PendingJudged};

use crate::fields::{are_inside, is_untouched};
use crate::verdict::{Flaw, Verdict};
use cpc_package::Binding;
use journal_reading::Told;
use pcc_exec::{ExecStatus, Executor};
use pcc_io::NoMemory;
use pcc_journal::{JournalHead, Pending, Record};
use rate_limit::{Times, earliest};
use std::alloc::Global;

/// The space as it was when a record's command was laid down.
#[tactic(auto, using(crate::proofs::Commands::opening_is, crate::proofs::Commands::output_is))]
fn space_before<'a>(opening: &'a [u8], records: &'a [Record], place: usize) -> &'a [u8]
    requires { place ≤ length records.now }
    ensures { result.now ≡ space_after opening.now (exchanges_of (take place records.now)) }
{
    if place == 0 {
        return opening;
    }
    records[place - 1].output.as_slice()
}

/// The first flaw of a command of the right size, its reply apart.
fn sent_flaw(
    head: &JournalHead,
    cpus: &[Binding],
    times: &[Times],
    before: &[u8],
    code: u32,
    input: &[u8],
    post: u64,
) -> Option<Flaw>
    requires len { length before.now ≡ length input.now }
    requires small { length input.now < 2 ^ 32 }
    requires fit { All (Fits (length input.now)) cpus.now }
    ensures { FirstFlaw (Unit {0}) (earliest_of head.now.limits times.now ≤ post)
        (head.now.cppc ≡ true → IsUntouched cpus.now before.now code input.now)
        (head.now.cppc ≡ true → code ≡ 1 → AreInRange cpus.now input.now) (Unit {0}) result }
{
    if u128::from(post) < earliest(&head.limits, times) {
        return Some(Flaw::Limits);
    }
    if !head.cppc {
        return None;
    }
    if !is_untouched(cpus, before, code, input) {
        return Some(Flaw::Touched);
    }
    if code == 1 && !are_inside(cpus, input) {
        return Some(Flaw::Range);
    }
    None
}

/// Executes the command of a record in the scratch space: whether the record's error and output are the device's.
fn executes_as<E: Executor>(
    device: &mut E,
    reports: bool,
    scratch: &mut [u8],
    told: &Record,
) -> bool
    requires input { length told.now.input ≡ length scratch.old }
    requires room { E.room_of (E.state device.old) ≡ length scratch.old }
    ensures legal { IsTrue result ↔ Legal E.exec_of reports (E.state device.old) (exchange_of_record told.now ∷ []) }
    ensures state { E.state device.new ≡ (E.exec_of (E.state device.old) told.now.code told.now.input).state }
    ensures room { E.room_of (E.state device.new) ≡ E.room_of (E.state device.old) }
    ensures len { length scratch.new ≡ length scratch.old }
{
    scratch.copy_from_slice(told.input.as_slice());
    let status = device.exec(told.code, scratch);
    let bad = reports && status == ExecStatus::Bad;
    if told.error != bad {
        return false;
    }
    told.output.as_slice() == scratch
}

/// The first flaw of a record, whose command is executed if it has no other flaw than that of its reply.
#[tactic(auto, using(crate::proofs::Commands::of_record))]
fn record_flaw<E: Executor>(
    head: &JournalHead,
    cpus: &[Binding],
    times: &[Times],
    before: &[u8],
    device: &mut E,
    scratch: &mut [u8],
    told: &Record,
) -> Option<Flaw>
    requires room { E.room_of (E.state device.old) ≡ head.now.room }
    requires scratch { length scratch.old ≡ head.now.room }
    requires before { length before.now ≡ head.now.room }
    requires fit { All (Fits head.now.room) cpus.now }
    ensures flaw { Judged head.now cpus.now times.now before.now E.exec_of (E.state device.old) told.now result }
    ensures state { result ≡ None → E.state device.new ≡ (E.exec_of (E.state device.old) told.now.code told.now.input).state }
    ensures room { E.room_of (E.state device.new) ≡ head.now.room }
    ensures len { length scratch.new ≡ head.now.room }
{
    if told.input.len() != head.room as usize {
        return Some(Flaw::Size);
    }
    if told.output.len() != head.room as usize {
        return Some(Flaw::Size);
    }
    if let Some(flaw) = sent_flaw(
        head,
        cpus,
        times,
        before,
        told.code,
        told.input.as_slice(),
        told.post,
    ) {
        return Some(flaw);
    }
    if !executes_as(device, head.reports, scratch, told) {
        return Some(Flaw::Legal);
    }
    None
}

/// The first flaw of a pending command.
#[tactic(auto, using(crate::proofs::Commands::pending_size, crate::proofs::Commands::pending_has))]
fn pending_flaw(
    head: &JournalHead,
    cpus: &[Binding],
    times: &[Times],
    before: &[u8],
    pending: &Pending,
) -> Option<Flaw>
    requires before { length before.now ≡ head.now.room }
    requires fit { All (Fits head.now.room) cpus.now }
    ensures { PendingJudged head.now cpus.now times.now before.now pending.now result }
{
    if pending.input.len() != head.room as usize {
        return Some(Flaw::Size);
    }
    sent_flaw(
        head,
        cpus,
        times,
        before,
        pending.code,
        pending.input.as_slice(),
        pending.post,
    )
}

/// The verdict on a told journal: the first flaw of its first command that has one. The device executes the commands of the records before that.
#[tactic(auto, using(crate::proofs::Commands::wrong_head, crate::proofs::Commands::walked_start))]
pub fn audit_board<E: Executor>(
    alloc: Global,
    head: &JournalHead,
    device: &mut E,
    opening: &[u8],
    cpus: &[Binding],
    told: &Told,
) -> Result<Verdict, NoMemory>
    requires opening { length opening.now ≡ head.now.room }
    requires room { E.room_of (E.state device.old) ≡ head.now.room }
    requires fit { All (Fits head.now.room) cpus.now }
    requires few { length told.now.records < 2 ^ 32 }
    ensures { IfOk result (λ verdict. IsVerdict (record {
      head = head.now;
      exec = E.exec_of;
      start = E.state device.old;
      opening = opening.now;
      cpus = cpus.now;
    }) told.now verdict) }
{
    if told.head != *head {
        return Ok(Verdict::No {
            number: 0,
            flaw: Flaw::Head,
        });
    }
    let records = told.records.as_slice();
    let mut times = Vec::new(alloc);
    for place in 0..records.len() {
        let before = space_before(opening, records, place);
        let record = &records[place];
        let mut scratch = vec![in alloc; 0; head.room as usize]?;
        if let Some(flaw) = record_flaw(head, cpus, &times, before, device, &mut scratch, record) {
            return Ok(Verdict::No {
                number: place as u32,
                flaw,
            });
        }
        times.push(Times {
            post: record.post,
            done: record.done,
        })?;
    }
    let Some(pending) = &told.pending else {
        return Ok(Verdict::Yes);
    };
    let before = space_before(opening, records, records.len());
    match pending_flaw(head, cpus, &times, before, pending) {
        None => Ok(Verdict::Yes),
        Some(flaw) => Ok(Verdict::No {
            number: records.len() as u32,
            flaw,
        }),
    }
}
