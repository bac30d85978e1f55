//! The command `weave`: both ends of one channel take turns at single word steps, in the order that the letters of the script give.
ghost use Rattle.std.specs.Prelude.{◌≡◌, Some, IfOk, MatchResult, map, length, ◌≤◌};
ghost use Rattle.std.specs.List.{AllByRecursion};
ghost use Rattle.pcc_script.specs.Limits.{IsWithin};
ghost use Rattle.pccrun_core.specs.Answers.{Makes, input_limit};
ghost use Rattle.pccrun_core.specs.CommandErrors.{IsRefusedBy};
ghost use Rattle.pccrun_core.specs.Refusals.{Refuses};
ghost use Rattle.pcct_table.specs.declared.table.Table.{Table};
ghost use Rattle.pcc_steps.specs.Wires.{IsRight};
ghost use Rattle.pccrun_core.specs.Weaving.{IsCall, IsOpenedAlone, IsWoven, asked_by, side_of};

use crate::command::Command;
use crate::error::CommandError;
use crate::script::{Served, served_script};
use channel_plain::{Asked, Plain, Side};
use pcc_exec::Bank;
use pcc_io::{Bytes, LineClock, NoMemory};
use pcc_journal::put_journal;
use pcc_notify::NotifyPlain;
use pcc_script::{Actions, Letter, Line, Picks, Scenario};
use pcc_setup::Opened;
use pcc_steps::is_responder;
use pcc_wiring::right_wirings;
use std::alloc::Global;

// The calls of the lines.
#[tactic(auto, using(pcc_text::proofs::Mapped::mapped_more, pcc_text::proofs::Mapped::mapped_all))]
fn calls_of(alloc: Global, actions: &Actions) -> Result<Vec<Asked>, NoMemory>
    requires { AllByRecursion IsCall actions.now }
    ensures { IfOk result (λ v. v.items ≡ map asked_by actions.now) }
{
    let mut calls = Vec::new(alloc);
    for i in 0..actions.len() {
        calls.push(call_of(alloc, actions.at(i))?)?;
    }
    Ok(calls)
}

fn call_of(alloc: Global, action: &Line) -> Result<Asked, NoMemory>
    requires { IsCall action.now }
    ensures { IfOk result (λ c. c ≡ asked_by action.now) }
{
    match action {
        Line::Call {
            worker,
            code,
            bytes,
            polls,
            ..
        } => Ok(Asked {
            caller: *worker,
            code: *code,
            bytes: Bytes::from_vec(Vec::from_slice(alloc, bytes.as_slice())?),
            polls: *polls,
        }),
        _ => unreachable!(),
    }
}

fn side_of(letter: Letter) -> Side
    ensures { result ≡ side_of letter }
{
    match letter {
        Letter::O => Side::System,
        Letter::P => Side::Platform,
    }
}

// The sides that the letters pick.
#[tactic(auto, using(pcc_text::proofs::Mapped::mapped_more, pcc_text::proofs::Mapped::mapped_all))]
fn sides_of(alloc: Global, picks: &Picks) -> Result<Vec<Side>, NoMemory>
    ensures { IfOk result (λ v. v.items ≡ map side_of picks.now) }
{
    let mut sides = Vec::new(alloc);
    for i in 0..picks.len() {
        sides.push(side_of(*picks.at(i)))?;
    }
    Ok(sides)
}

// The trace and the journal of the calls and picks of a script, on a subspace where the operating system asks.
fn plain_text(
    alloc: Global,
    scenario: &Scenario,
    picks: &Picks,
    opened: &Opened,
    calls: &[Asked],
    sides: &[Side],
) -> Result<Vec<u8>, NoMemory>
    requires within { IsWithin scenario.now }
    requires lines { AllByRecursion IsCall scenario.now.actions }
    requires picks { scenario.now.picks ≡ Some picks.now }
    requires right { IsRight opened.now.wiring }
    requires calls { calls.now ≡ map asked_by scenario.now.actions }
    requires sides { sides.now ≡ map side_of picks.now }
    ensures { IfOk result (λ v. (t : Table) → IsOpenedAlone scenario.now t opened.now → IsWoven scenario.now t v.items) }
{
    let mut plain = Plain::new(
        alloc,
        opened.wiring,
        Bank::new(alloc, opened.wiring.room)?,
        opened.head.limits,
        LineClock::new(scenario.start, scenario.step),
    )?;
    let mut out = Vec::new(alloc);
    channel_plain::weave_lines(&mut out, &mut plain, calls, sides)?;
    plain.stand();
    put_journal(
        &mut out,
        &opened.head,
        plain.journal().as_slice(),
        plain.pending(),
    )?;
    Ok(out)
}

// The same on type 4, where the platform asks.
fn notify_text(
    alloc: Global,
    scenario: &Scenario,
    picks: &Picks,
    opened: &Opened,
    calls: &[Asked],
    sides: &[Side],
) -> Result<Vec<u8>, NoMemory>
    requires within { IsWithin scenario.now }
    requires lines { AllByRecursion IsCall scenario.now.actions }
    requires picks { scenario.now.picks ≡ Some picks.now }
    requires right { IsRight opened.now.wiring }
    requires kind { opened.now.wiring.kind ≡ 4 }
    requires calls { calls.now ≡ map asked_by scenario.now.actions }
    requires sides { sides.now ≡ map side_of picks.now }
    ensures { IfOk result (λ v. (t : Table) → IsOpenedAlone scenario.now t opened.now → IsWoven scenario.now t v.items) }
{
    let mut notify = NotifyPlain::new(
        alloc,
        opened.wiring,
        Bank::new(alloc, opened.wiring.room)?,
        opened.head.limits,
        LineClock::new(scenario.start, scenario.step),
    )?;
    let mut out = Vec::new(alloc);
    pcc_notify::weave_lines(&mut out, &mut notify, calls, sides)?;
    put_journal(
        &mut out,
        &opened.head,
        notify.journal().as_slice(),
        notify.pending(),
    )?;
    Ok(out)
}

// The trace and the journal of a served script, which opens this subspace alone.
fn woven_text(
    alloc: Global,
    scenario: &Scenario,
    picks: &Picks,
    opened: &Opened,
) -> Result<Vec<u8>, NoMemory>
    requires within { IsWithin scenario.now }
    requires calls { AllByRecursion IsCall scenario.now.actions }
    requires picks { scenario.now.picks ≡ Some picks.now }
    requires right { IsRight opened.now.wiring }
    ensures { IfOk result (λ v. (t : Table) → IsOpenedAlone scenario.now t opened.now → IsWoven scenario.now t v.items) }
{
    let calls = calls_of(alloc, &scenario.actions)?;
    let sides = sides_of(alloc, picks)?;
    if is_responder(opened.wiring.kind) {
        notify_text(alloc, scenario, picks, opened, &calls, &sides)
    } else {
        plain_text(alloc, scenario, picks, opened, &calls, &sides)
    }
}

/// The trace and the journal of the script that a text spells. The condition is a text of at most 4,194,304 bytes.
pub fn weave(alloc: Global, text: &[u8]) -> Result<Vec<u8>, CommandError>
    requires { length text.now ≤ input_limit }
    ensures { MatchResult result (λ v. Makes Command.Weave text.now v.items) (IsRefusedBy (Refuses Command.Weave text.now)) }
{
    right_wirings();
    match served_script(alloc, Command::Weave, text) {
        Ok(Served { scenario, set_up }) => match &scenario.picks {
            Some(picks) => Ok(woven_text(alloc, &scenario, picks, set_up.opened.at(0))?),
            None => unreachable!(),
        },
        Err(error) => Err(error),
    }
}
