//! A scenario that is made up: calls of four workers on one Bank, with codes, holds and bytes that differ from call to call.
ghost use Rattle.std.specs.Prelude.{◌≡◌, ◌≤◌, IfOk};
ghost use Rattle.pcc_script.specs.Made.{call_with, made_calls, made_scenario_of, next_generated, one_generic_subspace};
ghost use Rattle.pcc_script.specs.Text.{IsScenario};
ghost use Rattle.pcc_script.specs.declared.limits.TheConstants.{MAX_MADE_CALLS};

use crate::limits::MAX_MADE_CALLS;
use crate::scenario::{Actions, CapLines, Device, Line, OpenLine, Opens, Packages, Scenario};
use pcc_io::{Bytes, NoMemory};
use std::alloc::Global;

/// The PCC table (ACPI 6.5, 14.1): one generic subspace with 24 bytes of shared memory at 0x8000_0000 and a doorbell register of 32 bits at 0xfed0_0000,
/// with neither a limit of the rate nor a turnaround.
const ONE_GENERIC_SUBSPACE: &[u8] = b"PCCT\x6e\0\0\0\x02\x6ePCCRUNEXAMPLE1\x01\0\0\0TEST\x01\0\0\0\
    \0\0\0\0\0\0\0\0\0\0\0\0\
    \0\x3e\0\0\0\0\0\0\0\0\0\x80\0\0\0\0\x18\0\0\0\0\0\0\0\0\x20\0\x03\0\0\xd0\xfe\0\0\0\0\
    \xfe\xff\xff\xff\0\0\0\0\x01\0\0\0\0\0\0\0\xe8\x03\0\0\0\0\0\0\0\0";

/// How many workers call, in turn.
const WORKERS: u32 = 4;

/// The holds of the calls are the numbers below, in turn.
const HOLDS: u32 = 4;

/// How often each call looks for its command's completion.
const POLLS: u32 = 3;

/// The code with which a Bank exchanges its bytes for those of the call.
const EXCHANGE: u32 = 16;

/// The code with which a Bank fetches its bytes.
const FETCH: u32 = 17;

/// The first number of the generator, a linear congruential one modulo 2^64.
const FIRST: u64 = 1;

const MULTIPLIER: u64 = 6_364_136_223_846_793_005;

const INCREMENT: u64 = 1_442_695_040_888_963_407;

#[tactic(auto, unfolding(crate::specs::Made::one_generic_subspace))]
fn made_table() -> &'static [u8]
    ensures { result.now ≡ one_generic_subspace }
{
    ONE_GENERIC_SUBSPACE
}

/// The next number of the generator.
#[tactic(auto, unfolding(crate::specs::Made::next_generated))]
fn next_generated(x: u64) -> u64
    ensures { result ≡ next_generated x }
{
    x.wrapping_mul(MULTIPLIER).wrapping_add(INCREMENT)
}

/// The call at a place, with the bytes of a number.
fn call_at(alloc: Global, place: u32, x: u64) -> Result<Line, NoMemory>
    ensures { IfOk result (λ line. line ≡ call_with place x) }
{
    let bytes = Vec::from_slice(alloc, &x.to_le_bytes())?;
    Ok(Line::Call {
        worker: place % WORKERS,
        subspace: 0,
        code: if place % 5 == 4 { FETCH } else { EXCHANGE },
        bytes: Bytes::from_vec(bytes),
        polls: POLLS,
        hold: place % HOLDS,
    })
}

#[tactic(auto, using(crate::proofs::Generated::none_made, crate::proofs::Generated::one_more, crate::proofs::Generated::next_number))]
fn calls(alloc: Global, n: u32) -> Result<Actions, NoMemory>
    ensures { IfOk result (λ actions. actions ≡ made_calls n) }
{
    let mut actions = Actions::new(alloc);
    let mut x = FIRST;
    for place in 0..n {
        actions.push(call_at(alloc, place, x)?)?;
        x = next_generated(x);
    }
    Ok(actions)
}

/// A scenario of `n` calls that is made up: a table with one generic subspace, a clock from 0 on in steps of 10 microseconds, a Bank as its device, and
/// calls with eight bytes each. The same number gives the same scenario.
#[tactic(auto, unfolding(crate::specs::Made::made_scenario_of))]
pub fn made_scenario(alloc: Global, n: u32) -> Result<Scenario, NoMemory>
    requires some { 1 ≤ n }
    requires few { n ≤ MAX_MADE_CALLS }
    ensures made { IfOk result (λ s. s ≡ made_scenario_of n) }

    // It has a text.
    ensures spelled { IfOk result IsScenario }
{
    let table = Vec::from_slice(alloc, made_table())?;
    let mut opens = Opens::new(alloc);
    opens.push(OpenLine {
        id: 0,
        device: Device::Bank,
    })?;
    let actions = calls(alloc, n)?;
    Ok(Scenario {
        table: Bytes::from_vec(table),
        start: 0,
        step: 10,
        opens,
        cpus: Packages::new(alloc),
        caps: CapLines::new(alloc),
        actions,
        picks: None,
    })
}
