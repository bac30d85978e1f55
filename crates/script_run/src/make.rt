//! The summary of `make N`: a made-up script of `N` calls is run as `step` runs one, and its replies and records are counted.
ghost use Rattle.std.specs.Prelude.{◌≡◌, ◌≤◌, ◌<◌, ◌++◌, ◌*◌, ◌^◌, [], ℕ, true, length, map, sum, IfOk, OnOk};
ghost use Rattle.pcc_script.specs.declared.limits.TheConstants.{MAX_ACTIONS};
ghost use Rattle.std.specs.List.{AllByRecursion};
ghost use Rattle.channel_turns.specs.ChannelRuns.{count_in_flight, journal_limit};
ghost use Rattle.pcc_script.specs.Limits.{IsWithin};
ghost use Rattle.pcc_script.specs.declared.limits.TheConstants.{MAX_MADE_CALLS};
ghost use Rattle.pcc_script.specs.Made.{made_scenario_of};
ghost use Rattle.pcc_setup.specs.SetUps.{IsSetUpOf};
ghost use Rattle.pcc_text.specs.Pieces.{spelled};
ghost use Rattle.script_run.specs.Channels.{CanRun, IsEarly, starts_of};
ghost use Rattle.script_run.specs.DeviceChannels.{channel_of, channels_by};
ghost use Rattle.script_run.specs.StepRun.{asks_by, step_run};
ghost use Rattle.script_run.specs.Summaries.{IsSummary, counts_of, output_sum, summary_pieces};

use crate::channel::DeviceChannel;
use crate::channels::OpenedChannels;
use crate::counts::Counts;
use pcc_io::NoMemory;
use pcc_journal::Record;
use pcc_script::{Actions, Scenario, made_scenario, within_limits};
use pcc_setup::{SetUp, SetUpError, set_up};
use pcc_text::{Piece, put_pieces};
use pcct_codec::worked_tables;
use std::alloc::Global;

// Runs lines, and counts their replies.
#[tactic(auto, using(crate::proofs::Counting::counting_start, crate::proofs::Counting::counting_lines_end, crate::proofs::ChannelLists::can_still, crate::proofs::ChannelLists::early_still))]
fn count_lines(
    alloc: Global,
    channels: &mut OpenedChannels,
    actions: &Actions,
) -> Result<Counts, NoMemory>
    requires lines { AllByRecursion (CanRun [] (starts_of (channels_by channels.old))) actions.now }
    requires few { length actions.now ≤ MAX_ACTIONS }
    requires early { AllByRecursion (IsEarly 0) (channels_by channels.old) }
    ensures counts { IfOk result (λ counts. counts ≡ counts_of (step_run (asks_by [] actions.now) (channels_by channels.old)).replies) }
    ensures channels { OnOk result ((step_run (asks_by [] actions.now) (channels_by channels.old)).channels ≡ channels_by channels.new) }
{
    let mut counts = Counts::new();
    for i in 0..actions.len() {
        let outcome = channels.run(alloc, &[], actions.at(i))?;
        counts.count(channels.as_slice(), outcome);
    }
    Ok(counts)
}

fn byte_sum(bytes: &[u8]) -> u128
    ensures sum { result ≡ sum bytes.now }
    ensures bound { result ≤ 2 ^ 8 * 2 ^ 64 }
{
    bytes.iter().map(|byte| u128::from(*byte)).sum()
}

// The sum of all bytes of the outputs.
#[tactic(auto, using(crate::proofs::Counting::sum_start, crate::proofs::Counting::sum_more, crate::proofs::Counting::sum_end))]
fn output_sum(records: &[Record]) -> u128
    requires { length records.now ≤ journal_limit }
    ensures { result ≡ output_sum records.now }
{
    let mut total: u128 = 0;
    for i in 0..records.len() {
        total += byte_sum(records[i].output.as_slice());
    }
    total
}

fn count_pending(channel: &DeviceChannel) -> u64
    ensures { result ≡ count_in_flight (channel_of channel.now).now.in_flight }
{
    match channel.pending() {
        None => 0,
        Some(_) => 1,
    }
}

// The summary of a run on one channel.
fn summary(
    alloc: Global,
    calls: usize,
    counts: Counts,
    channel: &DeviceChannel,
) -> Result<Vec<u8>, NoMemory>
    ensures { let c = channel_of channel.now in
        IfOk result (λ v. v.items ≡ spelled (summary_pieces calls counts c.now.records (count_in_flight c.now.in_flight))) }
{
    let records = channel.records();
    let mut out = Vec::new(alloc);
    put_pieces(
        &mut out,
        &[
            Piece::Text(b"calls "),
            Piece::Number(calls as u64),
            Piece::Text(b"\nok "),
            Piece::Number(counts.ok),
            Piece::Text(b"\nerror "),
            Piece::Number(counts.error),
            Piece::Text(b"\ntimed out "),
            Piece::Number(counts.timed_out),
            Piece::Text(b"\nstill pending "),
            Piece::Number(counts.still_pending),
            Piece::Text(b"\nother "),
            Piece::Number(counts.other),
            Piece::Text(b"\nrecords "),
            Piece::Number(records.len() as u64),
            Piece::Text(b"\npending "),
            Piece::Number(count_pending(channel)),
            Piece::Text(b"\nsum "),
            Piece::Wide(output_sum(records)),
            Piece::Text(b"\n"),
        ],
    )?;
    Ok(out)
}

// The summary of the run of a made-up script, which opens one subspace and has no processors.
fn run_summary(
    alloc: Global,
    calls: u32,
    scenario: &Scenario,
    set_up: &SetUp,
) -> Result<Vec<u8>, NoMemory>
    requires within { IsWithin scenario.now }
    requires made { scenario.now ≡ made_scenario_of calls }
    requires set_up { IsSetUpOf scenario.now set_up.now }
    ensures { IfOk result (λ v. IsSummary calls v.items) }
{
    let mut channels = OpenedChannels::open(alloc, scenario, set_up)?;
    let counts = count_lines(alloc, &mut channels, &scenario.actions)?;
    summary(
        alloc,
        scenario.actions.len(),
        counts,
        &channels.as_slice()[0],
    )
}

/// The summary of a made-up script of so many calls.
pub fn made_summary(alloc: Global, calls: u32) -> Result<Vec<u8>, NoMemory>
    requires some { 1 ≤ calls }
    requires few { calls ≤ MAX_MADE_CALLS }
    ensures { IfOk result (λ v. IsSummary calls v.items) }
{
    worked_tables();
    within_limits();
    let scenario = made_scenario(alloc, calls)?;
    match set_up(alloc, &scenario) {
        Ok(set_up) => run_summary(alloc, calls, &scenario, &set_up),
        Err(SetUpError::NoMemory) => Err(NoMemory),
        // A made-up script passes all checks.
        Err(SetUpError::Refused { .. }) => unreachable!(),
    }
}
