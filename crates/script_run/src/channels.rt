//! The channels of the opened subspaces, in the order of their lines. Each has a clock of its own.
ghost use Rattle.std.specs.Prelude.{◌≡◌, ◌<◌, ◌+◌, ◌^◌, ℕ, true, IfOk, OnOk, Some, length, map, slice_get};
ghost use Rattle.pcc_script.specs.declared.limits.TheConstants.{MAX_ACTIONS};
ghost use Rattle.std.specs.List.{AllByRecursion};
ghost use Rattle.pcc_script.specs.Limits.{IsWithin};
ghost use Rattle.pcc_setup.specs.Equipment.{CanBegin};
ghost use Rattle.pcc_setup.specs.SetUps.{IsSetUpOf, Opens};
ghost use Rattle.script_run.specs.Channels.{AreDistinct, CanRun, IsEarly, IsWired, id_of, ids_of, is_on, moved_up, starts_of};
ghost use Rattle.script_run.specs.DeviceChannels.{channel_of, channels_by};
ghost use Rattle.script_run.specs.declared.channel.DeviceChannel.{DeviceChannel};
ghost use Rattle.script_run.specs.LineOutcomes.{IsOutcomeOf};
ghost use Rattle.script_run.specs.ScriptRuns.{set_up_of};
ghost use Rattle.script_run.specs.StepRun.{ask_of, turn_of, wish_of};

use crate::channel::DeviceChannel;
use crate::outcome::LineOutcome;
use cpc_package::Binding;
use cppc_calls::Wish;
use pcc_io::NoMemory;
use pcc_script::{Line, Scenario, Wish1};
use pcc_setup::{OpenedList, SetUp, set_up_laws};
use pcc_wiring::right_wirings;
use std::alloc::Global;
use std::marker::Model;

/// The channels of the opened subspaces, no two of which have one ID. Contracts see their list.
#[derive(Drop)]
pub struct OpenedChannels {
    channels: Vec<DeviceChannel>,
}

impl Model for OpenedChannels {
    ghost use Rattle.std.specs.Prelude.{List};
    ghost use Rattle.script_run.specs.Channels.{AreDistinct, ids_of};
    ghost use Rattle.script_run.specs.DeviceChannels.{channels_by};
    ghost use Rattle.script_run.specs.declared.channel.DeviceChannel.{DeviceChannel};

    ghost Value = { List DeviceChannel };

    ghost view = { λ c. c.channels.items };

    ghost invariant = { λ c. AreDistinct (ids_of (channels_by c.channels.items)) };
}

impl OpenedChannels {
    /// The channels of what a script opens, which nothing was asked of.
    pub fn open(
        alloc: Global,
        scenario: &Scenario,
        set_up: &SetUp,
    ) -> Result<OpenedChannels, NoMemory>
        requires within { IsWithin scenario.now }
        requires set_up { IsSetUpOf scenario.now set_up.now }
        ensures channels { IfOk result (λ cs. channels_by cs ≡ set_up_of scenario.now set_up.now.opened) }
        // They can run its lines.
        ensures lines { IfOk result (λ cs. (h : Opens scenario.now set_up.now.opened)
            → AllByRecursion (CanRun h.checked.cpus (starts_of (channels_by cs))) scenario.now.actions) }
    {
        right_wirings();
        set_up_laws();
        let channels = open_each(alloc, scenario, &set_up.opened)?;
        Ok(OpenedChannels { channels })
    }

    pub fn as_slice(&self) -> &[DeviceChannel]
        ensures { result.now ≡ self.now }
    {
        self.channels.as_slice()
    }

    /// Runs a line, which may name these processors by their places. The outcome of what it asks, if it asks something of a channel.
    pub fn run(
        &mut self,
        alloc: Global,
        cpus: &[Binding],
        action: &Line,
    ) -> Result<Option<LineOutcome>, NoMemory>
        requires line { CanRun cpus.now (starts_of (channels_by self.old)) action.now }
        requires early { AllByRecursion (IsEarly MAX_ACTIONS) (channels_by self.old) }
        ensures outcome { IfOk result (IsOutcomeOf (turn_of (ask_of cpus.now action.now) (channels_by self.old)).reply self.new) }
        ensures channels { OnOk result ((turn_of (ask_of cpus.now action.now) (channels_by self.old)).channels ≡ channels_by self.new) }
        ensures readings { OnOk result ((count : ℕ) → AllByRecursion (IsEarly count) (channels_by self.old)
            → AllByRecursion (IsEarly (count + 1)) (channels_by self.new)) }
    {
        run_line(alloc, &mut self.channels, cpus, action)
    }
}

// A channel for each opened subspace, which nothing was asked of.
#[tactic(auto, using(crate::proofs::ChannelLists::opened_more, pcc_text::proofs::Mapped::mapped_all, crate::proofs::ChannelLists::wired_at))]
fn open_each(
    alloc: Global,
    scenario: &Scenario,
    opened: &OpenedList,
) -> Result<Vec<DeviceChannel>, NoMemory>
    requires wired { AllByRecursion IsWired opened.now }
    requires begin { AllByRecursion CanBegin opened.now }
    requires few { AllByRecursion (λ o. length o.caps < 2 ^ 32) opened.now }
    ensures { IfOk result (λ v. channels_by v.items ≡ set_up_of scenario.now opened.now) }
{
    let mut channels = Vec::new(alloc);
    for i in 0..opened.len() {
        channels.push(DeviceChannel::new(alloc, scenario, opened.at(i))?)?;
    }
    Ok(channels)
}

// The place of the channel with an ID.
#[tactic(auto, using(crate::proofs::ChannelLists::rest_starts, crate::proofs::ChannelLists::rest_has, crate::proofs::ChannelLists::rest_ends, crate::proofs::ChannelLists::stands_at))]
fn place_of(channels: &[DeviceChannel], id: u32) -> usize
    requires { is_on id (starts_of (channels_by channels.now)) ≡ true }
    ensures within { result < length channels.now }
    ensures named { (d : DeviceChannel) → slice_get channels.now result ≡ Some d → id_of (channel_of d) ≡ id }
{
    for place in 0..channels.len() {
        if u32::from(channels[place].head().id) == id {
            return place;
        }
    }
    unreachable!()
}

// Moves the clock of each channel up by `n` microseconds.
#[tactic(auto, using(crate::proofs::ChannelLists::moved_start, crate::proofs::ChannelLists::moved_end))]
fn wait_all(channels: &mut Vec<DeviceChannel>, n: u64)
    ensures { channels_by channels.new.items ≡ map (moved_up n) (channels_by channels.old.items) }
{
    for place in 0..channels.len() {
        channels[place].wait(n);
    }
}

// Runs a line on channels, no two of which have one ID.
fn run_line(
    alloc: Global,
    channels: &mut Vec<DeviceChannel>,
    cpus: &[Binding],
    action: &Line,
) -> Result<Option<LineOutcome>, NoMemory>
    requires line { CanRun cpus.now (starts_of (channels_by channels.old.items)) action.now }
    requires distinct { AreDistinct (ids_of (channels_by channels.old.items)) }
    requires early { AllByRecursion (IsEarly MAX_ACTIONS) (channels_by channels.old.items) }
    ensures outcome { IfOk result (IsOutcomeOf (turn_of (ask_of cpus.now action.now) (channels_by channels.old.items)).reply channels.new.items) }
    ensures channels { OnOk result ((turn_of (ask_of cpus.now action.now) (channels_by channels.old.items)).channels ≡ channels_by channels.new.items) }
    ensures starts { starts_of (channels_by channels.new.items) ≡ starts_of (channels_by channels.old.items) }
    ensures readings { OnOk result ((count : ℕ) → AllByRecursion (IsEarly count) (channels_by channels.old.items)
        → AllByRecursion (IsEarly (count + 1)) (channels_by channels.new.items)) }
{
    match action {
        Line::Call {
            worker,
            subspace,
            code,
            bytes,
            polls,
            hold,
        } => {
            let place = place_of(channels, *subspace);
            let answer = channels[place].call(
                alloc,
                *worker,
                *code,
                bytes.as_slice(),
                *polls,
                *hold,
            )?;
            Ok(Some(LineOutcome { place, answer }))
        }
        Line::Read {
            worker,
            cpu,
            polls,
            hold,
        } => {
            let binding = &cpus[*cpu as usize];
            let place = place_of(channels, u32::from(binding.subspace));
            let answer = channels[place].read(alloc, *worker, binding, *polls, *hold)?;
            Ok(Some(LineOutcome { place, answer }))
        }
        Line::Set {
            worker,
            wish,
            polls,
            hold,
        } => {
            let binding = &cpus[wish.cpu as usize];
            let place = place_of(channels, u32::from(binding.subspace));
            let wish = asked_wish(wish);
            let answer = channels[place].set(alloc, *worker, binding, &wish, *polls, *hold)?;
            Ok(Some(LineOutcome { place, answer }))
        }
        Line::Wait { n } => {
            wait_all(channels, *n);
            Ok(None)
        }
    }
}

// The wish of a line.
fn asked_wish(wish: &Wish1) -> Wish
    ensures { result ≡ wish_of wish.now }
{
    Wish {
        cpu: wish.cpu,
        min: wish.min,
        desired: wish.desired,
        max: wish.max,
    }
}
