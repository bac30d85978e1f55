//! The channel of an opened subspace, by the device that answers its commands.
ghost use Rattle.std.specs.Prelude.{◌≡◌, ◌≤◌, ◌<◌, ◌+◌, ◌^◌, length, IfOk};
ghost use Rattle.pcc_script.specs.declared.limits.TheConstants.{MAX_POLLS};
ghost use Rattle.std.specs.Option.{option_copied};
ghost use Rattle.cpc_package.specs.Bindings.{IsRight, LiesIn};
ghost use Rattle.channel_turns.specs.ChannelRuns.{call_by, fresh, journal_limit, pending_of};
ghost use Rattle.script_run.specs.Channels.{IsAnsweredBy, IsWired, bank_start, fresh_channel, moved_up};
ghost use Rattle.script_run.specs.DeviceChannels.{channel_of};
ghost use Rattle.script_run.specs.LineOutcomes.{IsPlacedIn};
ghost use Rattle.pcc_setup.specs.Equipment.{CanBegin};
ghost use Rattle.script_run.specs.ScriptRuns.{clock_of, controller_start, start_of};
ghost use Rattle.script_run.specs.StepRun.{OfCall, OfRead, OfWish};

use crate::asks::{call_channel, read_channel, set_channel};
use crate::outcome::LineAnswer;
use channel_turns::TurnChannel;
use cpc_package::Binding;
use cppc_calls::Wish;
use cppc_device::{CppcDevice, opening};
use pcc_exec::Bank;
use pcc_io::NoMemory;
use pcc_journal::{JournalHead, Pending, Record};
use pcc_script::Scenario;
use pcc_setup::Opened;
use std::alloc::Global;

/// A channel of an opened subspace, whose two ends are called in turn, by the device that answers.
#[derive(Drop)]
pub enum DeviceChannel {
    Bank(TurnChannel<Bank>),
    Cppc(TurnChannel<CppcDevice>),
}

impl DeviceChannel {
    /// The channel of an opened subspace, which nothing was asked of: a Bank with zeros in its device and its space, or a controller with its
    /// image in its registers and in its space.
    pub fn new(
        alloc: Global,
        scenario: &Scenario,
        opened: &Opened,
    ) -> Result<DeviceChannel, NoMemory>
        requires wired { IsWired opened.now }
        requires begins { CanBegin opened.now }
        requires few { length opened.now.caps < 2 ^ 32 }
        ensures { IfOk result (λ c. channel_of c ≡ fresh_channel (start_of (clock_of scenario.now) opened.now)) }
    {
        if opened.head.cppc {
            DeviceChannel::new_cppc(alloc, scenario, opened)
        } else {
            DeviceChannel::new_bank(alloc, scenario, opened)
        }
    }

    fn new_bank(
        alloc: Global,
        scenario: &Scenario,
        opened: &Opened,
    ) -> Result<DeviceChannel, NoMemory>
        requires { IsWired opened.now }
        ensures { IfOk result (λ c. channel_of c ≡ fresh_channel (bank_start opened.now.head (clock_of scenario.now))) }
    {
        let room = opened.head.room;
        let device = Bank::new(alloc, room)?;
        let space = vec![in alloc; 0; room as usize]?;
        let channel = TurnChannel::new(
            alloc,
            opened.head,
            opened.wiring,
            device,
            &space,
            scenario.start,
            scenario.step,
        )?;
        Ok(DeviceChannel::Bank(channel))
    }

    fn new_cppc(
        alloc: Global,
        scenario: &Scenario,
        opened: &Opened,
    ) -> Result<DeviceChannel, NoMemory>
        requires wired { IsWired opened.now }
        requires begins { CanBegin opened.now }
        requires few { length opened.now.caps < 2 ^ 32 }
        ensures { IfOk result (λ c. channel_of c ≡ fresh_channel (controller_start opened.now (clock_of scenario.now))) }
    {
        let room = opened.wiring.room;
        let image = opened.image.as_slice();
        let device = match CppcDevice::new(
            alloc,
            room,
            image,
            opened.cpus.as_slice(),
            opened.caps.as_slice(),
        ) {
            Ok(device) => device,
            Err(_) => return Err(NoMemory),
        };
        let space = opening(alloc, room, image)?;
        let channel = TurnChannel::new(
            alloc,
            opened.head,
            opened.wiring,
            device,
            &space,
            scenario.start,
            scenario.step,
        )?;
        Ok(DeviceChannel::Cppc(channel))
    }

    /// The head of the journal.
    pub fn head(&self) -> &JournalHead
        ensures { result.now ≡ (channel_of self.now).start.head }
    {
        match self {
            DeviceChannel::Bank(channel) => channel.head(),
            DeviceChannel::Cppc(channel) => channel.head(),
        }
    }

    /// The records, the first one first.
    pub fn records(&self) -> &[Record]
        ensures items { result.now ≡ (channel_of self.now).now.records }
        ensures few { length result.now ≤ journal_limit }
    {
        match self {
            DeviceChannel::Bank(channel) => channel.records(),
            DeviceChannel::Cppc(channel) => channel.records(),
        }
    }

    /// The command in flight.
    pub fn pending(&self) -> Option<&Pending>
        ensures { option_copied result ≡ pending_of (channel_of self.now).now.in_flight }
    {
        match self {
            DeviceChannel::Bank(channel) => channel.pending(),
            DeviceChannel::Cppc(channel) => channel.pending(),
        }
    }

    /// Moves the clock up by `n` microseconds.
    pub fn wait(&mut self, n: u64)
        ensures { channel_of self.new ≡ moved_up n (channel_of self.old) }
    {
        match self {
            DeviceChannel::Bank(channel) => channel.wait(n),
            DeviceChannel::Cppc(channel) => channel.wait(n),
        }
    }

    /// Makes a call of a caller, with from 1 to 1,000,000 polls, and a hold of turns of the answering end.
    pub fn call(
        &mut self,
        alloc: Global,
        caller: u32,
        code: u32,
        bytes: &[u8],
        polls: u32,
        hold: u32,
    ) -> Result<LineAnswer, NoMemory>
        requires polls { 0 < polls }
        requires most { polls ≤ MAX_POLLS }
        requires early { (channel_of self.old).now.taken < 2 ^ 63 }
        ensures answered { IfOk result (IsAnsweredBy (channel_of self.old) (OfCall (call_by caller code bytes.now polls hold)) (channel_of self.new)) }
        ensures placed { IfOk result (IsPlacedIn (length (channel_of self.new).now.records)) }
        ensures readings { (channel_of self.new).now.taken ≤ (channel_of self.old).now.taken + 3 }
        ensures start { (channel_of self.new).start ≡ (channel_of self.old).start }
    {
        match self {
            DeviceChannel::Bank(channel) => {
                call_channel(channel, alloc, caller, code, bytes, polls, hold)
            }
            DeviceChannel::Cppc(channel) => {
                call_channel(channel, alloc, caller, code, bytes, polls, hold)
            }
        }
    }

    /// Reads the numbers of a processor, for a caller, with polls and a hold as a call has them.
    pub fn read(
        &mut self,
        alloc: Global,
        caller: u32,
        binding: &Binding,
        polls: u32,
        hold: u32,
    ) -> Result<LineAnswer, NoMemory>
        requires right { IsRight binding.now }
        requires inside { LiesIn (channel_of self.old).start.head.room binding.now }
        requires polls { 0 < polls }
        requires most { polls ≤ MAX_POLLS }
        requires early { (channel_of self.old).now.taken < 2 ^ 63 }
        ensures answered { IfOk result (IsAnsweredBy (channel_of self.old)
            (OfRead (record { caller = caller; binding = binding.now; polls = polls; hold = hold }))
            (channel_of self.new)) }
        ensures placed { IfOk result (IsPlacedIn (length (channel_of self.new).now.records)) }
        ensures readings { (channel_of self.new).now.taken ≤ (channel_of self.old).now.taken + 3 }
        ensures start { (channel_of self.new).start ≡ (channel_of self.old).start }
    {
        match self {
            DeviceChannel::Bank(channel) => {
                read_channel(channel, alloc, caller, binding, polls, hold)
            }
            DeviceChannel::Cppc(channel) => {
                read_channel(channel, alloc, caller, binding, polls, hold)
            }
        }
    }

    /// Sets a wish of a processor, for a caller, with polls and a hold as a call has them.
    pub fn set(
        &mut self,
        alloc: Global,
        caller: u32,
        binding: &Binding,
        wish: &Wish,
        polls: u32,
        hold: u32,
    ) -> Result<LineAnswer, NoMemory>
        requires right { IsRight binding.now }
        requires inside { LiesIn (channel_of self.old).start.head.room binding.now }
        requires polls { 0 < polls }
        requires most { polls ≤ MAX_POLLS }
        requires early { (channel_of self.old).now.taken < 2 ^ 63 }
        ensures answered { IfOk result (IsAnsweredBy (channel_of self.old)
            (OfWish (record { caller = caller; binding = binding.now; wish = wish.now; polls = polls; hold = hold })) (channel_of self.new)) }
        ensures placed { IfOk result (IsPlacedIn (length (channel_of self.new).now.records)) }
        ensures readings { (channel_of self.new).now.taken ≤ (channel_of self.old).now.taken + 3 }
        ensures start { (channel_of self.new).start ≡ (channel_of self.old).start }
    {
        match self {
            DeviceChannel::Bank(channel) => {
                set_channel(channel, alloc, caller, binding, wish, polls, hold)
            }
            DeviceChannel::Cppc(channel) => {
                set_channel(channel, alloc, caller, binding, wish, polls, hold)
            }
        }
    }
}
