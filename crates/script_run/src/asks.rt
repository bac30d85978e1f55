//! What a line asks of a channel, over any device: a call, a read of a processor's numbers, or a wish of a processor (ACPI 6.5, 8.4.6.1).
ghost use Rattle.std.specs.Prelude.{◌≡◌, ◌≤◌, ◌<◌, ◌+◌, ◌^◌, length, IfOk};
ghost use Rattle.cpc_package.specs.Bindings.{IsRight, LiesIn};
ghost use Rattle.channel_turns.specs.ChannelRuns.{call_by};
ghost use Rattle.channel_turns.specs.Outcomes.{IsPlaced, StandsFor};
ghost use Rattle.channel_turns.specs.Replies.{Reply};
ghost use Rattle.script_run.specs.Channels.{IsAnsweredBy};
ghost use Rattle.script_run.specs.DeviceChannels.{channel_by};
ghost use Rattle.script_run.specs.LineOutcomes.{IsPlacedIn};
ghost use Rattle.script_run.specs.StepRun.{OfCall, OfRead, OfWish, is_good};

use crate::outcome::LineAnswer;
use channel_turns::{Outcome, TurnChannel};
use cpc_package::Binding;
use cppc_calls::{Wish, put_wish};
use cppc_device::{CppcDevice, values_of};
use pcc_exec::Executor;
use pcc_io::NoMemory;
use pcc_journal::Record;
use std::alloc::Global;

/// Makes a call.
pub(crate) fn call_channel<E: Executor>(
    channel: &mut TurnChannel<E>,
    alloc: Global,
    caller: u32,
    code: u32,
    bytes: &[u8],
    polls: u32,
    hold: u32,
) -> Result<LineAnswer, NoMemory>
    requires polls { 0 < polls }
    requires most { polls ≤ 1000000 }
    requires early { channel.old.now.taken < 2 ^ 63 }
    ensures answered { IfOk result (IsAnsweredBy (channel_by E.exec_of channel.old) (OfCall (call_by caller code bytes.now polls hold))
        (channel_by E.exec_of channel.new)) }
    ensures placed { IfOk result (IsPlacedIn (length channel.new.now.records)) }
    ensures readings { channel.new.now.taken ≤ channel.old.now.taken + 3 }
    ensures start { (channel_by E.exec_of channel.new).start ≡ (channel_by E.exec_of channel.old).start }
{
    let outcome = channel.call(alloc, caller, code, bytes, polls, hold)?;
    Ok(LineAnswer::Called(outcome))
}

/// Reads the numbers of a processor: a call of a command without bytes, whose output has them where it was executed without an error.
pub(crate) fn read_channel<E: Executor>(
    channel: &mut TurnChannel<E>,
    alloc: Global,
    caller: u32,
    binding: &Binding,
    polls: u32,
    hold: u32,
) -> Result<LineAnswer, NoMemory>
    requires right { IsRight binding.now }
    requires inside { LiesIn channel.old.head.room binding.now }
    requires polls { 0 < polls }
    requires most { polls ≤ 1000000 }
    requires early { channel.old.now.taken < 2 ^ 63 }
    ensures answered { IfOk result (IsAnsweredBy (channel_by E.exec_of channel.old)
        (OfRead (record { caller = caller; binding = binding.now; polls = polls; hold = hold })) (channel_by E.exec_of channel.new)) }
    ensures placed { IfOk result (IsPlacedIn (length channel.new.now.records)) }
    ensures readings { channel.new.now.taken ≤ channel.old.now.taken + 3 }
    ensures start { (channel_by E.exec_of channel.new).start ≡ (channel_by E.exec_of channel.old).start }
{
    let outcome = channel.call(alloc, caller, CppcDevice::READ, &[], polls, hold)?;
    if is_good(channel.records(), outcome) {
        return Ok(LineAnswer::Read(values_of(binding, channel.space())));
    }
    Ok(LineAnswer::Called(outcome))
}

// Whether a command was executed in its call without an error.
fn is_good(records: &[Record], outcome: Outcome) -> bool
    requires { IsPlaced (length records.now) outcome }
    ensures { (reply : Reply) → StandsFor records.now outcome reply → result ≡ is_good reply }
{
    match outcome {
        Outcome::Done { place } => !records[place].error,
        _ => false,
    }
}

/// Sets a wish: the whole space with the wish put is posted once nothing is in flight. All memory is taken before anything else; a wish that can't
/// be put into the space as it is then is refused, and takes no reading.
pub(crate) fn set_channel<E: Executor>(
    channel: &mut TurnChannel<E>,
    alloc: Global,
    caller: u32,
    binding: &Binding,
    wish: &Wish,
    polls: u32,
    hold: u32,
) -> Result<LineAnswer, NoMemory>
    requires right { IsRight binding.now }
    requires inside { LiesIn channel.old.head.room binding.now }
    requires polls { 0 < polls }
    requires most { polls ≤ 1000000 }
    requires early { channel.old.now.taken < 2 ^ 63 }
    ensures answered { IfOk result (IsAnsweredBy (channel_by E.exec_of channel.old)
        (OfWish (record { caller = caller; binding = binding.now; wish = wish.now; polls = polls; hold = hold })) (channel_by E.exec_of channel.new)) }
    ensures placed { IfOk result (IsPlacedIn (length channel.new.now.records)) }
    ensures readings { channel.new.now.taken ≤ channel.old.now.taken + 3 }
    ensures start { (channel_by E.exec_of channel.new).start ≡ (channel_by E.exec_of channel.old).start }
{
    let mut space = vec![in alloc; 0; channel.head().room as usize]?;
    let mut ready = match channel.ready(alloc, CppcDevice::WRITE, &space) {
        Ok(ready) => ready,
        Err(refusal) => return Ok(LineAnswer::Called(Outcome::of_refusal(refusal)?)),
    };
    if !channel.await_earlier(polls) {
        return Ok(LineAnswer::Called(Outcome::StillPending { looks: polls }));
    }
    space.copy_from_slice(channel.space());
    if let Err(why) = put_wish(binding, &mut space, wish) {
        return Ok(LineAnswer::Refused(why));
    }
    ready.fill(&space);
    Ok(LineAnswer::Called(channel.post(caller, ready, polls, hold)))
}
