//! The calls of one thread that drives both ends of a channel in turn: a turn of the answering end, and then a look of the asking end.

ghost use Rattle.std.specs.Prelude.{◌≡◌, ◌≤◌, ◌<◌, ◌+◌, ◌^◌, true, None, length, IfOk, OnErr, OnOk};
ghost use Rattle.std.specs.Option.{option_copied};
ghost use Rattle.pcc_steps.specs.Wires.{IsRight, block_of};
ghost use Rattle.channel_turns.specs.ChannelRuns.{call_by, journal_limit, pending_of};
ghost use Rattle.channel_core.specs.Sendings.{count_flying};
ghost use Rattle.channel_turns.specs.Calls.{HasMemory, HasPolled, HasPosted, HasWorked, IsAnswered, IsLate, IsPosted, MakesReady, WorksEarlier};
ghost use Rattle.channel_turns.specs.Calls.{new_channel, open_channel, ready_for, waited};
ghost use Rattle.channel_turns.specs.Counts.{SpentByPoll, SpentByPolls};
ghost use Rattle.channel_turns.specs.EndsStates.{awaited, rings};
ghost use Rattle.channel_turns.specs.Outcomes.{IsPlaced};
ghost use Rattle.channel_turns.specs.Standing.{IsHeadOf};

use crate::ends::PlainEnds;
use crate::outcome::Outcome;
use channel_core::{CallRefusal, Look, Ready};
use pcc_exec::Executor;
use pcc_io::NoMemory;
use pcc_journal::{JournalHead, Pending, Record};
use pcc_steps::Wiring;
use std::alloc::Global;
use std::marker::Model;

/// A channel that is called by one thread. Contracts see it as an opened subspace of a run.
#[derive(Drop)]
pub struct TurnChannel<E: Executor> {
    ends: PlainEnds<E>,
}

impl<E: Executor> Model for TurnChannel<E> {
    ghost use Rattle.channel_turns.specs.Calls.{IsLate, OpenChannel, open_channel};

    ghost Value = { OpenChannel };

    ghost view = { λ c. open_channel c.ends };

    ghost invariant = { λ c. IsLate c.ends.state.history.sent c.ends.state.executed };
}

impl<E: Executor> TurnChannel<E> {
    /// A channel that nothing was asked of, with this device and this communication space. Its clock has this start and this step, in
    /// microseconds.
    pub fn new(
        alloc: Global,
        head: JournalHead,
        wiring: Wiring,
        device: E,
        opening: &[u8],
        start: u64,
        step: u64,
    ) -> Result<TurnChannel<E>, NoMemory>
        requires right { IsRight wiring }
        requires head { IsHeadOf head wiring }
        requires room { E.room_of (E.state device) ≡ wiring.room }
        requires long { length opening.now ≡ wiring.room }
        ensures { IfOk result (λ c. c ≡ new_channel E.exec_of head wiring start step (E.state device) opening.now) }
    {
        Ok(TurnChannel {
            ends: PlainEnds::new(alloc, head, wiring, device, opening, start, step)?,
        })
    }

    /// The head of the journal.
    pub fn head(&self) -> &JournalHead
        ensures { result.now ≡ self.now.head }
    {
        self.ends.head()
    }

    /// The records, the first one first.
    pub fn records(&self) -> &[Record]
        ensures items { result.now ≡ self.now.now.records }
        ensures few { length result.now ≤ journal_limit }
    {
        self.ends.journal().as_slice()
    }

    /// The command in flight.
    pub fn pending(&self) -> Option<&Pending>
        ensures { option_copied result ≡ pending_of self.now.now.in_flight }
    {
        self.ends.pending()
    }

    /// Moves the clock up by n microseconds.
    pub fn wait(&mut self, n: u64)
        ensures { self.new ≡ waited n self.old }
    {
        self.ends.wait(n);
    }

    /// The space of the last reply, at first the opening space.
    pub fn space(&self) -> &[u8]
        ensures value { result.now ≡ self.now.now.object.space }
        ensures long { length result.now ≡ self.now.head.room }
    {
        self.ends.space()
    }

    /// Makes a call of a caller: a command of this code, whose input is the space with the bytes laid over its front, with a number of polls
    /// from 1 to 1,000,000, held for some turns of the answering end. It is answered as a line of a run. A command is executed in its call
    /// exactly when its hold is below its polls; the rest of the hold is left for the next call.
    pub fn call(
        &mut self,
        alloc: Global,
        caller: u32,
        code: u32,
        bytes: &[u8],
        polls: u32,
        hold: u32,
    ) -> Result<Outcome, NoMemory>
        requires polls { 0 < polls }
        requires most { polls ≤ 1000000 }
        requires early { self.old.now.taken < 2 ^ 63 }
        ensures answered { IfOk result (IsAnswered E.exec_of self.old (call_by caller code bytes.now polls hold) self.new) }
        ensures worked { IfOk result (HasWorked (call_by caller code bytes.now polls hold) self.old self.new) }
        ensures placed { IfOk result (IsPlaced (length self.new.now.records)) }
        ensures readings { self.new.now.taken ≤ self.old.now.taken + 3 }
        ensures head { self.new.head ≡ self.old.head }
        ensures err { OnErr result (self.new ≡ self.old) }
    {
        let ready = match self.ready(alloc, code, bytes) {
            Ok(ready) => ready,
            Err(refusal) => return Outcome::of_refusal(refusal),
        };
        if !self.await_earlier(polls) {
            return Ok(Outcome::StillPending { looks: polls });
        }
        Ok(self.post(caller, ready, polls, hold))
    }

    /// The first part of a call: takes all memory of its command, for its input, its reply and its record. A code above 255 on types 0 to 2, more
    /// bytes than the space has, and a full journal are refused, in this order, and change nothing.
    pub fn ready(&mut self, alloc: Global, code: u32, bytes: &[u8]) -> Result<Ready, CallRefusal>
        ensures ready { MakesReady self.old (ready_for self.old code bytes.now) self.new result }
        ensures memory { OnOk result (HasMemory self.new) }
    {
        self.ends.ready(alloc, code, bytes)
    }

    /// The second part: polls for an earlier command, each poll a turn and a look. Whether nothing is in flight then.
    pub fn await_earlier(&mut self, polls: u32) -> bool
        requires memory { HasMemory self.old }
        requires polls { 0 < polls }
        requires most { polls ≤ 1000000 }
        requires early { self.old.now.taken + 1 < 2 ^ 64 }
        ensures polled { HasPolled E.exec_of polls self.old self.new result }
        ensures worked { WorksEarlier polls self.old self.new result }
        ensures free { result ≡ true → self.new.now.in_flight ≡ None }
        ensures memory { HasMemory self.new }
        ensures budget { self.new.efforts.budget ≡ polls }
        ensures readings { self.new.now.taken ≤ self.old.now.taken + 1 }
    {
        self.ends.budget(polls);
        await_earlier(&mut self.ends, polls)
    }

    /// The last part, where nothing is in flight: posts a command that is made ready, and polls for its reply.
    pub fn post(&mut self, caller: u32, ready: Ready, polls: u32, hold: u32) -> Outcome
        requires free { self.old.now.in_flight ≡ None }
        requires memory { HasMemory self.old }
        requires kind { ready.kind ≡ self.old.head.kind }
        requires room { ready.room ≡ self.old.head.room }
        requires polls { 0 < polls }
        requires budget { self.old.efforts.budget ≡ polls }
        requires early { self.old.now.taken + 2 < 2 ^ 64 }
        ensures posted { IsPosted E.exec_of self.old (call_by caller ready.code ready.bytes polls hold) self.new result }
        ensures worked { HasPosted (call_by caller ready.code ready.bytes polls hold) self.old self.new result }
        ensures placed { IsPlaced (length self.new.now.records) result }
        ensures readings { self.new.now.taken ≤ self.old.now.taken + 2 }
    {
        post(&mut self.ends, caller, ready, polls, hold)
    }
}

// Awaits an earlier command. Whether nothing is in flight then.
fn await_earlier<E: Executor>(ends: &mut PlainEnds<E>, polls: u32) -> bool
    requires late { IsLate ends.old.state.history.sent ends.old.state.executed }
    requires memory { count_flying ends.old.state.history.sent < ends.old.state.history.spare }
    requires few { length ends.old.state.history.records + ends.old.state.history.spare ≤ 4096 }
    requires looks { ends.old.state.looks ≡ 0 }
    requires budget { ends.old.state.budget ≡ polls }
    requires early { ends.old.state.taken + 1 < 2 ^ 64 }
    ensures polled { HasPolled E.exec_of polls (open_channel ends.old) (open_channel ends.new) result }
    ensures worked { WorksEarlier polls (open_channel ends.old) (open_channel ends.new) result }
    ensures free { result ≡ true → ends.new.state.history.sent ≡ None }
    ensures late { IsLate ends.new.state.history.sent ends.new.state.executed }
    ensures memory { count_flying ends.new.state.history.sent < ends.new.state.history.spare }
    ensures few { length ends.new.state.history.records + ends.new.state.history.spare ≤ 4096 }
    ensures budget { ends.new.state.budget ≡ polls }
    ensures readings { ends.new.state.taken ≤ ends.old.state.taken + 1 }
{
    if !ends.in_flight() {
        return true;
    }
    await_reply(ends, polls).is_some()
}

// Nothing is in flight: posts a command that is made ready, and polls for its reply.
fn post<E: Executor>(
    ends: &mut PlainEnds<E>,
    caller: u32,
    ready: Ready,
    polls: u32,
    hold: u32,
) -> Outcome
    requires free { ends.old.state.history.sent ≡ None }
    requires kind { ready.kind ≡ ends.old.state.head.kind }
    requires room { ready.room ≡ ends.old.state.head.room }
    requires spare { 0 < ends.old.state.history.spare }
    requires few { length ends.old.state.history.records + ends.old.state.history.spare ≤ 4096 }
    requires polls { 0 < polls }
    requires budget { ends.old.state.budget ≡ polls }
    requires early { ends.old.state.taken + 2 < 2 ^ 64 }
    ensures posted { IsPosted E.exec_of (open_channel ends.old) (call_by caller ready.code ready.bytes polls hold) (open_channel ends.new) result }
    ensures worked { HasPosted (call_by caller ready.code ready.bytes polls hold) (open_channel ends.old) (open_channel ends.new) result }
    ensures late { IsLate ends.new.state.history.sent ends.new.state.executed }
    ensures placed { IsPlaced (length ends.new.state.history.records) result }
    ensures readings { ends.new.state.taken ≤ ends.old.state.taken + 2 }
{
    match ends.post(caller, ready) {
        Ok(()) => {
            ends.hold(hold);
            match await_reply(ends, polls) {
                Some(place) => Outcome::Done {
                    place: place as usize,
                },
                None => {
                    ends.give_up();
                    Outcome::TimedOut { looks: polls }
                }
            }
        }
        Err(CallRefusal::TooSoon { now, earliest }) => Outcome::TooSoon { now, earliest },
        Err(_) => unreachable!(),
    }
}

// Polls, each a turn and a look, until the command in flight is drained or all are made. The place of its record, where it is drained.
fn await_reply<E: Executor>(ends: &mut PlainEnds<E>, polls: u32) -> Option<u32>
    requires rings { rings ends.old.state ≡ true }
    requires few { length ends.old.state.history.records < 4096 }
    requires looks { ends.old.state.looks ≡ 0 }
    requires budget { ends.old.state.budget ≡ polls }
    ensures state { record { now = ends.new.state; place = result } ≡ awaited E.exec_of polls ends.old.state }
    ensures counts { SpentByPolls (block_of ends.old.state.wiring) polls ends.old.state.hold result ends.old.counts ends.new.counts }
{
    for _ in 0..polls {
        if let Some(place) = poll(ends) {
            return Some(place);
        }
    }
    None
}

// A turn, and then a look.
fn poll<E: Executor>(ends: &mut PlainEnds<E>) -> Option<u32>
    requires rings { rings ends.old.state ≡ true }
    requires few { length ends.old.state.history.records < 4096 }
    requires left { ends.old.state.looks < ends.old.state.budget }
    ensures state { record { now = ends.new.state; place = result } ≡ awaited E.exec_of 1 ends.old.state }
    ensures counts { SpentByPoll (block_of ends.old.state.wiring) result ends.old.counts ends.new.counts }
{
    ends.turn();
    match ends.look() {
        Look::Drained { place, .. } => Some(place),
        Look::Clear { .. } => None,
    }
}
