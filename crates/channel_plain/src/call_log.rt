//! The calls, and what came of their commands.

ghost use Rattle.std.specs.Prelude.{◌≡◌, ◌≤◌, ◌<◌, ◌-◌, ◌^◌, ℕ, true, false, None, length, IfOk, OnErr, OnOk};
ghost use Rattle.std.specs.Option.{option_copied};
ghost use Rattle.rate_limit.specs.RateLimits.{WithinLimits};
ghost use Rattle.pcc_journal.specs.Records.{times_of};
ghost use Rattle.pcc_steps.specs.Agree.{flying};
ghost use Rattle.channel_core.specs.CommandHistory.{reserved};
ghost use Rattle.channel_core.specs.Sendings.{FliesWith, command_of, post_of};
ghost use Rattle.channel_plain.specs.News.{no_calls};
ghost use Rattle.channel_plain.specs.Picks.{ask_ended, call_begun, call_ended, clear_ended, drained_at, given_up_end, refusal_of, refused_end, takes_reading};
ghost use Rattle.channel_plain.specs.Holding.{FliesIf, Takes, tried};

use crate::trace::{Asked, TraceEnd};
use channel_core::{CallRefusal, Caller, History, Reading, Ready, make_ready, refusal, too_soon};
use pcc_io::{Clock, NoMemory};
use pcc_journal::{Journal, Notes, Pending};
use pcc_steps::{AskOutcome, AskState, Wiring};
use rate_limit::Limits;
use std::alloc::Global;
use std::marker::Model;

/// The calls that have ended, the one that is begun, and the commands, with the clock that the asking end reads.
#[derive(Drop)]
pub(crate) struct CallLog<K: Clock> {
    caller: Caller<K>,
    history: History,
    ended: usize,
    begun: bool,
}

impl<K: Clock> Model for CallLog<K> {
    ghost use Rattle.rate_limit.specs.RateLimits.{WithinLimits};
    ghost use Rattle.pcc_journal.specs.Records.{times_of};
    ghost use Rattle.channel_core.specs.Sendings.{post_of};
    ghost use Rattle.channel_plain.specs.Holding.{ClockedCalls, MayEnd, calls_of};

    ghost Value = { ClockedCalls K };

    ghost view = { λ b. record {
      calls = calls_of b.caller.limits b.history b.caller.readings b.ended b.begun;
      clock = b.caller.clock;
    } };

    ghost invariant = { λ b. WithinLimits b.caller.limits (times_of b.history.records) (post_of b.history.sent) × MayEnd b.begun b.ended };
}

impl<K: Clock> CallLog<K> {
    /// No call has begun, and no reading was taken.
    pub fn new(alloc: Global, limits: Limits, clock: K) -> CallLog<K>
        ensures { result ≡ record { calls = no_calls limits; clock = clock } }
    {
        CallLog {
            caller: Caller::new(limits, clock),
            history: History::new(alloc),
            ended: 0,
            begun: false,
        }
    }

    pub fn journal(&self) -> &Journal
        ensures { result.now.items ≡ self.now.calls.records }
    {
        self.history.journal()
    }

    pub fn notes(&self) -> &Notes
        ensures { result.now.items ≡ self.now.calls.notes }
    {
        self.history.notes()
    }

    /// The posts keep the limits, that of a command that is posted or in flight included. It does nothing.
    pub fn keep(&self)
        ensures { WithinLimits self.now.calls.limits (times_of self.now.calls.records) (post_of self.now.calls.sent) }
    {
        let _ = &self.begun;
    }

    /// The command that is posted or in flight.
    pub fn pending(&self) -> Option<&Pending>
        ensures { option_copied result ≡ command_of self.now.calls.sent }
    {
        self.history.pending()
    }

    pub fn ended(&self) -> usize
        ensures { result ≡ self.now.calls.ended }
    {
        self.ended
    }

    pub fn begun(&self) -> bool
        ensures { result ≡ self.now.calls.begun }
    {
        self.begun
    }

    pub fn begin(&mut self)
        requires { self.old.calls.ended < 2 ^ 64 - 1 }
        ensures { self.new ≡ record self.old { calls = call_begun self.old.calls } }
    {
        self.begun = true;
    }

    pub fn end_call(&mut self)
        requires { self.old.calls.ended < 2 ^ 64 - 1 }
        ensures { self.new ≡ record self.old { calls = call_ended self.old.calls } }
    {
        self.ended += 1;
        self.begun = false;
    }

    /// What refuses a call before it is begun: bad code, too long, journal full, in this order.
    pub fn refusal(&self, call: &Asked, wiring: &Wiring, flies: bool) -> Option<TraceEnd>
        ensures { result ≡ refusal_of wiring.now call.now (length self.now.calls.records) (flying flies) }
    {
        let posts = self.history.journal().len() + usize::from(flies);
        refused_end(refusal(wiring.kind, wiring.room, call.code, call.bytes.len(), posts))
    }

    /// Takes the memory for a post and its record, and then a reading. The call ends where that is too soon, else its command is posted.
    #[tactic(auto, using(crate::proofs::Readied::within_post, crate::proofs::Readied::over_length))]
    pub fn post(
        &mut self,
        alloc: Global,
        wiring: &Wiring,
        call: &Asked,
        space: &[u8],
    ) -> Result<Option<TraceEnd>, NoMemory>
        requires free { self.old.calls.sent ≡ None }
        requires fits { length call.now.bytes ≤ wiring.now.room }
        requires long { length space.now ≡ wiring.now.room }
        requires counted { self.old.calls.ended < 2 ^ 64 - 1 }
        ensures ok { IfOk result (λ end. (reading : ℕ) × Takes K.taken K.tells self.old.clock self.new.clock true reading
            × (record { calls = self.new.calls; end = end } ≡ tried call.now space.now reading self.old.calls)) }
        ensures err { OnErr result (self.new ≡ self.old) }
    {
        let ready = ready_for(&mut self.history, alloc, wiring, call)?;
        let post = self.caller.read();
        let soon = too_soon(&self.caller.limits, self.history.journal().times(), post.at);
        match refused_end(soon) {
            Some(end) => {
                self.end_call();
                Ok(Some(end))
            }
            None => {
                self.history.mark_post(ready.fly(call.caller, &post, space));
                self.begun = true;
                Ok(None)
            }
        }
    }

    /// Records what a step of the asking machine reported.
    pub fn report(&mut self, outcome: Option<AskOutcome>, ask: &AskState) -> TraceEnd
        requires begun { self.old.calls.begun ≡ true }
        requires flies { FliesIf outcome self.old.calls.sent (length ask.now.space) }
        ensures { (reading : ℕ) × Takes K.taken K.tells self.old.clock self.new.clock (takes_reading outcome) reading
            × (record { calls = self.new.calls; end = result } ≡ ask_ended outcome reading ask.now self.old.calls) }
    {
        match outcome {
            None => TraceEnd::Open,
            Some(AskOutcome::Posted) => TraceEnd::Posted,
            Some(AskOutcome::Clear) => self.clear(ask.looks() == ask.budget(), ask.looks()),
            Some(AskOutcome::Drained { error }) => {
                let done = self.caller.read();
                self.drain(error, ask.space(), &done)
            }
        }
    }

    // A look saw the command incomplete.
    fn clear(&mut self, last: bool, looks: u32) -> TraceEnd
        requires { self.old.calls.begun ≡ true }
        ensures calls { record { calls = self.new.calls; end = result } ≡ clear_ended last looks self.old.calls }
        ensures clock { self.new.clock ≡ self.old.clock }
    {
        let _ = &self.begun;
        if !last {
            return TraceEnd::Clear { looks };
        }
        self.end_call();
        let late = self.history.given_up();
        self.history.mark_late(looks);
        given_up_end(late, looks)
    }

    // The reply was taken, at the reading that was taken last.
    #[tactic(auto, using(crate::proofs::Readied::done_is, crate::proofs::Readied::within_done))]
    fn drain(&mut self, error: bool, output: &[u8], done: &Reading) -> TraceEnd
        requires begun { self.old.calls.begun ≡ true }
        requires flies { FliesWith self.old.calls.sent (length output.now) }
        ensures calls { record { calls = self.new.calls; end = result } ≡ drained_at error output.now done.now self.old.calls }
        ensures clock { self.new.clock ≡ self.old.clock }
    {
        let late = self.history.given_up();
        self.history.mark_done(error, output, done);
        if late {
            return TraceEnd::Late { error };
        }
        self.end_call();
        TraceEnd::Done { error }
    }
}

// What ends a call at its last look: its own command is given up, or that of an earlier call was before.
fn given_up_end(late: bool, looks: u32) -> TraceEnd
    ensures { result ≡ given_up_end late looks }
{
    if late {
        TraceEnd::StillPending { looks }
    } else {
        TraceEnd::TimedOut { looks }
    }
}

// Makes the command of a call ready. Nothing refuses a call that is begun, so what fails is memory.
#[tactic(auto, using(crate::proofs::Readied::ready_made, crate::proofs::Readied::none_made))]
fn ready_for(
    history: &mut History,
    alloc: Global,
    wiring: &Wiring,
    call: &Asked,
) -> Result<Ready, NoMemory>
    ensures ready { IfOk result (λ r. r ≡ record { kind = wiring.now.kind; room = wiring.now.room; code = call.now.code; bytes = call.now.bytes }) }
    ensures reserved { OnOk result (history.new ≡ reserved history.old) }
    ensures err { OnErr result (history.new ≡ history.old) }
{
    match make_ready(
        history,
        alloc,
        wiring.kind,
        wiring.room,
        call.code,
        call.bytes.as_slice(),
    ) {
        Ok(ready) => Ok(ready),
        Err(_) => Err(NoMemory),
    }
}

// What a trace says of a refused call.
fn refused_end(refusal: Option<CallRefusal>) -> Option<TraceEnd>
    ensures { result ≡ refused_end refusal }
{
    match refusal? {
        CallRefusal::BadCode { code } => Some(TraceEnd::BadCode { code }),
        CallRefusal::TooLong { len, room } => Some(TraceEnd::TooLong { len, room }),
        CallRefusal::JournalFull => Some(TraceEnd::JournalFull),
        CallRefusal::NoMemory => None,
        CallRefusal::StillPending { looks } => Some(TraceEnd::StillPending { looks }),
        CallRefusal::TooSoon { now, earliest } => Some(TraceEnd::TooSoon { now, earliest }),
        CallRefusal::TimedOut { looks } => Some(TraceEnd::TimedOut { looks }),
    }
}
