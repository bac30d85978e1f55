//! Both ends of a channel on a plain list of words: each pick of an end is one word step.

ghost use Rattle.std.specs.Prelude.{◌≡◌, ◌≢◌, ◌≤◌, ◌<◌, ◌-◌, ◌^◌, true, false, None, length, IfOk, IsSome, OnErr};
ghost use Rattle.std.specs.List.{slice_get};
ghost use Rattle.std.specs.Option.{option_copied};
ghost use Rattle.rate_limit.specs.RateLimits.{WithinLimits};
ghost use Rattle.pcc_journal.specs.Records.{times_of};
ghost use Rattle.pcc_steps.specs.declared.ask.AskStage.TheVariants.{AskRest};
ghost use Rattle.pcc_steps.specs.declared.wiring.Wiring.{Wiring};
ghost use Rattle.pcc_steps.specs.Wires.{IsRight, style_of};
ghost use Rattle.pcc_steps.specs.Asking.{CodeFits};
ghost use Rattle.channel_plain.specs.declared.trace.Asked.{Asked};
ghost use Rattle.channel_plain.specs.Picks.{answer_end, answer_picked, ask_picked_at, ask_stepped, begins, from_rest, pending_by, served};
ghost use Rattle.channel_core.specs.Sendings.{post_of};
ghost use Rattle.channel_plain.specs.Standing.{HavePolls, IsServing, Stands};
ghost use Rattle.channel_plain.specs.Steps.{IsPick, IsPickAt, begun_with, budget_by, looking};
ghost use Rattle.channel_plain.specs.News.{IsNew};

use crate::call_log::CallLog;
use crate::pick::Pick;
use crate::step::{fit_code, settle, start};
use crate::trace::{Asked, TraceEnd};
use channel_core::{Executed, zeros};
use pcc_bytes::are_bytes;
use pcc_exec::Executor;
use pcc_io::{Clock, NoMemory};
use pcc_journal::{Commands, Journal, Notes, Pending};
use pcc_steps::{
    Action, AnswerOutcome, AnswerState, AskState, Wiring, answer_feed, answer_next, answering_laws,
    ask_begin, ask_budget, ask_feed, ask_look, ask_next, asking_laws, history_laws, opening_words,
    perform,
};
use rate_limit::Limits;
use std::alloc::Global;
use std::marker::Model;
use std::snapshot::Snapshot;

/// The words, the machines of both ends with the device, and what came of the calls.
#[derive(Drop)]
pub(crate) struct Ends<E: Executor, K: Clock> {
    alloc: Global,
    words: Vec<u64>,
    ask: AskState,
    answer: AnswerState,
    device: E,
    first: Snapshot<E>,
    calls: CallLog<K>,
    executed: Executed,
}

impl<E: Executor, K: Clock> Model for Ends<E, K> {
    ghost use Rattle.channel_plain.specs.Standing.{Holds, channel_of};
    ghost use Rattle.channel_plain.specs.Weaving.{Clocked};

    ghost Value = { Clocked K };

    ghost view = { λ s. record {
      channel = channel_of s.words.items s.ask s.answer (E.state s.device) (E.state s.first.value) s.calls.calls s.executed.commands;
      clock = s.calls.clock;
    } };

    ghost invariant = { λ s. Holds E.exec_of E.is_state E.room_of
        (channel_of s.words.items s.ask s.answer (E.state s.device) (E.state s.first.value) s.calls.calls s.executed.commands)
        s.executed.ready s.executed.room };
}

impl<E: Executor, K: Clock> Ends<E, K> {
    /// Both ends at rest, with zeros in the space.
    pub fn new(
        alloc: Global,
        wiring: Wiring,
        device: E,
        limits: Limits,
        clock: K,
    ) -> Result<Ends<E, K>, NoMemory>
        requires right { IsRight wiring }
        requires room { E.room_of (E.state device) ≡ wiring.room }
        ensures new { IfOk result (λ e. IsNew wiring limits (E.state device) e.channel) }
        ensures clock { IfOk result (λ e. e.clock ≡ clock) }
    {
        asking_laws();
        device.room();
        let opening = zeros(alloc, wiring.room)?;
        are_bytes(&opening);
        let ask = AskState::new(alloc, wiring, &opening)?;
        let answer = AnswerState::new(alloc, wiring)?;
        let words = opening_words(alloc, &wiring, &opening)?;
        let first = Snapshot::of(&device);
        Ok(Ends {
            alloc,
            words,
            ask,
            answer,
            device,
            first,
            calls: CallLog::new(alloc, limits, clock),
            executed: Executed::new(alloc, wiring.room),
        })
    }

    pub fn wiring(&self) -> &Wiring
        ensures { result.now ≡ self.now.channel.ask.wiring }
    {
        self.ask.wiring()
    }

    pub fn journal(&self) -> &Journal
        ensures { result.now.items ≡ self.now.channel.calls.records }
    {
        self.calls.journal()
    }

    pub fn notes(&self) -> &Notes
        ensures { result.now.items ≡ self.now.channel.calls.notes }
    {
        self.calls.notes()
    }

    /// The command in flight.
    pub fn pending(&self) -> Option<&Pending>
        ensures { option_copied result ≡ pending_by self.now.channel.ask.in_flight self.now.channel.calls.sent }
    {
        if self.ask.in_flight() {
            self.calls.pending()
        } else {
            None
        }
    }

    pub fn executed(&self) -> &Commands
        ensures { result.now.items ≡ self.now.channel.executed }
    {
        self.executed.commands()
    }

    /// What holds between two picks. It does nothing.
    pub fn stand(&self)
        ensures stands { Stands E.exec_of E.is_state E.room_of self.now.channel }
        ensures limits { WithinLimits self.now.channel.calls.limits (times_of self.now.channel.calls.records) (post_of self.now.channel.calls.sent) }
    {
        self.calls.keep();
    }

    /// A pick of the answering end: its next word step. A command that is loaded by it is executed.
    pub fn answer_pick(&mut self) -> Pick
        ensures pick { IsPick (answer_picked E.exec_of self.old.channel) self.new.channel result }
        ensures clock { self.new.clock ≡ self.old.clock }
    {
        answering_laws::<E>();
        history_laws();
        start(&mut self.answer);
        let action = answer_next(&self.answer);
        let value = perform(&mut self.words, action);
        let told = answer_feed(&mut self.answer, value);
        let reports = self.ask.wiring().reports;
        settle(
            &mut self.answer,
            &mut self.device,
            &mut self.executed,
            reports,
        );
        Pick {
            action,
            value,
            end: answer_end(told),
        }
    }

    /// A pick of the asking end, for the calls.
    pub fn ask_pick(&mut self, calls: &[Asked]) -> Result<Pick, NoMemory>
        requires polls { HavePolls calls.now }
        requires serving { IsServing calls.now self.old.channel }
        ensures ok { IfOk result (λ pick. IsPickAt K.taken K.tells self.old.clock self.new.clock
            (λ r. ask_picked_at self.old.channel.ask.stage calls.now r self.old.channel) self.new.channel pick) }
        ensures err { OnErr result (self.new ≡ self.old) }
    {
        if !rests(&self.ask) {
            return Ok(self.step());
        }
        self.from_rest(calls)
    }

    // No run is under way.
    fn from_rest(&mut self, calls: &[Asked]) -> Result<Pick, NoMemory>
        requires rests { self.old.channel.ask.stage ≡ AskRest }
        requires polls { HavePolls calls.now }
        requires serving { IsServing calls.now self.old.channel }
        ensures ok { IfOk result (λ pick. IsPickAt K.taken K.tells self.old.clock self.new.clock
            (λ r. from_rest self.old.channel.calls.begun (slice_get calls.now self.old.channel.calls.ended) r self.old.channel) self.new.channel pick) }
        ensures err { OnErr result (self.new ≡ self.old) }
    {
        let Some(call) = call_at(calls, self.calls.ended()) else {
            return Ok(Pick::rest(TraceEnd::Open));
        };
        fit_code(call);
        if self.calls.begun() {
            return self.serve(call);
        }
        match self
            .calls
            .refusal(call, self.ask.wiring(), self.ask.in_flight())
        {
            Some(end) => {
                asking_laws();
                self.calls.end_call();
                Ok(Pick::rest(end))
            }
            None => self.begin(call),
        }
    }

    // The call is begun, and no run is under way.
    fn serve(&mut self, call: &Asked) -> Result<Pick, NoMemory>
        requires rests { self.old.channel.ask.stage ≡ AskRest }
        requires begun { self.old.channel.calls.begun ≡ true }
        requires counted { self.old.channel.calls.ended < 2 ^ 64 - 1 }
        requires fits { length call.now.bytes ≤ self.old.channel.ask.wiring.room }
        requires code { CodeFits (style_of self.old.channel.ask.wiring) call.now.code }
        requires posts { self.old.channel.ask.in_flight ≡ false → self.old.channel.ask.posts < 4096 }
        requires budget { 0 < self.old.channel.ask.budget }
        ensures ok { IfOk result (λ pick. IsPickAt K.taken K.tells self.old.clock self.new.clock
            (λ r. served self.old.channel.ask.in_flight call.now r self.old.channel) self.new.channel pick) }
        ensures err { OnErr result (self.new ≡ self.old) }
    {
        let waits = self.ask.in_flight();
        if waits {
            return Ok(self.look());
        }
        self.post(call, false)
    }

    // The call is the next one, and nothing refuses it.
    fn begin(&mut self, call: &Asked) -> Result<Pick, NoMemory>
        requires rests { self.old.channel.ask.stage ≡ AskRest }
        requires counted { self.old.channel.calls.ended < 2 ^ 64 - 1 }
        requires fits { length call.now.bytes ≤ self.old.channel.ask.wiring.room }
        requires code { CodeFits (style_of self.old.channel.ask.wiring) call.now.code }
        requires posts { self.old.channel.ask.in_flight ≡ false → self.old.channel.ask.posts < 4096 }
        requires polls { 0 < call.now.polls }
        ensures ok { IfOk result (λ pick. IsPickAt K.taken K.tells self.old.clock self.new.clock
            (λ r. begins None call.now r self.old.channel) self.new.channel pick) }
        ensures err { OnErr result (self.new ≡ self.old) }
    {
        if self.ask.in_flight() {
            asking_laws();
            ask_budget(&mut self.ask, call.polls);
            self.calls.begin();
            return Ok(self.look());
        }
        self.post(call, true)
    }

    // Takes all memory of the command, before it touches anything.
    fn post(&mut self, call: &Asked, begins: bool) -> Result<Pick, NoMemory>
        requires rests { self.old.channel.ask.stage ≡ AskRest }
        requires free { self.old.channel.ask.in_flight ≡ false }
        requires counted { self.old.channel.calls.ended < 2 ^ 64 - 1 }
        requires fits { length call.now.bytes ≤ self.old.channel.ask.wiring.room }
        requires code { CodeFits (style_of self.old.channel.ask.wiring) call.now.code }
        requires posts { self.old.channel.ask.posts < 4096 }
        requires budget { 0 < (budget_by begins call.now.polls self.old.channel.ask).budget }
        requires begun { begins ≡ false → self.old.channel.calls.begun ≡ true }
        ensures ok { IfOk result (λ pick. IsPickAt K.taken K.tells self.old.clock self.new.clock
            (λ r. served false call.now r (begun_with begins call.now.polls self.old.channel)) self.new.channel pick) }
        ensures err { OnErr result (self.new ≡ self.old) }
    {
        asking_laws();
        are_bytes(call.bytes.as_slice());
        self.executed.reserve(self.alloc)?;
        let refused = self
            .calls
            .post(self.alloc, self.ask.wiring(), call, self.ask.space())?;
        set_budget(&mut self.ask, begins, call.polls);
        match refused {
            Some(end) => Ok(Pick::rest(end)),
            None => {
                ask_begin(&mut self.ask, call.code, call.bytes.as_slice());
                Ok(self.step())
            }
        }
    }

    // Begins a look, with its first step.
    fn look(&mut self) -> Pick
        requires rests { self.old.channel.ask.stage ≡ AskRest }
        requires flies { self.old.channel.ask.in_flight ≡ true }
        requires begun { self.old.channel.calls.begun ≡ true }
        ensures { IsPickAt K.taken K.tells self.old.clock self.new.clock (λ r. ask_stepped r (looking self.old.channel)) self.new.channel result }
    {
        asking_laws();
        ask_look(&mut self.ask);
        self.step()
    }

    // The next step of the run that is under way.
    fn step(&mut self) -> Pick
        requires { self.old.channel.ask.stage ≢ AskRest }
        ensures { IsPickAt K.taken K.tells self.old.clock self.new.clock (λ r. ask_stepped r self.old.channel) self.new.channel result }
    {
        asking_laws();
        let action = ask_next(&self.ask);
        let value = perform(&mut self.words, action);
        let told = ask_feed(&mut self.ask, value);
        let end = self.calls.report(told, &self.ask);
        Pick { action, value, end }
    }
}

// No run of the asking machine is under way.
fn rests(ask: &AskState) -> bool
    ensures yes { result ≡ true → ask.now.stage ≡ AskRest }
    ensures no { result ≡ false → ask.now.stage ≢ AskRest }
{
    ask_next(ask) == Action::Rest
}

fn call_at(calls: &[Asked], place: usize) -> Option<&Asked>
    ensures call { option_copied result ≡ slice_get calls.now place }
    ensures counted { IsSome result → place < 2 ^ 64 - 1 }
{
    calls.get(place)
}

fn set_budget(ask: &mut AskState, begins: bool, polls: u32)
    requires { ask.old.stage ≡ AskRest }
    ensures { ask.new ≡ budget_by begins polls ask.old }
{
    if begins {
        ask_budget(ask, polls);
    }
}

fn answer_end(told: Option<AnswerOutcome>) -> TraceEnd
    ensures { result ≡ answer_end told }
{
    match told {
        None => TraceEnd::Open,
        Some(AnswerOutcome::Served) => TraceEnd::Served,
        Some(AnswerOutcome::Idle) => TraceEnd::Idle,
    }
}
