//! Both ends of a channel on a plain list of words, with the device, the history and the clock. Each call of an end makes a whole run of its
//! machine; contracts see no machine and no word.

ghost use Rattle.std.specs.Prelude.{◌≡◌, ◌≢◌, ◌≤◌, ◌<◌, ◌+◌, ℕ, true, false, None, length, IfOk, MatchResult};
ghost use Rattle.std.specs.Option.{option_copied};
ghost use Rattle.pcc_journal.specs.declared.reserved.TheConstants.{MAX_ITEMS};
ghost use Rattle.pcc_steps.specs.Wires.{IsRight, block_of};
ghost use Rattle.channel_core.specs.Readying.{IsReadied};
ghost use Rattle.channel_core.specs.Sendings.{command_of, is_flying, is_given_up};
ghost use Rattle.channel_core.specs.declared.answers.CallRefusal.TheVariants as refusal;
ghost use Rattle.channel_turns.specs.EndsStates.{budgeted, earliest_post, gave_up, looked, new_ends, posted, read_once, reading_of, ready_with, turned, waited};
ghost use Rattle.channel_turns.specs.Counts.{Spent};
ghost use Rattle.channel_turns.specs.Seeing.{SpentByLook, nothing_spent};
ghost use Rattle.channel_turns.specs.Standing.{IsHeadOf};

use crate::link::Link;
use channel_core::{CallRefusal, Caller, History, Look, Ready, Turn, make_ready, too_soon};
use pcc_exec::Executor;
use pcc_io::{Clock, LineClock, NoMemory};
use pcc_journal::{Journal, JournalHead, MAX_ITEMS, Notes, Pending};
use pcc_steps::{AnswerOutcome, AskOutcome, Wiring};
use std::alloc::Global;
use std::marker::Model;
use std::snapshot::Snapshot;

/// Both ends of a channel: the words with both machines and the device, the history, and the clock.
#[derive(Drop)]
pub struct PlainEnds<E: Executor> {
    head: JournalHead,
    link: Link<E>,
    start: Snapshot<Link<E>>,
    caller: Caller<LineClock>,
    history: History,
    // Whether the command in flight is executed; no, where nothing is in flight.
    executed: bool,
    hold: u32,
    clears: u64,
    turns: u64,
}

impl<E: Executor> Model for PlainEnds<E> {
    ghost use Rattle.channel_turns.specs.Seeing.{EndsSeen, IsConnected, IsKept, ends_seen};

    ghost Value = { EndsSeen };

    ghost view = { λ s. ends_seen E.exec_of s.head s.caller.clock s.start.value s.link s.history s.executed s.hold s.clears s.turns };

    ghost invariant = { λ s. IsConnected E.exec_of E.is_state E.room_of s.head s.start.value s.link s.history s.executed
        × IsKept s.head s.caller.limits s.caller.clock s.caller.readings };
}

impl<E: Executor> PlainEnds<E> {
    /// Both ends at rest, with the opening space. The clock has this start and this step, in microseconds.
    pub fn new(
        alloc: Global,
        head: JournalHead,
        wiring: Wiring,
        device: E,
        opening: &[u8],
        start: u64,
        step: u64,
    ) -> Result<PlainEnds<E>, NoMemory>
        requires right { IsRight wiring }
        requires head { IsHeadOf head wiring }
        requires room { E.room_of (E.state device) ≡ wiring.room }
        requires long { length opening.now ≡ wiring.room }
        ensures { IfOk result (λ ends. ends ≡ record { state = new_ends head wiring start step (E.state device) opening.now; counts = nothing_spent }) }
    {
        let link = Link::new(alloc, wiring, device, opening)?;
        let start_link = Snapshot::of(&link);
        Ok(PlainEnds {
            head,
            link,
            start: start_link,
            caller: Caller::new(head.limits, LineClock::new(start, step)),
            history: History::new(alloc),
            executed: false,
            hold: 0,
            clears: 0,
            turns: 0,
        })
    }

    /// The head of the journal.
    pub fn head(&self) -> &JournalHead
        ensures { result.now ≡ self.now.state.head }
    {
        &self.head
    }

    /// The records of the commands that were drained, in order.
    pub fn journal(&self) -> &Journal
        ensures items { result.now.items ≡ self.now.state.history.records }
        ensures spare { result.now.spare ≡ self.now.state.history.spare }
        ensures most { length result.now.items + result.now.spare ≤ MAX_ITEMS }
    {
        self.history.journal()
    }

    /// The notes beside the records.
    pub fn notes(&self) -> &Notes
        ensures { result.now.items ≡ self.now.state.history.notes }
    {
        self.history.notes()
    }

    /// The command in flight.
    pub fn pending(&self) -> Option<&Pending>
        ensures { option_copied result ≡ command_of self.now.state.history.sent }
    {
        self.history.pending()
    }

    /// The space of the last reply, at first the opening space.
    pub fn space(&self) -> &[u8]
        ensures value { result.now ≡ self.now.state.object.space }
        ensures long { length result.now ≡ self.now.state.head.room }
    {
        self.link.ask().space()
    }

    /// Whether a command is in flight: posted, and not yet drained.
    pub fn in_flight(&self) -> bool
        ensures { result ≡ is_flying self.now.state.history.sent }
    {
        self.history.in_flight()
    }

    /// Whether a command is in flight that was given up.
    pub fn given_up(&self) -> bool
        ensures { result ≡ is_given_up self.now.state.history.sent }
    {
        self.history.given_up()
    }

    /// The turns of the answering end for which the next command is held.
    pub fn left(&self) -> u32
        ensures { result ≡ self.now.state.hold }
    {
        self.hold
    }

    /// Takes all memory of one more command: for its input, its reply and its record. A code above 255 on types 0 to 2, more bytes than the space
    /// has, and 4,096 posts are refused, in this order, and change nothing.
    pub fn ready(&mut self, alloc: Global, code: u32, bytes: &[u8]) -> Result<Ready, CallRefusal>
        ensures readied { IsReadied self.old.state.history (ready_with self.old.state code bytes.now) self.new.state.history result }
        ensures most { length self.new.state.history.records + self.new.state.history.spare ≤ MAX_ITEMS }
        ensures rest { self.new.state ≡ record self.old.state { history = self.new.state.history } }
        ensures counts { self.new.counts ≡ self.old.counts }
    {
        make_ready(
            &mut self.history,
            alloc,
            self.head.kind,
            self.head.room,
            code,
            bytes,
        )
    }

    /// Sets the number of looks that are allowed, and forgets those that were made.
    pub fn budget(&mut self, polls: u32)
        requires some { 0 < polls }
        requires most { polls ≤ 1000000 }
        ensures state { self.new.state ≡ budgeted polls self.old.state }
        ensures counts { self.new.counts ≡ self.old.counts }
    {
        self.link.budget(polls);
    }

    /// Posts a command that is made ready, at the next reading. A reading below the earliest that the limits allow is too soon, and changes
    /// nothing else.
    pub fn post(&mut self, caller: u32, ready: Ready) -> Result<(), CallRefusal>
        requires free { self.old.state.history.sent ≡ None }
        requires budget { self.old.state.budget ≢ 0 }
        requires kind { ready.kind ≡ self.old.state.head.kind }
        requires room { ready.room ≡ self.old.state.head.room }
        requires spare { 0 < self.old.state.history.spare }
        ensures state { MatchResult result
            (λ _. (earliest_post self.old.state ≤ reading_of self.old.state) × (self.new.state ≡ posted caller ready self.old.state))
            (λ e. (reading_of self.old.state < earliest_post self.old.state)
            × (e ≡ refusal.TooSoon (reading_of self.old.state) (earliest_post self.old.state))
            × (self.new.state ≡ read_once self.old.state)) }
        ensures counts { Spent 0 0 (block_of self.old.state.wiring + 7) self.old.counts self.new.counts }
    {
        let at = self.caller.clock.now();
        let reading = self.caller.count(at);
        if let Some(refusal) = too_soon(&self.caller.limits, self.history.journal().times(), at) {
            return Err(refusal);
        }
        self.link.post(ready.code(), ready.bytes());
        let flight = ready.fly(caller, &reading, self.link.ask().space());
        self.history.mark_post(flight);
        self.executed = false;
        Ok(())
    }

    /// Makes one look for the command in flight. Where it is complete, the reply is taken at the next reading and recorded.
    pub fn look(&mut self) -> Look
        requires flies { is_flying self.old.state.history.sent ≡ true }
        requires left { self.old.state.looks < self.old.state.budget }
        ensures state { record { now = self.new.state; told = result } ≡ looked E.exec_of self.old.state }
        ensures counts { SpentByLook (block_of self.old.state.wiring) result self.old.counts self.new.counts }
    {
        match self.link.look() {
            AskOutcome::Clear => {
                self.clears = self.clears.saturating_add(1);
                Look::Clear {
                    looks: self.link.ask().looks(),
                }
            }
            AskOutcome::Drained { error } => {
                let at = self.caller.clock.now();
                let done = self.caller.count(at);
                let late = self.history.given_up();
                let place = self
                    .history
                    .mark_done(error, self.link.ask().space(), &done);
                self.executed = false;
                Look::Drained { place, late }
            }
            AskOutcome::Posted => unreachable!(),
        }
    }

    /// Gives the command in flight up, once the budget is spent: its record will say that it was late.
    pub fn give_up(&mut self)
        requires flies { is_flying self.old.state.history.sent ≡ true }
        requires spent { self.old.state.looks ≡ self.old.state.budget }
        ensures state { self.new.state ≡ gave_up self.old.state }
        ensures counts { self.new.counts ≡ self.old.counts }
    {
        self.history.mark_late(self.link.ask().looks());
    }

    /// Holds the next command for this number of turns of the answering end.
    pub fn hold(&mut self, turns: u32)
        ensures state { self.new.state ≡ record self.old.state { hold = turns } }
        ensures counts { self.new.counts ≡ self.old.counts }
    {
        self.hold = turns;
    }

    /// One turn of the answering end. A held one touches no word. Else it executes the command in flight, unless that is executed already or
    /// 4,096 commands were executed.
    pub fn turn(&mut self) -> Turn
        ensures state { record { now = self.new.state; told = result } ≡ turned self.old.state }
        ensures counts { Spent 0 1 0 self.old.counts self.new.counts }
    {
        self.turns = self.turns.saturating_add(1);
        if self.hold > 0 {
            self.hold -= 1;
            return Turn::Held { left: self.hold };
        }
        self.serve()
    }

    // A turn that isn't held.
    fn serve(&mut self) -> Turn
        requires { self.old.state.hold ≡ 0 }
        ensures state { record { now = self.new.state; told = result } ≡ turned self.old.state }
        ensures counts { self.new.counts ≡ self.old.counts }
    {
        if self.history.journal().len() + usize::from(self.executed) == MAX_ITEMS {
            return Turn::JournalFull;
        }
        match self.link.answer() {
            AnswerOutcome::Idle => Turn::Idle,
            AnswerOutcome::Served => {
                self.executed = true;
                Turn::Served
            }
        }
    }

    /// Moves the clock up by n microseconds.
    pub fn wait(&mut self, n: u64)
        ensures state { self.new.state ≡ waited n self.old.state }
        ensures counts { self.new.counts ≡ self.old.counts }
    {
        self.caller.clock.add(n);
    }
}
