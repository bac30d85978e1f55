//! The words of a channel with the machines of both ends and the device.

ghost use Rattle.std.specs.Prelude.{◌≡◌, ◌≢◌, ◌≤◌, ◌<◌, ◌+◌, ◌*◌, ℕ, true, false, Some, length, get_or, IfOk};
ghost use Rattle.pcc_steps.specs.Kinds.{IsHeaded};
ghost use Rattle.pcc_steps.specs.declared.ask.AskStage.TheVariants.{AskRest};
ghost use Rattle.pcc_steps.specs.declared.ask.AskOutcome.TheVariants.{Posted, Clear};
ghost use Rattle.pcc_steps.specs.declared.answer.AnswerStage.TheVariants.{AnswerRest};
ghost use Rattle.pcc_steps.specs.Wires.{IsRight, block_of, sees_done};
ghost use Rattle.pcc_steps.specs.Asking.{ask_begun, ask_budgeted, ask_looking};
ghost use Rattle.channel_turns.specs.WordRuns.{AnswerKeeps, AskSteps, LineWas, look_most};
ghost use Rattle.channel_turns.specs.Links.{IsNewLink};

use crate::runs::{answer_run, look_run, post_run};
use pcc_bytes::are_bytes;
use pcc_exec::Executor;
use pcc_io::NoMemory;
use pcc_steps::{
    AnswerOutcome, AnswerState, AskOutcome, AskState, Wiring, ask_budget, opening_words,
};
use std::alloc::Global;
use std::marker::Model;

/// The words, both machines and the device. Between two calls both machines rest.
#[derive(Drop)]
pub(crate) struct Link<E: Executor> {
    words: Vec<u64>,
    ask: AskState,
    answer: AnswerState,
    device: E,
}

impl<E: Executor> Model for Link<E> {
    ghost use Rattle.channel_turns.specs.Standing.{LinkState};

    ghost Value = { LinkState };

    ghost view = { λ l. record { words = l.words.items; ask = l.ask; answer = l.answer; device = E.state l.device } };
}

impl<E: Executor> Link<E> {
    /// Both machines new, over the opening content.
    pub fn new(
        alloc: Global,
        wiring: Wiring,
        device: E,
        opening: &[u8],
    ) -> Result<Link<E>, NoMemory>
        requires right { IsRight wiring }
        requires long { length opening.now ≡ wiring.room }
        requires room { E.room_of (E.state device) ≡ wiring.room }
        ensures { IfOk result (IsNewLink E.is_state E.room_of wiring (E.state device) opening.now) }
    {
        device.room();
        are_bytes(opening);
        Ok(Link {
            words: opening_words(alloc, &wiring, opening)?,
            ask: AskState::new(alloc, wiring, opening)?,
            answer: AnswerState::new(alloc, wiring)?,
            device,
        })
    }

    /// The machine of the asking end.
    pub fn ask(&self) -> &AskState
        ensures { result.now ≡ self.now.ask }
    {
        &self.ask
    }

    /// Sets the number of looks that are allowed, and forgets those that were made.
    pub fn budget(&mut self, polls: u32)
        requires { self.old.ask.stage ≡ AskRest }
        ensures { self.new ≡ record self.old { ask = ask_budgeted self.old.ask polls } }
    {
        ask_budget(&mut self.ask, polls);
    }

    /// Makes a whole run that posts a command: its code, and the bytes that are laid over the front of the space.
    pub fn post(&mut self, code: u32, bytes: &[u8])
        requires rests { self.old.ask.stage ≡ AskRest }
        requires free { self.old.ask.in_flight ≡ false }
        requires fits { length bytes.now ≤ self.old.ask.wiring.room }
        requires posts { self.old.ask.posts < 4096 }
        requires code { IsHeaded self.old.ask.wiring.kind → code < 256 }
        requires long { length self.old.words ≡ 8 + block_of self.old.ask.wiring }
        ensures steps { AskSteps self.old.words (ask_begun self.old.ask code bytes.now) self.new.words self.new.ask (Some Posted) }
        ensures count { self.new.ask.steps ≤ self.old.ask.steps + (block_of self.old.ask.wiring + 7) }
        ensures rest { self.new ≡ record self.old { words = self.new.words; ask = self.new.ask } }
    {
        post_run(&mut self.words, &mut self.ask, code, bytes);
    }

    /// Makes a whole look.
    pub fn look(&mut self) -> AskOutcome
        requires rests { self.old.ask.stage ≡ AskRest }
        requires flies { self.old.ask.in_flight ≡ true }
        requires left { self.old.ask.looks < self.old.ask.budget }
        requires long { length self.old.words ≡ 8 + block_of self.old.ask.wiring }
        ensures steps { AskSteps self.old.words (ask_looking self.old.ask) self.new.words self.new.ask (Some result) }
        ensures count { self.new.ask.steps ≤ self.old.ask.steps + look_most (block_of self.old.ask.wiring) result }
        ensures clear { result ≡ Clear → sees_done self.old.ask.wiring (get_or self.old.words 0 0) ≡ false }
        ensures rest { self.new ≡ record self.old { words = self.new.words; ask = self.new.ask } }
    {
        look_run(&mut self.words, &mut self.ask)
    }

    /// Makes a whole run of the answering end.
    pub fn answer(&mut self) -> AnswerOutcome
        requires rests { self.old.answer.stage ≡ AnswerRest }
        requires long { length self.old.words ≡ 8 + block_of self.old.answer.wiring }
        requires room { E.room_of self.old.device ≡ self.old.answer.wiring.room }
        requires same { self.old.answer.wiring ≡ self.old.ask.wiring }
        ensures keeps { AnswerKeeps E.exec_of E.is_state E.room_of self.old.words self.old.answer self.old.device self.new.words self.new.answer self.new.device
            (Some result) }
        ensures rests { self.new.answer.stage ≡ AnswerRest }
        ensures long { length self.new.words ≡ length self.old.words }
        ensures line { LineWas result self.old.words }
        ensures rest { self.new ≡ record self.old { words = self.new.words; answer = self.new.answer; device = self.new.device } }
    {
        let block = self.ask.wiring().block();
        answer_run(&mut self.words, &mut self.answer, &mut self.device, block)
    }
}
