//! Whole runs of the two machines on a list of words. Each run ends within the bounds of its table.

ghost use Rattle.std.specs.Prelude.{◌≡◌, ◌≢◌, ◌≤◌, ◌<◌, ◌+◌, ◌*◌, ◌^◌, true, false, [], Some, length, get_or};
ghost use Rattle.pcc_steps.specs.declared.ask.AskStage.TheVariants.{AskRest, LookWord};
ghost use Rattle.pcc_steps.specs.declared.ask.AskOutcome.TheVariants.{Posted, Clear};
ghost use Rattle.pcc_steps.specs.declared.answer.AnswerStage.TheVariants.{AnswerRest, TakeLine};
ghost use Rattle.pcc_steps.specs.declared.answer.AnswerOutcome.TheVariants.{Idle, Served};
ghost use Rattle.pcc_steps.specs.Kinds.{IsHeaded};
ghost use Rattle.pcc_steps.specs.Wires.{block_of, sees_done};
ghost use Rattle.pcc_steps.specs.Asking.{AskOk, IsAskRunning, ask_begun, ask_looking};
ghost use Rattle.pcc_steps.specs.Answering.{AnswerOk, IsAnswerStepping};
ghost use Rattle.pcc_steps.specs.Runs.{Within};
ghost use Rattle.pcc_steps.specs.Walk.{answer_left, ask_left};
ghost use Rattle.pcc_steps.specs.Agree.{settle};
ghost use Rattle.channel_turns.specs.WordRuns.{AnswerKeeps, AnswerStep, AnswerStride, AskStep, AskSteps, AskStride, LineWas, look_most};

use pcc_exec::Executor;
use pcc_steps::{
    Action, AnswerOutcome, AnswerState, AskOutcome, AskState, answer_block, answer_execute,
    answer_feed, answer_next, answer_start, answering_laws, ask_begin, ask_block, ask_feed,
    ask_look, ask_next, perform,
};

/// The place of the word that says whether a command is complete, with whose load a look begins.
const COMPLETION: usize = 0;

// ---- the asking machine

// The next word step.
#[inline(always)]
fn ask_step(words: &mut [u64], ask: &mut AskState) -> Option<AskOutcome>
    requires runs { IsAskRunning ask.old }
    requires long { length words.old ≡ 8 + block_of ask.old.wiring }
    ensures { AskStep words.old ask.old words.new ask.new result }
{
    let action = ask_next(ask);
    let value = perform(words, action);
    ask_feed(ask, value)
}

// Words of the block but the last one at once, and then the next word step.
#[inline(always)]
fn ask_stride(words: &mut [u64], ask: &mut AskState) -> Option<AskOutcome>
    requires runs { IsAskRunning ask.old }
    requires long { length words.old ≡ 8 + block_of ask.old.wiring }
    ensures { AskStride words.old ask.old words.new ask.new result }
{
    ask_block(words, ask);
    ask_step(words, ask)
}

// The word steps that are left of a run after its load of completion, at most `most`.
#[tactic(auto, using(crate::proofs::AskRuns::went_start))]
fn finish_ask(words: &mut [u64], ask: &mut AskState, most: u32) -> AskOutcome
    requires runs { IsAskRunning ask.old }
    requires behind { ask.old.stage ≢ LookWord }
    requires long { length words.old ≡ 8 + block_of ask.old.wiring }
    requires within { AskOk ask.old → Within most (ask_left ask.old) }
    ensures steps { AskSteps words.old ask.old words.new ask.new (Some result) }
    ensures count { ask.new.steps ≤ ask.old.steps + most }
    ensures seen { result ≢ Clear }
{
    for _ in 0..most {
        if let Some(outcome) = ask_stride(words, ask) {
            return outcome;
        }
    }
    // A run that is under way has a next step, and this one has none left.
    ask_next(ask);
    unreachable!()
}

/// Posts a command: its code, and the bytes that are laid over the front of the space.
pub(crate) fn post_run(words: &mut [u64], ask: &mut AskState, code: u32, bytes: &[u8])
    requires rests { ask.old.stage ≡ AskRest }
    requires free { ask.old.in_flight ≡ false }
    requires fits { length bytes.now ≤ ask.old.wiring.room }
    requires posts { ask.old.posts < 4096 }
    requires code { IsHeaded ask.old.wiring.kind → code < 256 }
    requires long { length words.old ≡ 8 + block_of ask.old.wiring }
    ensures steps { AskSteps words.old (ask_begun ask.old code bytes.now) words.new ask.new (Some Posted) }
    ensures count { ask.new.steps ≤ ask.old.steps + (block_of ask.old.wiring + 7) }
{
    ask_begin(ask, code, bytes);
    // The run has a first step, and so the machine is right.
    ask_next(ask);
    let most = ask.wiring().block() + 7;
    finish_ask(words, ask, most);
}

/// Looks for completion, and takes the reply where the command is complete.
pub(crate) fn look_run(words: &mut [u64], ask: &mut AskState) -> AskOutcome
    requires rests { ask.old.stage ≡ AskRest }
    requires flies { ask.old.in_flight ≡ true }
    requires left { ask.old.looks < ask.old.budget }
    requires long { length words.old ≡ 8 + block_of ask.old.wiring }
    ensures steps { AskSteps words.old (ask_looking ask.old) words.new ask.new (Some result) }
    ensures count { ask.new.steps ≤ ask.old.steps + look_most (block_of ask.old.wiring) result }
    ensures clear { result ≡ Clear → sees_done ask.old.wiring (get_or words.old 0 0) ≡ false }
{
    ask_look(ask);
    if let Some(outcome) = ask_feed(ask, words[COMPLETION]) {
        return outcome;
    }
    // The look goes on, and so the machine is right.
    ask_next(ask);
    let most = ask.wiring().block() + 5;
    finish_ask(words, ask, most)
}

// ---- the answering machine

// The device executes the command that is loaded, if one is.
#[inline(always)]
fn run_device<E: Executor>(answer: &mut AnswerState, device: &mut E)
    requires { E.room_of (E.state device.old) ≡ answer.old.wiring.room }
    ensures right { AnswerOk answer.old }
    ensures machine { answer.new ≡ (settle E.exec_of (record { m = answer.old; device = E.state device.old; done = [] })).m }
    ensures device { E.state device.new ≡ (settle E.exec_of (record { m = answer.old; device = E.state device.old; done = [] })).device }
    ensures room { E.room_of (E.state device.new) ≡ answer.old.wiring.room }
{
    if let Action::Execute { .. } = answer_next(answer) {
        answer_execute(answer, device);
    }
}

// The next word step, with the device's turn.
#[inline(always)]
fn answer_step<E: Executor>(
    words: &mut [u64],
    answer: &mut AnswerState,
    device: &mut E,
) -> Option<AnswerOutcome>
    requires steps { IsAnswerStepping answer.old }
    requires long { length words.old ≡ 8 + block_of answer.old.wiring }
    requires room { E.room_of (E.state device.old) ≡ answer.old.wiring.room }
    ensures step { AnswerStep E.exec_of words.old answer.old (E.state device.old) words.new answer.new (E.state device.new) result }
    ensures room { E.room_of (E.state device.new) ≡ answer.old.wiring.room }
{
    let action = answer_next(answer);
    let value = perform(words, action);
    let told = answer_feed(answer, value);
    run_device(answer, device);
    told
}

// Words of the block but the last one at once, and then the next word step, with the device's turn.
#[inline(always)]
fn answer_stride<E: Executor>(
    words: &mut [u64],
    answer: &mut AnswerState,
    device: &mut E,
) -> Option<AnswerOutcome>
    requires steps { IsAnswerStepping answer.old }
    requires long { length words.old ≡ 8 + block_of answer.old.wiring }
    requires room { E.room_of (E.state device.old) ≡ answer.old.wiring.room }
    ensures step { AnswerStride E.exec_of words.old answer.old (E.state device.old) words.new answer.new (E.state device.new) result }
    ensures room { E.room_of (E.state device.new) ≡ answer.old.wiring.room }
{
    answer_block(words, answer);
    answer_step(words, answer, device)
}

// The word steps that are left of a run after its first one, at most `most`.
fn finish_answer<E: Executor>(
    words: &mut [u64],
    answer: &mut AnswerState,
    device: &mut E,
    most: u32,
) -> AnswerOutcome
    requires steps { IsAnswerStepping answer.old }
    requires behind { answer.old.stage ≢ TakeLine }
    requires long { length words.old ≡ 8 + block_of answer.old.wiring }
    requires room { E.room_of (E.state device.old) ≡ answer.old.wiring.room }
    requires within { AnswerOk answer.old → Within most (answer_left answer.old) }
    ensures keeps { AnswerKeeps E.exec_of E.is_state E.room_of words.old answer.old (E.state device.old) words.new answer.new (E.state device.new)
        (Some result) }
    ensures served { result ≡ Served }
    ensures rests { answer.new.stage ≡ AnswerRest }
    ensures long { length words.new ≡ length words.old }
{
    answering_laws::<E>();
    for _ in 0..most {
        if let Some(outcome) = answer_stride(words, answer, device) {
            return outcome;
        }
    }
    // A run that is under way has a next step, and this one has none left.
    answer_next(answer);
    unreachable!()
}

/// Takes the doorbell line, and where it was up answers the command.
pub(crate) fn answer_run<E: Executor>(
    words: &mut [u64],
    answer: &mut AnswerState,
    device: &mut E,
    block: u32,
) -> AnswerOutcome
    requires block { block ≡ block_of answer.old.wiring }
    requires rests { answer.old.stage ≡ AnswerRest }
    requires long { length words.old ≡ 8 + block_of answer.old.wiring }
    requires room { E.room_of (E.state device.old) ≡ answer.old.wiring.room }
    ensures keeps { AnswerKeeps E.exec_of E.is_state E.room_of words.old answer.old (E.state device.old) words.new answer.new (E.state device.new)
        (Some result) }
    ensures rests { answer.new.stage ≡ AnswerRest }
    ensures long { length words.new ≡ length words.old }
    ensures line { LineWas result words.old }
{
    answering_laws::<E>();
    answer_start(answer);
    if let Some(outcome) = answer_step(words, answer, device) {
        return outcome;
    }
    finish_answer(words, answer, device, 2 * block + 10)
}
