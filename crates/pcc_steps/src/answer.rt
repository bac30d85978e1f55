//! The answering machine: it takes commands and answers them, one word step at a time (ACPI 6.5, 14.5).

ghost use Rattle.std.specs.Prelude.{ℕ, ◌≡◌, ◌↔◌, ◌<◌, ◌≤◌, ◌+◌, ◌-◌, ◌/◌, ◌%◌, ◌^◌, ◌++◌, length, take, IfOk, Some};
ghost use Rattle.std.specs.Borrow.{sem};
ghost use Rattle.shmem_header.specs.Spelling.{words_of};
ghost use Rattle.pcc_steps.specs.declared.answer.AnswerStage.TheVariants.{AnswerRest, TakeLine, TakeBlock, RunDevice, ReplyBlock};
ghost use Rattle.pcc_steps.specs.declared.answer.AnswerOutcome.TheVariants.{Idle};
ghost use Rattle.pcc_steps.specs.declared.wiring.Action.TheVariants.{Rest};
ghost use Rattle.pcc_steps.specs.Asking.{IsWithin};
ghost use Rattle.pcc_steps.specs.Wires.{IsRight, style_of, heads_of, block_of, status_of, code_by, asks_by, four_by};
ghost use Rattle.pcc_steps.specs.Changes.{changes_from};
ghost use Rattle.pcc_steps.specs.Moves.{AnswerMoves, answer_moves};
ghost use Rattle.pcc_steps.specs.Runs.{error_word};
ghost use Rattle.pcc_steps.specs.Answering.{Answer, AnswerOk, IsNewAnswer, IsAnswerStepping, IsTaking, IsReplying, IsCompleting, answer_fed_at, answer_told_at, IsExecute, answer_next, answer_fed, answer_told, answer_begun, answer_ran, ran_with, answer_code, served_at, after_ack, after_take, after_error, after_reply, reply_stage, after_close, after_done, done_stage, asks_notify, update_stage, AnswerPlace};
ghost use Rattle.pcc_exec.specs.Execution.{is_bad};
ghost use Rattle.pcc_steps.specs.Lending.{LendsSpace};

use crate::block::{FIRST, fill, load_words, next_changed};
use crate::counts::{rose, rose_by};
use crate::registers::{tells_error, update_place};
use crate::wiring::{Action, Style, Wiring, place};
use pcc_exec::{ExecStatus, Executor};
use pcc_gas::masked;
use pcc_io::NoMemory;
use shmem_header::{
    EXTENDED_NOTIFY_BIT, NOTIFY_BIT, bytes_into, code_in, command_in, is_set, with_status,
};
use std::alloc::Global;
use std::marker::Model;

/// The next step of the answering machine.
#[derive(Clone, Copy, Debug, PartialEq, Eq)]
pub enum AnswerStage {
    /// No run is under way.
    AnswerRest,
    /// Take the doorbell line.
    TakeLine,
    /// Load the acknowledge register, to write it.
    TakeAckLoad,
    /// Store the acknowledge register.
    TakeAckStore,
    /// Load the header.
    TakeHeader,
    /// Load a word of the block.
    TakeBlock(u32),
    /// The device executes the command: no word step.
    RunDevice,
    /// Store a word of the reply.
    ReplyBlock(u32),
    /// Store the error register.
    ReplyError,
    /// Store the header with its status.
    ReplyHeader,
    /// Load the update register, to write it.
    ReplyUpdateLoad,
    /// Store the update register.
    ReplyUpdateStore,
    /// Load word 0, to set completion.
    ReplyMarkLoad,
    /// Store word 0 with completion set.
    ReplyMarkStore,
    /// Load the doorbell register, to write it.
    CloseBellLoad,
    /// Store the doorbell register.
    CloseBellStore,
    /// Raise the interrupt line.
    CloseLine,
}

/// How a run of the answering machine ended.
#[derive(Clone, Copy, Debug, PartialEq, Eq)]
pub enum AnswerOutcome {
    /// There was no command.
    Idle,
    /// A command was executed and answered.
    Served,
}

/// The answering machine of a subspace.
#[derive(Drop)]
pub struct AnswerState {
    wiring: Wiring,
    stage: AnswerStage,
    kept: u64,
    header: u64,
    bad: bool,
    loaded: Vec<u64>,
    out: Vec<u64>,
    space: Vec<u8>,
    steps: u64,
}

impl Model for AnswerState {
    ghost use Rattle.pcc_steps.specs.Answering.{Answer, AnswerOk};

    ghost Value = { Answer };

    ghost view = { λ s. record {
      wiring = s.wiring;
      stage = s.stage;
      kept = s.kept;
      header = s.header;
      bad = s.bad;
      loaded = s.loaded.items;
      out = s.out.items;
      space = s.space.items;
      steps = s.steps;
    } };

    ghost invariant = { λ s. AnswerOk (record {
      wiring = s.wiring;
      stage = s.stage;
      kept = s.kept;
      header = s.header;
      bad = s.bad;
      loaded = s.loaded.items;
      out = s.out.items;
      space = s.space.items;
      steps = s.steps;
    }) };
}

impl AnswerState {
    /// A machine at rest.
    pub fn new(alloc: Global, wiring: Wiring) -> Result<AnswerState, NoMemory>
        requires { IsRight wiring }
        ensures new { IfOk result (λ a. IsNewAnswer a wiring) }
        ensures right { IfOk result AnswerOk }
    {
        let block = wiring.block() as usize;
        let loaded = vec![in alloc; 0; block]?;
        let out = vec![in alloc; 0; block]?;
        let space = vec![in alloc; 0; wiring.room as usize]?;
        Ok(AnswerState {
            wiring,
            stage: AnswerStage::AnswerRest,
            kept: 0,
            header: 0,
            bad: false,
            loaded,
            out,
            space,
            steps: 0,
        })
    }

    /// The word steps taken, up to 2^64 - 1.
    pub fn steps(&self) -> u64
        ensures { result ≡ self.now.steps }
    {
        self.steps
    }
}

/// Begins a run.
pub fn answer_start(answer: &mut AnswerState)
    requires { answer.old.stage ≡ AnswerRest }
    ensures { answer.new ≡ answer_begun answer.old }
{
    answer.header = 0;
    answer.stage = AnswerStage::TakeLine;
}

/// The next word step, `Execute` where the device is to run, `Rest` exactly when no run is under way.
#[tactic(auto, using(crate::proofs::Nexts::answer_rests, crate::proofs::Nexts::answer_executes, crate::proofs::Nexts::answer_within))]
#[inline(always)]
pub fn answer_next(answer: &AnswerState) -> Action
    ensures action { result ≡ answer_next answer.now }
    ensures rest { (answer_next answer.now ≡ Rest) ↔ (answer.now.stage ≡ AnswerRest) }
    ensures device { IsExecute (answer_next answer.now) ↔ (answer.now.stage ≡ RunDevice) }
    ensures place { IsWithin (8 + block_of answer.now.wiring) (answer_next answer.now) }
    ensures right { AnswerOk answer.now }
{
    let wiring = &answer.wiring;
    match answer.stage {
        AnswerStage::AnswerRest => Action::Rest,
        AnswerStage::TakeLine => Action::Swap(place::BELL_LINE, 0),
        AnswerStage::TakeAckLoad => Action::Load(place::ACK),
        AnswerStage::TakeAckStore => {
            let word = masked(answer.kept, wiring.ack.preserve, wiring.ack.set);
            Action::Store(place::ACK, word)
        }
        AnswerStage::TakeHeader => Action::Load(place::COMPLETION),
        AnswerStage::TakeBlock(at) => Action::Load(place::BLOCK + at),
        AnswerStage::RunDevice => Action::Execute {
            code: code_of(wiring, answer.header, &answer.loaded),
        },
        AnswerStage::ReplyBlock(at) => Action::Store(place::BLOCK + at, answer.out[at as usize]),
        AnswerStage::ReplyError => Action::Store(place::ERROR, error_word(wiring, answer.bad)),
        AnswerStage::ReplyHeader => {
            let word = with_status(answer.header, status_of(answer.bad));
            Action::Store(place::COMPLETION, word)
        }
        AnswerStage::ReplyUpdateLoad => Action::Load(update_place(wiring.style())),
        AnswerStage::ReplyUpdateStore => {
            let word = masked(answer.kept, wiring.update.preserve, wiring.update.set);
            Action::Store(update_place(wiring.style()), word)
        }
        AnswerStage::ReplyMarkLoad => Action::Load(place::COMPLETION),
        AnswerStage::ReplyMarkStore => Action::Store(
            place::COMPLETION,
            answer.kept | wiring.check_mask,
        ),
        AnswerStage::CloseBellLoad => Action::Load(place::BELL),
        AnswerStage::CloseBellStore => {
            let word = masked(answer.kept, wiring.bell.preserve, wiring.bell.set);
            Action::Store(place::BELL, word)
        }
        AnswerStage::CloseLine => Action::Store(place::INTERRUPT, 1),
    }
}

/// Takes what the step found: the value of a load or a swap, any number for a store. Returns the outcome of the run, exactly
/// when this step ended it.
#[tactic(auto, using(crate::proofs::Nexts::idle_told))]
#[inline(always)]
pub fn answer_feed(answer: &mut AnswerState, value: u64) -> Option<AnswerOutcome>
    requires { IsAnswerStepping answer.old }
    ensures state { answer.new ≡ answer_fed answer.old value }
    ensures told { result ≡ answer_told answer.old value }
    ensures idle { (answer_told answer.old value ≡ Some Idle) ↔ ((answer.old.stage ≡ TakeLine) × (value ≡ 0)) }
{
    let told = feed(answer, value);
    answer.steps = rose(answer.steps);
    told
}

/// Moves the words of the block but the last one at once, where the run loads a command or stores what changed in its reply: so
/// many word steps, of which none ends the run or calls for the device. At another stage it does nothing.
#[inline(always)]
pub fn answer_block(words: &mut [u64], answer: &mut AnswerState)
    requires { length words.old ≡ 8 + block_of answer.old.wiring }
    ensures { AnswerMoves (answer_moves answer.old.stage answer.old) words.old answer.old words.new answer.new }
{
    match answer.stage {
        AnswerStage::TakeBlock(from) => take_block(words, answer, from),
        AnswerStage::ReplyBlock(from) => reply_block(words, answer, from),
        _ => {}
    }
}

// Loads the words of the block before its last one.
fn take_block(words: &[u64], answer: &mut AnswerState, from: u32)
    requires stage { answer.old.stage ≡ TakeBlock from }
    requires long { length words.now ≡ 8 + block_of answer.old.wiring }
    ensures { AnswerMoves (block_of answer.old.wiring - 1 - from) words.now answer.old words.now answer.new }
{
    let last = answer.wiring.block() - 1;
    load_words(words, from as usize, last as usize, &mut answer.loaded);
    answer.stage = AnswerStage::TakeBlock(last);
    answer.steps = rose_by(answer.steps, last - from);
}

// Stores the words that changed, but the last of them.
#[tactic(auto, using(crate::proofs::BlockMoves::replies_done))]
fn reply_block(words: &mut [u64], answer: &mut AnswerState, from: u32)
    requires stage { answer.old.stage ≡ ReplyBlock from }
    requires long { length words.old ≡ 8 + block_of answer.old.wiring }
    ensures { AnswerMoves (changes_from (from + 1) answer.old.out answer.old.loaded) words.old answer.old words.new answer.new }
{
    let mut at = from as usize;
    let mut steps = answer.steps;
    for next in at + 1..answer.out.len() {
        if answer.out[next] != answer.loaded[next] {
            words[FIRST + at] = answer.out[at];
            steps = rose(steps);
            at = next;
        }
    }
    answer.stage = AnswerStage::ReplyBlock(at as u32);
    answer.steps = steps;
}

#[inline(always)]
fn feed(answer: &mut AnswerState, value: u64) -> Option<AnswerOutcome>
    ensures state { answer.new ≡ answer_fed_at answer.old.stage answer.old value }
    ensures told { result ≡ answer_told_at answer.old.stage answer.old value }
{
    match answer.stage {
        AnswerStage::AnswerRest | AnswerStage::RunDevice => None,
        AnswerStage::TakeLine
        | AnswerStage::TakeAckLoad
        | AnswerStage::TakeAckStore
        | AnswerStage::TakeHeader
        | AnswerStage::TakeBlock(_) => feed_command(answer, value),
        AnswerStage::ReplyBlock(_) | AnswerStage::ReplyError => feed_reply(answer),
        _ => feed_completion(answer, value),
    }
}

// A step that takes the command.
#[inline(always)]
fn feed_command(answer: &mut AnswerState, value: u64) -> Option<AnswerOutcome>
    requires { IsTaking answer.old.stage }
    ensures state { answer.new ≡ answer_fed_at answer.old.stage answer.old value }
    ensures told { result ≡ answer_told_at answer.old.stage answer.old value }
{
    let style = answer.wiring.style();
    match answer.stage {
        AnswerStage::TakeLine => {
            if value == 0 {
                answer.stage = AnswerStage::AnswerRest;
                return Some(AnswerOutcome::Idle);
            }
            answer.stage = after_take(four_has(style, answer.wiring.has_ack), style);
        }
        AnswerStage::TakeAckLoad => {
            answer.kept = value;
            answer.stage = AnswerStage::TakeAckStore;
        }
        AnswerStage::TakeAckStore => answer.stage = after_ack(style),
        AnswerStage::TakeHeader => {
            answer.header = value;
            answer.stage = AnswerStage::TakeBlock(0);
        }
        AnswerStage::TakeBlock(at) => {
            answer.loaded[at as usize] = value;
            if at + 1 < answer.wiring.block() {
                answer.stage = AnswerStage::TakeBlock(at + 1);
            } else {
                let heads = style.heads() as usize;
                bytes_into(&answer.loaded[heads..], &mut answer.space);
                answer.stage = AnswerStage::RunDevice;
            }
        }
        _ => unreachable!(),
    }
    None
}

// A step that stores the reply.
#[inline(always)]
fn feed_reply(answer: &mut AnswerState) -> Option<AnswerOutcome>
    requires { IsReplying answer.old.stage }
    ensures state { (value : ℕ) → answer.new ≡ answer_fed_at answer.old.stage answer.old value }
    ensures told { (value : ℕ) → result ≡ answer_told_at answer.old.stage answer.old value }
{
    let style = answer.wiring.style();
    match answer.stage {
        AnswerStage::ReplyBlock(at) => {
            answer.stage = reply_stage(
                at as usize + 1,
                &answer.wiring,
                &answer.out,
                &answer.loaded,
            );
        }
        AnswerStage::ReplyError => answer.stage = after_error(style),
        _ => unreachable!(),
    }
    None
}

// A step that completes the command, or closes the run.
fn feed_completion(answer: &mut AnswerState, value: u64) -> Option<AnswerOutcome>
    requires { IsCompleting answer.old.stage }
    ensures state { answer.new ≡ answer_fed_at answer.old.stage answer.old value }
    ensures told { result ≡ answer_told_at answer.old.stage answer.old value }
{
    match answer.stage {
        AnswerStage::ReplyUpdateLoad => {
            answer.kept = value;
            answer.stage = AnswerStage::ReplyUpdateStore;
        }
        AnswerStage::ReplyMarkLoad => {
            answer.kept = value;
            answer.stage = AnswerStage::ReplyMarkStore;
        }
        AnswerStage::CloseBellLoad => {
            answer.kept = value;
            answer.stage = AnswerStage::CloseBellStore;
        }
        AnswerStage::ReplyHeader | AnswerStage::ReplyMarkStore => {
            answer.stage = done_stage(&answer.wiring, answer.header, &answer.loaded);
            return served_at(answer.stage);
        }
        AnswerStage::ReplyUpdateStore => {
            answer.stage = after_update(&answer.wiring, answer.header, &answer.loaded);
            return served_at(answer.stage);
        }
        AnswerStage::CloseBellStore => {
            answer.stage = after_close(asks_notify(&answer.wiring, answer.header, &answer.loaded));
            return served_at(answer.stage);
        }
        AnswerStage::CloseLine => {
            answer.stage = AnswerStage::AnswerRest;
            return Some(AnswerOutcome::Served);
        }
        _ => unreachable!(),
    }
    None
}

/// The space, in which the device finds its input and leaves its reply.
pub fn answer_space(answer: &mut AnswerState) -> &mut [u8]
    requires { answer.old.stage ≡ RunDevice }
    ensures* writes_back { sem 𝓛 (LendsSpace answer.entry result) }
    ensures value { result.now ≡ answer.old.space }
{
    answer.space.as_mut_slice()
}

/// Takes the device's status, once the device has left its reply in the space.
pub fn answer_ran(answer: &mut AnswerState, status: ExecStatus)
    requires { answer.old.stage ≡ RunDevice }
    ensures { answer.new ≡ answer_ran answer.old status }
{
    let heads = answer.wiring.style().heads() as usize;
    reply_words(&answer.loaded, heads, &answer.space, &mut answer.out);
    answer.bad = is_bad(status);
    answer.stage = reply_stage(heads, &answer.wiring, &answer.out, &answer.loaded);
}

/// Runs the device on the space, and takes its status.
pub fn answer_execute<E: Executor>(answer: &mut AnswerState, device: &mut E)
    requires stage { answer.old.stage ≡ RunDevice }
    requires room { E.room_of (E.state device.old) ≡ answer.old.wiring.room }
    ensures machine { let e = E.exec_of (E.state device.old) (answer_code answer.old) answer.old.space in answer.new ≡ ran_with
        (record answer.old { space = e.space }) e.bad }
    ensures device { E.state device.new ≡ (E.exec_of (E.state device.old) (answer_code answer.old) answer.old.space).state }
    ensures room { E.room_of (E.state device.new) ≡ answer.old.wiring.room }
{
    let code = code_of(&answer.wiring, answer.header, &answer.loaded);
    let status = device.exec(code, answer_space(answer));
    answer_ran(answer, status);
}

// The header words stay, and the words of the reply follow.
fn reply_words(loaded: &[u64], heads: usize, space: &[u8], out: &mut [u64])
    requires same { length out.old ≡ length loaded.now }
    requires long { length loaded.now ≡ heads + length space.now / 8 }
    requires whole { length space.now % 8 ≡ 0 }
    ensures { out.new ≡ take heads loaded.now ++ words_of space.now }
{
    fill(&loaded[..heads], space, out);
}

fn is_bad(status: ExecStatus) -> bool
    ensures { result ≡ is_bad status }
{
    match status {
        ExecStatus::Good => false,
        ExecStatus::Bad => true,
    }
}

fn code_of(wiring: &Wiring, header: u64, block: &[u64]) -> u32
    requires { length block.now ≡ block_of wiring.now }
    ensures { result ≡ code_by (style_of wiring.now) header block.now }
{
    match wiring.style() {
        Style::Headed => u32::from(code_in(header)),
        Style::Reduced5 => command_in(block[0]),
        _ => command_in(block[1]),
    }
}

fn error_word(wiring: &Wiring, bad: bool) -> u64
    ensures { result ≡ error_word wiring.now bad }
{
    if bad { wiring.error_mask } else { 0 }
}

fn status_of(bad: bool) -> u16
    ensures { result ≡ status_of bad }
{
    if bad { 5 } else { 1 }
}

fn four_has(style: Style, has: bool) -> bool
    ensures { result ≡ four_by style has }
{
    match style {
        Style::Joined4 | Style::Separate4 => has,
        _ => false,
    }
}

fn asks_notify(wiring: &Wiring, header: u64, block: &[u64]) -> bool
    requires { length block.now ≡ block_of wiring.now }
    ensures { result ≡ asks_by (style_of wiring.now) header block.now }
{
    match wiring.style() {
        Style::Headed => is_set(header, NOTIFY_BIT),
        Style::Reduced5 => false,
        _ => is_set(block[0], EXTENDED_NOTIFY_BIT),
    }
}

#[tactic(auto, using(crate::proofs::AnswerPlaces::closed_at))]
fn done_stage(wiring: &Wiring, header: u64, block: &[u64]) -> AnswerStage
    requires { length block.now ≡ block_of wiring.now }
    ensures place { AnswerPlace result wiring.now }
    ensures stage { result ≡ after_done (four_by (style_of wiring.now) wiring.now.has_bell) (asks_by (style_of wiring.now) header block.now) }
{
    if four_has(wiring.style(), wiring.has_bell) {
        AnswerStage::CloseBellLoad
    } else {
        after_close(asks_notify(wiring, header, block))
    }
}

fn after_update(wiring: &Wiring, header: u64, block: &[u64]) -> AnswerStage
    requires { length block.now ≡ block_of wiring.now }
    ensures place { AnswerPlace result wiring.now }
    ensures stage { result ≡ update_stage (style_of wiring.now) (after_done (four_by (style_of wiring.now) wiring.now.has_bell)
        (asks_by (style_of wiring.now) header block.now)) }
{
    match wiring.style() {
        Style::Separate4 => AnswerStage::ReplyMarkLoad,
        _ => done_stage(wiring, header, block),
    }
}

fn after_ack(style: Style) -> AnswerStage
    ensures { result ≡ after_ack style }
{
    match style {
        Style::Headed => AnswerStage::TakeHeader,
        _ => AnswerStage::TakeBlock(0),
    }
}

fn after_take(acknowledges: bool, style: Style) -> AnswerStage
    ensures { result ≡ after_take acknowledges style }
{
    if acknowledges {
        AnswerStage::TakeAckLoad
    } else {
        after_ack(style)
    }
}

fn after_error(style: Style) -> AnswerStage
    ensures { result ≡ after_error style }
{
    match style {
        Style::Headed => AnswerStage::ReplyHeader,
        Style::Joined4 | Style::Separate4 => AnswerStage::ReplyUpdateLoad,
        _ => AnswerStage::ReplyMarkLoad,
    }
}

fn after_reply(tells: bool, style: Style) -> AnswerStage
    ensures { result ≡ after_reply tells style }
{
    if tells {
        AnswerStage::ReplyError
    } else {
        after_error(style)
    }
}

// The stage that stores the next word that changed, or the one after the block.
fn reply_stage(from: usize, wiring: &Wiring, out: &[u64], loaded: &[u64]) -> AnswerStage
    requires order { from ≤ length out.now }
    requires same { length out.now ≡ length loaded.now }
    requires most { length out.now < 2 ^ 32 }
    requires block { length out.now ≡ block_of wiring.now }
    requires heads { heads_of (style_of wiring.now) ≤ from }
    ensures place { AnswerPlace result wiring.now }
    ensures stage { result ≡ reply_stage from wiring.now out.now loaded.now }
{
    let next = next_changed(from, out, loaded);
    if next < out.len() {
        AnswerStage::ReplyBlock(next as u32)
    } else {
        after_reply(tells_error(wiring), wiring.style())
    }
}

fn after_close(asks: bool) -> AnswerStage
    ensures { result ≡ after_close asks }
{
    if asks {
        AnswerStage::CloseLine
    } else {
        AnswerStage::AnswerRest
    }
}

fn served_at(stage: AnswerStage) -> Option<AnswerOutcome>
    ensures { result ≡ served_at stage }
{
    match stage {
        AnswerStage::AnswerRest => Some(AnswerOutcome::Served),
        _ => None,
    }
}
