//! The asking machine: it posts commands, and looks for their completion, one word step at a time (ACPI 6.5, 14.5).

ghost use Rattle.std.specs.Prelude.{◌≡◌, ◌↔◌, ◌<◌, ◌≤◌, ◌+◌, ◌-◌, ◌/◌, ◌^◌, length, true, false, IfOk, Some};
ghost use Rattle.pcc_history.specs.Channel.{over};
ghost use Rattle.pcc_steps.specs.declared.ask.AskStage.TheVariants.{AskRest, PostBlock, LookWord, LookBlock};
ghost use Rattle.pcc_steps.specs.declared.wiring.Action.TheVariants.{Rest};
ghost use Rattle.pcc_steps.specs.declared.ask.AskOutcome.TheVariants.{Clear, Drained};
ghost use Rattle.pcc_steps.specs.Kinds.{IsHeaded};
ghost use Rattle.pcc_steps.specs.Wires.{IsRight, block_of, sees_done, sent_header};
ghost use Rattle.pcc_steps.specs.Changes.{changes_from};
ghost use Rattle.pcc_steps.specs.Moves.{AskMoves, ask_moves};
ghost use Rattle.pcc_steps.specs.Asking.{Ask, AskOk, IsNewAsk, IsAskRunning, IsPosting, IsReading, IsWithin, ask_fed_at, ask_told_at, ask_next, ask_fed, ask_told, ask_begun, ask_looking, ask_budgeted, drained, after_block, block_stage, after_update, after_mark, after_bell, after_look};

use crate::block::{FIRST, fill_block, fill_opening, lay, load_words, next_changed};
use crate::counts::{rose, rose_by};
use crate::registers::{acknowledges, header_error, meets, sees_done, tells_error, update_place};
use crate::wiring::{Action, Style, Wiring, place};
use pcc_gas::masked;
use pcc_io::NoMemory;
use shmem_header::{bytes_into, header_word};
use std::alloc::Global;
use std::marker::Model;
use std::mem;

/// The next step of the asking machine, by its run.
#[derive(Clone, Copy, Debug, PartialEq, Eq)]
pub enum AskStage {
    /// No run is under way.
    AskRest,
    /// Store a word of the block.
    PostBlock(u32),
    /// Store the header in word 0.
    PostHeader,
    /// Load the update register, to write it.
    PostUpdateLoad,
    /// Store the update register.
    PostUpdateStore,
    /// Load word 0, to clear completion.
    PostMarkLoad,
    /// Store word 0 with completion clear.
    PostMarkStore,
    /// Load the doorbell register, to write it.
    PostBellLoad,
    /// Store the doorbell register.
    PostBellStore,
    /// Raise the doorbell line.
    PostLine,
    /// Load word 0, to look for completion.
    LookWord,
    /// Load the error register.
    LookError,
    /// Load a word of the block.
    LookBlock(u32),
    /// Load the interrupt line.
    LookLine,
    /// Lower the interrupt line.
    LookLineStore,
    /// Load the acknowledge register, to write it.
    LookAckLoad,
    /// Store the acknowledge register.
    LookAckStore,
}

/// How a run of the asking machine ended.
#[derive(Clone, Copy, Debug, PartialEq, Eq)]
pub enum AskOutcome {
    /// The command is in flight.
    Posted,
    /// The command isn't complete.
    Clear,
    /// The reply was taken; the command failed where `error` is true.
    Drained { error: bool },
}

/// The asking machine of a subspace.
#[derive(Drop)]
pub struct AskState {
    wiring: Wiring,
    stage: AskStage,
    kept: u64,
    code: u32,
    error: bool,
    sent: Vec<u64>,
    shown: Vec<u64>,
    loaded: Vec<u64>,
    input: Vec<u8>,
    space: Vec<u8>,
    in_flight: bool,
    looks: u32,
    budget: u32,
    posts: u32,
    steps: u64,
}

impl Model for AskState {
    ghost use Rattle.pcc_steps.specs.Asking.{Ask, AskOk};

    ghost Value = { Ask };

    ghost view = { λ s. record {
      wiring = s.wiring;
      stage = s.stage;
      kept = s.kept;
      code = s.code;
      error = s.error;
      sent = s.sent.items;
      shown = s.shown.items;
      loaded = s.loaded.items;
      input = s.input.items;
      space = s.space.items;
      in_flight = s.in_flight;
      looks = s.looks;
      budget = s.budget;
      posts = s.posts;
      steps = s.steps;
    } };

    ghost invariant = { λ s. AskOk (record {
      wiring = s.wiring;
      stage = s.stage;
      kept = s.kept;
      code = s.code;
      error = s.error;
      sent = s.sent.items;
      shown = s.shown.items;
      loaded = s.loaded.items;
      input = s.input.items;
      space = s.space.items;
      in_flight = s.in_flight;
      looks = s.looks;
      budget = s.budget;
      posts = s.posts;
      steps = s.steps;
    }) };
}

impl AskState {
    /// A machine at rest with nothing in flight, for this opening space.
    pub fn new(alloc: Global, wiring: Wiring, opening: &[u8]) -> Result<AskState, NoMemory>
        requires right { IsRight wiring }
        requires room { length opening.now ≡ wiring.room }
        ensures new { IfOk result (λ a. IsNewAsk a wiring opening.now) }
        ensures right { IfOk result AskOk }
    {
        let block = wiring.block() as usize;
        let mut shown = vec![in alloc; 0; block]?;
        let mut sent = vec![in alloc; 0; block]?;
        let loaded = vec![in alloc; 0; block]?;
        let mut space = vec![in alloc; 0; opening.len()]?;
        let mut input = vec![in alloc; 0; opening.len()]?;
        fill_opening(&wiring, opening, &mut shown);
        sent.copy_from_slice(&shown);
        space.copy_from_slice(opening);
        input.copy_from_slice(opening);
        Ok(AskState {
            wiring,
            stage: AskStage::AskRest,
            kept: 0,
            code: 0,
            error: false,
            sent,
            shown,
            loaded,
            input,
            space,
            in_flight: false,
            looks: 0,
            budget: 0,
            posts: 0,
            steps: 0,
        })
    }

    /// The space of the last reply, at first the opening space.
    pub fn space(&self) -> &[u8]
        ensures { result.now ≡ self.now.space }
    {
        &self.space
    }

    /// The looks that saw completion clear since the budget was set or the last command was posted.
    pub fn looks(&self) -> u32
        ensures { result ≡ self.now.looks }
    {
        self.looks
    }

    /// The looks that are allowed.
    pub fn budget(&self) -> u32
        ensures { result ≡ self.now.budget }
    {
        self.budget
    }

    /// The commands that were posted, at most 4,096.
    pub fn posts(&self) -> u32
        ensures { result ≡ self.now.posts }
    {
        self.posts
    }

    /// The wiring with which the machine was made.
    pub fn wiring(&self) -> &Wiring
        ensures { result.now ≡ self.now.wiring }
    {
        &self.wiring
    }

    /// Whether a command is in flight: posted, and not yet drained.
    pub fn in_flight(&self) -> bool
        ensures { result ≡ self.now.in_flight }
    {
        self.in_flight
    }

    /// The word steps taken, up to 2^64 - 1.
    pub fn steps(&self) -> u64
        ensures { result ≡ self.now.steps }
    {
        self.steps
    }
}

/// The next word step: `Rest` exactly when no run is under way.
#[tactic(auto, using(crate::proofs::Nexts::ask_rests, crate::proofs::Nexts::ask_within))]
#[inline(always)]
pub fn ask_next(ask: &AskState) -> Action
    ensures action { result ≡ ask_next ask.now }
    ensures rest { (ask_next ask.now ≡ Rest) ↔ (ask.now.stage ≡ AskRest) }
    ensures place { IsWithin (8 + block_of ask.now.wiring) (ask_next ask.now) }
    ensures right { AskOk ask.now }
{
    let wiring = &ask.wiring;
    match ask.stage {
        AskStage::AskRest => Action::Rest,
        AskStage::PostBlock(at) => Action::Store(place::BLOCK + at, ask.sent[at as usize]),
        AskStage::PostHeader => Action::Store(place::COMPLETION, header_of(wiring, ask.code)),
        AskStage::PostUpdateLoad => Action::Load(update_place(wiring.style())),
        AskStage::PostUpdateStore => {
            let word = masked(ask.kept, wiring.update.preserve, wiring.update.set);
            Action::Store(update_place(wiring.style()), word)
        }
        AskStage::PostMarkLoad => Action::Load(place::COMPLETION),
        AskStage::PostMarkStore => Action::Store(place::COMPLETION, ask.kept & !wiring.check_mask),
        AskStage::PostBellLoad => Action::Load(place::BELL),
        AskStage::PostBellStore => {
            let word = masked(ask.kept, wiring.bell.preserve, wiring.bell.set);
            Action::Store(place::BELL, word)
        }
        AskStage::PostLine => Action::Store(place::BELL_LINE, 1),
        AskStage::LookWord => Action::Load(place::COMPLETION),
        AskStage::LookError => Action::Load(place::ERROR),
        AskStage::LookBlock(at) => Action::Load(place::BLOCK + at),
        AskStage::LookLine => Action::Load(place::INTERRUPT),
        AskStage::LookLineStore => Action::Store(place::INTERRUPT, 0),
        AskStage::LookAckLoad => Action::Load(place::ACK),
        AskStage::LookAckStore => {
            let word = masked(ask.kept, wiring.ack.preserve, wiring.ack.set);
            Action::Store(place::ACK, word)
        }
    }
}

/// Sets the number of looks that are allowed, from 1 to 1,000,000, and forgets those that were made.
pub fn ask_budget(ask: &mut AskState, polls: u32)
    requires { ask.old.stage ≡ AskRest }
    ensures { ask.new ≡ ask_budgeted ask.old polls }
{
    ask.budget = polls;
    ask.looks = 0;
}

/// Begins a run that posts a command: its code, and the bytes that are laid over the front of the space. The code is
/// at most 255 for types 0 to 2.
#[tactic(auto, using(crate::proofs::Bits::code_fits, crate::proofs::Headers::over_long, crate::proofs::AskBegins::looks_rest))]
pub fn ask_begin(ask: &mut AskState, code: u32, bytes: &[u8])
    requires rests { ask.old.stage ≡ AskRest }
    requires free { ask.old.in_flight ≡ false }
    requires fits { length bytes.now ≤ ask.old.wiring.room }
    requires posts { ask.old.posts < 4096 }
    requires code { IsHeaded ask.old.wiring.kind → code < 256 }
    ensures { ask.new ≡ ask_begun ask.old code bytes.now }
{
    lay(&ask.space, bytes, &mut ask.input);
    fill_block(
        &ask.wiring,
        code,
        bytes.len() as u32,
        &ask.input,
        &mut ask.sent,
    );
    ask.code = code;
    ask.stage = block_stage(0, &ask.wiring, &ask.sent, &ask.shown);
}

/// Begins a run that looks for completion.
pub fn ask_look(ask: &mut AskState)
    requires rests { ask.old.stage ≡ AskRest }
    requires flies { ask.old.in_flight ≡ true }
    requires left { ask.old.looks < ask.old.budget }
    ensures { ask.new ≡ ask_looking ask.old }
{
    ask.stage = AskStage::LookWord;
}

/// Takes what the step found: the value of a load or a swap, any number for a store. Returns the outcome of the run, exactly
/// when this step ended it.
#[tactic(auto, using(crate::proofs::Nexts::clear_told))]
#[inline(always)]
pub fn ask_feed(ask: &mut AskState, value: u64) -> Option<AskOutcome>
    requires { IsAskRunning ask.old }
    ensures state { ask.new ≡ ask_fed ask.old value }
    ensures told { result ≡ ask_told ask.old value }
    ensures clear { (ask_told ask.old value ≡ Some Clear) ↔ ((ask.old.stage ≡ LookWord) × (sees_done ask.old.wiring value ≡ false)) }
{
    let told = feed(ask, value);
    ask.steps = rose(ask.steps);
    told
}

/// Moves the words of the block but the last one at once, where the run stores what changed or loads the block: so many word
/// steps, of which none ends the run. At another stage it does nothing.
#[inline(always)]
pub fn ask_block(words: &mut [u64], ask: &mut AskState)
    requires { length words.old ≡ 8 + block_of ask.old.wiring }
    ensures { AskMoves (ask_moves ask.old.stage ask.old) words.old ask.old words.new ask.new }
{
    match ask.stage {
        AskStage::PostBlock(from) => post_block(words, ask, from),
        AskStage::LookBlock(from) => look_block(words, ask, from),
        _ => {}
    }
}

// Stores the words that changed, but the last of them.
#[tactic(auto, using(crate::proofs::BlockMoves::posts_done))]
fn post_block(words: &mut [u64], ask: &mut AskState, from: u32)
    requires stage { ask.old.stage ≡ PostBlock from }
    requires long { length words.old ≡ 8 + block_of ask.old.wiring }
    ensures { AskMoves (changes_from (from + 1) ask.old.sent ask.old.shown) words.old ask.old words.new ask.new }
{
    let mut at = from as usize;
    let mut steps = ask.steps;
    for next in at + 1..ask.sent.len() {
        if ask.sent[next] != ask.shown[next] {
            words[FIRST + at] = ask.sent[at];
            steps = rose(steps);
            at = next;
        }
    }
    ask.stage = AskStage::PostBlock(at as u32);
    ask.steps = steps;
}

// Loads the words of the block before its last one.
fn look_block(words: &[u64], ask: &mut AskState, from: u32)
    requires stage { ask.old.stage ≡ LookBlock from }
    requires long { length words.now ≡ 8 + block_of ask.old.wiring }
    ensures { AskMoves (block_of ask.old.wiring - 1 - from) words.now ask.old words.now ask.new }
{
    let last = ask.wiring.block() - 1;
    load_words(words, from as usize, last as usize, &mut ask.loaded);
    ask.stage = AskStage::LookBlock(last);
    ask.steps = rose_by(ask.steps, last - from);
}

#[inline(always)]
fn feed(ask: &mut AskState, value: u64) -> Option<AskOutcome>
    ensures state { ask.new ≡ ask_fed_at ask.old.stage ask.old value }
    ensures told { result ≡ ask_told_at ask.old.stage ask.old value }
{
    match ask.stage {
        AskStage::AskRest => None,
        AskStage::LookWord => feed_completion(ask, value),
        AskStage::LookError
        | AskStage::LookBlock(_)
        | AskStage::LookLine
        | AskStage::LookLineStore
        | AskStage::LookAckLoad
        | AskStage::LookAckStore => feed_reply(ask, value),
        _ => feed_post(ask, value),
    }
}

// A step of a run that posts.
#[inline(always)]
fn feed_post(ask: &mut AskState, value: u64) -> Option<AskOutcome>
    requires { IsPosting ask.old.stage }
    ensures state { ask.new ≡ ask_fed_at ask.old.stage ask.old value }
    ensures told { result ≡ ask_told_at ask.old.stage ask.old value }
{
    let style = ask.wiring.style();
    match ask.stage {
        AskStage::PostBlock(at) => {
            ask.stage = block_stage(at as usize + 1, &ask.wiring, &ask.sent, &ask.shown);
        }
        AskStage::PostHeader => ask.stage = AskStage::PostBellLoad,
        AskStage::PostUpdateLoad => {
            ask.kept = value;
            ask.stage = AskStage::PostUpdateStore;
        }
        AskStage::PostUpdateStore => ask.stage = after_update(style),
        AskStage::PostMarkLoad => {
            ask.kept = value;
            ask.stage = AskStage::PostMarkStore;
        }
        AskStage::PostMarkStore => ask.stage = after_mark(style),
        AskStage::PostBellLoad => {
            ask.kept = value;
            ask.stage = AskStage::PostBellStore;
        }
        AskStage::PostBellStore => ask.stage = after_bell(style),
        AskStage::PostLine => {
            ask.stage = AskStage::AskRest;
            ask.in_flight = true;
            ask.looks = 0;
            ask.posts += 1;
            return Some(AskOutcome::Posted);
        }
        _ => unreachable!(),
    }
    None
}

// The first step of a look.
fn feed_completion(ask: &mut AskState, value: u64) -> Option<AskOutcome>
    requires { ask.old.stage ≡ LookWord }
    ensures state { ask.new ≡ ask_fed_at ask.old.stage ask.old value }
    ensures told { result ≡ ask_told_at ask.old.stage ask.old value }
{
    if !sees_done(&ask.wiring, value) {
        ask.stage = AskStage::AskRest;
        ask.looks += 1;
        return Some(AskOutcome::Clear);
    }
    ask.error = header_error(ask.wiring.style(), value);
    ask.stage = after_look(tells_error(&ask.wiring));
    None
}

// A step of a look that saw completion.
#[inline(always)]
fn feed_reply(ask: &mut AskState, value: u64) -> Option<AskOutcome>
    requires { IsReading ask.old.stage }
    ensures state { ask.new ≡ ask_fed_at ask.old.stage ask.old value }
    ensures told { result ≡ ask_told_at ask.old.stage ask.old value }
{
    match ask.stage {
        AskStage::LookError => {
            ask.error = meets(value, ask.wiring.error_mask);
            ask.stage = AskStage::LookBlock(0);
        }
        AskStage::LookBlock(at) => {
            ask.loaded[at as usize] = value;
            if at + 1 < ask.wiring.block() {
                ask.stage = AskStage::LookBlock(at + 1);
            } else if ask.wiring.notify {
                ask.stage = AskStage::LookLine;
            } else {
                return Some(drain(ask));
            }
        }
        AskStage::LookLine => {
            if value == 0 {
                return Some(drain(ask));
            }
            ask.stage = AskStage::LookLineStore;
        }
        AskStage::LookLineStore => {
            if !acknowledges(&ask.wiring) {
                return Some(drain(ask));
            }
            ask.stage = AskStage::LookAckLoad;
        }
        AskStage::LookAckLoad => {
            ask.kept = value;
            ask.stage = AskStage::LookAckStore;
        }
        AskStage::LookAckStore => return Some(drain(ask)),
        _ => unreachable!(),
    }
    None
}

// The reply becomes the space that is shown.
fn drain(ask: &mut AskState) -> AskOutcome
    requires looks { ask.old.looks ≤ ask.old.budget }
    requires posts { ask.old.posts ≤ 4096 }
    ensures state { ask.new ≡ drained ask.old }
    ensures told { result ≡ Drained ask.old.error }
{
    let heads = ask.wiring.style().heads() as usize;
    bytes_into(&ask.loaded[heads..], &mut ask.space);
    mem::swap(&mut ask.shown, &mut ask.loaded);
    ask.in_flight = false;
    ask.stage = AskStage::AskRest;
    AskOutcome::Drained { error: ask.error }
}

fn header_of(wiring: &Wiring, code: u32) -> u64
    requires { code < 256 }
    ensures { result ≡ sent_header wiring.now code 0 }
{
    header_word(code as u8, wiring.notify, 0, wiring.id)
}

// The stage that stores the next word that changed, or the one after the block.
fn block_stage(from: usize, wiring: &Wiring, block: &[u64], old: &[u64]) -> AskStage
    requires order { from ≤ length block.now }
    requires same { length block.now ≡ length old.now }
    requires most { length block.now < 2 ^ 32 }
    ensures { result ≡ block_stage from wiring.now block.now old.now }
{
    let next = next_changed(from, block, old);
    if next < block.len() {
        AskStage::PostBlock(next as u32)
    } else {
        after_block(wiring.style())
    }
}

fn after_block(style: Style) -> AskStage
    ensures { result ≡ after_block style }
{
    match style {
        Style::Headed => AskStage::PostHeader,
        Style::Joined3 | Style::Separate3 => AskStage::PostUpdateLoad,
        Style::Joined4 | Style::Separate4 => AskStage::PostMarkLoad,
        Style::Reduced5 => AskStage::PostBellLoad,
    }
}

fn after_update(style: Style) -> AskStage
    ensures { result ≡ after_update style }
{
    match style {
        Style::Separate3 => AskStage::PostMarkLoad,
        _ => AskStage::PostBellLoad,
    }
}

fn after_mark(style: Style) -> AskStage
    ensures { result ≡ after_mark style }
{
    match style {
        Style::Separate3 => AskStage::PostBellLoad,
        _ => AskStage::PostLine,
    }
}

fn after_bell(style: Style) -> AskStage
    ensures { result ≡ after_bell style }
{
    match style {
        Style::Reduced5 => AskStage::PostMarkLoad,
        _ => AskStage::PostLine,
    }
}

fn after_look(tells: bool) -> AskStage
    ensures { result ≡ after_look tells }
{
    if tells {
        AskStage::LookError
    } else {
        AskStage::LookBlock(0)
    }
}
