//! Both machines along hand-made traces of words.
ghost use Rattle.std.specs.Prelude.{◌≡◌, ◌+◌, length, true};
ghost use Rattle.pcc_steps.specs.Asking.{IsWithin};
ghost use Rattle.pcc_steps.specs.Kinds.{IsHeaded};
ghost use Rattle.pcc_steps.specs.Wires.{IsRight, block_of};

use crate::subspaces::wired;
use Action::{Load, Store, Swap};
use pcc_exec::ExecStatus;
use pcc_gas::Masks;
use pcc_steps::{
    Action, AnswerOutcome, AnswerState, AskOutcome, AskState, Wiring, answer_block, answer_feed,
    answer_next, answer_ran, answer_space, answer_start, ask_begin, ask_block, ask_budget,
    ask_feed, ask_look, ask_next, opening_words, perform,
};

// A subspace with a space of 8 bytes and an 8-bit doorbell.
fn headed(kind: u8, notify: bool, has_ack: bool) -> Wiring
    requires { IsHeaded kind }
    ensures right { IsRight result }
    ensures room { result.room ≡ 8 }
{
    with_short_bell(wired(kind, 8, notify, has_ack))
}

// The same subspace with an 8-bit doorbell.
fn with_short_bell(wiring: Wiring) -> Wiring
    requires { IsRight wiring }
    ensures right { IsRight result }
    ensures room { result.room ≡ wiring.room }
{
    let bell = Masks {
        preserve: 0xfe,
        set: 1,
    };
    Wiring { bell, ..wiring }
}

// Takes these steps, as long as they are the machine's next ones, and returns the outcome of the last one.
fn ask_along(ask: &mut AskState, steps: &[(Action, u64)]) -> Option<AskOutcome> {
    let mut told = None;
    for &(action, value) in steps {
        let next = ask_next(ask);
        if told.is_some() || next != action || next == Action::Rest {
            return None;
        }
        told = ask_feed(ask, value);
    }
    told
}

fn answer_along(answer: &mut AnswerState, steps: &[(Action, u64)]) -> Option<AnswerOutcome> {
    let mut told = None;
    for &(action, value) in steps {
        match answer_next(answer) {
            Action::Rest | Action::Execute { .. } => return None,
            next => {
                if told.is_some() || next != action {
                    return None;
                }
            }
        }
        told = answer_feed(answer, value);
    }
    told
}

// The device finds this command and leaves this reply.
fn executes(
    answer: &mut AnswerState,
    code: u32,
    input: &[u8],
    reply: &[u8],
    status: ExecStatus,
) -> bool
    ensures { answer.new.wiring ≡ answer.old.wiring }
{
    match answer_next(answer) {
        Action::Execute { code: next } => {
            if next != code {
                return false;
            }
        }
        _ => return false,
    }
    let space = answer_space(answer);
    if *space != *input || space.len() != reply.len() {
        return false;
    }
    space.copy_from_slice(reply);
    answer_ran(answer, status);
    true
}

#[test]
fn a_command_with_a_notification_is_posted_answered_and_drained(rt: HostRuntime) {
    let wiring = headed(0, true, false);
    let mut ask = AskState::new(rt.alloc(), wiring, &[0; 8]).expect(&rt, "memory");
    let mut answer = AnswerState::new(rt.alloc(), wiring).expect(&rt, "memory");
    ask_budget(&mut ask, 3);
    ask_begin(&mut ask, 16, &[1, 2]);
    let posted = [
        (Store(8, 0x201), 0),
        (Store(0, 0x0000_8010_5043_4300), 0),
        (Load(1), 0x70),
        (Store(1, 0x71), 0),
        (Store(2, 1), 0),
    ];
    assert!(rt; ask_along(&mut ask, &posted) == Some(AskOutcome::Posted));
    assert!(rt; ask.in_flight() && ask.posts() == 1 && ask.steps() == 5);
    answer_start(&mut answer);
    let taken = [
        (Swap(2, 0), 1),
        (Load(0), 0x0000_8010_5043_4300),
        (Load(8), 0x201),
    ];
    assert!(rt; answer_along(&mut answer, &taken).is_none());
    assert!(rt;
        executes(
            &mut answer,
            16,
            &[1, 2, 0, 0, 0, 0, 0, 0],
            &[9, 0, 0, 0, 0, 0, 0, 7],
            ExecStatus::Good
        )
    );
    let served = [
        (Store(8, 0x0700_0000_0000_0009), 0),
        (Store(0, 0x0001_8010_5043_4300), 0),
        (Store(4, 1), 0),
    ];
    assert!(rt; answer_along(&mut answer, &served) == Some(AnswerOutcome::Served));
    assert!(rt; answer.steps() == 6 && answer_next(&answer) == Action::Rest);
    if !ask.in_flight() || ask.looks() >= ask.budget() || ask_next(&ask) != Action::Rest {
        panic!(rt; "a look can begin");
    }
    ask_look(&mut ask);
    let drained = [
        (Load(0), 0x0001_8010_5043_4300),
        (Load(8), 0x0700_0000_0000_0009),
        (Load(4), 1),
        (Store(4, 0), 0),
    ];
    assert!(rt; ask_along(&mut ask, &drained) == Some(AskOutcome::Drained { error: false }));
    assert!(rt; ask.space() == [9, 0, 0, 0, 0, 0, 0, 7].as_slice() && !ask.in_flight());
}

#[test]
fn a_look_that_sees_clear_leaves_the_command_in_flight(rt: HostRuntime) {
    let wiring = headed(0, false, false);
    let mut ask = AskState::new(rt.alloc(), wiring, &[0; 8]).expect(&rt, "memory");
    let mut answer = AnswerState::new(rt.alloc(), wiring).expect(&rt, "memory");
    ask_budget(&mut ask, 3);
    ask_begin(&mut ask, 16, &[1, 2]);
    let posted = [
        (Store(8, 0x201), 0),
        (Store(0, 0x0000_0010_5043_4300), 0),
        (Load(1), 0),
        (Store(1, 1), 0),
        (Store(2, 1), 0),
    ];
    assert!(rt; ask_along(&mut ask, &posted) == Some(AskOutcome::Posted));
    if !ask.in_flight() || ask.looks() >= ask.budget() || ask_next(&ask) != Action::Rest {
        panic!(rt; "a look can begin");
    }
    ask_look(&mut ask);
    let clear = [(Load(0), 0x0000_0010_5043_4300)];
    assert!(rt; ask_along(&mut ask, &clear) == Some(AskOutcome::Clear));
    assert!(rt; ask.looks() == 1 && ask.in_flight() && ask.posts() == 1);
    answer_start(&mut answer);
    let taken = [
        (Swap(2, 0), 1),
        (Load(0), 0x0000_0010_5043_4300),
        (Load(8), 0x201),
    ];
    assert!(rt; answer_along(&mut answer, &taken).is_none());
    assert!(rt;
        executes(
            &mut answer,
            16,
            &[1, 2, 0, 0, 0, 0, 0, 0],
            &[0; 8],
            ExecStatus::Good
        )
    );
    let served = [(Store(8, 0), 0), (Store(0, 0x0001_0010_5043_4300), 0)];
    assert!(rt; answer_along(&mut answer, &served) == Some(AnswerOutcome::Served));
    if !ask.in_flight() || ask.looks() >= ask.budget() || ask_next(&ask) != Action::Rest {
        panic!(rt; "a look can begin");
    }
    ask_look(&mut ask);
    let drained = [(Load(0), 0x0001_0010_5043_4300), (Load(8), 0)];
    assert!(rt; ask_along(&mut ask, &drained) == Some(AskOutcome::Drained { error: false }));
    assert!(rt; ask.steps() == 8 && answer.steps() == 5);
}

#[test]
fn a_type_two_subspace_acknowledges_and_tells_errors(rt: HostRuntime) {
    let wiring = headed(2, true, true);
    let mut ask = AskState::new(rt.alloc(), wiring, &[0; 8]).expect(&rt, "memory");
    let mut answer = AnswerState::new(rt.alloc(), wiring).expect(&rt, "memory");
    ask_budget(&mut ask, 1);
    ask_begin(&mut ask, 18, &[1]);
    let posted = [
        (Store(8, 1), 0),
        (Store(0, 0x0000_8012_5043_4300), 0),
        (Load(1), 0),
        (Store(1, 1), 0),
        (Store(2, 1), 0),
    ];
    assert!(rt; ask_along(&mut ask, &posted) == Some(AskOutcome::Posted));
    answer_start(&mut answer);
    let taken = [
        (Swap(2, 0), 1),
        (Load(0), 0x0000_8012_5043_4300),
        (Load(8), 1),
    ];
    assert!(rt; answer_along(&mut answer, &taken).is_none());
    assert!(rt;
        executes(
            &mut answer,
            18,
            &[1, 0, 0, 0, 0, 0, 0, 0],
            &[1, 0, 0, 0, 0, 0, 0, 0],
            ExecStatus::Bad
        )
    );
    let served = [(Store(0, 0x0005_8012_5043_4300), 0), (Store(4, 1), 0)];
    assert!(rt; answer_along(&mut answer, &served) == Some(AnswerOutcome::Served));
    if answer_next(&answer) != Action::Rest {
        panic!(rt; "a run can begin");
    }
    answer_start(&mut answer);
    assert!(rt; answer_along(&mut answer, &[(Swap(2, 0), 0)]) == Some(AnswerOutcome::Idle));
    if !ask.in_flight() || ask.looks() >= ask.budget() || ask_next(&ask) != Action::Rest {
        panic!(rt; "a look can begin");
    }
    ask_look(&mut ask);
    let drained = [
        (Load(0), 0x0005_8012_5043_4300),
        (Load(8), 1),
        (Load(4), 1),
        (Store(4, 0), 0),
        (Load(5), 0xaf),
        (Store(5, 0xa3), 0),
    ];
    assert!(rt; ask_along(&mut ask, &drained) == Some(AskOutcome::Drained { error: true }));
    assert!(rt; ask.space() == [1, 0, 0, 0, 0, 0, 0, 0].as_slice());
}

#[test]
fn word_steps_on_a_plain_list(rt: HostRuntime) {
    let wiring = headed(0, false, false);
    let opening = opening_words(rt.alloc(), &wiring, &[1, 2, 0, 0, 0, 0, 0, 0]);
    let opening = opening.expect(&rt, "memory");
    let first = [0x0001_0000_5043_4300, 0, 0, 0, 0, 0, 0, 0, 0x201];
    assert!(rt; opening.as_slice() == first.as_slice());
    let mut words = [5, 6, 0, 8];
    assert!(rt; perform(&mut words, Store(2, 1)) == 0 && words == [5, 6, 1, 8]);
    assert!(rt; perform(&mut words, Swap(2, 0)) == 1 && words == [5, 6, 0, 8]);
    assert!(rt; perform(&mut words, Load(3)) == 8 && words == [5, 6, 0, 8]);
}

// A space of five words: the bytes change the words 0, 2 and 3.
const INPUT: [u8; 32] = [
    1, 2, 3, 3, 3, 3, 3, 3, 3, 3, 3, 3, 3, 3, 3, 3, 4, 3, 3, 3, 3, 3, 3, 3, 3, 3, 3, 3, 3, 3, 3, 5,
];

// Is it a word step on one of these words?
fn is_on(words: &[u64], action: Action) -> bool
    ensures { result ≡ true → IsWithin (length words.now) action }
{
    match action {
        Load(place) | Store(place, _) | Swap(place, _) => (place as usize) < words.len(),
        Action::Execute { .. } | Action::Rest => false,
    }
}

// Makes word steps until this one is next, or the run ends, and returns its outcome.
fn ask_until(words: &mut [u64], ask: &mut AskState, last: Action) -> Option<AskOutcome> {
    for _ in 0..40 {
        let next = ask_next(ask);
        if next == last || next == Action::Rest || !is_on(words, next) {
            return None;
        }
        let value = perform(words, next);
        let told = ask_feed(ask, value);
        if told.is_some() {
            return told;
        }
    }
    None
}

// The same for the answering machine, or until the device is next.
#[tactic(auto, using(pcc_steps::proofs::Wired::answer_wired))]
fn answer_until(words: &mut [u64], answer: &mut AnswerState, last: Action) -> Option<AnswerOutcome>
    ensures { answer.new.wiring ≡ answer.old.wiring }
{
    for _ in 0..40 {
        let next = answer_next(answer);
        match next {
            Action::Rest | Action::Execute { .. } => return None,
            _ => {
                if next == last || !is_on(words, next) {
                    return None;
                }
            }
        }
        let value = perform(words, next);
        let told = answer_feed(answer, value);
        if told.is_some() {
            return told;
        }
    }
    None
}

// Moves the words of the block at once, and returns the step that is next.
fn ask_moved(words: &mut [u64], ask: &mut AskState) -> Action {
    if words.len() != ask.wiring().words() as usize {
        return Action::Rest;
    }
    ask_block(words, ask);
    ask_next(ask)
}

#[tactic(auto, using(channel_turns::proofs::AnswerRuns::moves_wired))]
fn answer_moved(words: &mut [u64], answer: &mut AnswerState) -> Action
    requires { length words.old ≡ 8 + block_of answer.old.wiring }
    ensures { answer.new.wiring ≡ answer.old.wiring }
{
    answer_block(words, answer);
    answer_next(answer)
}

// Begins a look, where one may begin.
fn looks(ask: &mut AskState) -> bool {
    if !ask.in_flight() || ask.looks() >= ask.budget() || ask_next(ask) != Action::Rest {
        return false;
    }
    ask_look(ask);
    true
}

// Begins a post without bytes, where one may begin, and returns its first step.
fn posts_again(ask: &mut AskState) -> Option<Action> {
    if ask.in_flight() || ask.posts() >= 4096 || ask_next(ask) != Action::Rest {
        return None;
    }
    ask_begin(ask, 16, &[]);
    Some(ask_next(ask))
}

#[test]
fn words_that_the_asking_machine_moves_at_once(rt: HostRuntime) {
    let wiring = with_short_bell(wired(0, 40, false, false));
    let mut ask = AskState::new(rt.alloc(), wiring, &[3; 40]).expect(&rt, "memory");
    let mut stepped = AskState::new(rt.alloc(), wiring, &[3; 40]).expect(&rt, "memory");
    let mut words = [0; 13];
    let mut others = [0; 13];
    ask_budget(&mut ask, 3);
    ask_budget(&mut stepped, 3);
    ask_begin(&mut ask, 16, &INPUT);
    ask_begin(&mut stepped, 16, &INPUT);
    let last = Store(11, 0x0503_0303_0303_0303);
    assert!(rt; ask_moved(&mut words, &mut ask) == last);
    assert!(rt; ask_until(&mut others, &mut stepped, last).is_none());
    assert!(rt; ask_next(&stepped) == last && ask.steps() == 2 && stepped.steps() == 2);
    let stored = [
        0,
        0,
        0,
        0,
        0,
        0,
        0,
        0,
        0x0303_0303_0303_0201,
        0,
        0x0303_0303_0303_0304,
        0,
        0,
    ];
    assert!(rt; words == stored && others == stored);
    assert!(rt; ask_until(&mut words, &mut ask, Action::Rest) == Some(AskOutcome::Posted));
    assert!(rt; ask_until(&mut others, &mut stepped, Action::Rest) == Some(AskOutcome::Posted));
    assert!(rt; words == others && ask.steps() == 7 && stepped.steps() == 7);
    let reply = [0x0001_0010_5043_4300, 0, 0, 0, 0, 0, 0, 0, 5, 6, 7, 8, 9];
    words = reply;
    others = reply;
    assert!(rt; looks(&mut ask) && looks(&mut stepped));
    assert!(rt; ask_until(&mut words, &mut ask, Load(8)).is_none());
    assert!(rt; ask_moved(&mut words, &mut ask) == Load(12));
    assert!(rt; ask_until(&mut others, &mut stepped, Load(12)).is_none());
    assert!(rt; ask_next(&stepped) == Load(12) && ask.steps() == 12 && stepped.steps() == 12);
    let drained = AskOutcome::Drained { error: false };
    assert!(rt; ask_until(&mut words, &mut ask, Action::Rest) == Some(drained));
    assert!(rt; ask_until(&mut others, &mut stepped, Action::Rest) == Some(drained));
    assert!(rt; words == reply && others == reply && ask.space() == stepped.space());
    // what was loaded is what the next command is compared with
    let first = Store(0, 0x0000_0010_5043_4300);
    assert!(rt; posts_again(&mut ask) == Some(first));
}

// A reply of which the words 0, 2 and 3 differ from the input.
const REPLY: [u8; 40] = [
    9, 2, 3, 3, 3, 3, 3, 3, 3, 3, 3, 3, 3, 3, 3, 3, 3, 3, 3, 3, 3, 3, 3, 3, 3, 3, 3, 3, 3, 3, 3, 3,
    3, 3, 3, 3, 3, 3, 3, 3,
];

#[test]
fn words_that_the_answering_machine_moves_at_once(rt: HostRuntime) {
    let wiring = with_short_bell(wired(0, 40, false, false));
    let mut answer = AnswerState::new(rt.alloc(), wiring).expect(&rt, "memory");
    let mut stepped = AnswerState::new(rt.alloc(), wiring).expect(&rt, "memory");
    let command = [
        0x0000_0010_5043_4300,
        0,
        1,
        0,
        0,
        0,
        0,
        0,
        0x0303_0303_0303_0201,
        0x0303_0303_0303_0303,
        0x0303_0303_0303_0304,
        0x0503_0303_0303_0303,
        0x0303_0303_0303_0303,
    ];
    let mut words = command;
    let mut others = command;
    if words.len() != wiring.words() as usize {
        panic!(rt; "a block of five words");
    }
    answer_start(&mut answer);
    answer_start(&mut stepped);
    assert!(rt; answer_until(&mut words, &mut answer, Load(8)).is_none());
    assert!(rt; answer_moved(&mut words, &mut answer) == Load(12));
    assert!(rt; answer_until(&mut others, &mut stepped, Load(12)).is_none());
    assert!(rt; answer_next(&stepped) == Load(12) && answer.steps() == 6 && stepped.steps() == 6);
    assert!(rt; answer_until(&mut words, &mut answer, Action::Rest).is_none());
    assert!(rt; answer_until(&mut others, &mut stepped, Action::Rest).is_none());
    let mut input = [3; 40];
    input[..32].copy_from_slice(&INPUT);
    assert!(rt; executes(&mut answer, 16, &input, &REPLY, ExecStatus::Good));
    assert!(rt; executes(&mut stepped, 16, &input, &REPLY, ExecStatus::Good));
    let last = Store(11, 0x0303_0303_0303_0303);
    assert!(rt; answer_moved(&mut words, &mut answer) == last);
    assert!(rt; answer_until(&mut others, &mut stepped, last).is_none());
    assert!(rt; answer_next(&stepped) == last && answer.steps() == 9 && stepped.steps() == 9);
    let stored = [
        0x0000_0010_5043_4300,
        0,
        0,
        0,
        0,
        0,
        0,
        0,
        0x0303_0303_0303_0209,
        0x0303_0303_0303_0303,
        0x0303_0303_0303_0303,
        0x0503_0303_0303_0303,
        0x0303_0303_0303_0303,
    ];
    assert!(rt; words == stored && others == stored);
    let served = Some(AnswerOutcome::Served);
    assert!(rt; answer_until(&mut words, &mut answer, Action::Rest) == served);
    assert!(rt; answer_until(&mut others, &mut stepped, Action::Rest) == served);
    assert!(rt; words == others && answer.steps() == 11 && stepped.steps() == 11);
}
