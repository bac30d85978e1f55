//! Both ends in whole turns, and the calls of one thread.
ghost use Rattle.std.specs.Prelude.{◌≡◌, true, IfOk};
ghost use Rattle.pcc_steps.specs.Wires.{IsRight};

use crate::subspaces::{NO_LIMITS, NO_MASKS, wired};
use channel_turns::{Outcome, PlainEnds, Turn, TurnChannel};
use pcc_exec::Bank;
use pcc_io::NoMemory;
use pcc_journal::JournalHead;
use pcc_steps::Wiring;
use std::alloc::Global;

// A generic subspace of 16 bytes, with no acknowledge register.
fn generic() -> Wiring
    ensures right { IsRight result }
    ensures id { result.id ≡ 0 }
    ensures kind { result.kind ≡ 0 }
    ensures reports { result.reports ≡ true }
    ensures room { result.room ≡ 16 }
{
    let wiring = wired(0, 16, false, false);
    Wiring {
        ack: NO_MASKS,
        ..wiring
    }
}

const HEAD: JournalHead = JournalHead {
    id: 0,
    kind: 0,
    cppc: false,
    room: 16,
    limits: NO_LIMITS,
    reports: true,
};

// A Bank on it, with a clock of 10 microseconds a reading.
fn channel(alloc: Global) -> Result<TurnChannel<Bank>, NoMemory>
    ensures { IfOk result (λ c. c.now.taken ≡ 0) }
{
    let bank = Bank::new(alloc, 16)?;
    TurnChannel::new(alloc, HEAD, generic(), bank, &[0; 16], 0, 10)
}

const ONE: [u8; 16] = [1, 0, 0, 0, 0, 0, 0, 0, 0, 0, 0, 0, 0, 0, 0, 0];

#[test]
fn a_late_reply_is_recorded_by_the_next_call(rt: HostRuntime) {
    let alloc = rt.alloc();
    let mut channel = channel(alloc).expect(&rt, "memory");
    assert!(rt; channel.call(alloc, 0, 16, &[1], 3, 3) == Ok(Outcome::TimedOut { looks: 3 }));
    assert!(rt; channel.call(alloc, 1, 16, &[2], 4, 3) == Ok(Outcome::Done { place: 1 }));
    assert!(rt; channel.pending().is_none());
    let records = channel.records();
    assert!(rt; records.len() == 2);
    assert!(rt; records[0].late && records[0].post == 0 && records[0].done == 10);
    assert!(rt;
        records[0].input.as_slice() == ONE.as_slice()
            && records[0].output.as_slice() == [0u8; 16].as_slice()
    );
    assert!(rt; !records[1].late && records[1].post == 20 && records[1].done == 30);
    assert!(rt; records[1].caller == 1 && records[1].output.as_slice() == ONE.as_slice());
}

#[test]
fn a_command_that_is_held_on_stays_pending(rt: HostRuntime) {
    let alloc = rt.alloc();
    let mut channel = channel(alloc).expect(&rt, "memory");
    assert!(rt; channel.call(alloc, 0, 16, &[1], 3, 100) == Ok(Outcome::TimedOut { looks: 3 }));
    assert!(rt; channel.call(alloc, 0, 16, &[2], 3, 0) == Ok(Outcome::StillPending { looks: 3 }));
    assert!(rt; channel.call(alloc, 0, 16, &[2], 3, 0) == Ok(Outcome::StillPending { looks: 3 }));
    assert!(rt; channel.records().len() == 0);
    match channel.pending() {
        None => assert!(rt; false),
        Some(command) => assert!(rt;
            command.code == 16 && command.post == 0 && command.input.as_slice() == ONE.as_slice()
        ),
    }
}

#[test]
fn what_is_left_of_a_hold_stands_for_the_next_call(rt: HostRuntime) {
    let alloc = rt.alloc();
    let mut channel = channel(alloc).expect(&rt, "memory");
    assert!(rt; channel.call(alloc, 0, 16, &[1], 2, 5) == Ok(Outcome::TimedOut { looks: 2 }));
    assert!(rt; channel.call(alloc, 0, 17, &[], 2, 0) == Ok(Outcome::StillPending { looks: 2 }));
    assert!(rt; channel.call(alloc, 0, 17, &[], 2, 0) == Ok(Outcome::Done { place: 1 }));
    let records = channel.records();
    assert!(rt; records[0].late && records[0].done == 10 && records[1].post == 20);
    assert!(rt; records[1].output.as_slice() == ONE.as_slice());
}

#[test]
fn calls_that_are_refused(rt: HostRuntime) {
    let alloc = rt.alloc();
    let mut channel = channel(alloc).expect(&rt, "memory");
    assert!(rt; channel.call(alloc, 0, 256, &[0; 17], 1, 0) == Ok(Outcome::BadCode { code: 256 }));
    assert!(rt;
        channel.call(alloc, 0, 16, &[0; 17], 1, 0) == Ok(Outcome::TooLong { len: 17, room: 16 })
    );
    channel.wait(100);
    assert!(rt; channel.call(alloc, 0, 17, &[], 1, 0) == Ok(Outcome::Done { place: 0 }));
    let records = channel.records();
    assert!(rt; records.len() == 1);
    assert!(rt; records[0].post == 100 && records[0].done == 110);
}

#[test]
fn both_ends_at_rest(rt: HostRuntime) {
    let alloc = rt.alloc();
    let bank = Bank::new(alloc, 16).expect(&rt, "memory");
    let mut ends = PlainEnds::new(alloc, HEAD, generic(), bank, &[0; 16], 0, 10).expect(
        &rt, "memory",
    );
    ends.hold(1);
    assert!(rt; ends.space() == [0u8; 16].as_slice() && ends.notes().len() == 0);
    assert!(rt; ends.turn() == Turn::Held { left: 0 });
    assert!(rt; ends.turn() == Turn::Idle);
    assert!(rt; ends.left() == 0 && !ends.in_flight() && !ends.given_up());
    assert!(rt; ends.journal().len() == 0 && ends.head().room == 16);
}
