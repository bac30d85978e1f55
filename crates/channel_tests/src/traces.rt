//! Traces of both ends on a plain list of words.
ghost use Rattle.std.specs.Prelude.{◌≡◌, IfOk};
ghost use Rattle.pcc_steps.specs.Wires.{IsRight};
ghost use Rattle.channel_plain.specs.Standing.{HavePolls};

use crate::subspaces::{NO_LIMITS, wired};
use channel_plain::{Asked, Plain, Side, trace_lines, weave};
use pcc_exec::Bank;
use pcc_io::{Bytes, LineClock, NoMemory};
use pcc_steps::Wiring;
use rate_limit::Limits;
use std::alloc::Global;

pub fn call(
    alloc: Global,
    caller: u32,
    code: u32,
    bytes: &[u8],
    polls: u32,
) -> Result<Asked, NoMemory>
    ensures { IfOk result (λ c. c.polls ≡ polls) }
{
    Ok(Asked {
        caller,
        code,
        bytes: Bytes::from_vec(Vec::from_slice(alloc, bytes)?),
        polls,
    })
}

pub fn sides(alloc: Global, letters: &[u8]) -> Result<Vec<Side>, NoMemory> {
    let mut sides = Vec::new(alloc);
    for letter in letters {
        sides.push(if *letter == b'o' {
            Side::System
        } else {
            Side::Platform
        })?;
    }
    Ok(sides)
}

fn text_of(
    alloc: Global,
    wiring: Wiring,
    limits: Limits,
    calls: &[Asked],
    letters: &[u8],
) -> Result<Vec<u8>, NoMemory>
    requires right { IsRight wiring }
    requires polls { HavePolls calls.now }
{
    let bank = Bank::new(alloc, wiring.room)?;
    let mut plain = Plain::new(alloc, wiring, bank, limits, LineClock::new(0, 10))?;
    let picks = sides(alloc, letters)?;
    let trace = weave(alloc, &mut plain, calls, &picks)?;
    trace_lines(alloc, &trace)
}

const A_COMMAND_IS_POSTED_EXECUTED_AND_DRAINED: &[u8] = b"o store 8 0000000000000201\n\
o store 0 0000001050434300\n\
o load 1 0000000000000000\n\
o store 1 0000000000000001\n\
o store 2 0000000000000001 -> posted\n\
p swap 2 0000000000000000 0000000000000001\n\
p load 0 0000001050434300\n\
p load 8 0000000000000201\n\
p store 8 0000000000000000\n\
p store 0 0001001050434300 -> served\n\
o load 0 0001001050434300\n\
o load 8 0000000000000000 -> done ok\n";

#[test]
fn a_command_is_posted_executed_and_drained(rt: HostRuntime) {
    #[tactic(auto, using(crate::proofs::Polls::have_polls))]
    fn text(alloc: Global) -> Result<Vec<u8>, NoMemory> {
        text_of(
            alloc,
            wired(0, 8, false, false),
            NO_LIMITS,
            &[call(alloc, 0, 16, &[1, 2], 3)?],
            b"ooooopppppoo",
        )
    }
    assert!(rt;
        text(rt.alloc()).expect(&rt, "memory").as_slice()
            == A_COMMAND_IS_POSTED_EXECUTED_AND_DRAINED
    );
}

const WITH_A_NOTIFICATION: &[u8] = b"o store 8 0000000000000201\n\
o store 0 0000801050434300\n\
o load 1 0000000000000000\n\
o store 1 0000000000000001\n\
o store 2 0000000000000001 -> posted\n\
p swap 2 0000000000000000 0000000000000001\n\
p load 0 0000801050434300\n\
p load 8 0000000000000201\n\
p store 8 0000000000000000\n\
p store 0 0001801050434300\n\
p store 4 0000000000000001 -> served\n\
p swap 2 0000000000000000 0000000000000000 -> idle\n\
o load 0 0001801050434300\n\
o load 8 0000000000000000\n\
o load 4 0000000000000001\n\
o store 4 0000000000000000 -> done ok\n";

#[test]
fn with_a_notification(rt: HostRuntime) {
    #[tactic(auto, using(crate::proofs::Polls::have_polls))]
    fn text(alloc: Global) -> Result<Vec<u8>, NoMemory> {
        text_of(
            alloc,
            wired(0, 8, true, false),
            NO_LIMITS,
            &[call(alloc, 0, 16, &[1, 2], 3)?],
            b"ooooopppppppoooo",
        )
    }
    assert!(rt; text(rt.alloc()).expect(&rt, "memory").as_slice() == WITH_A_NOTIFICATION);
}

const WITH_AN_ACKNOWLEDGE_REGISTER: &[u8] = b"o store 8 0000000000000201\n\
o store 0 0000801050434300\n\
o load 1 0000000000000000\n\
o store 1 0000000000000001\n\
o store 2 0000000000000001 -> posted\n\
p swap 2 0000000000000000 0000000000000001\n\
p load 0 0000801050434300\n\
p load 8 0000000000000201\n\
p store 8 0000000000000000\n\
p store 0 0001801050434300\n\
p store 4 0000000000000001 -> served\n\
p swap 2 0000000000000000 0000000000000000 -> idle\n\
o load 0 0001801050434300\n\
o load 8 0000000000000000\n\
o load 4 0000000000000001\n\
o store 4 0000000000000000\n\
o load 5 0000000000000000\n\
o store 5 0000000000000003 -> done ok\n";

#[test]
fn with_an_acknowledge_register(rt: HostRuntime) {
    #[tactic(auto, using(crate::proofs::Polls::have_polls))]
    fn text(alloc: Global) -> Result<Vec<u8>, NoMemory> {
        text_of(
            alloc,
            wired(2, 8, true, true),
            NO_LIMITS,
            &[call(alloc, 0, 16, &[1, 2], 3)?],
            b"ooooopppppppoooooo",
        )
    }
    assert!(rt; text(rt.alloc()).expect(&rt, "memory").as_slice() == WITH_AN_ACKNOWLEDGE_REGISTER);
}

const GIVEN_UP_KEPT_WAITING_DRAINED_LATE: &[u8] = b"o store 8 0000000000000201\n\
o store 0 0000001050434300\n\
o load 1 0000000000000000\n\
o store 1 0000000000000001\n\
o store 2 0000000000000001 -> posted\n\
o load 0 0000001050434300 -> timed out 1\n\
o load 0 0000001050434300 -> clear 1\n\
o load 0 0000001050434300 -> still pending 2\n\
p swap 2 0000000000000000 0000000000000001\n\
p load 0 0000001050434300\n\
p load 8 0000000000000201\n\
p store 8 0000000000000000\n\
p store 0 0001001050434300 -> served\n\
o load 0 0001001050434300\n\
o load 8 0000000000000000 -> late ok\n\
o store 8 0000000000000003\n\
o store 0 0000001050434300\n\
o load 1 0000000000000001\n\
o store 1 0000000000000001\n\
o store 2 0000000000000001 -> posted\n";

#[test]
fn given_up_kept_waiting_drained_late(rt: HostRuntime) {
    #[tactic(auto, using(crate::proofs::Polls::have_polls))]
    fn text(alloc: Global) -> Result<Vec<u8>, NoMemory> {
        text_of(
            alloc,
            wired(0, 8, false, false),
            NO_LIMITS,
            &[
                call(alloc, 0, 16, &[1, 2], 1)?,
                call(alloc, 1, 16, &[], 2)?,
                call(alloc, 2, 16, &[3], 4)?,
            ],
            b"oooooooopppppooooooo",
        )
    }
    assert!(rt;
        text(rt.alloc()).expect(&rt, "memory").as_slice() == GIVEN_UP_KEPT_WAITING_DRAINED_LATE
    );
}

const CALLS_WITHOUT_A_STEP: &[u8] = b"o bad code 256\n\
o too long 9 8\n\
o store 0 0000001150434300\n\
o load 1 0000000000000000\n\
o store 1 0000000000000001\n\
o store 2 0000000000000001 -> posted\n\
p swap 2 0000000000000000 0000000000000001\n\
p load 0 0000001150434300\n\
p load 8 0000000000000000\n\
p store 0 0001001150434300 -> served\n\
p swap 2 0000000000000000 0000000000000000 -> idle\n\
o load 0 0001001150434300\n\
o load 8 0000000000000000 -> done ok\n\
o too soon 20 510\n\
o rest\n";

#[test]
fn calls_without_a_step(rt: HostRuntime) {
    #[tactic(auto, using(crate::proofs::Polls::have_polls))]
    fn text(alloc: Global) -> Result<Vec<u8>, NoMemory> {
        let limits = Limits {
            turnaround: 500,
            per_minute: 0,
        };
        let calls = [
            call(alloc, 0, 256, &[], 1)?,
            call(alloc, 0, 16, &[0; 9], 1)?,
            call(alloc, 0, 17, &[], 1)?,
            call(alloc, 0, 17, &[], 1)?,
        ];
        text_of(
            alloc,
            wired(0, 8, false, false),
            limits,
            &calls,
            b"oooooopppppoooo",
        )
    }
    assert!(rt; text(rt.alloc()).expect(&rt, "memory").as_slice() == CALLS_WITHOUT_A_STEP);
}
