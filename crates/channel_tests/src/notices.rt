//! Subspaces of type 4, where the platform posts commands and the operating system handles them.
ghost use Rattle.std.specs.Prelude.{◌≡◌};
ghost use Rattle.pcc_steps.specs.Wires.{IsRight};
ghost use Rattle.channel_plain.specs.Standing.{HavePolls};

use crate::subspaces::{NO_LIMITS, NO_MASKS};
use crate::traces::{call, sides};
use channel_plain::{Asked, Side};
use pcc_exec::Bank;
use pcc_gas::Masks;
use pcc_io::{LineClock, NoMemory};
use pcc_notify::{NotifyPlain, weave_lines};
use pcc_steps::{Action, Wiring};
use std::alloc::Global;

// Completion is bit 0 of the check register. There is no doorbell, no acknowledge register and no error register.
fn responder(joined: bool, update: Masks) -> Wiring
    requires { update.set ≡ 1 }
    ensures right { IsRight result }
    ensures kind { result.kind ≡ 4 }
    ensures room { result.room ≡ 8 }
{
    Wiring {
        kind: 4,
        id: 0,
        notify: false,
        joined,
        has_bell: false,
        has_ack: false,
        reports: false,
        room: 8,
        bell: NO_MASKS,
        ack: NO_MASKS,
        update,
        check_mask: 1,
        error_mask: 0,
    }
}

// What a test sees of a channel after its picks.
#[derive(Drop)]
struct Seen {
    text: Vec<u8>,
    notify: NotifyPlain<Bank, LineClock>,
    next: Action,
}

// The picks, and one more of a side.
fn woven(
    alloc: Global,
    wiring: Wiring,
    calls: &[Asked],
    letters: &[u8],
    next: Side,
) -> Result<Seen, NoMemory>
    requires right { IsRight wiring }
    requires kind { wiring.kind ≡ 4 }
    requires polls { HavePolls calls.now }
{
    let bank = Bank::new(alloc, wiring.room)?;
    let mut notify = NotifyPlain::new(alloc, wiring, bank, NO_LIMITS, LineClock::new(0, 10))?;
    let picks = sides(alloc, letters)?;
    let mut text = Vec::new(alloc);
    weave_lines(&mut text, &mut notify, calls, &picks)?;
    let line = notify.pick(next, calls)?;
    Ok(Seen {
        text,
        notify,
        next: line.action,
    })
}

const JOINED: &[u8] = b"p store 9 0000001000000005\n\
p store 10 0000000000000001\n\
p load 0 0000000000000001\n\
p store 0 0000000000000000\n\
p store 2 0000000000000001 -> posted\n\
o swap 2 0000000000000000 0000000000000001\n\
o load 8 0000000050434300\n\
o load 9 0000001000000005\n\
o load 10 0000000000000001\n\
o store 10 0000000000000000\n\
o load 0 0000000000000000\n\
o store 0 0000000000000001 -> served\n\
p load 0 0000000000000001\n\
p load 8 0000000050434300\n\
p load 9 0000001000000005\n\
p load 10 0000000000000000 -> done ok\n";

#[test]
fn a_command_of_the_platform_is_handled(rt: HostRuntime) {
    #[tactic(auto, using(crate::proofs::Polls::have_polls))]
    fn handled(alloc: Global) -> Result<Seen, NoMemory> {
        let update = Masks {
            preserve: 0xffff_fffe,
            set: 1,
        };
        woven(
            alloc,
            responder(true, update),
            &[call(alloc, 0, 16, &[1], 3)?],
            b"pppppooooooopppp",
            Side::Platform,
        )
    }
    let seen = handled(rt.alloc()).expect(&rt, "memory");
    assert!(rt; seen.text.as_slice() == JOINED);
    assert!(rt; seen.next == Action::Rest);
    if seen.notify.handled() != 1 {
        panic!(rt; "one command is handled");
    }
    let notice = seen.notify.notice(0).expect(&rt, "memory");
    assert!(rt;
        notice.code == 16 && notice.input.as_slice() == [1, 0, 0, 0, 0, 0, 0, 0].as_slice()
    );
    assert!(rt; seen.notify.journal().len() == 1 && seen.notify.notes().len() == 1);
    assert!(rt; seen.notify.pending().is_none());
}

// The first command as above, with the update register beside the check register; the second one is handled, and its reply isn't there yet.
const SEPARATE: &[u8] = b"p store 9 0000001000000005\n\
p store 10 0000000000000001\n\
p load 0 0000000000000001\n\
p store 0 0000000000000000\n\
p store 2 0000000000000001 -> posted\n\
o swap 2 0000000000000000 0000000000000001\n\
o load 8 0000000050434300\n\
o load 9 0000001000000005\n\
o load 10 0000000000000001\n\
o store 10 0000000000000000\n\
o load 6 0000000000000000\n\
o store 6 0000000000000001\n\
o load 0 0000000000000000\n\
o store 0 0000000000000001 -> served\n\
p load 0 0000000000000001\n\
p load 8 0000000050434300\n\
p load 9 0000001000000005\n\
p load 10 0000000000000000 -> done ok\n\
p store 10 0000000000000002\n\
p load 0 0000000000000001\n\
p store 0 0000000000000000\n\
p store 2 0000000000000001 -> posted\n\
o swap 2 0000000000000000 0000000000000001\n\
o load 8 0000000050434300\n\
o load 9 0000001000000005\n\
o load 10 0000000000000002\n";

#[test]
fn a_handled_command_is_in_flight(rt: HostRuntime) {
    #[tactic(auto, using(crate::proofs::Polls::have_polls))]
    fn handled(alloc: Global) -> Result<Seen, NoMemory> {
        let update = Masks {
            preserve: 0,
            set: 1,
        };
        woven(
            alloc,
            responder(false, update),
            &[call(alloc, 0, 16, &[1], 3)?, call(alloc, 1, 16, &[2], 3)?],
            b"pppppoooooooooppppppppoooo",
            Side::System,
        )
    }
    let seen = handled(rt.alloc()).expect(&rt, "memory");
    assert!(rt; seen.text.as_slice() == SEPARATE);
    assert!(rt; seen.next == Action::Store(10, 1));
    if seen.notify.handled() != 2 {
        panic!(rt; "two commands are handled");
    }
    let notice = seen.notify.notice(1).expect(&rt, "memory");
    assert!(rt;
        notice.code == 16 && notice.input.as_slice() == [2, 0, 0, 0, 0, 0, 0, 0].as_slice()
    );
    assert!(rt; seen.notify.journal().len() == 1 && seen.notify.executed().len() == 2);
    assert!(rt; seen.notify.pending().is_some());
}
