//! A subspace of types 0 to 2 that the machines and both ends are tried on.
ghost use Rattle.std.specs.Prelude.{◌≡◌, ◌≤◌, ◌%◌, true};
ghost use Rattle.pcc_steps.specs.Kinds.{IsHeaded};
ghost use Rattle.pcc_steps.specs.Wires.{IsRight};

use pcc_gas::Masks;
use pcc_steps::Wiring;
use rate_limit::Limits;

pub const NO_LIMITS: Limits = Limits {
    turnaround: 0,
    per_minute: 0,
};

/// A register that stays as it is.
pub const NO_MASKS: Masks = Masks {
    preserve: 0,
    set: 0,
};

/// Its space has this many bytes. The doorbell's lowest bit is set, and the others are kept; the acknowledge register keeps four bits and sets two.
pub fn wired(kind: u8, room: u32, notify: bool, has_ack: bool) -> Wiring
    requires kind { IsHeaded kind }
    requires least { 8 ≤ room }
    requires most { room ≤ 4096 }
    requires whole { room % 8 ≡ 0 }
    ensures right { IsRight result }
    ensures kind { result.kind ≡ kind }
    ensures id { result.id ≡ 0 }
    ensures reports { result.reports ≡ true }
    ensures room { result.room ≡ room }
{
    Wiring {
        kind,
        id: 0,
        notify,
        joined: false,
        has_bell: true,
        has_ack,
        reports: true,
        room,
        bell: Masks {
            preserve: 0xffff_fffe,
            set: 1,
        },
        ack: Masks {
            preserve: 0xf0,
            set: 3,
        },
        update: NO_MASKS,
        check_mask: 0,
        error_mask: 0,
    }
}
