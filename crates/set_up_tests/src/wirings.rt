//! The opening checks of a structure, and its wiring.
use pcc_gas::{Gas, Masks};
use pcc_steps::Wiring;
use pcc_wiring::{Asks, Overlap, Role, WiringFault, opened_apart, place_of, wiring_of};
use pcct_table::{Subspace, Type5, Type34};

const ABSENT: Gas = Gas {
    space: 0,
    width: 0,
    offset: 0,
    access: 0,
    address: 0,
};

fn register(width: u8, address: u64) -> Gas {
    Gas {
        space: 0,
        width,
        offset: 0,
        access: 3,
        address,
    }
}

// An extended subspace whose check register is its update register, with no error register.
fn joined() -> Type34 {
    Type34 {
        interrupt: 0,
        interrupt_flags: 0,
        reserved: [0],
        base: 0x8000_0000,
        length: 32,
        doorbell: register(32, 0xfed0_0000),
        preserve: 0xffff_fffe,
        write: 1,
        latency: 1000,
        rate: 0,
        turnaround: 0,
        ack: ABSENT,
        ack_preserve: 0,
        ack_set: 0,
        reserved2: [0; 8],
        check: register(32, 0xfed1_0000),
        check_mask: 1,
        update: register(32, 0xfed1_0000),
        update_preserve: 0xffff_fffe,
        update_set: 0,
        error: ABSENT,
        error_mask: 0,
    }
}

fn hardware() -> Type5 {
    Type5 {
        version: 0,
        base: 0x8000_0000,
        length: 16,
        doorbell: register(8, 178),
        preserve: 0x1fe,
        write: 0x101,
        check: register(8, 0xfed1_0000),
        check_mask: 0x101,
        error: register(32, 0xfed1_1000),
        error_mask: 2,
        latency: 0,
        turnaround: 0,
    }
}

fn initiator(t: Type34) -> Result<Wiring, WiringFault> {
    wiring_of(&Subspace::Initiator(t), 7, 1, Asks::System)
}

fn responder(t: Type34) -> Result<Wiring, WiringFault> {
    wiring_of(&Subspace::Responder(t), 7, 1, Asks::Platform)
}

#[test]
fn an_extended_subspace(rt: HostRuntime) {
    let none = Masks {
        preserve: 0,
        set: 0,
    };
    let wired = Wiring {
        kind: 3,
        id: 7,
        notify: true,
        joined: true,
        has_bell: true,
        has_ack: false,
        reports: false,
        room: 16,
        bell: Masks {
            preserve: 0xffff_fffe,
            set: 1,
        },
        ack: none,
        update: Masks {
            preserve: 0xffff_fffe,
            set: 0,
        },
        check_mask: 1,
        error_mask: 0,
    };
    assert!(rt; initiator(joined()) == Ok(wired));
    let silent = Type34 {
        doorbell: ABSENT,
        update_set: 1,
        ..joined()
    };
    let asked = Wiring {
        kind: 4,
        has_bell: false,
        bell: none,
        update: Masks {
            preserve: 0xffff_fffe,
            set: 1,
        },
        ..wired
    };
    assert!(rt; responder(silent) == Ok(asked));
}

#[test]
fn masks_are_cut_to_their_own_register(rt: HostRuntime) {
    let wired = wiring_of(&Subspace::HwRegister(hardware()), 0, 1, Asks::System);
    assert!(rt;
        matches!(
            wired,
            Ok(Wiring {
                notify: false,
                reports: true,
                room: 8,
                check_mask: 1,
                error_mask: 2,
                bell: Masks {
                    preserve: 0xfe,
                    set: 1
                },
                ..
            })
        )
    );
    // The check register has 8 bits and the update register at the same address 32.
    let narrow = Type34 {
        check: register(8, 0xfed1_0000),
        check_mask: 0x101,
        update_preserve: 0x100,
        ..joined()
    };
    assert!(rt;
        matches!(
            initiator(narrow),
            Ok(Wiring {
                joined: true,
                check_mask: 1,
                update: Masks {
                    preserve: 0x100,
                    set: 0
                },
                ..
            })
        )
    );
}

#[test]
fn the_first_fault(rt: HostRuntime) {
    let t = Type34 {
        length: 23,
        doorbell: ABSENT,
        check: register(12, 0),
        ..joined()
    };
    let asked = wiring_of(&Subspace::Responder(t), 7, 1, Asks::System);
    assert!(rt; asked == Err(WiringFault::WrongRole));
    assert!(rt; initiator(t) == Err(WiringFault::SpaceTooSmall { len: 23 }));
    let t = Type34 { length: 24, ..t };
    assert!(rt;
        initiator(t)
            == Err(WiringFault::RegisterWidth {
                role: Role::Doorbell
            })
    );
    assert!(rt; responder(t) == Err(WiringFault::RegisterWidth { role: Role::Check }));
    let t = Type34 {
        ack: Gas {
            space: 2,
            ..register(4, 8)
        },
        ..t
    };
    assert!(rt;
        responder(t)
            == Err(WiringFault::RegisterSpace {
                role: Role::Acknowledge
            })
    );
    let t = Type34 {
        update_preserve: 1,
        ..joined()
    };
    assert!(rt; initiator(t) == Err(WiringFault::NeverClears));
    assert!(rt; responder(t) == Err(WiringFault::NeverSets));
    let t = Type34 {
        check_mask: 1 << 32,
        ..t
    };
    assert!(rt; initiator(t) == Err(WiringFault::NoCheckMask));
}

#[test]
fn memories_that_meet(rt: HostRuntime) {
    let first = (4u8, 0x1000u64, 0x20u64);
    let second = (2u8, 0x101fu64, 1u64);
    let last = (9u8, u64::MAX, u64::MAX);
    assert!(rt; opened_apart(&[]) == Ok(()));
    assert!(rt; opened_apart(&[first, last, (2, 0x1020, 1)]) == Ok(()));
    assert!(rt; opened_apart(&[last, first, second, last]) == Err(Overlap { a: 4, b: 2 }));
    assert!(rt; opened_apart(&[last, (1, u64::MAX - 1, 2)]) == Err(Overlap { a: 9, b: 1 }));
}

#[test]
fn places_of_bytes(rt: HostRuntime) {
    let top = u64::MAX - 15;
    match wiring_of(&Subspace::HwRegister(hardware()), 0, 0, Asks::System) {
        Ok(wiring) => {
            assert!(rt; place_of(&wiring, top, top) == Some(8));
            assert!(rt; place_of(&wiring, top, u64::MAX) == Some(9));
            assert!(rt; place_of(&wiring, top, top - 1) == None);
            assert!(rt; place_of(&wiring, 0, 16) == None);
            let generic = Wiring { kind: 0, ..wiring };
            assert!(rt; place_of(&generic, top, top + 7) == Some(0));
            assert!(rt; place_of(&generic, top, u64::MAX) == Some(8));
        }
        Err(_) => assert!(rt; false),
    }
}
