//! The wiring of a structure, or its first fault.
ghost use Rattle.std.specs.Prelude.{◌≡◌, ℕ, IfOk, None};
ghost use Rattle.pcct_table.specs.declared.subspace.Subspace.{Subspace};
ghost use Rattle.pcc_wiring.specs.declared.fault.Asks.{Asks};
ghost use Rattle.pcc_steps.specs.Wires.{IsRight};
ghost use Rattle.pcc_wiring.specs.Faults.{asks_of, fault_by, fault_of, masks_fault, opened_as, register_fault, registers_fault, is_asked_by, Tells, watched_fault, written_fault};
ghost use Rattle.pcc_wiring.specs.Roles.{roles_of};
ghost use Rattle.pcc_wiring.specs.Wirings.{are_joined, has_register, header_len, mask_of, masks_of, masks_or_none, reports_by, room_limit, room_of, wiring_with};

use crate::fault::{Asks, Role, WiringFault};
use crate::register::{cut, is_absent, is_plain, is_reachable};
use crate::roles::{Roles, Watched, Written, roles_of};
use pcc_gas::{Gas, Masks};
use pcc_steps::{Wiring, is_extended, is_headed, is_initiator, is_reduced, is_responder};
use pcct_table::Subspace;

/// How many bytes a communication space has at most.
const ROOM_LIMIT: u64 = 4096;

/// No bit is kept, and none is set.
const NO_MASKS: Masks = Masks {
    preserve: 0,
    set: 0,
};

// The bytes of the header at the front of the shared memory.
fn header_len(kind: u8) -> u64
    ensures { result ≡ header_len kind }
{
    if is_extended(kind) { 16 } else { 8 }
}

// The bytes of the communication space in a shared memory of this length.
fn room_for(kind: u8, len: u64) -> u32
    ensures { result ≡ room_of kind len }
{
    let words = len.saturating_sub(header_len(kind)) / 8 * 8;
    if words < ROOM_LIMIT {
        words as u32
    } else {
        ROOM_LIMIT as u32
    }
}

fn masks(register: &Written) -> Masks
    ensures { result ≡ masks_of register.now }
{
    Masks {
        preserve: cut(register.gas.width, register.preserve),
        set: cut(register.gas.width, register.set),
    }
}

fn masks_or_none(register: &Option<Written>) -> Masks
    ensures { result ≡ masks_or_none register.now }
{
    match register {
        Some(register) => masks(register),
        None => NO_MASKS,
    }
}

fn mask(register: &Option<Watched>) -> u64
    ensures { result ≡ mask_of register.now }
{
    match register {
        Some(register) => cut(register.gas.width, register.mask),
        None => 0,
    }
}

fn has_register(register: &Option<Written>) -> bool
    ensures { result ≡ has_register register.now }
{
    match register {
        Some(register) => !is_absent(register.gas),
        None => false,
    }
}

fn are_joined(roles: &Roles) -> bool
    ensures { result ≡ are_joined roles.now.check roles.now.update }
{
    match (roles.check, roles.update) {
        (Some(check), Some(update)) => {
            check.gas.space == update.gas.space && check.gas.address == update.gas.address
        }
        _ => false,
    }
}

fn reports(error: &Option<Watched>) -> bool
    ensures { result ≡ reports_by error.now }
{
    match error {
        Some(register) => {
            !is_absent(register.gas) && cut(register.gas.width, register.mask) != 0
        }
        None => true,
    }
}

// How a structure is wired, whether or not it has a fault.
fn wiring_with(subspace: &Subspace, roles: &Roles, id: u8, flags: u32) -> Wiring
    requires { roles.now ≡ roles_of subspace.now }
    ensures { result ≡ wiring_with id flags subspace.now }
{
    let kind = subspace.kind();
    Wiring {
        kind,
        id,
        notify: !is_reduced(kind) && flags % 2 == 1,
        joined: are_joined(roles),
        has_bell: !is_absent(roles.doorbell.gas),
        has_ack: has_register(&roles.acknowledge),
        reports: reports(&roles.error),
        room: room_for(kind, subspace.memory_len()),
        bell: masks(&roles.doorbell),
        ack: masks_or_none(&roles.acknowledge),
        update: masks_or_none(&roles.update),
        check_mask: mask(&roles.check),
        error_mask: mask(&roles.error),
    }
}

// Both tests of a register; one that may be absent passes them where it is.
fn register_test(role: Role, may_lack: bool, gas: Gas) -> Result<(), WiringFault>
    ensures { Tells result (register_fault role may_lack gas) }
{
    if may_lack && is_absent(gas) {
        return Ok(());
    }
    if !is_reachable(gas) {
        return Err(WiringFault::RegisterSpace { role });
    }
    if !is_plain(gas) {
        return Err(WiringFault::RegisterWidth { role });
    }
    Ok(())
}

fn written_test(role: Role, may_lack: bool, register: &Option<Written>) -> Result<(), WiringFault>
    ensures { Tells result (written_fault role may_lack register.now) }
{
    match register {
        Some(register) => register_test(role, may_lack, register.gas),
        None => Ok(()),
    }
}

fn watched_test(role: Role, may_lack: bool, register: &Option<Watched>) -> Result<(), WiringFault>
    ensures { Tells result (watched_fault role may_lack register.now) }
{
    match register {
        Some(register) => register_test(role, may_lack, register.gas),
        None => Ok(()),
    }
}

fn registers_test(kind: u8, roles: &Roles) -> Result<(), WiringFault>
    ensures { Tells result (registers_fault kind roles.now) }
{
    register_test(Role::Doorbell, is_responder(kind), roles.doorbell.gas)?;
    written_test(Role::Acknowledge, true, &roles.acknowledge)?;
    watched_test(Role::Check, false, &roles.check)?;
    written_test(Role::Update, false, &roles.update)?;
    watched_test(Role::Error, true, &roles.error)
}

fn masks_test(wiring: &Wiring) -> Result<(), WiringFault>
    ensures { Tells result (masks_fault wiring.now) }
{
    let update = wiring.update;
    if !is_headed(wiring.kind) && wiring.check_mask == 0 {
        return Err(WiringFault::NoCheckMask);
    }
    if is_initiator(wiring.kind)
        && wiring.joined
        && (update.preserve | update.set) & wiring.check_mask != 0
    {
        return Err(WiringFault::NeverClears);
    }
    if is_responder(wiring.kind) && wiring.joined && update.set & wiring.check_mask == 0 {
        return Err(WiringFault::NeverSets);
    }
    Ok(())
}

/// The side that asks on a structure of this type: the platform on type 4 where no controller of processor performance is opened (`cppc`),
/// else the operating system.
pub fn asks_of(kind: u8, cppc: bool) -> Asks
    ensures { result ≡ asks_of kind cppc }
{
    if is_responder(kind) && !cppc {
        Asks::Platform
    } else {
        Asks::System
    }
}

fn is_asked_by(kind: u8, asks: Asks) -> bool
    ensures { result ≡ is_asked_by kind asks }
{
    match asks {
        Asks::System => !is_responder(kind),
        Asks::Platform => is_responder(kind),
    }
}

// All tests of a structure that is wired so, in their order.
fn test(asks: Asks, len: u64, roles: &Roles, wiring: &Wiring) -> Result<(), WiringFault>
    ensures { Tells result (fault_by asks len roles.now wiring.now) }
{
    if !is_asked_by(wiring.kind, asks) {
        return Err(WiringFault::WrongRole);
    }
    if wiring.room == 0 {
        return Err(WiringFault::SpaceTooSmall { len });
    }
    registers_test(wiring.kind, roles)?;
    masks_test(wiring)
}

/// The wiring of a structure with this ID, in a table with these flags, where this side is to ask; or the first of its faults: an unknown type, the side, the
/// length of the shared memory, each register in the order of the roles (its space before its width), then completion that nobody could see,
/// clear or set. An acknowledge or an error register may be absent, and so may the doorbell of type 4. Masks are cut to the width of their own register.
#[tactic(auto, using(crate::proofs::Rights::known_fault))]
pub fn wiring_of(subspace: &Subspace, id: u8, flags: u32, asks: Asks) -> Result<Wiring, WiringFault>
    ensures exact { result ≡ opened_as (wiring_with id flags subspace.now) (fault_of asks subspace.now) }
    // A wiring that both ends can work with.
    ensures right { IfOk result IsRight }
{
    if let Subspace::Other(other) = subspace {
        return Err(WiringFault::UnknownType { kind: other.kind });
    }
    let roles = roles_of(subspace);
    let wiring = wiring_with(subspace, &roles, id, flags);
    test(asks, subspace.memory_len(), &roles, &wiring)?;
    Ok(wiring)
}

/// A structure without a fault has a wiring that both ends can work with, whatever its ID and the table's flags. It does nothing.
pub fn right_wirings()
    ensures { (asks : Asks) (id flags : ℕ) (s : Subspace) → fault_of asks s ≡ None → IsRight (wiring_with id flags s) }
{}
