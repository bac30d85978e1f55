//! The structure that an `open` line names is wired, or refused.
ghost use Rattle.std.specs.Prelude.{◌≡◌, ◌<◌, ◌∷◌, ◌++◌, [], None, Some, IfOk, IfSome, MatchResult, length, nat_le, option_map, slice_get, take};
ghost use Rattle.pcc_script.specs.declared.scenario.OpenLine.{OpenLine};
ghost use Rattle.pcc_setup.specs.Openings.{
  AllOpen,
  asks_on,
  head_by,
  image_of,
  is_cppc,
  line_fault,
  memories_by,
  opened_by,
  opened_with,
  opens_id,
};
ghost use Rattle.pcc_setup.specs.RefusalText.{IsRefusedFor};
ghost use Rattle.pcc_setup.specs.SetUps.{OpenRefused};
ghost use Rattle.pcc_wiring.specs.Wirings.{wiring_with};

use crate::refusal::{InputError, Refusal};
use cpc_package::Cpus;
use cppc_device::Cap;
use pcc_io::{Bytes, Items, NoMemory};
use pcc_journal::JournalHead;
use pcc_script::{Device, OpenLine, Opens};
use pcc_steps::Wiring;
use pcc_wiring::{Asks, WiringFault, asks_of, wiring_of};
use pcct_table::{Subspace, Table};
use rate_limit::Limits;
use std::alloc::Global;

/// Why a subspace isn't opened.
#[derive(Clone, Copy, Debug, PartialEq, Eq)]
pub enum OpenFault {
    /// The table has no structure with this ID.
    NoSubspace,
    /// An `open` line before it has this ID.
    OpenedTwice,
    /// The first fault of the structure.
    Unwired(WiringFault),
    /// The image of the registers is longer than the communication space.
    ImageLong,
}

/// The caps on the performance that a controller delivers, the first to begin first.
pub type Caps = Items<Cap>;

/// A subspace that is opened: the head of its journal, its wiring, and of a controller the first bytes of its registers, its processors and its caps
/// (none for a Bank).
#[derive(Drop)]
pub struct Opened {
    pub head: JournalHead,
    pub wiring: Wiring,
    pub image: Bytes,
    pub cpus: Cpus,
    pub caps: Caps,
}

/// The opened subspaces, in the order of their lines.
pub type OpenedList = Items<Opened>;

fn is_cppc(device: &Device) -> bool
    ensures { result ≡ is_cppc device.now }
{
    matches!(device, Device::Cppc { .. })
}

// The first bytes of the registers.
fn image_of(device: &Device) -> &[u8]
    ensures { result.now ≡ image_of device.now }
{
    match device {
        Device::Bank => b"",
        Device::Cppc { image } => image.as_slice(),
    }
}

// The head of the journal of a structure that is wired so, opened as this device.
fn head_by(device: &Device, wiring: &Wiring, subspace: &Subspace) -> JournalHead
    ensures { result ≡ head_by device.now wiring.now subspace.now }
{
    JournalHead {
        id: wiring.id,
        kind: wiring.kind,
        cppc: is_cppc(device),
        room: wiring.room,
        limits: Limits {
            turnaround: subspace.turnaround(),
            per_minute: subspace.rate(),
        },
        reports: wiring.reports,
    }
}

// The structure with this ID.
fn structure_of(table: &Table, id: u8) -> Option<&Subspace>
    ensures { option_map (λ s. s.now) result ≡ slice_get table.now.subspaces id }
{
    let place = id as usize;
    if place < table.subspaces.len() {
        Some(table.subspaces.at(place))
    } else {
        None
    }
}

// Whether some line opens this ID.
fn opens_id(opens: &[OpenLine], id: u8) -> bool
    ensures { result ≡ opens_id id opens.now }
{
    opens.iter().any(|o| o.id == id)
}

// The side that asks on a structure of this type, opened as this device.
fn asks_on(device: &Device, kind: u8) -> Asks
    ensures { result ≡ asks_on device.now kind }
{
    asks_of(kind, is_cppc(device))
}

/// A structure and its wiring.
#[derive(Clone, Copy)]
struct Wired<'a> {
    subspace: &'a Subspace,
    wiring: Wiring,
}

// The structure that the line at a place opens, or why it opens nothing.
fn wired_line<'a>(table: &'a Table, opens: &Opens, place: usize) -> Result<Wired<'a>, OpenFault>
    requires { place < length opens.now }
    ensures { MatchResult result
        (λ w. (line : OpenLine) × (slice_get opens.now place ≡ Some line) × (line_fault table.now (take place opens.now) line ≡ None)
        × (slice_get table.now.subspaces line.id ≡ Some w.subspace.now) × (w.wiring ≡ wiring_with line.id table.now.flags w.subspace.now))
        (λ fault. (line : OpenLine) × (slice_get opens.now place ≡ Some line) × (line_fault table.now (take place opens.now) line ≡ Some fault)) }
{
    let line = opens.at(place);
    let id = line.id;
    let Some(subspace) = structure_of(table, id) else {
        return Err(OpenFault::NoSubspace);
    };
    if opens_id(&opens.as_slice()[..place], id) {
        return Err(OpenFault::OpenedTwice);
    }
    let asks = asks_on(&line.device, subspace.kind());
    match wiring_of(subspace, id, table.flags, asks) {
        Ok(wiring) => {
            if image_of(&line.device).len() <= wiring.room as usize {
                Ok(Wired { subspace, wiring })
            } else {
                Err(OpenFault::ImageLong)
            }
        }
        Err(fault) => Err(OpenFault::Unwired(fault)),
    }
}

// A structure opened as a device, before it gets its processors and its caps.
fn opened_as(alloc: Global, device: &Device, wired: &Wired) -> Result<Opened, NoMemory>
    ensures { IfOk result (λ o. o ≡ record {
      head = head_by device.now wired.now.wiring wired.now.subspace.now;
      wiring = wired.now.wiring;
      image = image_of device.now;
      cpus = [];
      caps = [];
    }) }
{
    Ok(Opened {
        head: head_by(device, &wired.wiring, wired.subspace),
        wiring: wired.wiring,
        image: Bytes::from_vec(Vec::from_slice(alloc, image_of(device))?),
        cpus: Cpus::new(alloc),
        caps: Caps::new(alloc),
    })
}

/// What the lines open, or the first line that opens nothing.
#[tactic(auto, using(crate::proofs::Opens::none_open, crate::proofs::Opens::one_more_open, crate::proofs::Opens::one_more_opened, crate::proofs::Opens::all_opened, crate::proofs::Opens::first_wrong))]
pub fn open_all(alloc: Global, table: &Table, opens: &Opens) -> Result<Vec<Opened>, InputError>
    ensures { MatchResult result (λ v. (v.items ≡ opened_by table.now opens.now) × AllOpen table.now opens.now (length opens.now))
        (IsRefusedFor (OpenRefused table.now opens.now)) }
{
    let mut opened = Vec::new(alloc);
    for place in 0..opens.len() {
        match wired_line(table, opens, place) {
            Ok(wired) => opened.push(opened_as(alloc, &opens.at(place).device, &wired)?)?,
            Err(fault) => {
                let id = opens.at(place).id;
                return Err(InputError::Refused(Refusal::Open { id, fault }));
            }
        }
    }
    Ok(opened)
}

/// The ID, the base and the length of each opened memory.
#[tactic(auto, using(crate::proofs::Opens::one_more_memory, crate::proofs::Opens::no_memory, crate::proofs::Opens::all_memories))]
pub fn memories(
    alloc: Global,
    table: &Table,
    opens: &Opens,
) -> Result<Vec<(u8, u64, u64)>, NoMemory>
    ensures { IfOk result (λ v. v.items ≡ memories_by table.now opens.now) }
{
    let mut memories = Vec::new(alloc);
    for place in 0..opens.len() {
        let id = opens.at(place).id;
        if let Some(subspace) = structure_of(table, id) {
            memories.push((id, subspace.base(), subspace.memory_len()))?;
        }
    }
    Ok(memories)
}
