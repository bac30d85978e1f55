//! Each opened subspace gets its processors and its caps, and each processor its place.
ghost use Rattle.std.specs.Prelude.{◌≡◌, ◌<◌, ◌^◌, IfOk, OnOk, length, map};
ghost use Rattle.std.specs.List.{AllByRecursion};
ghost use Rattle.cpc_package.specs.declared.binding.Binding.{Binding};
ghost use Rattle.pcc_setup.specs.Equipment.{ArePlaces, IsHoused, cpus_on, equipped};
ghost use Rattle.pcc_setup.specs.declared.opening.Opened.{Opened};

use crate::equipment::{caps_on, cpus_on};
use crate::opening::Opened;
use crate::processor::place_of;
use cpc_package::Binding;
use pcc_io::{Items, NoMemory};
use pcc_script::CapLine;
use std::alloc::Global;

/// Where a processor is.
#[derive(Clone, Copy, Debug, PartialEq, Eq)]
pub struct CpuPlace {
    /// The place of its subspace among the opened ones.
    pub opened: u32,
    /// Its number among the processors of this subspace.
    pub cpu: u32,
}

/// The places of the processors, in the order of their lines.
pub type CpuPlaces = Items<CpuPlace>;

// Gives an opened subspace the processors and the caps with its ID.
fn equip(
    alloc: Global,
    one: &mut Opened,
    cpus: &[Binding],
    caps: &[CapLine],
) -> Result<(), NoMemory>
    ensures { OnOk result (one.new ≡ equipped cpus.now caps.now one.old) }
{
    let id = one.head.id;
    one.cpus = cpus_on(alloc, cpus, id)?;
    one.caps = caps_on(alloc, caps, id)?;
    Ok(())
}

/// Gives each opened subspace the processors and the caps with its ID.
pub fn equip_all(
    alloc: Global,
    opened: &mut Vec<Opened>,
    cpus: &[Binding],
    caps: &[CapLine],
) -> Result<(), NoMemory>
    ensures { IfOk result (λ ok. opened.new.items ≡ map (equipped cpus.now caps.now) opened.old.items) }
{
    for place in 0..opened.len() {
        equip(alloc, &mut opened[place], cpus, caps)?;
    }
    Ok(())
}

// How many of these processors are on the subspace with this ID.
fn count_on(cpus: &[Binding], id: u8) -> usize
    ensures { result ≡ length (cpus_on id cpus.now) }
{
    cpus.iter().filter(|cpu| cpu.subspace == id).count()
}

/// The place of each processor.
#[tactic(auto, using(crate::proofs::Housing::places_end, crate::proofs::Housing::place_fits, crate::proofs::Housing::unhoused))]
pub fn places_of(alloc: Global, opened: &[Opened], cpus: &[Binding]) -> Result<CpuPlaces, NoMemory>
    requires housed { AllByRecursion (IsHoused opened.now cpus.now) cpus.now }
    requires few { length opened.now < 2 ^ 32 }
    ensures { IfOk result (ArePlaces opened.now cpus.now) }
{
    let mut places = CpuPlaces::new(alloc);
    for cpu in 0..cpus.len() {
        let id = cpus[cpu].subspace;
        match place_of(opened, id) {
            Some(place) => places.push(CpuPlace {
                opened: place as u32,
                cpu: count_on(&cpus[..cpu], id) as u32,
            })?,
            // Each processor is bound to an opened controller.
            None => unreachable!(),
        }
    }
    Ok(places)
}
