//! What controllers begin with: their caps, and processors that are in their ranges.
ghost use Rattle.std.specs.Prelude.{◌≡◌, ◌<◌, ℕ, List, None, Some, IfOk, MatchBool, MatchOption, MatchResult, length, slice_get, take};
ghost use Rattle.std.specs.List.{AllByRecursion, list_all};
ghost use Rattle.cpc_package.specs.declared.binding.Binding.{Binding};
ghost use Rattle.pcc_setup.specs.Equipment.{
  AreCapsRight,
  CapRefused,
  IsStarting,
  StartInside,
  StartRefused,
  StartsInside,
  cap_of,
  caps_on,
  cpus_on,
  is_cap_right,
  is_elsewhere,
  registers_of,
};
ghost use Rattle.pcc_setup.specs.Processors.{controller_on};
ghost use Rattle.pcc_setup.specs.RefusalText.{IsRefusedFor};

use crate::opening::{Caps, Opened};
use crate::processor::{has_controller, place_of};
use crate::refusal::{InputError, Refusal};
use cpc_package::{Binding, Cpus};
use cppc_device::{Cap, StartOutside, opening, start_inside};
use pcc_io::NoMemory;
use pcc_script::CapLine;
use std::alloc::Global;

// Whether a cap is on another subspace, or begins after this one.
fn is_elsewhere(cap: &CapLine, earlier: &CapLine) -> bool
    ensures { result ≡ is_elsewhere cap.now earlier.now }
{
    earlier.id != cap.id || earlier.count < cap.count
}

// Whether a cap is elsewhere or begins later than each of these.
fn follows_all(cap: &CapLine, before: &[CapLine]) -> bool
    ensures { result ≡ list_all (is_elsewhere cap.now) before.now }
{
    before.iter().all(|earlier| is_elsewhere(cap, earlier))
}

// Whether a cap is on an opened controller, and begins after each earlier one on it.
fn is_cap_right(opened: &[Opened], before: &[CapLine], cap: &CapLine) -> bool
    ensures { result ≡ is_cap_right opened.now before.now cap.now }
{
    has_controller(opened, cap.id) && follows_all(cap, before)
}

/// Checks that each cap is right.
#[tactic(auto, using(crate::proofs::Checking::no_caps, crate::proofs::Checking::caps_end))]
pub fn check_caps(opened: &[Opened], caps: &[CapLine]) -> Result<(), InputError>
    ensures { MatchResult result (λ ok. AreCapsRight opened.now caps.now (length caps.now)) (IsRefusedFor (CapRefused opened.now caps.now)) }
{
    for index in 0..caps.len() {
        if !is_cap_right(opened, &caps[..index], &caps[index]) {
            return Err(InputError::Refused(Refusal::Cap { index }));
        }
    }
    Ok(())
}

// Whether a processor is in its range in the first registers of its controller.
fn starts_inside(alloc: Global, opened: &[Opened], cpu: &Binding) -> Result<bool, NoMemory>
    requires { IsStarting opened.now cpu.now }
    ensures { IfOk result (λ inside. MatchBool inside (StartsInside opened.now cpu.now) (StartsInside opened.now cpu.now → ⊥)) }
{
    let Some(place) = place_of(opened, cpu.subspace) else {
        return Ok(true);
    };
    let one = &opened[place];
    let registers = opening(alloc, one.wiring.room, one.image.as_slice())?;
    match start_inside(&[*cpu], &registers) {
        Ok(()) => Ok(true),
        Err(StartOutside { .. }) => Ok(false),
    }
}

/// Checks that each processor is in its range at first.
#[tactic(auto, using(crate::proofs::Checking::no_starts, crate::proofs::Checking::starts_end))]
pub fn check_starts(alloc: Global, opened: &[Opened], cpus: &[Binding]) -> Result<(), InputError>
    requires { AllByRecursion (IsStarting opened.now) cpus.now }
    ensures { MatchResult result (λ ok. StartInside opened.now cpus.now (length cpus.now)) (IsRefusedFor (StartRefused opened.now cpus.now)) }
{
    for cpu in 0..cpus.len() {
        if !starts_inside(alloc, opened, &cpus[cpu])? {
            return Err(InputError::Refused(Refusal::Start { cpu }));
        }
    }
    Ok(())
}

/// The processors of the subspace with this ID.
pub fn cpus_on(alloc: Global, cpus: &[Binding], id: u8) -> Result<Cpus, NoMemory>
    ensures { IfOk result (λ v. v ≡ cpus_on id cpus.now) }
{
    let mut own = Cpus::new(alloc);
    for cpu in cpus {
        if cpu.subspace == id {
            own.push(*cpu)?;
        }
    }
    Ok(own)
}

/// The caps on the subspace with this ID.
pub fn caps_on(alloc: Global, caps: &[CapLine], id: u8) -> Result<Caps, NoMemory>
    ensures { IfOk result (λ v. v ≡ caps_on id caps.now) }
{
    let mut own = Caps::new(alloc);
    for cap in caps {
        if cap.id == id {
            own.push(Cap {
                count: cap.count,
                value: cap.value,
            })?;
        }
    }
    Ok(own)
}
