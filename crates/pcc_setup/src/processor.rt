//! The package of each processor is bound to the controller that it names.
ghost use Rattle.std.specs.Prelude.{◌≡◌, ◌≤◌, ◌<◌, ◌^◌, ℕ, List, None, Some, IfSome, MatchOption, MatchResult, length, slice_get, slice_index_or};
ghost use Rattle.std.specs.List.{AllByRecursion, list_any};
ghost use Rattle.cpc_package.specs.Bindings.{ShareBit, binding_of, gas_of};
ghost use Rattle.cpc_package.specs.Entries.{entries_of, entry_at};
ghost use Rattle.pcc_setup.specs.Processors.{
  AreBound,
  Binds,
  CpuRefused,
  CpuWrong,
  HasSmallRoom,
  IfFault,
  IsFirstSharing,
  IsShared,
  Unbound,
  channel_of,
  controller_on,
  controls,
  entries_fault,
  named_subspace,
};
ghost use Rattle.pcc_setup.specs.RefusalText.{IsRefusedFor};
ghost use Rattle.pcc_setup.specs.declared.opening.Opened.{Opened};

use crate::opening::Opened;
use crate::package::{PackageError, whole_package};
use crate::refusal::{CpuFault, InputError, Refusal};
use cpc_package::{Binding, Cpc, Entry, bind, cpus_apart};
use pcc_script::Packages;
use std::alloc::Global;

/// The space of communication channels (ACPI 6.5, 5.2.3.2).
const PCC: u8 = 0x0a;

/// Why a package isn't bound.
#[derive(Clone, Copy, Debug, PartialEq, Eq)]
pub enum CpuError {
    /// The first fault.
    Fault(CpuFault),
    /// Memory ran out.
    NoMemory,
}

// Whether a subspace with this ID is opened for a controller.
fn controls(opened: &Opened, id: u8) -> bool
    ensures { result ≡ controls id opened.now }
{
    opened.head.cppc && opened.head.id == id
}

/// Whether some subspace with this ID is opened for a controller.
pub fn has_controller(opened: &[Opened], id: u8) -> bool
    ensures { result ≡ list_any (controls id) opened.now }
{
    opened.iter().any(|o| controls(o, id))
}

/// The place of the controller with this ID.
#[tactic(auto, using(crate::proofs::Checking::controller_more, crate::proofs::Checking::controller_hit, crate::proofs::Checking::controller_end))]
pub fn place_of(opened: &[Opened], id: u8) -> Option<usize>
    ensures { MatchOption result (controller_on id opened.now ≡ None)
        (λ place. (o : Opened) × (slice_get opened.now place ≡ Some o) × (controller_on id opened.now ≡ Some o)) }
{
    for place in 0..opened.len() {
        if controls(&opened[place], id) {
            return Some(place);
        }
    }
    None
}

// The subspace of an entry that is a register in the space of communication channels.
fn channel_of(entry: Entry) -> Option<u8>
    ensures { result ≡ channel_of (gas_of entry) }
{
    let Entry::Register(register) = entry else {
        return None;
    };
    if register.gas.space == PCC {
        Some(register.gas.access)
    } else {
        None
    }
}

// The subspace of the first such register.
#[tactic(auto, unfolding(crate::specs::Processors::named_subspace), using(cpc_package::proofs::First::first_more, cpc_package::proofs::First::first_hit, cpc_package::proofs::First::first_end))]
fn named_subspace(cpc: &Cpc) -> Option<u8>
    ensures { result ≡ named_subspace (entries_of cpc.now) }
{
    for n in 0..cpc.entries() {
        if let Some(id) = channel_of(cpc.entry(n)) {
            return Some(id);
        }
    }
    None
}

// The binding of a package to the controller that it names.
#[tactic(auto, using(crate::proofs::Checking::no_subspace, crate::proofs::Checking::no_controller, crate::proofs::Checking::bound_in))]
fn bound_to(opened: &[Opened], cpc: &Cpc) -> Result<Binding, CpuError>
    requires { HasSmallRoom opened.now }
    ensures { MatchResult result
        (λ b. (entries_fault opened.now (entries_of cpc.now) ≡ None) × (b ≡ binding_of (entries_of cpc.now)))
        (IfFault (λ fault. entries_fault opened.now (entries_of cpc.now) ≡ Some fault)) }
{
    let Some(id) = named_subspace(cpc) else {
        return Err(CpuError::Fault(CpuFault::NotOpened));
    };
    let Some(place) = place_of(opened, id) else {
        return Err(CpuError::Fault(CpuFault::NotOpened));
    };
    match bind(cpc, opened[place].wiring.room) {
        Ok(binding) => Ok(binding),
        Err(fault) => Err(CpuError::Fault(CpuFault::Unfit(fault))),
    }
}

// The binding of a package's bytes.
fn bound(alloc: Global, opened: &[Opened], bytes: &[u8]) -> Result<Binding, CpuError>
    requires few { length bytes.now < 2 ^ 32 }
    requires small { HasSmallRoom opened.now }
    ensures { MatchResult result (Binds opened.now bytes.now) (IfFault (Unbound opened.now bytes.now)) }
{
    match whole_package(alloc, bytes) {
        Ok(cpc) => bound_to(opened, &cpc),
        Err(PackageError::Wrong(fault)) => Err(CpuError::Fault(CpuFault::Package(fault))),
        Err(PackageError::Trailing { at }) => Err(CpuError::Fault(CpuFault::Trailing { at })),
        Err(PackageError::NoMemory) => Err(CpuError::NoMemory),
    }
}

// The first of these processors that shares a register with another one.
#[tactic(auto, using(crate::proofs::Sharing::none_shares, crate::proofs::Sharing::one_more_apart, crate::proofs::Sharing::first_that_shares, crate::proofs::Sharing::all_apart))]
fn first_sharing(cpus: &[Binding], binding: &Binding) -> Option<usize>
    ensures { MatchOption result ((k : ℕ) (d : Binding) → k < length cpus.now → ShareBit (slice_index_or cpus.now k d) binding.now → ⊥)
        (IsFirstSharing cpus.now binding.now) }
{
    for cpu in 0..cpus.len() {
        if !cpus_apart(&cpus[cpu], binding) {
            return Some(cpu);
        }
    }
    None
}

// A binding that shares no register with others.
fn beside(before: &[Binding], binding: Binding) -> Result<Binding, CpuError>
    ensures { MatchResult result
        (λ b. (b ≡ binding) × ((k : ℕ) (d : Binding) → k < length before.now → ShareBit (slice_index_or before.now k d) binding → ⊥))
        (IfFault (IsShared before.now binding)) }
{
    match first_sharing(before, &binding) {
        Some(cpu) => Err(CpuError::Fault(CpuFault::Shares { cpu })),
        None => Ok(binding),
    }
}

// The binding of a processor that shares no register with those before it.
fn bound_beside(
    alloc: Global,
    opened: &[Opened],
    before: &[Binding],
    bytes: &[u8],
) -> Result<Binding, CpuError>
    requires few { length bytes.now < 2 ^ 32 }
    requires small { HasSmallRoom opened.now }
    ensures { MatchResult result
        (λ b. Binds opened.now bytes.now b × ((k : ℕ) (d : Binding) → k < length before.now → ShareBit (slice_index_or before.now k d) b → ⊥))
        (IfFault (CpuWrong opened.now before.now bytes.now)) }
{
    match bound(alloc, opened, bytes) {
        Ok(binding) => beside(before, binding),
        Err(error) => Err(error),
    }
}

/// The binding of each processor, or the first `cpu` line that isn't bound.
#[tactic(auto, using(crate::proofs::Bound::none_bound, crate::proofs::Checking::cpu_wrong, crate::proofs::Checking::cpus_end))]
pub fn bind_all(
    alloc: Global,
    opened: &[Opened],
    packages: &Packages,
) -> Result<Vec<Binding>, InputError>
    requires few { AllByRecursion (λ bytes. length bytes < 2 ^ 32) packages.now }
    requires small { HasSmallRoom opened.now }
    ensures { MatchResult result (λ v. AreBound opened.now packages.now v.items) (IsRefusedFor (CpuRefused opened.now packages.now)) }
{
    let mut cpus = Vec::new(alloc);
    for cpu in 0..packages.len() {
        match bound_beside(alloc, opened, &cpus, packages.at(cpu).as_slice()) {
            Ok(binding) => cpus.push(binding)?,
            Err(CpuError::Fault(fault)) => {
                return Err(InputError::Refused(Refusal::Cpu { cpu, fault }));
            }
            Err(CpuError::NoMemory) => return Err(InputError::NoMemory),
        }
    }
    Ok(cpus)
}
