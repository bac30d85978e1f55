//! Whether the performance that is asked of processors lies in their ranges (ACPI 6.5, 8.4.6.1.2).
ghost use Rattle.std.specs.Prelude.{◌≡◌, ◌<◌, ◌^◌, ◌↔◌, All, IsTrue, MatchResult, length};
ghost use Rattle.cpc_package.specs.Bindings.{CanRead};
ghost use Rattle.cppc_device.specs.Devices.{field_in};
ghost use Rattle.cppc_device.specs.Ranges.{Fits, InRange, IsStartOutside, Rises};

use cpc_package::{Binding, Source1, number_in};
use pcc_gas::field_get;

/// The first processor that isn't in its range.
#[derive(Clone, Copy, Debug, PartialEq, Eq)]
pub struct StartOutside {
    /// The processor's number.
    pub cpu: u32,
}

/// The number in a source that is a field.
pub fn field_in(source: Source1, space: &[u8]) -> Option<u64>
    requires { CanRead (length space.now) source }
    ensures { result ≡ field_in source space.now }
{
    match source {
        Source1::At(field) => Some(field_get(space, field)),
        Source1::Missing | Source1::Number(_) => None,
    }
}

/// Whether numbers don't fall. Those that aren't there are left out.

#[tactic(auto, using(crate::proofs::Chains::rises_start, crate::proofs::Chains::rises_more, crate::proofs::Chains::rises_other, crate::proofs::Chains::rises_hit, crate::proofs::Chains::rises_end))]
fn rises(numbers: &[Option<u64>]) -> bool
    ensures { IsTrue result ↔ Rises 0 numbers.now }
{
    let mut last = 0;
    for number in numbers {
        let Some(number) = *number else {
            continue;
        };
        if number < last {
            return false;
        }
        last = number;
    }
    true
}

/// Whether the lowest, the minimum, the desired, the maximum and the highest performance of a processor don't fall.
fn is_in_range(cpu: &Binding, space: &[u8]) -> bool
    requires { Fits (length space.now) cpu.now }
    ensures { IsTrue result ↔ InRange cpu.now space.now }
{
    rises(&[
        number_in(cpu.sources[5], space),
        field_in(cpu.sources[8], space),
        field_in(cpu.sources[7], space),
        field_in(cpu.sources[9], space),
        number_in(cpu.sources[2], space),
    ])
}

/// Whether all processors are in their ranges, or the first that isn't.
#[tactic(auto, using(crate::proofs::Chains::inside_start, crate::proofs::Chains::inside_more, crate::proofs::Chains::inside_out))]
pub fn start_inside(cpus: &[Binding], space: &[u8]) -> Result<(), StartOutside>
    requires few { length cpus.now < 2 ^ 32 }
    requires fit { All (Fits (length space.now)) cpus.now }
    ensures { MatchResult result (λ _. All (λ cpu. InRange cpu space.now) cpus.now) (λ outside. IsStartOutside cpus.now space.now outside) }
{
    for (n, cpu) in cpus.iter().enumerate() {
        if !is_in_range(cpu, space) {
            return Err(StartOutside { cpu: n as u32 });
        }
    }
    Ok(())
}
