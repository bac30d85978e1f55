//! What the commands of a controller make of its registers (ACPI 6.5, 8.4.6).
ghost use Rattle.std.specs.Prelude.{◌≡◌, ◌+◌, ◌<◌, ◌^◌, length, min, All, flat_map};
ghost use Rattle.pcc_gas.specs.Changes.{with_changes};
ghost use Rattle.cpc_package.specs.Bindings.{AreProcessors, CanRead, IsRight, LiesIn, number_in, source_at};
ghost use Rattle.cppc_device.specs.Devices.{capped, entry_number, excursion, excursions, put_into, reference_of, sampled_of, taken_from, written_of};

use crate::range::field_in;
use cpc_package::{Binding, Source1, number_in};
use pcc_gas::{field_get, field_put};

/// The entries that an operating system writes, and the note of a limit (15), which it clears.
const WRITTEN: [usize; 10] = [7, 8, 9, 10, 11, 15, 16, 17, 18, 19];

/// Puts a number into a source that is a field, modulo 2 to its width.
fn put(registers: &mut [u8], source: Source1, number: u128)
    requires { CanRead (length registers.old) source }
    ensures { registers.new ≡ with_changes (put_into source number) registers.old }
{
    if let Source1::At(field) = source {
        field_put(registers, field, (number % (1 << field.width)) as u64);
    }
}

/// Takes a source's field from a space.
fn take(registers: &mut [u8], source: Source1, space: &[u8])
    requires here { CanRead (length registers.old) source }
    requires there { CanRead (length space.now) source }
    ensures { registers.new ≡ with_changes (taken_from space.now source) registers.old }
{
    if let Source1::At(field) = source {
        field_put(registers, field, field_get(space, field));
    }
}

/// The desired performance, or the cap where it is less.
fn capped(cap: Option<u64>, desired: u64) -> u64
    ensures { result ≡ capped cap desired }
{
    match cap {
        Some(cap) => desired.min(cap),
        None => desired,
    }
}

/// A bit, if the cap is below a performance.
fn excursion(bit: u64, cap: u64, performance: Option<u64>) -> u64
    ensures { result ≡ excursion bit cap performance }
{
    match performance {
        Some(performance) if cap < performance => bit,
        _ => 0,
    }
}

/// The bits of entry 15 that a cap sets.
fn excursions(cap: Option<u64>, desired: Option<u64>, minimum: Option<u64>) -> u64
    ensures { result ≡ excursions cap desired minimum }
{
    match cap {
        Some(cap) => excursion(1, cap, desired) + excursion(2, cap, minimum),
        None => 0,
    }
}

/// The number of an entry, and 0 where there is none.
fn entry_number(cpu: &Binding, n: usize, registers: &[u8]) -> u64
    requires within { n < 23 }
    requires fits { CanRead (length registers.now) (source_at cpu.now n) }
    ensures { result ≡ entry_number cpu.now n registers.now }
{
    number_in(cpu.sources[n], registers).unwrap_or(0)
}

/// The reference performance: entry 20, or else entry 3.
fn reference_of(cpu: &Binding, registers: &[u8]) -> u64
    requires fits { CanRead (length registers.now) (source_at cpu.now 20) }
    requires nominal { CanRead (length registers.now) (source_at cpu.now 3) }
    ensures { result ≡ reference_of cpu.now registers.now }
{
    match number_in(cpu.sources[20], registers) {
        Some(reference) => reference,
        None => entry_number(cpu, 3, registers),
    }
}

/// Counts what a processor delivers, and notes a cap that limits it.
#[tactic(auto, using(crate::proofs::Numbers::can_read))]
fn sample(registers: &mut [u8], cpu: &Binding, cap: Option<u64>)
    requires right { IsRight cpu.now }
    requires inside { LiesIn (length registers.old) cpu.now }
    ensures { registers.new ≡ with_changes (sampled_of cap registers.old cpu.now) registers.old }
{
    let reference = u128::from(entry_number(cpu, 13, registers))
        + u128::from(reference_of(cpu, registers));
    let effective = capped(cap, entry_number(cpu, 7, registers));
    let delivered = u128::from(entry_number(cpu, 14, registers)) + u128::from(effective);
    let desired = number_in(cpu.sources[7], registers);
    let minimum = field_in(cpu.sources[8], registers);
    let limited = entry_number(cpu, 15, registers) | excursions(cap, desired, minimum);
    put(registers, cpu.sources[13], reference);
    put(registers, cpu.sources[14], delivered);
    put(registers, cpu.sources[15], u128::from(limited));
}

/// Takes the fields of a processor that are written from a space.
#[tactic(auto, using(crate::proofs::Numbers::can_read, crate::proofs::Sampling::taken_start, crate::proofs::Sampling::taken_more, crate::proofs::Sampling::taken_end))]
fn write(registers: &mut [u8], cpu: &Binding, space: &[u8])
    requires right { IsRight cpu.now }
    requires inside { LiesIn (length registers.old) cpu.now }
    requires long { length space.now ≡ length registers.old }
    ensures { registers.new ≡ with_changes (written_of space.now cpu.now) registers.old }
{
    for n in WRITTEN {
        take(registers, cpu.sources[n], space);
    }
}

/// Samples all processors.
#[tactic(auto, using(crate::proofs::Sampling::changed_start, crate::proofs::Sampling::sampled_more, crate::proofs::Sampling::changed_end))]
pub(crate) fn sample_all(registers: &mut [u8], cpus: &[Binding], cap: Option<u64>)
    requires { AreProcessors (length registers.old) cpus.now }
    ensures { registers.new ≡ with_changes (flat_map (sampled_of cap registers.old) cpus.now) registers.old }
{
    for cpu in cpus {
        sample(registers, cpu, cap);
    }
}

/// Takes the fields that are written of all processors from a space.
#[tactic(auto, using(crate::proofs::Sampling::changed_start, crate::proofs::Sampling::written_more, crate::proofs::Sampling::changed_end))]
pub(crate) fn write_all(registers: &mut [u8], cpus: &[Binding], space: &[u8])
    requires cpus { AreProcessors (length registers.old) cpus.now }
    requires long { length space.now ≡ length registers.old }
    ensures { registers.new ≡ with_changes (flat_map (written_of space.now) cpus.now) registers.old }
{
    for cpu in cpus {
        write(registers, cpu, space);
    }
}
