//! Whether the input of a controller's command changes only what its code may change, and keeps the ranges (ACPI 6.5, 8.4.6.1.2).
ghost use Rattle.std.specs.Prelude.{◌≡◌, ◌<◌, ◌+◌, ◌^◌, ◌*◌, ◌↔◌, All, IsTrue, length};
ghost use Rattle.pcc_gas.specs.Fields.{bit_of};
ghost use Rattle.cppc_device.specs.Ranges.{Fits, InRange};
ghost use Rattle.cppc_headline.specs.Journals.{AreInRange, DifferInWish, IsUntouched, IsWishBit};
ghost use Rattle.pcc_audit.specs.WishBits.{IsBitOf, WishBitsDiffer};

use cpc_package::{Binding, Source1};
use cppc_device::start_inside;
use pcc_bytes::are_bytes;

/// Whether a bit belongs to the field of a source.
fn is_bit_of(source: Source1, bit: usize) -> bool
    ensures { IsTrue result ↔ IsBitOf source bit }
{
    match source {
        Source1::At(field) => {
            let start = field.at_bit as usize;
            start <= bit && bit < start + field.width as usize
        }
        Source1::Missing | Source1::Number(_) => false,
    }
}

/// Whether a bit belongs to the field of the desired, the minimum or the maximum performance of a processor.
#[tactic(auto, using(crate::proofs::Bits::wish_bits))]
fn is_wish_bit(cpu: &Binding, bit: usize) -> bool
    ensures { IsTrue result ↔ IsWishBit cpu.now bit }
{
    if is_bit_of(cpu.sources[7], bit) {
        return true;
    }
    if is_bit_of(cpu.sources[8], bit) {
        return true;
    }
    is_bit_of(cpu.sources[9], bit)
}

/// A bit of a space.
fn bit_of(space: &[u8], bit: usize) -> u8
    requires { bit < 8 * length space.now }
    ensures { result ≡ bit_of space.now bit }
{
    (space[bit / 8] >> (bit % 8)) & 1
}

/// Whether the bits of a byte that differ belong to these fields of the processor.
#[tactic(auto, using(crate::proofs::Bits::of_bits))]
fn wish_byte_differs(cpu: &Binding, before: &[u8], input: &[u8], place: usize) -> bool
    requires len { length before.now ≡ length input.now }
    requires small { length input.now < 2 ^ 32 }
    requires within { place < length input.now }
    ensures { IsTrue result ↔ WishBitsDiffer cpu.now before.now input.now (8 * place) (8 * (place + 1)) }
{
    for bit in 8 * place..8 * (place + 1) {
        if bit_of(input, bit) == bit_of(before, bit) {
            continue;
        }
        if !is_wish_bit(cpu, bit) {
            return false;
        }
    }
    true
}

/// Whether two spaces differ at most in these fields of the processor.
#[tactic(auto, using(crate::proofs::Bits::of_bytes))]
fn wish_bits_differ(cpu: &Binding, before: &[u8], input: &[u8]) -> bool
    requires len { length before.now ≡ length input.now }
    requires small { length input.now < 2 ^ 32 }
    ensures { IsTrue result ↔ WishBitsDiffer cpu.now before.now input.now 0 (8 * length input.now) }
{
    for place in 0..input.len() {
        if input[place] == before[place] {
            continue;
        }
        if !wish_byte_differs(cpu, before, input, place) {
            return false;
        }
    }
    true
}

/// Whether two spaces differ at most in these fields of one of the processors.
#[tactic(auto, using(crate::proofs::Bits::of_processors))]
fn differ_in_wish(cpus: &[Binding], before: &[u8], input: &[u8]) -> bool
    requires len { length before.now ≡ length input.now }
    requires small { length input.now < 2 ^ 32 }
    ensures { IsTrue result ↔ DifferInWish cpus.now before.now input.now }
{
    are_bytes(input);
    for cpu in cpus {
        if wish_bits_differ(cpu, before, input) {
            return true;
        }
    }
    false
}

/// Whether the input of a command changes only what its code may change of the space before it.
pub(crate) fn is_untouched(cpus: &[Binding], before: &[u8], code: u32, input: &[u8]) -> bool
    requires len { length before.now ≡ length input.now }
    requires small { length input.now < 2 ^ 32 }
    ensures { IsTrue result ↔ IsUntouched cpus.now before.now code input.now }
{
    match code {
        0 => input == before,
        1 => differ_in_wish(cpus, before, input),
        _ => true,
    }
}

/// Whether a processor is in its range.
#[tactic(auto, using(crate::proofs::Bits::of_range))]
fn is_inside(cpu: Binding, space: &[u8]) -> bool
    requires { Fits (length space.now) cpu }
    ensures { IsTrue result ↔ InRange cpu space.now }
{
    match start_inside(&[cpu], space) {
        Ok(()) => true,
        Err(_) => false,
    }
}

/// Whether all processors are in their ranges.
#[tactic(auto, using(crate::proofs::Bits::of_ranges))]
pub(crate) fn are_inside(cpus: &[Binding], space: &[u8]) -> bool
    requires { All (Fits (length space.now)) cpus.now }
    ensures { IsTrue result ↔ AreInRange cpus.now space.now }
{
    for cpu in cpus {
        if !is_inside(*cpu, space) {
            return false;
        }
    }
    true
}
