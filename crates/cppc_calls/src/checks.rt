//! The tests of a wish, in their order.
ghost use Rattle.std.specs.Prelude.{◌≡◌, ◌≤◌, ◌^◌, Some, length, nat_lt};
ghost use Rattle.cpc_package.specs.Bindings.{CanRead, IsRight, LiesIn};
ghost use Rattle.cpc_package.specs.declared.binding.Source1.TheVariants.{At};
ghost use Rattle.pcc_gas.specs.declared.field.Field.{Field};
ghost use Rattle.cppc_calls.specs.Wishes.{above_fault, asked, below_fault, max_fault, min_fault, order_fault, register_fault, wish_fault, width_fault};

use crate::wish::{SetRefusal, Wish};
use cpc_package::{Binding, Source1, number_in};
use cppc_device::field_in;

/// The number that is wished, or else the present one.
fn asked(wished: Option<u64>, source: Source1, space: &[u8]) -> Option<u64>
    requires { CanRead (length space.now) source }
    ensures { result ≡ asked wished source space.now }
{
    match wished {
        Some(value) => Some(value),
        None => field_in(source, space),
    }
}

fn register_fault(wished: Option<u64>, source: Source1, entry: u8) -> Option<SetRefusal>
    ensures { result ≡ register_fault wished source entry }
{
    let _value = wished?;
    match source {
        Source1::At(_) => None,
        Source1::Missing | Source1::Number(_) => Some(SetRefusal::NoRegister { entry }),
    }
}

/// Whether a number has at most so many bits.
fn fits(value: u64, width: u8) -> bool
    requires { width ≤ 64 }
    ensures { result ≡ nat_lt value (2 ^ width) }
{
    u128::from(value) < 1 << width
}

fn width_fault(wished: Option<u64>, source: Source1, entry: u8) -> Option<SetRefusal>
    requires { (field : Field) → source ≡ At field → field.width ≤ 64 }
    ensures { result ≡ width_fault wished source entry }
{
    let value = wished?;
    match source {
        Source1::At(field) if !fits(value, field.width) => Some(SetRefusal::TooWide { entry }),
        _ => None,
    }
}

fn below_fault(lowest: Option<u64>, value: Option<u64>) -> Option<SetRefusal>
    ensures { result ≡ below_fault lowest value }
{
    let lowest = lowest?;
    let value = value?;
    if lowest <= value {
        return None;
    }
    Some(SetRefusal::BelowLowest { value, lowest })
}

fn above_fault(highest: Option<u64>, value: Option<u64>) -> Option<SetRefusal>
    ensures { result ≡ above_fault highest value }
{
    let highest = highest?;
    let value = value?;
    if value <= highest {
        return None;
    }
    Some(SetRefusal::AboveHighest { value, highest })
}

fn min_fault(min: Option<u64>, desired: u64) -> Option<SetRefusal>
    ensures { result ≡ min_fault min desired }
{
    let min = min?;
    if min <= desired {
        return None;
    }
    Some(SetRefusal::MinAboveDesired { min, desired })
}

fn max_fault(desired: u64, max: Option<u64>) -> Option<SetRefusal>
    ensures { result ≡ max_fault desired max }
{
    let max = max?;
    if desired <= max {
        return None;
    }
    Some(SetRefusal::DesiredAboveMax { desired, max })
}

/// The first test that fails of performances between the lowest and the highest.
fn order_fault(
    lowest: Option<u64>,
    highest: Option<u64>,
    min: Option<u64>,
    desired: u64,
    max: Option<u64>,
) -> Option<SetRefusal>
    ensures { result ≡ order_fault lowest highest min desired max }
{
    below_fault(lowest, min).or(below_fault(lowest, Some(desired)).or(below_fault(lowest, max).or(
        above_fault(highest, min).or(above_fault(highest, Some(desired)).or(above_fault(
            highest, max,
        ).or(min_fault(min, desired).or(max_fault(desired, max))))),
    )))
}

/// The first test of a wish that fails.
#[tactic(auto, using(crate::proofs::Put::can_read, crate::proofs::Put::narrow))]
pub(crate) fn wish_fault(binding: &Binding, space: &[u8], wish: &Wish) -> Option<SetRefusal>
    requires right { IsRight binding.now }
    requires inside { LiesIn (length space.now) binding.now }
    ensures { result ≡ wish_fault binding.now space.now wish.now }
{
    let min = asked(wish.min, binding.sources[8], space);
    let max = asked(wish.max, binding.sources[9], space);
    let lowest = number_in(binding.sources[5], space);
    let highest = number_in(binding.sources[2], space);
    let order = order_fault(lowest, highest, min, wish.desired, max);
    let max_width = width_fault(wish.max, binding.sources[9], 9);
    let desired_width = width_fault(Some(wish.desired), binding.sources[7], 7);
    let min_width = width_fault(wish.min, binding.sources[8], 8);
    let max_register = register_fault(wish.max, binding.sources[9], 9);
    let min_register = register_fault(wish.min, binding.sources[8], 8);
    min_register.or(max_register.or(min_width.or(desired_width.or(max_width.or(order)))))
}
