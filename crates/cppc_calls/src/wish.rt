//! Wishes of performance, and the space with one put.
ghost use Rattle.std.specs.Prelude.{◌≡◌, ◌↔◌, IsOk, List, ℕ, MatchResult, None, Some, length};
ghost use Rattle.pcc_gas.specs.Changes.{with_changes};
ghost use Rattle.cpc_package.specs.Bindings.{CanRead, IsRight, LiesIn};
ghost use Rattle.cpc_package.specs.declared.binding.Binding.{Binding};
ghost use Rattle.cppc_calls.specs.Wishes.{CanPut, FitsInto, IsThere, wish_fault, wished, with_wish};
ghost use Rattle.cppc_calls.specs.declared.wish.Wish.{Wish};

use crate::checks::wish_fault;
use cpc_package::{Binding, Source1};
use pcc_gas::field_put;

/// What is asked of a processor. A minimum or a maximum that isn't wished stays as it is.
#[derive(Clone, Copy, Debug, PartialEq, Eq)]
pub struct Wish {
    /// The processor's number.
    pub cpu: u32,
    pub min: Option<u64>,
    pub desired: u64,
    pub max: Option<u64>,
}

/// Why a wish is refused: the first test that fails.
#[derive(Clone, Copy, Debug, PartialEq, Eq)]
pub enum SetRefusal {
    /// A minimum (entry 8) or a maximum (entry 9) is wished and the entry is no field.
    NoRegister { entry: u8 },
    /// The number that is wished doesn't fit into the entry's field.
    TooWide { entry: u8 },
    /// The minimum, the desired performance or the maximum is below the lowest performance.
    BelowLowest { value: u64, lowest: u64 },
    /// The minimum, the desired performance or the maximum is above the highest performance.
    AboveHighest { value: u64, highest: u64 },
    MinAboveDesired { min: u64, desired: u64 },
    DesiredAboveMax { desired: u64, max: u64 },
}

/// Puts a number that is wished into its field.
fn put(space: &mut [u8], source: Source1, value: Option<u64>)
    requires readable { CanRead (length space.old) source }
    requires fits { FitsInto value source }
    ensures { space.new ≡ with_changes (wished value source) space.old }
{
    if let Some(value) = value {
        put_field(space, source, value);
    }
}

fn put_field(space: &mut [u8], source: Source1, value: u64)
    requires readable { CanRead (length space.old) source }
    requires fits { FitsInto (Some value) source }
    ensures { space.new ≡ with_changes (wished (Some value) source) space.old }
{
    if let Source1::At(field) = source {
        field_put(space, field, value);
    }
}

/// Puts a wish into the fields of the desired, the minimum and the maximum performance, or refuses it and changes nothing.
pub fn put_wish(binding: &Binding, space: &mut [u8], wish: &Wish) -> Result<(), SetRefusal>
    requires right { IsRight binding.now }
    requires inside { LiesIn (length space.old) binding.now }
    // A refusal is the first test that fails.
    ensures exact { MatchResult result
        (λ _. (wish_fault binding.now space.old wish.now ≡ None) × (space.new ≡ with_wish binding.now wish.now space.old))
        (λ refusal. (wish_fault binding.now space.old wish.now ≡ Some refusal) × (space.new ≡ space.old)) }

    // It is put exactly when its fields are there, its numbers fit and the processor is in its range with the wish put.
    ensures put { IsOk result ↔ CanPut binding.now space.old wish.now }
{
    if let Some(refusal) = wish_fault(binding, space, wish) {
        return Err(refusal);
    }
    put_field(space, binding.sources[7], wish.desired);
    put(space, binding.sources[8], wish.min);
    put(space, binding.sources[9], wish.max);
    Ok(())
}

/// No test of a wish fails exactly when it can be put. It does nothing.
pub fn wish_laws()
    ensures { (binding : Binding) (space : List ℕ) (wish : Wish) → IsRight binding → LiesIn (length space) binding
        → (wish_fault binding space wish ≡ None) ↔ CanPut binding space wish }
{}
