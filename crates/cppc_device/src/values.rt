//! The numbers of a package in a communication space.
ghost use Rattle.std.specs.Prelude.{◌≡◌, length};
ghost use Rattle.cppc_device.specs.Ranges.{Fits, values_in};

use cpc_package::{Binding, ENTRIES, number_in};

/// The number of each entry, by its number: the integer, or the number in the field. Missing entries have none.
#[derive(Clone, Copy, Debug, PartialEq, Eq)]
pub struct Values {
    pub entries: [Option<u64>; ENTRIES],
}

/// The numbers of a binding in a space.

#[tactic(auto, using(crate::proofs::Numbers::values_start, crate::proofs::Numbers::values_more, crate::proofs::Numbers::values_end))]
pub fn values_of(binding: &Binding, space: &[u8]) -> Values
    requires { Fits (length space.now) binding.now }
    ensures { result.entries ≡ values_in binding.now space.now }
{
    let mut entries = [None; ENTRIES];
    for n in 0..ENTRIES {
        entries[n] = number_in(binding.sources[n], space);
    }
    Values { entries }
}
