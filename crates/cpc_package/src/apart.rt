//! Whether two processors share a register.
ghost use Rattle.std.specs.Prelude.{◌↔◌, IsFalse, IsTrue};
ghost use Rattle.cpc_package.specs.Bindings.{AllApart, Meets, ShareBit};

use crate::binding::{Binding, Source1};
use pcc_gas::{Field, fields_apart};

/// Whether no bit of a field is one of the sources' fields.
#[tactic(auto, using(crate::proofs::Meeting::apart_start, crate::proofs::Meeting::apart_more, crate::proofs::Meeting::apart_other, crate::proofs::Meeting::apart_end, crate::proofs::Meeting::meets_at))]
fn is_apart(field: Field, sources: &[Source1]) -> bool
    ensures apart { IsTrue result → AllApart field sources.now }
    ensures meets { IsFalse result → Meets field sources.now }
{
    for source in sources {
        let Source1::At(other) = source else {
            continue;
        };
        if !fields_apart(field, *other) {
            return false;
        }
    }
    true
}

/// Whether two processors share no bit of a communication space.
#[tactic(auto, using(crate::proofs::Meeting::none_start, crate::proofs::Meeting::none_more, crate::proofs::Meeting::none_other, crate::proofs::Meeting::no_share, crate::proofs::Meeting::share_at))]
pub fn cpus_apart(a: &Binding, b: &Binding) -> bool
    ensures { IsFalse result ↔ ShareBit a.now b.now }
{
    if a.subspace != b.subspace {
        return true;
    }
    for source in &a.sources {
        let Source1::At(field) = source else {
            continue;
        };
        if !is_apart(*field, &b.sources) {
            return false;
        }
    }
    true
}
