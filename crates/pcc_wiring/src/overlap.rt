//! Whether the shared memories of opened subspaces lie apart.
ghost use Rattle.std.specs.Prelude.{◌≡◌, ◌↔◌, ◌⊎◌, ◌<◌, ◌≤◌, ℕ, List, IfNone, IfSome, IsTrue, MatchOption, MatchResult, length};
ghost use Rattle.pcc_wiring.specs.Overlaps.{AreApart, HasOverlap, IsFirstOverlap, Meet, at, end_of};
ghost use Rattle.pcc_wiring.specs.declared.overlap.Overlap.{Overlap};

/// Two opened subspaces, by their IDs, whose shared memories meet.
#[derive(Clone, Copy, Debug, PartialEq, Eq)]
pub struct Overlap {
    pub a: u8,
    pub b: u8,
}

// Whether some byte lies in both memories. Their ends may lie past the greatest address.
#[tactic(auto, using(crate::proofs::Overlapping::meet_is))]
fn meet(a: (u8, u64, u64), b: (u8, u64, u64)) -> bool
    ensures { IsTrue result ↔ Meet a b }
{
    let first = u128::from(a.1.max(b.1));
    first < end_of(a) && first < end_of(b)
}

fn end_of(opened: (u8, u64, u64)) -> u128
    ensures { result ≡ end_of opened }
{
    u128::from(opened.1) + u128::from(opened.2)
}

// The first one before a place that meets the one at it.
fn first_before(opened: &[(u8, u64, u64)], place: usize) -> Option<usize>
    requires { place < length opened.now }
    ensures { MatchOption result ((i : ℕ) → i < place → Meet (at opened.now i) (at opened.now place) → ⊥)
        (λ a. (a < place) × Meet (at opened.now a) (at opened.now place) × ((i : ℕ) → i < a → Meet (at opened.now i) (at opened.now place) → ⊥)) }
{
    for i in 0..place {
        if meet(opened[i], opened[place]) {
            return Some(i);
        }
    }
    None
}

/// Whether no two of these memories have a byte in common. Each is given by the ID of its subspace, its base and its length in bytes; ends past
/// the greatest address are counted as they are. Else the first pair that meets, by the place of the later one and then of the earlier one.
pub fn opened_apart(opened: &[(u8, u64, u64)]) -> Result<(), Overlap>
    ensures { MatchResult result (λ _. AreApart opened.now) (IsFirstOverlap opened.now) }
{
    for place in 0..opened.len() {
        if let Some(first) = first_before(opened, place) {
            return Err(Overlap {
                a: opened[first].0,
                b: opened[place].0,
            });
        }
    }
    Ok(())
}

/// Memories lie apart, or one pair of them is the first that meets. It does nothing.
pub fn overlap_laws()
    ensures some { (opened : List (ℕ × ℕ × ℕ)) → AreApart opened ⊎ HasOverlap opened }
    ensures not_both { (opened : List (ℕ × ℕ × ℕ)) → AreApart opened → HasOverlap opened → ⊥ }
    ensures one_overlap { (opened : List (ℕ × ℕ × ℕ)) (found other : Overlap) → IsFirstOverlap opened found → IsFirstOverlap opened other → found ≡ other }
{}
