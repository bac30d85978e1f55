//! Which word holds a byte of shared memory.
ghost use Rattle.std.specs.Prelude.{◌≡◌, ◌↔◌, ◌<◌, ◌≤◌, ◌+◌, ◌-◌, ◌/◌, ◌^◌, ℕ, nat_lt, if◌then◌else◌, IsSome, Some, None};
ghost use Rattle.pcc_steps.specs.Wires.{IsRight};
ghost use Rattle.pcc_steps.specs.declared.wiring.Wiring.{Wiring};
ghost use Rattle.pcc_wiring.specs.Places.{place_at};
ghost use Rattle.pcc_wiring.specs.Wirings.{header_len};

use pcc_steps::{Wiring, is_headed};

/// The place of the word that holds the byte at an address, in a shared memory with this base: a byte of the header or of the used
/// communication space. Words have 8 bytes and count from the base (ACPI 6.5, 14.2 to 14.4).
pub fn place_of(wiring: &Wiring, base: u64, address: u64) -> Option<u32>
    ensures { result ≡ place_at wiring.now base address }
{
    if address < base {
        return None;
    }
    let number = (address - base) / 8;
    let words = u64::from(wiring.words());
    if !is_headed(wiring.kind) {
        return place_within(words, 8 + number);
    }
    if number == 0 {
        return Some(0);
    }
    place_within(words, 7 + number)
}

// A place, if there are so many words.
fn place_within(words: u64, place: u64) -> Option<u32>
    requires { words < 2 ^ 32 }
    ensures { result ≡ (if nat_lt place words then Some place else None) }
{
    if place < words {
        Some(place as u32)
    } else {
        None
    }
}

/// Which bytes the words hold. It does nothing.
#[tactic(auto, using(crate::proofs::Held::held))]
pub fn place_laws()
    // Two bytes are held by one word only where they lie in the same 8 bytes from the base on.
    ensures words { (w : Wiring) (base a b place : ℕ) → place_at w base a ≡ Some place → place_at w base b ≡ Some place → (a - base) / 8 ≡ (b - base) / 8 }
    // The bytes of the header and of the used space are held, and no others.
    ensures held { (w : Wiring) → IsRight w → (base address : ℕ) → IsSome (place_at w base address) ↔
        ((base ≤ address) × (address < base + (header_len w.kind + w.room))) }
{}
