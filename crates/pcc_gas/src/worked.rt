//! The definitions on worked cases.

ghost use Rattle.std.specs.Prelude.{◌≡◌, [], ◌∷◌};
ghost use Rattle.pcc_gas.specs.Addresses.{AddressBytes, RegisterBytes};
ghost use Rattle.pcc_gas.specs.Changes.{change, with_changes};
ghost use Rattle.pcc_gas.specs.Fields.{AreApart, FieldPut, field_value};

use crate::{Field, Gas, Register};

/// A doorbell of 32 bits at 0xfed0_0000 in System Memory, written in dwords.
const DOORBELL: Gas = Gas {
    space: 0,
    width: 32,
    offset: 0,
    access: 3,
    address: 0xfed0_0000,
};

const DOORBELL_BYTES: [u8; 12] = [0, 0x20, 0, 3, 0, 0, 0xd0, 0xfe, 0, 0, 0, 0];

/// A register of 32 bits at byte 4 of subspace 0's communication space.
const REGISTER: Gas = Gas {
    space: 0x0a,
    width: 32,
    offset: 0,
    access: 0,
    address: 4,
};

const REGISTER_BYTES: [u8; 17] = [
    0x82, 0x0c, 0, 0x0a, 0x20, 0, 0, 4, 0, 0, 0, 0, 0, 0, 0, 0x79, 0,
];

/// The same with a checksum: the other bytes sum up to 0x135.
const SUMMED_BYTES: [u8; 17] = [
    0x82, 0x0c, 0, 0x0a, 0x20, 0, 0, 4, 0, 0, 0, 0, 0, 0, 0, 0x79, 0xcb,
];

/// The same with another checksum.
const WRONG_BYTES: [u8; 17] = [
    0x82, 0x0c, 0, 0x0a, 0x20, 0, 0, 4, 0, 0, 0, 0, 0, 0, 0, 0x79, 0xca,
];

/// A number of 64 bits at bit 32.
const LONG: [u8; 16] = [
    0, 0, 0, 0, 0x88, 0x77, 0x66, 0x55, 0x44, 0x33, 0x22, 0x11, 0, 0, 0, 0,
];

/// Addresses and registers as bytes. It does nothing.
pub fn worked_addresses()
    ensures doorbell { AddressBytes DOORBELL_BYTES DOORBELL }
    ensures without_checksum { RegisterBytes REGISTER_BYTES (record { gas = REGISTER; checksum = 0 }) }
    ensures with_checksum { RegisterBytes SUMMED_BYTES (record { gas = REGISTER; checksum = 0xcb }) }
    ensures wrong_checksum { (register : Register) → RegisterBytes WRONG_BYTES register → ⊥ }
{}

/// Fields of bits. It does nothing.
#[tactic(auto, unfolding(crate::specs::Fields::field_value))]
pub fn worked_fields()
    ensures long { field_value LONG (record { at_bit = 32; width = 64 }) ≡ 0x1122334455667788 }
    ensures over_two_bytes { field_value (0xb0 ∷ 0x0a ∷ []) (record { at_bit = 4; width = 8 }) ≡ 0xab }

    // A bit beside the field is changed, or the field's highest bit is lost.
    ensures bit_beside { FieldPut (0 ∷ 0 ∷ []) (record { at_bit = 4; width = 8 }) 0xab (0xb8 ∷ 0x0a ∷ []) → ⊥ }
    ensures highest_bit { FieldPut (0 ∷ 0 ∷ []) (record { at_bit = 4; width = 8 }) 0xab (0xb0 ∷ 0x02 ∷ []) → ⊥ }

    // Fields that touch are apart, and a field of no bits is apart from every field.
    ensures touching { AreApart (record { at_bit = 4; width = 8 }) (record { at_bit = 12; width = 1 }) }
    ensures no_bits { AreApart (record { at_bit = 6; width = 0 }) (record { at_bit = 4; width = 8 }) }
    ensures shared { AreApart (record { at_bit = 4; width = 8 }) (record { at_bit = 11; width = 1 }) → ⊥ }
{}

/// Fields that are changed at once. It does nothing.
#[tactic(auto, unfolding(crate::specs::Changes::with_changes, crate::specs::Fields::field_value))]
pub fn worked_changes()
    ensures none { with_changes [] (1 ∷ 255 ∷ []) ≡ 1 ∷ 255 ∷ [] }
    ensures one { with_changes (change (record { at_bit = 4; width = 8 }) 0xab ∷ []) (0x0c ∷ 0xd0 ∷ []) ≡ 0xbc ∷ 0xda ∷ [] }
    ensures two { with_changes (change (record { at_bit = 1; width = 3 }) 5 ∷ change (record { at_bit = 9; width = 7 }) 0 ∷ []) (0 ∷ 255 ∷ [])
        ≡ 0x0a ∷ 1 ∷ [] }

    // Where two fields share bits, the first change gives them.
    ensures shared { with_changes (change (record { at_bit = 0; width = 4 }) 0 ∷ change (record { at_bit = 2; width = 4 }) 15 ∷ []) (255 ∷ [])
        ≡ 0xf0 ∷ [] }

    // A field's own number changes nothing.
    ensures own { with_changes (change (record { at_bit = 4; width = 8 }) (field_value (0x12 ∷ 0x34 ∷ []) (record { at_bit = 4; width = 8 })) ∷ [])
        (0x12 ∷ 0x34 ∷ []) ≡ 0x12 ∷ 0x34 ∷ [] }
{}
