//! The definitions on worked cases.
ghost use Rattle.std.specs.Prelude.{◌≡◌, ◌-◌, ◌^◌, true, false, Some, None};
ghost use Rattle.pcc_wiring.specs.Faults.{asks_of, is_asked_by};
ghost use Rattle.pcc_wiring.specs.Overlaps.{Meet};
ghost use Rattle.pcc_wiring.specs.Places.{place_in};
ghost use Rattle.pcc_wiring.specs.Registers.{cut, is_plain, is_reachable};
ghost use Rattle.pcc_wiring.specs.Wirings.{room_of};
ghost use Rattle.pcc_wiring.specs.declared.fault.Asks.TheVariants.{Platform, System};

/// The definitions on worked cases. It does nothing.
pub fn worked_cases()
    ensures two_words { room_of 0 24 ≡ 16 }
    ensures a_word_and_seven_bytes { room_of 0 31 ≡ 16 }
    ensures extended { room_of 3 24 ≡ 8 }
    ensures no_word { room_of 0 15 ≡ 0 }
    ensures extended_no_word { room_of 4 23 ≡ 0 }
    ensures greatest { room_of 5 1000000 ≡ 4096 }
    ensures byte_mask { cut 8 257 ≡ 1 }
    ensures whole_mask { cut 64 (2 ^ 64 - 1) ≡ 2 ^ 64 - 1 }
    ensures platform_asks { is_asked_by 4 Platform ≡ true }
    ensures system_asks { is_asked_by 3 System ≡ true }
    ensures system_answers { is_asked_by 4 System ≡ false }
    ensures platform_of_bank { asks_of 4 false ≡ Platform }
    ensures system_of_controller { asks_of 4 true ≡ System }
    ensures system_of_others { asks_of 3 false ≡ System }
    ensures input_output { is_reachable (record { space = 1; width = 8; offset = 0; access = 1; address = 178 }) ≡ true }
    ensures no_byte_of_a_bit { is_plain (record { space = 0; width = 4; offset = 0; access = 1; address = 178 }) ≡ false }
    ensures shifted { is_plain (record { space = 0; width = 8; offset = 1; access = 1; address = 178 }) ≡ false }

    // Three words of memory: on types 0 to 2 the header and two words of the block, on the others three words of the block.
    ensures header { place_in true 2 0 ≡ Some 0 }
    ensures first_of_block { place_in true 2 1 ≡ Some 8 }
    ensures last_of_block { place_in true 2 2 ≡ Some 9 }
    ensures after { place_in true 2 3 ≡ None }
    ensures header_in_block { place_in false 3 0 ≡ Some 8 }
    ensures last_in_block { place_in false 3 2 ≡ Some 10 }
    ensures after_block { place_in false 3 3 ≡ None }

    // The last byte of one memory is the first of the other; they touch without a common byte; the second one lies at the end of all addresses.
    ensures one_byte { Meet (0, 4096, 16) (1, 4111, 16) }
    ensures side_by_side { Meet (0, 4096, 16) (1, 4112, 16) → ⊥ }
    ensures last_address { Meet (0, 0, 16) (1, 2 ^ 64 - 8, 16) → ⊥ }
{}
