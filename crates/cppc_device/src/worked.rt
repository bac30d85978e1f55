//! Worked cases, on which the definitions are evaluated.
ghost use Rattle.std.specs.Prelude.{◌≡◌, [], ◌∷◌, ◌++◌, replicate, true, false, Some, None};
ghost use Rattle.std.specs.List.{range_with_len};
ghost use Rattle.pcc_gas.specs.Changes.{with_changes};
ghost use Rattle.cpc_package.specs.declared.binding.Source1.TheVariants.{Missing, Number};
ghost use Rattle.cppc_device.specs.Devices.{in_force, sampled, written};
ghost use Rattle.cppc_device.specs.Openings.{device_fault};
ghost use Rattle.cppc_device.specs.Ranges.{InRange, performances, values_in};
ghost use Rattle.cppc_device.specs.States.{cppc_exec, cppc_room, cppc_state};
ghost use Rattle.cppc_device.specs.Worked.{alone, byte_fields, cap, field, half_bytes, processor, registers, six_fields};
ghost use Rattle.cppc_device.specs.declared.device.DeviceFault.TheVariants.{CapOrder, ImageTooLong};

/// What both commands make of the registers. It does nothing.
#[tactic(auto, unfolding(crate::specs::Devices::sampled, crate::specs::Devices::written, pcc_gas::specs::Changes::with_changes, pcc_gas::specs::Fields::field_value))]
pub fn worked_commands()
    // The counters grow by the reference and by the desired performance.
    ensures read { with_changes (sampled (alone six_fields [] 0 (registers 100 10 250 0 0 0))) (registers 100 10 250 0 0 0)
        ≡ registers 100 10 250 0 100 100 }
    ensures nominal { with_changes (sampled (alone (processor Missing (field 128 64) (field 192 64) Missing Missing) [] 0 (registers 100 0 250 0 1 2)))
        (registers 100 0 250 0 1 2) ≡ registers 100 0 250 0 201 102 }
    ensures reference_field { with_changes (sampled (alone (processor Missing (field 128 64) Missing Missing (field 32 32)) [] 0 (registers 100 7 250 0 1 2)))
        (registers 100 7 250 0 1 2) ≡ registers 100 7 250 0 8 2 }

    // A counter grows modulo 2 to its width.
    ensures wraps { with_changes (sampled (alone (processor Missing (field 128 7) Missing Missing (Number 100)) [] 0 (registers 0 0 0 0 100 0)))
        (registers 0 0 0 0 100 0) ≡ registers 0 0 0 0 72 0 }

    // A cap below the desired performance is delivered and noted; one below the minimum is noted too.
    ensures capped { with_changes (sampled (alone six_fields (cap 1 90 ∷ []) 1 (registers 100 10 250 0 100 100))) (registers 100 10 250 0 100 100)
        ≡ registers 100 10 250 1 200 190 }
    ensures before_cap { with_changes (sampled (alone six_fields (cap 1 90 ∷ []) 0 (registers 100 10 250 0 0 0))) (registers 100 10 250 0 0 0)
        ≡ registers 100 10 250 0 100 100 }
    ensures below_minimum { with_changes (sampled (alone six_fields (cap 0 9 ∷ []) 0 (registers 100 10 250 4 0 0))) (registers 100 10 250 4 0 0)
        ≡ registers 100 10 250 7 100 9 }

    // A minimum performance that is no field isn't noted.
    ensures number_minimum { with_changes (sampled (alone (processor (Number 50) (field 128 64) (field 192 64) (field 96 32) (Number 100)) (cap 0 9 ∷ []) 0
        (registers 100 0 250 0 0 0))) (registers 100 0 250 0 0 0) ≡ registers 100 0 250 1 100 9 }

    // A write takes the desired, the minimum and the maximum performance and the note of a limit, and no counter.
    ensures write { with_changes (written (alone six_fields [] 0 (registers 100 10 250 3 1 2)) (registers 150 20 240 0 8 9)) (registers 100 10 250 3 1 2)
        ≡ registers 150 20 240 0 1 2 }

    // It takes each field that an operating system writes.
    ensures write_each { with_changes (written (alone byte_fields [] 0 (replicate 20 0)) (range_with_len 100 20)) (replicate 20 0)
        ≡ replicate 7 0 ++ range_with_len 107 5 ++ replicate 3 0 ++ range_with_len 115 5 }

    // The last cap that has begun is in force.
    ensures no_cap { in_force (cap 1 90 ∷ cap 3 95 ∷ []) 0 ≡ None }
    ensures first_cap { in_force (cap 1 90 ∷ cap 3 95 ∷ []) 2 ≡ Some 90 }
    ensures last_cap { in_force (cap 1 90 ∷ cap 3 95 ∷ []) 3 ≡ Some 95 }
{}

/// States as lists of numbers. It does nothing.
#[tactic(auto, unfolding(crate::specs::States::cppc_exec, crate::specs::States::cppc_in, crate::specs::States::cppc_room, crate::specs::States::cppc_state, crate::specs::Devices::sampled, crate::specs::Devices::written, pcc_gas::specs::Changes::with_changes, pcc_gas::specs::Fields::field_value))]
pub fn worked_states()
    ensures room { cppc_room (cppc_state (alone (half_bytes 0) [] 0 (0x13 ∷ []))) ≡ 1 }
    ensures read { cppc_exec (cppc_state (alone (half_bytes 0) [] 0 (0xf3 ∷ []))) 0 (0 ∷ [])
        ≡ record { state = cppc_state (alone (half_bytes 0) [] 1 (0x23 ∷ [])); bad = false; space = 0x23 ∷ [] } }
    ensures write { cppc_exec (cppc_state (alone (half_bytes 0) [] 7 (0x13 ∷ []))) 1 (0xf5 ∷ [])
        ≡ record { state = cppc_state (alone (half_bytes 0) [] 8 (0x15 ∷ [])); bad = false; space = 0x15 ∷ [] } }
    ensures other { cppc_exec (cppc_state (alone (half_bytes 0) [] 7 (0x13 ∷ []))) 2 (0xf5 ∷ [])
        ≡ record { state = cppc_state (alone (half_bytes 0) [] 7 (0x13 ∷ [])); bad = true; space = 0xf5 ∷ [] } }
    ensures last_count { cppc_exec (cppc_state (alone (half_bytes 0) [] 0xffffffffffffffff (0x13 ∷ []))) 1 (0x13 ∷ [])
        ≡ record { state = cppc_state (alone (half_bytes 0) [] 0xffffffffffffffff (0x13 ∷ [])); bad = false; space = 0x13 ∷ [] } }
    ensures both { cppc_exec (cppc_state (record { cpus = half_bytes 0 ∷ half_bytes 8 ∷ []; caps = cap 0 2 ∷ []; count = 0; registers = 0x13 ∷ 0x21 ∷ [] }))
        0 (0 ∷ 0 ∷ [])
        ≡ record {
          state = cppc_state (record { cpus = half_bytes 0 ∷ half_bytes 8 ∷ []; caps = cap 0 2 ∷ []; count = 1; registers = 0x33 ∷ 0x31 ∷ [] });
          bad = false;
          space = 0x33 ∷ 0x31 ∷ [];
        } }

    // What makes no controller.
    ensures image { device_fault 32 (registers 0 0 0 0 0 0) [] ≡ None }
    ensures long_image { device_fault 31 (registers 0 0 0 0 0 0) [] ≡ Some (ImageTooLong 32) }
    ensures caps { device_fault 0 [] (cap 1 5 ∷ cap 2 5 ∷ []) ≡ None }
    ensures equal_counts { device_fault 0 [] (cap 1 5 ∷ cap 1 4 ∷ []) ≡ Some (CapOrder 1) }
    ensures first_order { device_fault 0 [] (cap 1 5 ∷ cap 2 5 ∷ cap 0 5 ∷ cap 0 5 ∷ []) ≡ Some (CapOrder 2) }
{}

/// The range that a processor advertises. It does nothing.
#[tactic(auto, unfolding(pcc_gas::specs::Fields::field_value))]
pub fn worked_ranges()
    ensures chain { performances six_fields (registers 100 20 250 0 0 0) ≡ Some 10 ∷ Some 20 ∷ Some 100 ∷ Some 250 ∷ Some 300 ∷ [] }
    ensures inside { InRange six_fields (registers 10 10 10 0 0 0) }
    ensures low_minimum { InRange six_fields (registers 100 9 250 0 0 0) → ⊥ }
    ensures minimum_above { InRange six_fields (registers 100 101 250 0 0 0) → ⊥ }
    ensures maximum_below { InRange six_fields (registers 100 10 99 0 0 0) → ⊥ }
    ensures high_maximum { InRange (processor Missing Missing Missing Missing Missing) (0 ∷ 1 ∷ 0 ∷ 0 ∷ 0 ∷ 0 ∷ 0 ∷ 0 ∷ 45 ∷ 1 ∷ 0 ∷ 0 ∷ []) → ⊥ }
    ensures without_minimum { InRange (processor Missing Missing Missing Missing Missing) (registers 100 101 250 0 0 0) }
    ensures values { values_in six_fields (registers 100 10 250 1 2 3) ≡ None ∷ None ∷ Some 300 ∷ Some 200 ∷ Some 80 ∷ Some 10 ∷ None ∷ Some 100
        ∷ Some 10 ∷ Some 250 ∷ None ∷ None ∷ Some 0 ∷ Some 2 ∷ Some 3 ∷ Some 1 ∷ None ∷ Some 0 ∷ None ∷ None ∷ Some 100 ∷ Some 400 ∷ Some 2000 ∷ [] }
    ensures values_of_2 { values_in byte_fields (range_with_len 0 20) ≡ None ∷ None ∷ Some 300 ∷ Some 200 ∷ Some 80 ∷ Some 10 ∷ None ∷ Some 7
        ∷ Some 8 ∷ Some 9 ∷ Some 10 ∷ Some 11 ∷ Some 0 ∷ Some 13 ∷ Some 14 ∷ Some 15 ∷ Some 16 ∷ Some 17 ∷ Some 18 ∷ Some 19 ∷ Some 100
        ∷ None ∷ None ∷ [] }
{}
