//! Worked wishes, on which the definitions are evaluated.
ghost use Rattle.std.specs.Prelude.{◌≡◌, Some, None};
ghost use Rattle.cpc_package.specs.declared.binding.Source1.TheVariants.{Missing, Number};
ghost use Rattle.cppc_device.specs.Worked.{processor, registers, six_fields};
ghost use Rattle.cppc_calls.specs.Wishes.{wish_fault, with_wish};
ghost use Rattle.cppc_calls.specs.declared.wish.SetRefusal.TheVariants.{AboveHighest, BelowLowest, DesiredAboveMax, MinAboveDesired, NoRegister, TooWide};

/// Wishes and their refusals, at a desired performance of 100, a minimum of 10 and a maximum of 250. It does nothing.
#[tactic(auto, unfolding(crate::specs::Wishes::with_wish, pcc_gas::specs::Changes::with_changes, pcc_gas::specs::Fields::field_value))]
pub fn worked_wishes()
    ensures right { wish_fault six_fields (registers 100 10 250 0 0 0) (record { cpu = 0; min = Some 10; desired = 10; max = Some 10 }) ≡ None }
    ensures put { with_wish six_fields (record { cpu = 0; min = Some 20; desired = 150; max = None }) (registers 100 10 250 1 2 3)
        ≡ registers 150 20 250 1 2 3 }
    ensures min_above { wish_fault six_fields (registers 100 10 250 0 0 0) (record { cpu = 0; min = Some 20; desired = 15; max = Some 300 })
        ≡ Some (MinAboveDesired 20 15) }
    ensures below { wish_fault six_fields (registers 100 10 250 0 0 0) (record { cpu = 0; min = None; desired = 9; max = None })
        ≡ Some (BelowLowest 9 10) }
    ensures above { wish_fault six_fields (registers 100 10 250 0 0 0) (record { cpu = 0; min = None; desired = 301; max = None })
        ≡ Some (AboveHighest 301 300) }
    ensures wide { wish_fault six_fields (registers 100 10 250 0 0 0) (record { cpu = 0; min = None; desired = 4294967296; max = None })
        ≡ Some (TooWide 7) }
    ensures above_max { wish_fault six_fields (registers 100 10 250 0 0 0) (record { cpu = 0; min = None; desired = 100; max = Some 99 })
        ≡ Some (DesiredAboveMax 100 99) }
    ensures present_max { wish_fault six_fields (registers 100 10 250 0 0 0) (record { cpu = 0; min = None; desired = 260; max = None })
        ≡ Some (DesiredAboveMax 260 250) }
    ensures no_minimum { wish_fault (processor Missing Missing Missing Missing Missing) (registers 100 10 250 0 0 0)
        (record { cpu = 0; min = Some 10; desired = 100; max = None }) ≡ Some (NoRegister 8) }
{}
