//! Worked cases, on which the definitions are evaluated.
ghost use Rattle.std.specs.Prelude.{◌≡◌, [], ◌∷◌, true, false, Some, None};
ghost use Rattle.cpc_package.specs.Entries.{entries_of};
ghost use Rattle.cpc_package.specs.Worked.{register, six_fields as package_of_six, with_entry};
ghost use Rattle.cpc_package.specs.declared.binding.BindFault.TheVariants.{FieldOutside, NotPcc};
ghost use Rattle.cppc_device.specs.Worked.{six_fields};
ghost use Rattle.pcc_setup.specs.Equipment.{StartsInside, is_cap_right};
ghost use Rattle.pcc_setup.specs.Processors.{entries_fault, named_subspace};
ghost use Rattle.pcc_setup.specs.Worked.{cap, subspace};
ghost use Rattle.pcc_setup.specs.declared.refusal.CpuFault.TheVariants.{NotOpened, Unfit};

/// Which package is bound to which subspace. It does nothing.
pub fn worked_packages()
    ensures named { named_subspace (entries_of package_of_six) ≡ Some 0 }
    ensures bound { entries_fault (subspace false 1 8 [] ∷ subspace true 0 32 [] ∷ []) (entries_of package_of_six) ≡ None }
    ensures bank { entries_fault (subspace false 0 32 [] ∷ []) (entries_of package_of_six) ≡ Some NotOpened }
    ensures other { entries_fault (subspace true 1 32 [] ∷ []) (entries_of package_of_six) ≡ Some NotOpened }
    ensures outside { entries_fault (subspace true 0 31 [] ∷ []) (entries_of package_of_six) ≡ Some (Unfit (FieldOutside 14)) }

    // The first register may lie in another space: the first one in the space of channels names the subspace.
    ensures later { named_subspace (entries_of (with_entry 7 (register 0x00 32 0 1 0))) ≡ Some 0 }
    ensures not_pcc { entries_fault (subspace true 0 32 [] ∷ []) (entries_of (with_entry 7 (register 0x00 32 0 0 0))) ≡ Some (Unfit (NotPcc 7)) }
{}

/// Which caps are right, and which processors are in their ranges at first. It does nothing.
#[tactic(auto, unfolding(pcc_gas::specs::Fields::field_value))]
pub fn worked_equipment()
    ensures first { is_cap_right (subspace true 0 32 [] ∷ []) [] (cap 0 5) ≡ true }
    ensures above { is_cap_right (subspace true 0 32 [] ∷ []) (cap 0 5 ∷ []) (cap 0 6) ≡ true }
    ensures equal { is_cap_right (subspace true 0 32 [] ∷ []) (cap 0 5 ∷ []) (cap 0 5) ≡ false }
    ensures bank { is_cap_right (subspace false 0 32 [] ∷ []) [] (cap 0 5) ≡ false }
    ensures elsewhere { is_cap_right (subspace true 0 32 [] ∷ subspace true 1 32 [] ∷ []) (cap 1 9 ∷ []) (cap 0 5) ≡ true }
    ensures earlier { is_cap_right (subspace true 0 32 [] ∷ subspace true 1 32 [] ∷ []) (cap 0 5 ∷ cap 1 3 ∷ []) (cap 0 4) ≡ false }

    // The image fills the registers from the front, and zeros follow it.
    ensures inside { StartsInside (subspace true 0 32 (100 ∷ 0 ∷ 0 ∷ 0 ∷ 10 ∷ 0 ∷ 0 ∷ 0 ∷ 250 ∷ []) ∷ []) six_fields }
    ensures zeros { StartsInside (subspace true 0 32 [] ∷ []) six_fields → ⊥ }
{}
