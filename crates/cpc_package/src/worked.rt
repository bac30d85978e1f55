//! Worked packages, on which the definitions are evaluated.
ghost use Rattle.std.specs.Prelude.{◌≡◌, [], ◌∷◌, Some, None};
ghost use Rattle.std.specs.List.{AllByRecursion};
ghost use Rattle.aml_pkg.specs.declared.item.Form.TheVariants.{Byte};
ghost use Rattle.cpc_package.specs.Bindings.{bind_fault, binding_of, source_at};
ghost use Rattle.cpc_package.specs.Entries.{entries_of};
ghost use Rattle.cpc_package.specs.Packages.{CpcBytes, EntryWrong, IsOfRole, PackageWrong};
ghost use Rattle.cpc_package.specs.Raising.{raised};
ghost use Rattle.cpc_package.specs.Rows.{role_of};
ghost use Rattle.cpc_package.specs.Worked.{
  integer,
  no_register,
  of_22_entries,
  of_revision_2,
  raised_from_revision_2,
  register,
  six_fields,
  six_fields_of_revision_2,
  with_entry,
};
ghost use Rattle.cpc_package.specs.declared.binding.Source1.TheVariants.{Missing, Number};
ghost use Rattle.cpc_package.specs.declared.binding.BindFault.TheVariants.{
  BadScale,
  BadWidth,
  FieldOutside,
  FieldsOverlap,
  NoBound,
  NoDesired,
  NotPcc,
  TwoSubspaces,
};
ghost use Rattle.cpc_package.specs.declared.fault.CpcKind.TheVariants.{EntryCount, NotInteger, NotRegister, WrongCount, WrongRevision};

/// A package of revision 3 with six registers in subspace 0: the desired, the minimum and the maximum performance at bytes 0, 4 and 8,
/// the counters of reference and of delivered performance at 16 and 24, and whether performance was limited at 12.
pub const SIX_FIELDS_PACKAGE: [u8; 279] =
    *b"\x12\x46\x11\x17\x0a\x17\x0a\x03\x0b\x2c\x01\x0a\xc8\x0a\x50\x0a\x0a\
    \x11\x14\x0a\x11\x82\x0c\0\0\0\0\0\0\0\0\0\0\0\0\0\x79\0\
    \x11\x14\x0a\x11\x82\x0c\0\x0a\x20\0\0\0\0\0\0\0\0\0\0\x79\0\
    \x11\x14\x0a\x11\x82\x0c\0\x0a\x20\0\0\x04\0\0\0\0\0\0\0\x79\0\
    \x11\x14\x0a\x11\x82\x0c\0\x0a\x20\0\0\x08\0\0\0\0\0\0\0\x79\0\
    \x11\x14\x0a\x11\x82\x0c\0\0\0\0\0\0\0\0\0\0\0\0\0\x79\0\
    \x11\x14\x0a\x11\x82\x0c\0\0\0\0\0\0\0\0\0\0\0\0\0\x79\0\
    \0\
    \x11\x14\x0a\x11\x82\x0c\0\x0a\x40\0\0\x10\0\0\0\0\0\0\0\x79\0\
    \x11\x14\x0a\x11\x82\x0c\0\x0a\x40\0\0\x18\0\0\0\0\0\0\0\x79\0\
    \x11\x14\x0a\x11\x82\x0c\0\x0a\x20\0\0\x0c\0\0\0\0\0\0\0\x79\0\
    \x11\x14\x0a\x11\x82\x0c\0\0\0\0\0\0\0\0\0\0\0\0\0\x79\0\
    \0\
    \x11\x14\x0a\x11\x82\x0c\0\0\0\0\0\0\0\0\0\0\0\0\0\x79\0\
    \x11\x14\x0a\x11\x82\x0c\0\0\0\0\0\0\0\0\0\0\0\0\0\x79\0\
    \x0a\x64\x0b\x90\x01\x0b\xd0\x07";

/// The same package of revision 2, without the lowest and the nominal frequency.
pub const SIX_FIELDS_REVISION_2_PACKAGE: [u8; 273] =
    *b"\x12\x40\x11\x15\x0a\x15\x0a\x02\x0b\x2c\x01\x0a\xc8\x0a\x50\x0a\x0a\
    \x11\x14\x0a\x11\x82\x0c\0\0\0\0\0\0\0\0\0\0\0\0\0\x79\0\
    \x11\x14\x0a\x11\x82\x0c\0\x0a\x20\0\0\0\0\0\0\0\0\0\0\x79\0\
    \x11\x14\x0a\x11\x82\x0c\0\x0a\x20\0\0\x04\0\0\0\0\0\0\0\x79\0\
    \x11\x14\x0a\x11\x82\x0c\0\x0a\x20\0\0\x08\0\0\0\0\0\0\0\x79\0\
    \x11\x14\x0a\x11\x82\x0c\0\0\0\0\0\0\0\0\0\0\0\0\0\x79\0\
    \x11\x14\x0a\x11\x82\x0c\0\0\0\0\0\0\0\0\0\0\0\0\0\x79\0\
    \0\
    \x11\x14\x0a\x11\x82\x0c\0\x0a\x40\0\0\x10\0\0\0\0\0\0\0\x79\0\
    \x11\x14\x0a\x11\x82\x0c\0\x0a\x40\0\0\x18\0\0\0\0\0\0\0\x79\0\
    \x11\x14\x0a\x11\x82\x0c\0\x0a\x20\0\0\x0c\0\0\0\0\0\0\0\x79\0\
    \x11\x14\x0a\x11\x82\x0c\0\0\0\0\0\0\0\0\0\0\0\0\0\x79\0\
    \0\
    \x11\x14\x0a\x11\x82\x0c\0\0\0\0\0\0\0\0\0\0\0\0\0\x79\0\
    \x11\x14\x0a\x11\x82\x0c\0\0\0\0\0\0\0\0\0\0\0\0\0\x79\0\
    \x0a\x64";

/// What they say, and which elements their entries may be. It does nothing.
pub fn worked_packages()
    ensures package { CpcBytes SIX_FIELDS_PACKAGE six_fields }
    ensures revision_2 { CpcBytes SIX_FIELDS_REVISION_2_PACKAGE six_fields_of_revision_2 }

    // A package has 21 or 23 entries, and the revision that goes with their number.
    ensures other_entries { PackageWrong of_22_entries (record { entry = 0; at = 3; kind = EntryCount }) }
    ensures wrong_revision { PackageWrong (of_revision_2 3 1) (record { entry = 1; at = 6; kind = WrongRevision }) }

    // The first two entries are integers, the number of entries and the revision.
    ensures count_buffer { AllByRecursion (λ count. EntryWrong count (role_of 0) no_register NotInteger) (21 ∷ 23 ∷ []) }
    ensures revision_buffer { AllByRecursion (λ count. EntryWrong count (role_of 1) no_register NotInteger) (21 ∷ 23 ∷ []) }
    ensures count_other { EntryWrong 23 (role_of 0) (integer 22 Byte) WrongCount }
    ensures count_of_3 { EntryWrong 21 (role_of 0) (integer 23 Byte) WrongCount }
    ensures revision_other { EntryWrong 23 (role_of 1) (integer 2 Byte) WrongRevision }
    ensures revision_of_3 { EntryWrong 21 (role_of 1) (integer 3 Byte) WrongRevision }

    // These entries are registers and no integers, and these may be integers.
    ensures registers { AllByRecursion (λ n. EntryWrong 23 (role_of n) (integer 5 Byte) NotRegister)
        (6 ∷ 7 ∷ 8 ∷ 9 ∷ 10 ∷ 11 ∷ 13 ∷ 14 ∷ 15 ∷ 16 ∷ 18 ∷ 19 ∷ []) }
    ensures registers_of_2 { AllByRecursion (λ n. EntryWrong 21 (role_of n) (integer 5 Byte) NotRegister)
        (6 ∷ 7 ∷ 8 ∷ 9 ∷ 10 ∷ 11 ∷ 13 ∷ 14 ∷ 15 ∷ 16 ∷ 18 ∷ 19 ∷ []) }
    ensures integers { AllByRecursion (λ n. IsOfRole 23 (role_of n) (integer 5 Byte)) (2 ∷ 3 ∷ 4 ∷ 5 ∷ 12 ∷ 17 ∷ 20 ∷ 21 ∷ 22 ∷ []) }
    ensures integers_of_2 { AllByRecursion (λ n. IsOfRole 21 (role_of n) (integer 5 Byte)) (2 ∷ 3 ∷ 4 ∷ 5 ∷ 12 ∷ 17 ∷ 20 ∷ []) }

    // A raised package keeps the number of bytes that follow its length.
    ensures raised { raised six_fields_of_revision_2 ≡ raised_from_revision_2 1 }
    ensures raised_long { raised (of_revision_2 2 3) ≡ raised_from_revision_2 3 }
    ensures raised_same { raised six_fields ≡ six_fields }
{}

/// In which space it can be bound, and each reason why it can't, where one of its entries is another. It does nothing.
pub fn worked_bindings()
    ensures bound { bind_fault (entries_of six_fields) 32 ≡ None }
    ensures revision_2_bound { bind_fault (entries_of six_fields_of_revision_2) 32 ≡ None }
    ensures reference { source_at (binding_of (entries_of six_fields_of_revision_2)) 20 ≡ Number 100 }
    ensures lowest_frequency { source_at (binding_of (entries_of six_fields_of_revision_2)) 21 ≡ Missing }
    ensures not_pcc { bind_fault (entries_of (with_entry 7 (register 0x0b 32 0 0 0))) 32 ≡ Some (NotPcc 7) }
    ensures two_subspaces { bind_fault (entries_of (with_entry 9 (register 0x0a 32 0 1 8))) 32 ≡ Some (TwoSubspaces 9) }
    ensures no_width { bind_fault (entries_of (with_entry 8 (register 0x0a 0 0 0 4))) 32 ≡ Some (BadWidth 8) }
    ensures too_wide { bind_fault (entries_of (with_entry 14 (register 0x0a 65 0 0 20))) 32 ≡ Some (BadWidth 14) }
    ensures outside { bind_fault (entries_of six_fields) 31 ≡ Some (FieldOutside 14) }
    ensures offset_outside { bind_fault (entries_of (with_entry 14 (register 0x0a 64 1 0 24))) 32 ≡ Some (FieldOutside 14) }
    ensures overlap { bind_fault (entries_of (with_entry 9 (register 0x0a 32 0 0 7))) 32 ≡ Some (FieldsOverlap 8 9) }
    ensures no_desired { bind_fault (entries_of (with_entry 7 no_register)) 32 ≡ Some NoDesired }
    ensures no_lowest { bind_fault (entries_of (with_entry 5 no_register)) 32 ≡ Some (NoBound 5) }
    ensures no_highest { bind_fault (entries_of (with_entry 2 no_register)) 32 ≡ Some (NoBound 2) }
    ensures scale_low { bind_fault (entries_of (with_entry 5 (integer 201 Byte))) 32 ≡ Some (BadScale 201 200 300) }
    ensures scale_high { bind_fault (entries_of (with_entry 2 (integer 199 Byte))) 32 ≡ Some (BadScale 10 200 199) }
{}
