//! The definitions on worked cases.
ghost use Rattle.std.specs.Prelude.{◌≡◌, ◌∷◌, [], None, Some};
ghost use Rattle.journal_reading.specs.declared.told.AuditKind.TheVariants as kind;
ghost use Rattle.journal_reading.specs.Told.{IsTold, most_8, most_32, most_64, most_records};
ghost use Rattle.journal_reading.specs.Faults.{JournalWrong, pending_lines};
ghost use Rattle.journal_reading.specs.Worked.{pending_command, too_wide, worked_told};

/// The greatest numbers of the fields, and of records. It does nothing.
pub fn limits_are()
    ensures of_8_bits { most_8 ≡ 255 }
    ensures of_32_bits { most_32 ≡ 4294967295 }
    ensures of_64_bits { most_64 ≡ 18446744073709551615 }
    ensures records { most_records ≡ 4096 }
{}

/// What a text may tell, and where it is wrong. It does nothing.
pub fn worked_journals()
    ensures told { IsTold worked_told }
    // an index that is no number of 8 bits
    ensures too_wide { IsTold too_wide → ⊥ }
    // no line is wrong where the first is to be
    ensures empty { JournalWrong 7 [] 7 kind.Text }
    ensures no_command { pending_lines None ≡ 0 }
    ensures one_command { pending_lines (Some pending_command) ≡ 1 }
{}
