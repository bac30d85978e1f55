//! The definitions on worked cases.
ghost use Rattle.std.specs.Prelude.{◌∷◌, [], true, false, codes};
ghost use Rattle.audit_run.specs.Audits.{IsJudged};
ghost use Rattle.audit_run.specs.Cuts.{IsCut};
ghost use Rattle.audit_run.specs.Worked.{bank, told};

/// Where the journals of an input begin. It does nothing.
pub fn worked_cuts()
    // another word that begins like `journal` begins no journal, and the last line needs no line feed
    ensures after_script { IsCut (codes "table 00\njournals 1\njournal") (codes "table 00\njournals 1\n") (codes "journal") }
    // the word begins a journal as the first field of a line alone, whatever follows it
    ensures first_field { IsCut (codes "open journal\n journal\njournal  x\nopen 0\n") (codes "open journal\n journal\n") (codes "journal  x\nopen 0\n") }
    ensures no_script { IsCut (codes "journal 0\njournal 1\n") [] (codes "journal 0\njournal 1\n") }
    ensures no_journals { IsCut (codes "table 00\nopen 0") (codes "table 00\nopen 0") [] }
    ensures nothing { IsCut [] [] [] }
{}

/// What is written of the journals of Banks. It does nothing.
pub fn worked_journals()
    ensures one_right { IsJudged (bank 3 ∷ []) (told 3 5 ∷ []) false (codes "yes 3 2\n") }
    ensures two_right { IsJudged (bank 3 ∷ bank 4 ∷ []) (told 3 5 ∷ told 4 5 ∷ []) false (codes "yes 3 2\nyes 4 2\n") }
    // the second one gives out what was never taken in
    ensures second_wrong { IsJudged (bank 3 ∷ bank 4 ∷ []) (told 3 5 ∷ told 4 0 ∷ []) true (codes "no 4 1 legal\n") }
    // in the wrong order, the first one has the head of another subspace
    ensures exchanged { IsJudged (bank 3 ∷ bank 4 ∷ []) (told 4 5 ∷ told 3 0 ∷ []) true (codes "no 3 0 head\n") }
{}
