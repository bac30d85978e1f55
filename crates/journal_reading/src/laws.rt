//! What follows of a text from the definitions.
ghost use Rattle.std.specs.Prelude.{◌≡◌, ◌⊎◌, ℕ, List};
ghost use Rattle.journal_reading.specs.declared.told.AuditKind.{AuditKind};
ghost use Rattle.journal_reading.specs.declared.told.Told.{Told};
ghost use Rattle.journal_reading.specs.Faults.{HasFault, HasJournal, JournalWrong, Tells};

/// The front of a text is a journal's or the text has a fault, never both; it has one first fault at most, and one journal at most. With the
/// clauses of `told_from`, a text gives the journal whose text its front is, or its fault. It does nothing.
pub fn text_laws()
    ensures some { (first : ℕ) (text : List ℕ) → HasJournal text ⊎ HasFault first text }
    ensures not_both { (first : ℕ) (text : List ℕ) → HasJournal text → HasFault first text → ⊥ }
    ensures one_fault { (first : ℕ) (text : List ℕ) (line other : ℕ) (kind another : AuditKind) → JournalWrong first text line kind
        → JournalWrong first text other another → (line ≡ other) × (kind ≡ another) }
    ensures one_journal { (text : List ℕ) (t u : Told) (long other : ℕ) → Tells text t long → Tells text u other → (t ≡ u) × (long ≡ other) }
{}
