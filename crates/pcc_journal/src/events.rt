//! How records are paired with notes, and how the events of a journal grow with it.
ghost use Rattle.std.specs.Prelude.{◌≡◌, ◌+◌, ℕ, List, [], ◌∷◌, ◌++◌, Option, None, Some, length, true};
ghost use Rattle.pcc_journal.specs.declared.record.Record.{Record};
ghost use Rattle.pcc_journal.specs.declared.note.Note.{Note};
ghost use Rattle.pcc_journal.specs.Events.{Drained, Noted, NotedPending, completed_of, events_of, events_of_pending, events_of_record, noted};
ghost use Rattle.pcc_journal.specs.Events.{notes_of, post_count, posted_of, posted_of_pending, records_of};

/// Records and notes as two lists of one length, and as one list. It does nothing.
pub fn notes_pair()
    ensures records { (records : List Record) (notes : List Note) → records_of (noted records notes) ≡ records }
    ensures notes { (records : List Record) (notes : List Note) → length notes ≡ length records → notes_of (noted records notes) ≡ notes }
    ensures again { (entries : List Noted) → noted (records_of entries) (notes_of entries) ≡ entries }
    ensures last { (records : List Record) (notes : List Note) (r : Record) (n : Note) → length notes ≡ length records
        → noted (records ++ r ∷ []) (notes ++ n ∷ []) ≡ noted records notes ++ record { entry = r; note = n } ∷ [] }
{}

/// Each record and a pending command is one post. The events only grow: by those of a record that is put last, and by the completion of a
/// pending command. It does nothing.
pub fn events_grow()
    ensures posts { (before : ℕ) (entries : List Noted) (pending : Option NotedPending)
        → post_count (events_of before entries pending) ≡ length entries + length (events_of_pending before pending) }
    ensures last { (before : ℕ) (entries : List Noted) (n : Noted)
        → events_of before (entries ++ n ∷ []) None ≡ events_of before entries None ++ events_of_record before n }
    ensures posted { (before : ℕ) (entries : List Noted) (pending : Option NotedPending)
        → events_of before entries pending ≡ events_of before entries None ++ events_of_pending before pending }
    ensures drained { (before : ℕ) (entries : List Noted) (p : NotedPending) (n : Noted) → n.entry.late ≡ true
        → posted_of before n.entry n.note ≡ posted_of_pending before p → n.note.looks ≡ p.note.looks
        → events_of before (entries ++ n ∷ []) None ≡ events_of before entries (Some p) ++ Drained (completed_of before n.entry n.note) ∷ [] }
{}
