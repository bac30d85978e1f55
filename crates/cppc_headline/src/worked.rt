//! What the inputs of commands may be, evaluated on worked journals and on wrong ones.
ghost use Rattle.std.specs.Prelude.{[], ◌∷◌, Some, None};
ghost use Rattle.cppc_device.specs.Worked.{six_fields};
ghost use Rattle.cppc_headline.specs.Journals.{InRangeAll, Untouched};
ghost use Rattle.cppc_headline.specs.Worked.{command, excessive, first, sampled, two, waiting, wished};

/// Journals that keep their ranges and change no other field, and journals that don't. It does nothing.
pub fn worked_journals()
    // a read, and a wish that is pending
    ensures ranges { InRangeAll (six_fields ∷ []) (command 0 first sampled ∷ []) (Some (waiting 1 wished)) }
    ensures fields { Untouched (six_fields ∷ []) first (command 0 first sampled ∷ []) (Some (waiting 1 wished)) }
    // a desired performance above the maximum, executed and pending
    ensures out_of_range { InRangeAll (six_fields ∷ []) (command 1 excessive excessive ∷ []) None → ⊥ }
    ensures pending_out { InRangeAll (six_fields ∷ []) [] (Some (waiting 1 excessive)) → ⊥ }
    // a read of other bytes than the last output, executed and pending
    ensures other_read { Untouched (six_fields ∷ []) first (command 0 wished sampled ∷ []) None → ⊥ }
    ensures pending_read { Untouched (six_fields ∷ []) first (command 0 first sampled ∷ []) (Some (waiting 0 first)) → ⊥ }
    // a wish that changes the desired performance of two processors
    ensures two_wishes { Untouched two (0x21 ∷ 0x43 ∷ []) (command 1 (0x25 ∷ 0x47 ∷ []) (0x25 ∷ 0x47 ∷ []) ∷ []) None → ⊥ }
    // a wish that changes a counter
    ensures counter { Untouched two (0x21 ∷ 0x43 ∷ []) (command 1 (0x35 ∷ 0x43 ∷ []) (0x35 ∷ 0x43 ∷ []) ∷ []) None → ⊥ }
{}
