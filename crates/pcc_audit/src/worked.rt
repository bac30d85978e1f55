//! Worked journals, on which the verdict is evaluated.
ghost use Rattle.std.specs.Prelude.{◌∷◌, [], true, None, Some};
ghost use Rattle.pcc_audit.specs.declared.verdict.Flaw.TheVariants as flaw;
ghost use Rattle.pcc_audit.specs.declared.verdict.Verdict.TheVariants.{Yes, No};
ghost use Rattle.pcc_audit.specs.Verdicts.{IsVerdict, RecordFlaw};
ghost use Rattle.pcc_audit.specs.Worked.{Second, bank, controller, controller_head, first_read, given_out, posted, reads, taken_in, told, writes};

/// The first flaw of a controller's second command. It does nothing.
pub fn worked_flaws()
    ensures right { Second (writes 20 (6 ∷ 5 ∷ [])) None }
    ensures input_size { Second (writes 20 (6 ∷ [])) (Some flaw.Size) }
    ensures output_size { Second (record (writes 20 (6 ∷ 5 ∷ [])) { output = 6 ∷ 5 ∷ 5 ∷ [] }) (Some flaw.Size) }
    // the first one was done at 10, and the turnaround is 10
    ensures too_soon { Second (writes 19 (6 ∷ 5 ∷ [])) (Some flaw.Limits) }
    // a command that reads changes nothing, one that writes changes the desired performance of one processor
    ensures read_changed { Second (reads 20 (6 ∷ 5 ∷ [])) (Some flaw.Touched) }
    ensures two_processors { Second (writes 20 (6 ∷ 6 ∷ [])) (Some flaw.Touched) }
    ensures no_field { Second (writes 20 (5 ∷ 21 ∷ [])) (Some flaw.Touched) }
    ensures below_lowest { Second (writes 20 (0 ∷ 5 ∷ [])) (Some flaw.Range) }
    ensures above_highest { Second (writes 20 (5 ∷ 10 ∷ [])) (Some flaw.Range) }
    ensures no_error { Second (record (writes 20 (6 ∷ 5 ∷ [])) { error = true }) (Some flaw.Legal) }
    ensures other_output { Second (record (writes 20 (6 ∷ 5 ∷ [])) { output = 5 ∷ 5 ∷ [] }) (Some flaw.Legal) }
    // of two flaws the first
    ensures size_first { Second (writes 19 (6 ∷ [])) (Some flaw.Size) }
    ensures limits_first { Second (writes 19 (6 ∷ 6 ∷ [])) (Some flaw.Limits) }
    ensures touched_first { Second (writes 20 (0 ∷ 0 ∷ [])) (Some flaw.Touched) }
    ensures range_first { Second (record (writes 20 (0 ∷ 5 ∷ [])) { error = true }) (Some flaw.Range) }
{}

/// What is judged of a whole journal. It does nothing.
pub fn worked_verdicts()
    ensures right { IsVerdict controller (told (first_read ∷ []) (Some (posted 1 20 (6 ∷ 5 ∷ [])))) Yes }
    // the head is judged first
    ensures wrong_head { IsVerdict controller (record (told (writes 0 [] ∷ []) None) { head = record controller_head { id = 1 } }) (No 0 flaw.Head) }
    ensures pending_size { IsVerdict controller (told (first_read ∷ []) (Some (posted 1 20 []))) (No 1 flaw.Size) }
    ensures pending_soon { IsVerdict controller (told (first_read ∷ []) (Some (posted 1 19 (6 ∷ 5 ∷ [])))) (No 1 flaw.Limits) }
    ensures pending_touched { IsVerdict controller (told (first_read ∷ []) (Some (posted 0 20 (6 ∷ 5 ∷ [])))) (No 1 flaw.Touched) }
    ensures pending_range { IsVerdict controller (told (first_read ∷ []) (Some (posted 1 20 (0 ∷ 5 ∷ [])))) (No 1 flaw.Range) }
    // the second reply is what the first command left
    ensures from_first { RecordFlaw bank (taken_in ∷ []) (given_out 5) None }
    ensures from_start { RecordFlaw bank (taken_in ∷ []) (given_out 7) (Some flaw.Legal) }
{}
