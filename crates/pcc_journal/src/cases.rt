//! The definitions on worked cases.
ghost use Rattle.std.specs.Prelude.{◌≡◌, [], ◌∷◌, true, false, None, Some};
ghost use Rattle.pcc_journal.specs.declared.reserved.TheConstants.{MAX_ITEMS};
ghost use Rattle.pcc_journal.specs.Records.{exchanges_of, exchanges_of_commands, times_of};
ghost use Rattle.pcc_journal.specs.Events.{Own, blank_note, calls_of, events_of, noted, noted_pending, post_count, records_of};
ghost use Rattle.pcc_journal.specs.WorkedEvents.{all_events, answered_first, both_noted, both_notes, both_records, drained_second, late_record};
ghost use Rattle.pcc_journal.specs.WorkedEvents.{lost_second, lost_third, timely_record};

/// The events of two records and a command in flight. It does nothing.
pub fn worked_cases()
    ensures exchanges { exchanges_of both_records
        ≡ record { code = 16; input = 1 ∷ []; error = true; output = 2 ∷ [] }
        ∷ record { code = 17; input = 5 ∷ []; error = false; output = 6 ∷ [] } ∷ [] }
    ensures executed { exchanges_of_commands (record { code = 17; input = 5 ∷ []; error = false; output = 6 ∷ [] } ∷ [])
        ≡ record { code = 17; input = 5 ∷ []; error = false; output = 6 ∷ [] } ∷ [] }
    ensures times { times_of both_records ≡ record { post = 10; done = 20 } ∷ record { post = 30; done = 40 } ∷ [] }

    ensures pairs { both_noted
        ≡ record { entry = timely_record; note = record { post_at = 0; done_at = 1; looks = 0 } }
        ∷ record { entry = late_record; note = record { post_at = 2; done_at = 3; looks = 7 } } ∷ [] }
    // a record for which there is no note is not left out
    ensures pairs_of_no_notes { records_of (noted both_records []) ≡ both_records }
    ensures none_in_flight { noted_pending None (Some blank_note) ≡ None }

    ensures events { all_events ≡ answered_first ∷ lost_second ∷ drained_second ∷ lost_third ∷ [] }
    ensures nothing_in_flight { events_of 100 both_noted None ≡ answered_first ∷ lost_second ∷ drained_second ∷ [] }

    ensures calls_of_one { calls_of all_events 3 ≡ answered_first ∷ lost_third ∷ [] }
    ensures calls_of_another { Own all_events 4 (lost_second ∷ []) }
    ensures calls_of_none { Own all_events 5 [] }
    ensures posts { post_count all_events ≡ 3 }
    ensures posts_without_notes { post_count (events_of 100 (noted both_records []) None) ≡ 2 }
{}

/// A list has 4,096 items at most. It does nothing.
pub fn limits_are()
    ensures items { MAX_ITEMS ≡ 4096 }
{}
