//! The log of a run and the headline, evaluated on worked journals and on wrong ones.
ghost use Rattle.std.specs.Prelude.{◌≡◌, [], ◌∷◌, Some, None, false, true};
ghost use Rattle.channel_turns.specs.Replies.{BadCode, Done, JournalFull, StillPending, TimedOut, TooLong, TooSoon};
ghost use Rattle.cppc_calls.specs.declared.wish.SetRefusal.TheVariants.{BelowLowest, TooWide};
ghost use Rattle.channel_headline.specs.Asked.{Refused, Replied};
ghost use Rattle.channel_headline.specs.ChannelLog.{Called, Waited, line_of, log_of, of_call, of_wish};
ghost use Rattle.channel_headline.specs.Worked.{Keeps, KeepsNoted, KeepsOpen, KeepsWith, bank, desires, first_line, first_record, kept, late_run, lost_command, lost_line, note_at, ok, open_line, soon_run, swap, swapped, wish_record, wish_run, wished};

/// What the lines of two runs say of their readings and notes. It does nothing.
pub fn worked_logs()
    ensures late_lines { late_run.lines ≡ (Called (swap 0 (1 ∷ []) 3) (TimedOut 3)) ∷ swapped 1 (2 ∷ []) (ok (1 ∷ 0 ∷ [])) ∷ [] }
    ensures late_records { late_run.now.records ≡ kept 0 (1 ∷ 0 ∷ []) (0 ∷ 0 ∷ []) 0 10 true
        ∷ kept 1 (2 ∷ 0 ∷ []) (1 ∷ 0 ∷ []) 20 30 false ∷ [] }
    ensures late_log { log_of (bank 0).clock late_run.lines ≡ record {
      added = 0;
      readings = 0 ∷ 10 ∷ 20 ∷ 30 ∷ [];
      notes = note_at 0 1 3 ∷ note_at 2 3 0 ∷ [];
      flight = None;
      calls = line_of (of_call (swap 0 (1 ∷ []) 3)) (Replied (TimedOut 3)) 0
          ∷ line_of (of_call (swap 1 (2 ∷ []) 0)) (Replied (ok (1 ∷ 0 ∷ []))) 0 ∷ [];
    } }
    ensures soon_log { log_of (bank 500).clock soon_run.lines ≡ record {
      added = 480;
      readings = 0 ∷ 10 ∷ 20 ∷ 510 ∷ 520 ∷ [];
      notes = note_at 0 1 0 ∷ note_at 3 4 0 ∷ [];
      flight = None;
      calls = line_of (of_call (swap 0 (1 ∷ []) 0)) (Replied (ok (0 ∷ 0 ∷ []))) 0
          ∷ line_of (of_call (swap 0 (2 ∷ []) 0)) (Replied (TooSoon 20 510)) 2
          ∷ line_of (of_call (swap 0 (3 ∷ []) 0)) (Replied (ok (1 ∷ 0 ∷ []))) 0 ∷ [];
    } }
{}

/// What the lines of a run with wishes say. It does nothing.
#[tactic(auto, unfolding(cppc_calls::specs::Wishes::with_wish, pcc_gas::specs::Changes::with_changes, pcc_gas::specs::Fields::field_value))]
pub fn worked_wishes()
    ensures lines { wish_run.lines ≡ wished 5 (Replied (Done true (5 ∷ 0 ∷ []))) ∷ wished 16 (Refused (TooWide 7)) ∷ [] }
    ensures records { wish_run.now.records ≡ wish_record (5 ∷ 0 ∷ []) ∷ [] }
    ensures log { log_of (bank 0).clock wish_run.lines ≡ record {
      added = 0;
      readings = 0 ∷ 10 ∷ [];
      notes = note_at 0 1 0 ∷ [];
      flight = None;
      calls = line_of (of_wish (desires 5)) (Replied (Done true (5 ∷ 0 ∷ []))) 0 ∷ line_of (of_wish (desires 16)) (Refused (TooWide 7)) 0 ∷ [];
    } }
{}

/// A journal that keeps the headline while its one call hasn't ended. It does nothing.
pub fn worked_open()
    ensures { KeepsOpen (open_line ∷ []) (Some lost_command) (Some (note_at 0 0 0)) }
{}

/// Journals and replies that don't keep the headline. It does nothing.
pub fn worked_lies()
    // an `ok` without a record
    ensures nothing_recorded { Keeps (first_line ∷ []) [] None → ⊥ }
    // a record of another caller
    ensures other_caller { Keeps (first_line ∷ []) (kept 7 (1 ∷ 2 ∷ []) (0 ∷ 0 ∷ []) 0 10 false ∷ []) None → ⊥ }
    // one answered call that is recorded twice
    ensures twice { Keeps (first_line ∷ []) (first_record ∷ kept 0 (1 ∷ 2 ∷ []) (1 ∷ 2 ∷ []) 20 30 false ∷ []) None → ⊥ }
    // a call that timed out, with no record and nothing pending
    ensures vanished { Keeps (lost_line ∷ []) [] None → ⊥ }
    // a record that is marked timely for a call that timed out
    ensures marked_timely { Keeps (lost_line ∷ []) (kept 0 (1 ∷ 0 ∷ []) (0 ∷ 0 ∷ []) 0 10 false ∷ []) None → ⊥ }
    // a record that is marked late for a call that was answered
    ensures marked_late { Keeps (first_line ∷ []) (kept 0 (1 ∷ 2 ∷ []) (0 ∷ 0 ∷ []) 0 10 true ∷ []) None → ⊥ }
    // the replies of one caller in another order
    ensures swapped_replies { Keeps (swapped 0 (1 ∷ 2 ∷ []) (ok (1 ∷ 2 ∷ [])) ∷ swapped 0 (3 ∷ 4 ∷ []) (ok (0 ∷ 0 ∷ [])) ∷ [])
        (first_record ∷ kept 0 (3 ∷ 4 ∷ []) (1 ∷ 2 ∷ []) 20 30 false ∷ []) None → ⊥ }
    // a `timed out` before all of the line's polls
    ensures impatient { Keeps (swapped 0 (1 ∷ []) (TimedOut 2) ∷ []) [] (Some lost_command) → ⊥ }
    // a `bad code` for a code that the header holds
    ensures refused_all { Keeps (swapped 0 (1 ∷ 2 ∷ []) (BadCode 16) ∷ []) [] None → ⊥ }
    // a `too long` for bytes that the space has room for
    ensures short_enough { Keeps (swapped 0 (1 ∷ 2 ∷ []) (TooLong 2 2) ∷ []) [] None → ⊥ }
    // a record whose bytes were not asked
    ensures other_bytes { Keeps (swapped 0 (9 ∷ 2 ∷ []) (ok (0 ∷ 0 ∷ [])) ∷ []) (first_record ∷ []) None → ⊥ }
    // a command that was given up after one look
    ensures one_look { KeepsNoted [] (lost_line ∷ []) [] [] (Some lost_command) (Some (note_at 0 0 1)) → ⊥ }

    // a `journal full` without 4,096 posts
    ensures not_full { Keeps (swapped 0 (1 ∷ 2 ∷ []) JournalFull ∷ []) [] None → ⊥ }
    // a `still pending` without an earlier lost command
    ensures not_blocked { Keeps (first_line ∷ swapped 1 (3 ∷ []) (StillPending 3) ∷ []) (first_record ∷ []) None → ⊥ }
    // a `still pending` before all of the line's polls
    ensures impatient_again { Keeps (lost_line ∷ swapped 1 (3 ∷ []) (StillPending 1) ∷ []) [] (Some lost_command) → ⊥ }
    // a `too soon` with a wrong earliest reading
    ensures wrong_earliest { KeepsWith 500 (first_line ∷ swapped 0 (3 ∷ []) (TooSoon 20 600) ∷ []) (first_record ∷ []) None → ⊥ }
    // a `too soon` of a reading that is the earliest
    ensures not_too_soon { KeepsWith 500 (first_line ∷ Waited 490 ∷ swapped 0 (3 ∷ []) (TooSoon 510 510) ∷ []) (first_record ∷ []) None → ⊥ }
    // a `too soon` with another reading than the clock's
    ensures invented_now { KeepsWith 500 (first_line ∷ swapped 0 (3 ∷ []) (TooSoon 25 510) ∷ []) (first_record ∷ []) None → ⊥ }

    // numbers of readings that fall
    ensures falling_numbers { KeepsNoted ((1 ∷ 2 ∷ []) ∷ []) (first_line ∷ [])
        (kept 0 (1 ∷ 2 ∷ []) (0 ∷ 0 ∷ []) 10 0 false ∷ []) (note_at 1 0 0 ∷ []) None None → ⊥ }
    // a number that no reading has
    ensures unread_number { KeepsNoted ((1 ∷ 2 ∷ []) ∷ []) (first_line ∷ []) (first_record ∷ []) (note_at 0 2 0 ∷ []) None None → ⊥ }
    // a call that was posted and hasn't ended, with no record and nothing pending
    ensures open_vanished { KeepsOpen (open_line ∷ []) None None → ⊥ }
    // looks of a command that nobody has given up
    ensures open_looks { KeepsOpen (open_line ∷ []) (Some lost_command) (Some (note_at 0 0 3)) → ⊥ }
    // two calls that haven't ended
    ensures two_open { KeepsOpen (open_line ∷ open_line ∷ []) (Some lost_command) (Some (note_at 0 0 0)) → ⊥ }

    // a post that is not the clock's reading
    ensures invented_post { Keeps (first_line ∷ []) (kept 0 (1 ∷ 2 ∷ []) (0 ∷ 0 ∷ []) 5 10 false ∷ []) None → ⊥ }

    // a set whose record has other bytes than the space with the wish put
    ensures other_wish { Keeps (wished 5 (Replied (Done true (6 ∷ 0 ∷ []))) ∷ []) (wish_record (6 ∷ 0 ∷ []) ∷ []) None → ⊥ }
    // a refusal of a wish that could be put
    ensures refused_wish { Keeps (wished 5 (Refused (BelowLowest 5 10)) ∷ []) [] None → ⊥ }
    // a wish that was put and doesn't fit into its field
    ensures wide_wish { Keeps (wished 16 (Replied (Done true (0 ∷ 0 ∷ []))) ∷ []) (wish_record (0 ∷ 0 ∷ []) ∷ []) None → ⊥ }
    // a refusal of a wish while a command was in flight
    ensures refused_blocked { KeepsOpen (line_of (of_call (swap 0 (1 ∷ []) 0)) (Replied (TimedOut 3)) 0
        ∷ line_of (of_wish (desires 16)) (Refused (TooWide 7)) 0 ∷ []) (Some lost_command) (Some (note_at 0 0 3)) → ⊥ }
{}
