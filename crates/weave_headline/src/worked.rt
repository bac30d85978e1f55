//! The log of a trace and the headline, evaluated on worked traces and on wrong journals.
ghost use Rattle.std.specs.Prelude.{◌≡◌, [], ◌∷◌, Some, None, false, true};
ghost use Rattle.channel_turns.specs.Replies.{Done, StillPending, TimedOut};
ghost use Rattle.channel_headline.specs.Asked.{Replied};
ghost use Rattle.channel_plain.specs.WorkedPicks.{kept, no_bytes, note_at, swap_call};
ghost use Rattle.weave_headline.specs.TraceLog.{line_of, lines_in};
ghost use Rattle.weave_headline.specs.WordHeadline.{trace_log};
ghost use Rattle.weave_headline.specs.Worked.{Keeps, cut_trace, late_trace, one_call, one_trace, plain, posted_command, posted_trace, three_calls};

/// What worked traces say of their lines and notes. It does nothing.
pub fn worked_logs()
    ensures one_exchange { trace_log plain one_call one_trace ≡ record {
      taken = 2;
      notes = note_at 0 1 0 ∷ [];
      flight = None;
      unended = false;
      calls = line_of (swap_call 0 (1 ∷ 2 ∷ []) 3) (Some (Replied (Done false no_bytes))) 0 ∷ [];
      run = [];
    } }
    // the steps of a post that is cut are no post
    ensures cut_post { trace_log plain one_call cut_trace ≡ record {
      taken = 0;
      notes = [];
      flight = None;
      unended = false;
      calls = [];
      run = cut_trace;
    } }
    // a call that was posted and hasn't ended
    ensures posted { trace_log plain one_call posted_trace ≡ record {
      taken = 1;
      notes = [];
      flight = Some (note_at 0 0 0);
      unended = true;
      calls = [];
      run = [];
    } }
    ensures posted_lines { lines_in plain one_call (trace_log plain one_call posted_trace) ≡ line_of (swap_call 0 (1 ∷ 2 ∷ []) 3) None 0 ∷ [] }
    ensures drained_late { trace_log plain three_calls late_trace ≡ record {
      taken = 3;
      notes = note_at 0 1 1 ∷ [];
      flight = Some (note_at 2 0 0);
      unended = true;
      calls = line_of (swap_call 0 (1 ∷ 2 ∷ []) 1) (Some (Replied (TimedOut 1))) 0
          ∷ line_of (swap_call 1 [] 2) (Some (Replied (StillPending 2))) 0 ∷ [];
      run = [];
    } }
{}

/// Journals that don't keep the headline with a trace. It does nothing.
pub fn worked_lies()
    // a `done ok` without a record
    ensures nothing_recorded { Keeps one_call one_trace (0 ∷ 10 ∷ []) [] None → ⊥ }
    // a record that is marked late for a call that was answered
    ensures marked_late { Keeps one_call one_trace (0 ∷ 10 ∷ []) (kept 0 10 true ∷ []) None → ⊥ }
    // a completion that is not the clock's reading
    ensures invented_done { Keeps one_call one_trace (0 ∷ 20 ∷ []) (kept 0 10 false ∷ []) None → ⊥ }
    // readings that are nobody's
    ensures read_again { Keeps one_call one_trace (0 ∷ 10 ∷ 20 ∷ 30 ∷ []) (kept 0 10 false ∷ []) None → ⊥ }
    // a call that was posted and hasn't ended, with no record and nothing pending
    ensures vanished { Keeps one_call posted_trace (0 ∷ []) [] None → ⊥ }
    // a post that was cut, with a command in flight
    ensures not_posted { Keeps one_call cut_trace (0 ∷ []) [] (Some posted_command) → ⊥ }
{}
