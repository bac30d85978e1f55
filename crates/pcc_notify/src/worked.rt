//! What traces post, and what becomes of it, evaluated on worked traces of type 4 and on wrong lists.
ghost use Rattle.std.specs.Prelude.{◌≡◌, ◌++◌, ◌∷◌, [], Some, None};
ghost use Rattle.channel_plain.specs.WorkedPicks.{one_byte};
ghost use Rattle.pcc_notify.specs.Notices.{posts_of};
ghost use Rattle.pcc_notify.specs.Worked.{all_registers, bad_trace, cut_trace, first_trace, handled_trace, joined_with_registers};
ghost use Rattle.pcc_notify.specs.Worked.{Became, first_exchange, first_notice, second_exchange, second_notice, second_pending};
ghost use Rattle.pcc_notify.specs.Worked.{separate_without_registers, two_posts};

/// Worked traces, and the commands that they post. It does nothing.
pub fn worked_notices()
    ensures separate { separate_without_registers }
    ensures joined { joined_with_registers }
    // a command that is posted, handled and drained
    ensures one_post { posts_of two_posts first_trace ≡ first_notice ∷ [] }
    // the line of the second one isn't raised yet
    ensures cut_post { posts_of two_posts (first_trace ++ cut_trace) ≡ first_notice ∷ [] }
    ensures both_posts { posts_of two_posts (first_trace ++ cut_trace ++ handled_trace) ≡ first_notice ∷ second_notice ∷ [] }
    ensures bad_post { posts_of all_registers bad_trace ≡ record { code = 18; input = one_byte } ∷ [] }
    // the second one isn't handled yet, or it is in flight, or both are recorded
    ensures not_handled { Became (first_exchange ∷ []) (first_exchange ∷ []) (Some second_pending) }
    ensures in_flight { Became (first_exchange ∷ second_exchange ∷ []) (first_exchange ∷ []) (Some second_pending) }
    ensures both_recorded { Became (first_exchange ∷ second_exchange ∷ []) (first_exchange ∷ second_exchange ∷ []) None }
{}

/// What can't become of two posted commands. It does nothing.
pub fn worked_lies()
    // the first command is handled twice
    ensures handled_twice { Became (first_exchange ∷ first_exchange ∷ []) (first_exchange ∷ []) (Some second_pending) → ⊥ }
    // both are handled, and then one of them again
    ensures handled_again { Became (first_exchange ∷ second_exchange ∷ second_exchange ∷ []) (first_exchange ∷ second_exchange ∷ []) None → ⊥ }
    ensures out_of_order { Became (second_exchange ∷ first_exchange ∷ []) (second_exchange ∷ []) (Some second_pending) → ⊥ }
    ensures first_left_out { Became (second_exchange ∷ []) [] (Some second_pending) → ⊥ }
    ensures none_handled { Became [] [] None → ⊥ }
    // the reply of the second command in place of its input
    ensures reply_as_input { Became (first_exchange ∷ record second_exchange { input = second_exchange.output } ∷ [])
        (first_exchange ∷ []) (Some second_pending) → ⊥ }
    // both are handled, and neither is recorded
    ensures none_recorded { Became (first_exchange ∷ second_exchange ∷ []) [] (Some second_pending) → ⊥ }
    // the second one is neither recorded nor in flight
    ensures vanished { Became (first_exchange ∷ second_exchange ∷ []) (first_exchange ∷ []) None → ⊥ }
{}
