//! The definitions of a pick and of a run of words, evaluated on worked traces.
ghost use Rattle.channel_plain.specs.LostEnds.{AnswerIsNotCut, AsksSayEnds, WholeIsNotCut, lost_clear, lost_done, lost_idle, lost_posted, lost_served};
ghost use Rattle.channel_plain.specs.WorkedPicks.{drained_late, one_exchange, type_five, type_four_joined, type_four_separate, type_three_joined, type_three_separate, with_acknowledge, with_notification};

/// Worked traces, with the records, the notes and the command in flight that they leave. It does nothing.
pub fn worked_picks()
    ensures one_exchange { one_exchange }
    ensures with_notification { with_notification }
    ensures with_acknowledge { with_acknowledge }
    ensures drained_late { drained_late }
    ensures type_three_joined { type_three_joined }
    ensures type_three_separate { type_three_separate }
    ensures type_four_joined { type_four_joined }
    ensures type_four_separate { type_four_separate }
    ensures type_five { type_five }
{}

/// A line that ends a run says so: a trace that lost such an end is the trace of no picks. It does nothing.
pub fn lost_ends()
    ensures asks { AsksSayEnds }
    ensures whole { WholeIsNotCut }
    ensures answer { AnswerIsNotCut }
    ensures lost_posted { lost_posted }
    ensures lost_clear { lost_clear }
    ensures lost_done { lost_done }
    ensures lost_idle { lost_idle }
    ensures lost_served { lost_served }
{}
