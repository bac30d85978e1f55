//! The tables of the runs, evaluated on worked runs of each type.
ghost use Rattle.pcc_steps.specs.WorkedRuns.{post_headed, post_headed_again};
ghost use Rattle.pcc_steps.specs.WorkedRuns.{post_joined3, post_separate3, post_joined4, post_separate4, post_reduced5};
ghost use Rattle.pcc_steps.specs.WorkedRuns.{look_clear, look_headed, look_headed_quietly, look_joined3, look_separate3, look_joined4, look_separate4, look_reduced5};
ghost use Rattle.pcc_steps.specs.WorkedRuns.{answer_none, answer_headed, answer_joined3, answer_separate3, answer_joined4, answer_separate4, answer_reduced5};

/// Runs that post a command, of each type. It does nothing.
pub fn worked_posts()
    ensures post_headed { post_headed }
    ensures post_headed_again { post_headed_again }
    ensures post_joined3 { post_joined3 }
    ensures post_separate3 { post_separate3 }
    ensures post_joined4 { post_joined4 }
    ensures post_separate4 { post_separate4 }
    ensures post_reduced5 { post_reduced5 }
{}

/// Looks that see completion clear and that drain a reply, of each type. It does nothing.
pub fn worked_looks()
    ensures look_clear { look_clear }
    ensures look_headed { look_headed }
    ensures look_headed_quietly { look_headed_quietly }
    ensures look_joined3 { look_joined3 }
    ensures look_separate3 { look_separate3 }
    ensures look_joined4 { look_joined4 }
    ensures look_separate4 { look_separate4 }
    ensures look_reduced5 { look_reduced5 }
{}

/// Runs that answer a command, of each type. It does nothing.
pub fn worked_answers()
    ensures answer_none { answer_none }
    ensures answer_headed { answer_headed }
    ensures answer_joined3 { answer_joined3 }
    ensures answer_separate3 { answer_separate3 }
    ensures answer_joined4 { answer_joined4 }
    ensures answer_separate4 { answer_separate4 }
    ensures answer_reduced5 { answer_reduced5 }
{}
