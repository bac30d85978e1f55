//! The definition of a run, evaluated on worked cases.
ghost use Rattle.script_run.specs.WorkedRuns.{
  late_record,
  refused_after_late,
  replies_in_one_thread,
  rest_of_a_hold,
  set_and_read,
  still_pending,
  too_soon,
  two_subspaces,
};

/// Worked runs of `step`, by replies and records.
pub fn worked_runs()
    ensures replies_in_one_thread { replies_in_one_thread }
    ensures late_record { late_record }
    ensures still_pending { still_pending }
    ensures rest_of_a_hold { rest_of_a_hold }
    ensures too_soon { too_soon }
    ensures two_subspaces { two_subspaces }
{}

/// Worked runs of reads and wishes of a processor.
#[tactic(auto, unfolding(cppc_calls::specs::Wishes::with_wish, pcc_gas::specs::Changes::with_changes, pcc_gas::specs::Fields::field_value))]
pub fn worked_wishes()
    ensures set_and_read { set_and_read }
    ensures refused_after_late { refused_after_late }
{}
