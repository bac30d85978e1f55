//! The laws of a run on several subspaces.
ghost use Rattle.std.specs.Prelude.{◌≡◌, ◌∷◌, [], ℕ, List, Some, map, slice_get};
ghost use Rattle.script_run.specs.Channels.{AreDistinct};
ghost use Rattle.script_run.specs.Headlines.{AreHeadlines};
ghost use Rattle.channel_turns.specs.ChannelRuns.{Channel, ChannelStart, fresh};
ghost use Rattle.script_run.specs.StepRun.{LineAsk, step_run};

/// A run on several subspaces, no two of which have one ID. It does nothing.
pub fn run_laws()
    // Each channel is left as a run of the same lines on that channel alone leaves it.
    ensures apart { (lines : List LineAsk) (cs : List Channel) (i : ℕ) (c : Channel) → AreDistinct (map (λ x. x.start.head.id) cs) → slice_get cs i ≡ Some c
        → (d : Channel) × (slice_get (step_run lines cs).channels i ≡ Some d) × ((step_run lines (c ∷ [])).channels ≡ d ∷ []) }
    // Each journal keeps the headline, where nothing was asked before.
    ensures headline { (starts : List ChannelStart) (lines : List LineAsk) → AreDistinct (map (λ s. s.head.id) starts)
        → AreHeadlines lines (step_run lines (map (λ s. record { start = s; now = fresh s }) starts)) }
{}
