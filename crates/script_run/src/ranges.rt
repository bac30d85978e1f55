//! What the journals of controllers of performance keep in a run.
ghost use Rattle.std.specs.Prelude.{◌≡◌, ℕ, List, Some, map, slice_get};
ghost use Rattle.std.specs.List.{AllByRecursion};
ghost use Rattle.pcc_bytes.specs.Bytes.{IsBytes};
ghost use Rattle.pcc_script.specs.declared.scenario.Scenario.{Scenario};
ghost use Rattle.pcc_setup.specs.declared.opening.Opened.{Opened};
ghost use Rattle.pcc_setup.specs.Equipment.{CanBegin};
ghost use Rattle.pcc_setup.specs.SetUps.{Opens};
ghost use Rattle.cppc_device.specs.Devices.{Cppc};
ghost use Rattle.cppc_headline.specs.PerformanceHeadline.{IsPerformance, KeepsRanges};
ghost use Rattle.channel_turns.specs.ChannelRuns.{Channel, ChannelStart};
ghost use Rattle.script_run.specs.Channels.{AreDistinct, fresh_channel, id_of};
ghost use Rattle.script_run.specs.Requests.{AreRanged, IsRequestOn};
ghost use Rattle.script_run.specs.ScriptRuns.{run_of, set_up_of};
ghost use Rattle.script_run.specs.StepRun.{LineAsk, step_run};

/// A run on several subspaces, no two of which have one ID. It does nothing.
pub fn range_laws()
    // A controller of which reads and wishes of its processors are asked alone keeps their ranges.
    ensures one { (lines : List LineAsk) (cs : List Channel) (i : ℕ) (start : ChannelStart) (device : Cppc) → AreDistinct (map id_of cs)
        → slice_get cs i ≡ Some (fresh_channel start) → IsPerformance start device → AllByRecursion (IsRequestOn device.cpus start.head.id) lines
        → (c : Channel) × (slice_get (step_run lines cs).channels i ≡ Some c) × (c.start ≡ start) × KeepsRanges device.cpus c.start.opening c.now }
    // So does each controller that a script opens.
    ensures script { (s : Scenario) (opened : List Opened) → (h : Opens s opened) → AreDistinct (map (λ p. p.id) s.opens)
        → AreDistinct (map id_of (set_up_of s opened)) → AllByRecursion CanBegin opened → AllByRecursion (λ o. IsBytes o.image) opened
        → AreRanged opened (run_of s opened h.checked.cpus).channels }
{}
