//! The headline of a channel of a controller of performance that is called in one thread.
ghost use Rattle.std.specs.Prelude.{◌≡◌, Contains, List, None, length, ℕ};
ghost use Rattle.std.specs.List.{AllByRecursion};
ghost use Rattle.pcc_bytes.specs.Bytes.{IsBytes};
ghost use Rattle.cpc_package.specs.Bindings.{AreProcessors};
ghost use Rattle.cpc_package.specs.declared.binding.Binding.{Binding};
ghost use Rattle.cppc_device.specs.Devices.{Cppc, IsDevice, after_changes, sampled, written};
ghost use Rattle.cppc_device.specs.Openings.{device_fault, new_device, opening};
ghost use Rattle.cppc_device.specs.States.{cppc_exec, cppc_state};
ghost use Rattle.cppc_device.specs.declared.cap.Cap.{Cap};
ghost use Rattle.cppc_calls.specs.Wishes.{wish_fault, with_wish};
ghost use Rattle.cppc_calls.specs.declared.wish.Wish.{Wish};
ghost use Rattle.channel_turns.specs.ChannelRuns.{ChannelStart, fresh};
ghost use Rattle.channel_headline.specs.Runs.{ChannelStep, run_from};
ghost use Rattle.cppc_headline.specs.Journals.{AreInRange, DifferInWish};
ghost use Rattle.cppc_headline.specs.PerformanceHeadline.{IsPerformance, IsRequest, PerformanceHeadline};

/// Whatever is read, set and waited: journal and replies keep the headline, every range is kept, and no other field is changed. It does nothing.
pub fn headline_of_performance()
    ensures { (start : ChannelStart) (device : Cppc) (steps : List ChannelStep) → IsPerformance start device
        → AllByRecursion (IsRequest device.cpus) steps
        → let r = run_from start (fresh start) steps in PerformanceHeadline start device.cpus r.lines r.now }
{}

/// A new controller, with every processor in its range at the opening, is one of which that holds. It does nothing.
pub fn new_performance()
    ensures { (start : ChannelStart) (room : ℕ) (image : List ℕ) (cpus : List Binding) (caps : List Cap)
        → start.device ≡ cppc_exec → start.state ≡ cppc_state (new_device room image cpus caps) → start.opening ≡ opening room image
        → AreProcessors room cpus → device_fault room image caps ≡ None → IsBytes image → AreInRange cpus (opening room image)
        → IsPerformance start (new_device room image cpus caps) }
{}

/// What commands and wishes leave of the ranges. It does nothing.
pub fn request_laws()
    // A command that reads leaves every processor in its range.
    ensures read { (device : Cppc) → IsDevice device → AreInRange device.cpus device.registers
        → AreInRange device.cpus (after_changes device (sampled device)).registers }

    // So does a wish of one of them that can be put, and it changes its own fields alone.
    ensures put { (cpus : List Binding) (binding : Binding) (wish : Wish) (space : List ℕ) → AreProcessors (length space) cpus
        → Contains cpus binding → wish_fault binding space wish ≡ None → AreInRange cpus space → AreInRange cpus (with_wish binding wish space) }
    ensures differs { (cpus : List Binding) (binding : Binding) (wish : Wish) (space : List ℕ) → Contains cpus binding
        → DifferInWish cpus space (with_wish binding wish space) }

    // Registers into which the space with a wish is written are that space.
    ensures written { (device : Cppc) (binding : Binding) (wish : Wish) → Contains device.cpus binding
        → let space = with_wish binding wish device.registers in (after_changes device (written device space)).registers ≡ space }
{}
